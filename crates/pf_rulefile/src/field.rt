ghost use Rattle.std.specs.Prelude.{◌≡◌, ◌≤◌, length, IfOk, MatchOption, None, Some, false};
ghost use Rattle.pf_rulefile.specs.Meaning.Tokens.{tokens};
ghost use Rattle.pf_rulefile.specs.Meaning.Words.{is_word};
ghost use Rattle.pf_rulefile.specs.Steps.Fronts.{after, sign_by};
ghost use Rattle.pf_rulefile.specs.Meaning.Lines.{slash_sign, side_word, kind_of, format_of};
ghost use Rattle.pf_rulefile.specs.Meaning.Says.{axiom_in, axioms, rule_place};
ghost use Rattle.pf_rulefile.specs.Steps.NumberReads.{Gives};
ghost use Rattle.pf_rulefile.specs.Steps.FieldReads.{GivesOnly, name_of, no_more, lone_name, optional, widths_of, widths_read, range_read, shift_read, var_head, var_read, child_read, children_read, path_read, axiom_by, used_by, by_read, header_of, step_side};

use crate::number::number;
use crate::side::behind;
use crate::stop::Stop;
use crate::token::{after, int_of, next_token};
use crate::word::{is_rule_name, is_variable, is_word, ptype_of};
use pf_forms::Axiom;
use pf_ints::{Name, NumberList, Path, Sequence, Target};
use pf_rules::{By, Kind, Number, PatType, Rule, VarDecl, is_free};
use std::alloc::{AllocError, Global};

/// The name of a rule or a variable.
fn name_of(word: &[u8]) -> Option<Name>
    ensures { result ≡ name_of word.now }
{
    if is_rule_name(word) {
        Name::new(word)
    } else {
        None
    }
}

/// Whether no token is left.
pub fn no_more(text: &[u8]) -> bool
    ensures { result ≡ no_more (tokens text.now) }
{
    next_token(text).is_none()
}

/// The name that is the only token.
pub fn lone_name(text: &[u8]) -> Option<Name>
    ensures { result ≡ lone_name (tokens text.now) }
{
    let (word, rest) = next_token(text)?;
    if no_more(rest) { name_of(word) } else { None }
}

/// Whether the token stands first, and what follows it.
fn optional<'a>(word: &[u8], text: &'a [u8]) -> (bool, &'a [u8])
    ensures { optional word.now (tokens text.now) ≡ (result.0, tokens result.1.now) }
{
    match after(word, text) {
        Some(rest) => (true, rest),
        None => (false, text),
    }
}

fn widths_of(
    alloc: Global,
    eight: bool,
    sixteen: bool,
    thirty_two: bool,
) -> Result<NumberList, AllocError>
    ensures { IfOk result (λ ws. ws ≡ widths_of eight sixteen thirty_two) }
{
    let mut widths = Sequence::new(alloc);
    if eight {
        widths.push(8)?;
    }
    if sixteen {
        widths.push(16)?;
    }
    if thirty_two {
        widths.push(32)?;
    }
    Ok(widths)
}

/// Ascending widths, all that is left.
pub fn widths(alloc: Global, text: &[u8]) -> Result<NumberList, Stop>
    ensures { GivesOnly result (widths_read (tokens text.now)) }
{
    let (eight, rest) = optional(b"8", text);
    let (sixteen, rest) = optional(b"16", rest);
    let (thirty_two, rest) = optional(b"32", rest);
    if no_more(rest) && (eight || sixteen || thirty_two) {
        Ok(widths_of(alloc, eight, sixteen, thirty_two)?)
    } else {
        Err(Stop::Syntax)
    }
}

/// A range, and what follows it.
fn range(alloc: Global, most: usize, text: &[u8]) -> Result<((Number, Number), &[u8]), Stop>
    ensures { Gives result (range_read most (tokens text.now)) }
{
    let rest = behind(b"from", text)?;
    let (lo, rest) = number(alloc, most, 1, rest)?;
    let rest = behind(b"to", rest)?;
    let (hi, rest) = number(alloc, most, 1, rest)?;
    Ok(((lo, hi), rest))
}

/// The range of the shift, all that is left.
pub fn shift(alloc: Global, most: usize, text: &[u8]) -> Result<(Number, Number), Stop>
    ensures { GivesOnly result (shift_read most (tokens text.now)) }
{
    let rest = behind(b"k", text)?;
    let ((lo, hi), rest) = range(alloc, most, rest)?;
    if no_more(rest) && is_free(&lo) && is_free(&hi) {
        Ok((lo, hi))
    } else {
        Err(Stop::Syntax)
    }
}

/// A variable's name and type, and what follows them.
fn var_head(text: &[u8]) -> Option<((Name, PatType), &[u8])>
    ensures { MatchOption result (var_head (tokens text.now) ≡ None) (λ p. var_head (tokens text.now) ≡ Some (p.0, tokens p.1.now)) }
{
    let (word, rest) = next_token(text)?;
    if !is_variable(word) {
        return None;
    }
    let name = name_of(word)?;
    let (word, rest) = next_token(rest)?;
    let ty = ptype_of(word)?;
    Some(((name, ty), rest))
}

/// A variable's declaration, all that is left.
pub fn var(alloc: Global, most: usize, text: &[u8]) -> Result<VarDecl, Stop>
    ensures { GivesOnly result (var_read most (tokens text.now)) }
{
    let ((name, ty), rest) = match var_head(text) {
        Some(found) => found,
        None => return Err(Stop::Syntax),
    };
    if no_more(rest) {
        let range = None;
        return Ok(VarDecl { name, ty, range });
    }
    let (found, rest) = range(alloc, most, rest)?;
    if no_more(rest) {
        let range = Some(found);
        Ok(VarDecl { name, ty, range })
    } else {
        Err(Stop::Syntax)
    }
}

/// The number of a child, and what follows it.
fn child(text: &[u8]) -> Option<(u8, &[u8])>
    ensures { MatchOption result (child_read (tokens text.now) ≡ None) (λ p. child_read (tokens text.now) ≡ Some (p.0, tokens p.1.now)) }
{
    let (word, rest) = next_token(text)?;
    let n = int_of(word)?;
    if n <= 255 {
        Some((n as u8, rest))
    } else {
        None
    }
}

/// What follows `/`.
fn slash(text: &[u8]) -> Option<&[u8]>
    ensures { MatchOption result (sign_by slash_sign (tokens text.now) ≡ None) (λ rest. sign_by slash_sign (tokens text.now) ≡ Some (false, tokens rest.now)) }
{
    after(b"/", text)
}

fn children(alloc: Global, most: usize, text: &[u8]) -> Result<(Path, &[u8]), Stop>
    ensures { Gives result (children_read most (tokens text.now)) }
{
    let mut rest = text;
    let mut path = Sequence::new(alloc);
    let mut left = most;
    'children: while 0 < left {
        let (n, behind) = match child(rest) {
            Some(found) => found,
            None => return Err(Stop::Syntax),
        };
        path.push(n)?;
        match slash(behind) {
            Some(onward) => rest = onward,
            None => return Ok((path, behind)),
        }
        left -= 1;
    }
    Err(Stop::Syntax)
}

/// A path, and what follows it.
pub fn path(alloc: Global, most: usize, text: &[u8]) -> Result<(Path, &[u8]), Stop>
    ensures { Gives result (path_read most (tokens text.now)) }
{
    let rest = behind(b"/", text)?;
    match next_token(rest) {
        Some((word, _)) if int_of(word).is_some() => children(alloc, most, rest),
        _ => Ok((Sequence::new(alloc), rest)),
    }
}

const AXIOMS: [Axiom; 49] = [
    Axiom::AddComm,
    Axiom::AddAssoc,
    Axiom::AddBack,
    Axiom::AddZero,
    Axiom::SubAdd,
    Axiom::Cancel,
    Axiom::MulComm,
    Axiom::MulAssoc,
    Axiom::MulBack,
    Axiom::MulOne,
    Axiom::Distribute,
    Axiom::Fold,
    Axiom::DropWrap,
    Axiom::WrapWrap,
    Axiom::WrapAdd,
    Axiom::WrapMul,
    Axiom::MulZero,
    Axiom::Factor,
    Axiom::PowNum,
    Axiom::NumPow,
    Axiom::PowAdd,
    Axiom::DivOne,
    Axiom::DivDiv,
    Axiom::DivScale,
    Axiom::DivOut,
    Axiom::DivIn,
    Axiom::DivInner,
    Axiom::NegDiv,
    Axiom::DivZero,
    Axiom::DivNeg,
    Axiom::DropSat,
    Axiom::SatClamp,
    Axiom::SatSat,
    Axiom::SatHigh,
    Axiom::SatLow,
    Axiom::MinComm,
    Axiom::MaxComm,
    Axiom::MinLeft,
    Axiom::MaxLeft,
    Axiom::MinAdd,
    Axiom::MaxAdd,
    Axiom::MinDiv,
    Axiom::MaxDiv,
    Axiom::SelMax,
    Axiom::SelMin,
    Axiom::SelSame,
    Axiom::MaxMinAbs,
    Axiom::AbsPos,
    Axiom::AbsNeg,
];

fn axiom_in(axioms: &[Axiom], word: &[u8]) -> Option<Axiom>
    ensures { result ≡ axiom_in axioms.now word.now }
{
    for axiom in axioms {
        if axiom.name().as_bytes() == word {
            return Some(*axiom);
        }
    }
    None
}

fn axiom_of(word: &[u8]) -> Option<Axiom>
    ensures { result ≡ axiom_in axioms word.now }
{
    axiom_in(&AXIOMS, word)
}

/// The axiom of this word, if there is one, or None where it can't be one's word.
fn axiom_by(word: &[u8]) -> Option<Option<By>>
    ensures { result ≡ axiom_by word.now }
{
    if !is_word(word) {
        return None;
    }
    match axiom_of(word) {
        Some(axiom) => Some(Some(By::Axiom(axiom))),
        None => Some(None),
    }
}

/// The number of the rule of this name.
pub fn rule_place(rules: &[Rule], name: &[u8]) -> Option<u16>
    requires { length rules.now ≤ 1024 }
    ensures { result ≡ rule_place 0 rules.now name.now }
{
    for (n, rule) in rules.iter().enumerate() {
        if rule.parts().name.as_slice() == name {
            return Some(n as u16);
        }
    }
    None
}

fn used_by(rules: &[Rule], text: &[u8]) -> Option<Option<By>>
    requires { length rules.now ≤ 1024 }
    ensures { result ≡ used_by rules.now (lone_name (tokens text.now)) }
{
    let name = lone_name(text)?;
    match rule_place(rules, name.as_slice()) {
        Some(n) => Some(Some(By::Rule(n))),
        None => Some(None),
    }
}

/// What justifies a step, all that is left, or None where nothing can. It is None inside where
/// there is no axiom or rule of this name.
pub fn by(format: u8, rules: &[Rule], text: &[u8]) -> Option<Option<By>>
    requires { length rules.now ≤ 1024 }
    ensures { result ≡ by_read format rules.now (tokens text.now) }
{
    let (word, rest) = next_token(text)?;
    if no_more(rest) {
        return axiom_by(word);
    }
    if format == 2 && word == b"use".as_slice() {
        return used_by(rules, rest);
    }
    None
}

/// Whether a step is on the left side.
fn side_word(word: &[u8]) -> Option<bool>
    ensures { result ≡ side_word word.now }
{
    if word == b"l".as_slice() {
        Some(true)
    } else if word == b"r".as_slice() {
        Some(false)
    } else {
        None
    }
}

/// Whether a step is on the left side, and what follows the word that tells it.
pub fn step_side(text: &[u8]) -> Option<(bool, &[u8])>
    ensures { MatchOption result (step_side (tokens text.now) ≡ None) (λ p. step_side (tokens text.now) ≡ Some (p.0, tokens p.1.now)) }
{
    let (word, rest) = next_token(text)?;
    let left = side_word(word)?;
    Some((left, rest))
}

fn kind_of(word: &[u8]) -> Option<Kind>
    ensures { result ≡ kind_of word.now }
{
    if word == b"lift".as_slice() {
        Some(Kind::Lift)
    } else if word == b"neon".as_slice() {
        Some(Kind::Lower(Target::Neon))
    } else if word == b"avx2".as_slice() {
        Some(Kind::Lower(Target::Avx2))
    } else if word == b"hvx".as_slice() {
        Some(Kind::Lower(Target::Hvx))
    } else {
        None
    }
}

fn format_of(word: &[u8]) -> Option<u8>
    ensures { result ≡ format_of word.now }
{
    if word == b"1".as_slice() {
        Some(1)
    } else if word == b"2".as_slice() {
        Some(2)
    } else {
        None
    }
}

/// The format and the kind that a header tells, all of it.
pub fn header_of(text: &[u8]) -> Option<(u8, Kind)>
    ensures { result ≡ header_of (tokens text.now) }
{
    let rest = after(b"rules", text)?;
    let (word, rest) = next_token(rest)?;
    let format = format_of(word)?;
    let (word, rest) = next_token(rest)?;
    let kind = kind_of(word)?;
    if no_more(rest) {
        Some((format, kind))
    } else {
        None
    }
}
