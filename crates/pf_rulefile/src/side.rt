ghost use Rattle.std.specs.Prelude.{◌≡◌, ◌≤◌, ◌-◌, [], length, IfOk, MatchOption, None, Some};
ghost use Rattle.pf_rulefile.specs.declared.word.Language.TheVariants.{Operators, Lanes};
ghost use Rattle.pf_rulefile.specs.Meaning.Tokens.{tokens};
ghost use Rattle.pf_rulefile.specs.Meaning.Words.{shape_of, lane_shape, comparison, closing_type};
ghost use Rattle.pf_rulefile.specs.Meaning.Grammar.{times_of, sum_op_of, shift_of, no_amount};
ghost use Rattle.pf_rulefile.specs.Steps.NumberReads.{Gives};
ghost use Rattle.pf_rulefile.specs.Steps.Fronts.{after, sign_by};
ghost use Rattle.pf_rulefile.specs.Steps.Parts.{parts, node_part, joined_part};
ghost use Rattle.pf_rulefile.specs.Steps.SideReads.{GivesRest, chain, pair_link, shift_link, closed, typed_read, operands_more, amount_read, stated_read, begun_read, loose_stated, ended_read, in_order, choice_read, cast_read, name_read, arguments_read, loose_more, loose_read, call_read, lane_read, operators_by, lane_call, lanes_by, atom_read, product_read, summed_read, whole_read, side_read};

use crate::number::{exponent, number};
use crate::part::{Part, joined_part, lane_part, name_part, node_part, typed_part};
use crate::stop::Stop;
use crate::token::{after, next_token};
use crate::word::{
    Language, Shape, call_of, closing_type, comparison, is_variable, is_word, lane_of, lane_shape,
    ptype_of, shape_of,
};
use pf_laneops::LaneName;
use pf_rules::{Amount, PatType, VarDecl};
use pf_values::Op;
use std::alloc::{AllocError, Global};

fn times_of(word: &[u8]) -> Option<Op>
    ensures { result ≡ times_of word.now }
{
    if word == b"*".as_slice() {
        Some(Op::Mul)
    } else {
        None
    }
}

fn sum_op_of(word: &[u8]) -> Option<Op>
    ensures { result ≡ sum_op_of word.now }
{
    if word == b"+".as_slice() {
        Some(Op::Add)
    } else if word == b"-".as_slice() {
        Some(Op::Sub)
    } else {
        None
    }
}

fn shift_of(word: &[u8]) -> Option<Op>
    ensures { result ≡ shift_of word.now }
{
    if word == b"<<".as_slice() {
        Some(Op::ShiftLeft)
    } else if word == b">>".as_slice() {
        Some(Op::ShiftRight)
    } else {
        None
    }
}

fn times(text: &[u8]) -> Option<(Op, &[u8])>
    ensures { MatchOption result (sign_by times_of (tokens text.now) ≡ None) (λ p. sign_by times_of (tokens text.now) ≡ Some (p.0, tokens p.1.now)) }
{
    let (word, rest) = next_token(text)?;
    let op = times_of(word)?;
    Some((op, rest))
}

fn sum_sign(text: &[u8]) -> Option<(Op, &[u8])>
    ensures { MatchOption result (sign_by sum_op_of (tokens text.now) ≡ None) (λ p. sign_by sum_op_of (tokens text.now) ≡ Some (p.0, tokens p.1.now)) }
{
    let (word, rest) = next_token(text)?;
    let op = sum_op_of(word)?;
    Some((op, rest))
}

fn shift_sign(text: &[u8]) -> Option<(Op, &[u8])>
    ensures { MatchOption result (sign_by shift_of (tokens text.now) ≡ None) (λ p. sign_by shift_of (tokens text.now) ≡ Some (p.0, tokens p.1.now)) }
{
    let (word, rest) = next_token(text)?;
    let op = shift_of(word)?;
    Some((op, rest))
}

fn compared(text: &[u8]) -> Option<((Op, bool), &[u8])>
    ensures { MatchOption result (sign_by comparison (tokens text.now) ≡ None) (λ p. sign_by comparison (tokens text.now) ≡ Some (p.0, tokens p.1.now)) }
{
    let (word, rest) = next_token(text)?;
    let found = comparison(word)?;
    Some((found, rest))
}

/// What follows the token.
pub fn behind<'a>(word: &[u8], text: &'a [u8]) -> Result<&'a [u8], Stop>
    ensures { GivesRest result (after word.now (tokens text.now)) }
{
    match after(word, text) {
        Some(rest) => Ok(rest),
        None => Err(Stop::Syntax),
    }
}

/// An operator over two operands.
fn pair(alloc: Global, op: Op, left: Part, right: Part) -> Result<Part, AllocError>
    ensures { IfOk result (λ p. p ≡ node_part op None no_amount (joined_part left right)) }
{
    let args = joined_part(left, right)?;
    node_part(alloc, op, None, Amount::Int(0), args)
}

fn shift_link<'a>(
    alloc: Global,
    _vars: &[VarDecl],
    most: usize,
    depth: u32,
    part: Part,
    op: Op,
    text: &'a [u8],
) -> Result<(Part, &'a [u8]), Stop>
    ensures { Gives result (shift_link (parts _vars.now) most depth part op (tokens text.now)) }
{
    let (k, rest) = exponent(alloc, most, depth, text)?;
    Ok((node_part(alloc, op, None, k, part)?, rest))
}

/// The shifts behind a sum.
fn shifts<'a>(
    alloc: Global,
    vars: &[VarDecl],
    most: usize,
    depth: u32,
    part: Part,
    text: &'a [u8],
) -> Result<(Part, &'a [u8]), Stop>
    ensures { Gives result (chain (sign_by shift_of) (shift_link (parts vars.now) most depth) most part (tokens text.now)) }
{
    let mut part = part;
    let mut rest = text;
    let mut left = most;
    'links: while 0 < left {
        match shift_sign(rest) {
            None => return Ok((part, rest)),
            Some((op, onward)) => {
                let (linked, next) = shift_link(alloc, vars, most, depth, part, op, onward)?;
                part = linked;
                rest = next;
            }
        }
        left -= 1;
    }
    Err(Stop::Syntax)
}

/// A typed number behind its `{`.
fn typed<'a>(
    alloc: Global,
    _vars: &[VarDecl],
    most: usize,
    depth: u32,
    text: &'a [u8],
) -> Result<(Part, &'a [u8]), Stop>
    ensures { Gives result (typed_read (parts _vars.now) most depth (tokens text.now)) }
{
    let (n, rest) = number(alloc, most, depth, text)?;
    match closing(rest) {
        Some((ty, onward)) => Ok((typed_part(alloc, n, ty)?, onward)),
        None => Err(Stop::Syntax),
    }
}

fn closing(text: &[u8]) -> Option<(PatType, &[u8])>
    ensures { MatchOption result (sign_by closing_type (tokens text.now) ≡ None) (λ p. sign_by closing_type (tokens text.now) ≡ Some (p.0, tokens p.1.now)) }
{
    let (word, rest) = next_token(text)?;
    let ty = closing_type(word)?;
    Some((ty, rest))
}

fn stated(states: bool, text: &[u8]) -> Option<(Option<PatType>, &[u8])>
    ensures { MatchOption result (stated_read states (tokens text.now) ≡ None) (λ p. stated_read states (tokens text.now) ≡ Some (p.0, tokens p.1.now)) }
{
    if !states {
        return Some((None, text));
    }
    let (word, rest) = next_token(text)?;
    let ty = ptype_of(word)?;
    let onward = after(b",", rest)?;
    Some((Some(ty), onward))
}

/// What stands in a call in front of its operands.
fn begun(states: bool, text: &[u8]) -> Option<(Option<PatType>, &[u8])>
    ensures { MatchOption result (begun_read states (tokens text.now) ≡ None) (λ p. begun_read states (tokens text.now) ≡ Some (p.0, tokens p.1.now)) }
{
    let rest = after(b"(", text)?;
    stated(states, rest)
}

fn amount(
    alloc: Global,
    most: usize,
    depth: u32,
    has: bool,
    text: &[u8],
) -> Result<(Amount, &[u8]), Stop>
    ensures { Gives result (amount_read most depth has (tokens text.now)) }
{
    if !has {
        return Ok((Amount::Int(0), text));
    }
    let rest = behind(b",", text)?;
    exponent(alloc, most, depth, rest)
}

/// What stands in a call behind its operands.
fn ended(
    alloc: Global,
    most: usize,
    depth: u32,
    has: bool,
    text: &[u8],
) -> Result<(Amount, &[u8]), Stop>
    ensures { Gives result (ended_read most depth has (tokens text.now)) }
{
    let (k, rest) = amount(alloc, most, depth, has, text)?;
    let onward = behind(b")", rest)?;
    Ok((k, onward))
}

fn name<'a>(
    alloc: Global,
    vars: &[VarDecl],
    word: &[u8],
    rest: &'a [u8],
) -> Result<(Part, &'a [u8]), Stop>
    requires { length vars.now ≤ 8 }
    ensures { Gives result (name_read (parts vars.now) word.now (tokens rest.now)) }
{
    if is_variable(word) {
        Ok((name_part(alloc, vars, word)?, rest))
    } else {
        Err(Stop::Syntax)
    }
}

fn compared_pair(swap: bool, a: Part, b: Part) -> Result<Part, AllocError>
    ensures { IfOk result (λ p. p ≡ in_order (parts []) swap a b) }
{
    if swap {
        joined_part(b, a)
    } else {
        joined_part(a, b)
    }
}

/// A type, where one stands first.
fn loose_stated(text: &[u8]) -> Option<(Option<PatType>, &[u8])>
    ensures { MatchOption result (loose_stated (tokens text.now) ≡ None) (λ p. loose_stated (tokens text.now) ≡ Some (p.0, tokens p.1.now)) }
{
    let (word, rest) = next_token(text)?;
    match ptype_of(word) {
        None => Some((None, text)),
        Some(ty) => {
            let onward = after(b",", rest)?;
            Some((Some(ty), onward))
        }
    }
}

/// A side with round brackets nested less deep than this, and what follows it.
#[cycle(side)]
pub fn side<'a>(
    alloc: Global,
    vars: &[VarDecl],
    most: usize,
    language: Language,
    depth: u32,
    text: &'a [u8],
) -> Result<(Part, &'a [u8]), Stop>
    requires { length vars.now ≤ 8 }
    ensures { Gives result (side_read (parts vars.now) most language depth (tokens text.now)) }
{
    if depth == 0 {
        return Err(Stop::Syntax);
    }
    match language {
        Language::Operators => whole(alloc, vars, most, depth - 1, text),
        Language::Lanes => atom(alloc, vars, most, language, depth - 1, text),
    }
}

#[cycle(side)]
fn whole<'a>(
    alloc: Global,
    vars: &[VarDecl],
    most: usize,
    depth: u32,
    text: &'a [u8],
) -> Result<(Part, &'a [u8]), Stop>
    requires { length vars.now ≤ 8 }
    ensures { Gives result (whole_read (parts vars.now) most (side_read (parts vars.now) most Operators depth) depth (tokens text.now)) }
{
    let (part, rest) = summed(alloc, vars, most, depth, text)?;
    shifts(alloc, vars, most, depth, part, rest)
}

#[cycle(side)]
fn summed<'a>(
    alloc: Global,
    vars: &[VarDecl],
    most: usize,
    depth: u32,
    text: &'a [u8],
) -> Result<(Part, &'a [u8]), Stop>
    requires { length vars.now ≤ 8 }
    ensures { Gives result (summed_read (parts vars.now) most (side_read (parts vars.now) most Operators depth) depth (tokens text.now)) }
{
    let (mut part, mut rest) = product(alloc, vars, most, depth, text)?;
    let mut left = most;
    'links: while 0 < left {
        match sum_sign(rest) {
            None => return Ok((part, rest)),
            Some((op, onward)) => {
                let (next, behind) = product(alloc, vars, most, depth, onward)?;
                part = pair(alloc, op, part, next)?;
                rest = behind;
            }
        }
        left -= 1;
    }
    Err(Stop::Syntax)
}

#[cycle(side)]
fn product<'a>(
    alloc: Global,
    vars: &[VarDecl],
    most: usize,
    depth: u32,
    text: &'a [u8],
) -> Result<(Part, &'a [u8]), Stop>
    requires { length vars.now ≤ 8 }
    ensures { Gives result (product_read (parts vars.now) most (side_read (parts vars.now) most Operators depth) depth (tokens text.now)) }
{
    let (mut part, mut rest) = atom(alloc, vars, most, Language::Operators, depth, text)?;
    let mut left = most;
    'links: while 0 < left {
        match times(rest) {
            None => return Ok((part, rest)),
            Some((op, onward)) => {
                let (next, behind) = atom(alloc, vars, most, Language::Operators, depth, onward)?;
                part = pair(alloc, op, part, next)?;
                rest = behind;
            }
        }
        left -= 1;
    }
    Err(Stop::Syntax)
}

#[cycle(side)]
fn atom<'a>(
    alloc: Global,
    vars: &[VarDecl],
    most: usize,
    language: Language,
    depth: u32,
    text: &'a [u8],
) -> Result<(Part, &'a [u8]), Stop>
    requires { length vars.now ≤ 8 }
    ensures { Gives result (atom_read (parts vars.now) most language (side_read (parts vars.now) most language depth) depth (tokens text.now)) }
{
    let (word, rest) = match next_token(text) {
        Some(found) => found,
        None => return Err(Stop::Syntax),
    };
    if word == b"(".as_slice() {
        return closed(alloc, vars, most, language, depth, rest);
    }
    if word == b"{".as_slice() {
        return typed(alloc, vars, most, depth, rest);
    }
    match language {
        Language::Operators => operators(alloc, vars, most, depth, word, rest),
        Language::Lanes => lanes(alloc, vars, most, depth, word, rest),
    }
}

#[cycle(side)]
fn operators<'a>(
    alloc: Global,
    vars: &[VarDecl],
    most: usize,
    depth: u32,
    word: &[u8],
    text: &'a [u8],
) -> Result<(Part, &'a [u8]), Stop>
    requires { length vars.now ≤ 8 }
    ensures { Gives result (operators_by (parts vars.now) most (side_read (parts vars.now) most Operators depth) depth word.now (tokens text.now)) }
{
    if word == b"select".as_slice() {
        return choice(alloc, vars, most, depth, text);
    }
    if let Some(op) = call_of(word) {
        return call(alloc, vars, most, depth, op, text);
    }
    if let Some(ty) = ptype_of(word) {
        return cast(alloc, vars, most, depth, ty, text);
    }
    name(alloc, vars, word, text)
}

#[cycle(side)]
fn lanes<'a>(
    alloc: Global,
    vars: &[VarDecl],
    most: usize,
    depth: u32,
    word: &[u8],
    text: &'a [u8],
) -> Result<(Part, &'a [u8]), Stop>
    requires { length vars.now ≤ 8 }
    ensures { Gives result (lanes_by (parts vars.now) most (side_read (parts vars.now) most Lanes depth) depth word.now (tokens text.now)) }
{
    if word == b"@".as_slice() {
        lane_call(alloc, vars, most, depth, text)
    } else {
        name(alloc, vars, word, text)
    }
}

#[cycle(side)]
fn closed<'a>(
    alloc: Global,
    vars: &[VarDecl],
    most: usize,
    language: Language,
    depth: u32,
    text: &'a [u8],
) -> Result<(Part, &'a [u8]), Stop>
    requires { length vars.now ≤ 8 }
    ensures { Gives result (closed (parts vars.now) (side_read (parts vars.now) most language depth) (tokens text.now)) }
{
    let (part, rest) = side(alloc, vars, most, language, depth, text)?;
    let onward = behind(b")", rest)?;
    Ok((part, onward))
}

#[cycle(side)]
fn cast<'a>(
    alloc: Global,
    vars: &[VarDecl],
    most: usize,
    depth: u32,
    ty: PatType,
    text: &'a [u8],
) -> Result<(Part, &'a [u8]), Stop>
    requires { length vars.now ≤ 8 }
    ensures { Gives result (cast_read (parts vars.now) (side_read (parts vars.now) most Operators depth) ty (tokens text.now)) }
{
    let rest = behind(b"(", text)?;
    let (part, onward) = closed(alloc, vars, most, Language::Operators, depth, rest)?;
    let node = node_part(alloc, Op::Cast, Some(ty), Amount::Int(0), part)?;
    Ok((node, onward))
}

#[cycle(side)]
fn operands<'a>(
    alloc: Global,
    vars: &[VarDecl],
    most: usize,
    language: Language,
    depth: u32,
    first: Part,
    more: u8,
    text: &'a [u8],
) -> Result<(Part, &'a [u8]), Stop>
    requires { length vars.now ≤ 8 }
    ensures { Gives result (operands_more (parts vars.now) (side_read (parts vars.now) most language depth) more first (tokens text.now)) }
{
    let mut part = first;
    let mut rest = text;
    let mut left = more;
    'operands: while 0 < left {
        let onward = behind(b",", rest)?;
        let (next, behind) = side(alloc, vars, most, language, depth, onward)?;
        part = joined_part(part, next)?;
        rest = behind;
        left -= 1;
    }
    Ok((part, rest))
}

/// The type that is stated, the amount and the operands of a call.
#[cycle(side)]
fn arguments<'a>(
    alloc: Global,
    vars: &[VarDecl],
    most: usize,
    language: Language,
    depth: u32,
    shape: Shape,
    text: &'a [u8],
) -> Result<(((Option<PatType>, Amount), Part), &'a [u8]), Stop>
    requires { length vars.now ≤ 8 }
    ensures { Gives result (arguments_read (parts vars.now) most (depth - 1) (side_read (parts vars.now) most language depth) shape (tokens text.now)) }
{
    let (to, rest) = match begun(shape.states, text) {
        Some(found) => found,
        None => return Err(Stop::Syntax),
    };
    let (first, rest) = side(alloc, vars, most, language, depth, rest)?;
    let (part, rest) = operands(alloc, vars, most, language, depth, first, shape.more, rest)?;
    let (k, rest) = ended(alloc, most, depth.saturating_sub(1), shape.amount, rest)?;
    Ok((((to, k), part), rest))
}

#[cycle(side)]
fn call<'a>(
    alloc: Global,
    vars: &[VarDecl],
    most: usize,
    depth: u32,
    op: Op,
    text: &'a [u8],
) -> Result<(Part, &'a [u8]), Stop>
    requires { length vars.now ≤ 8 }
    ensures { Gives result (call_read (parts vars.now) most (side_read (parts vars.now) most Operators depth) depth op (tokens text.now)) }
{
    let (((to, k), part), rest) = arguments(
        alloc,
        vars,
        most,
        Language::Operators,
        depth,
        shape_of(op),
        text,
    )?;
    Ok((node_part(alloc, op, to, k, part)?, rest))
}

#[cycle(side)]
fn known_lane<'a>(
    alloc: Global,
    vars: &[VarDecl],
    most: usize,
    depth: u32,
    op: LaneName,
    text: &'a [u8],
) -> Result<(Part, &'a [u8]), Stop>
    requires { length vars.now ≤ 8 }
    ensures { Gives result (lane_read (parts vars.now) most (side_read (parts vars.now) most Lanes depth) depth op (tokens text.now)) }
{
    let (((to, k), part), rest) = arguments(
        alloc,
        vars,
        most,
        Language::Lanes,
        depth,
        lane_shape(op),
        text,
    )?;
    Ok((lane_part(alloc, Some(op), to, k, part)?, rest))
}

#[cycle(side)]
fn choice<'a>(
    alloc: Global,
    vars: &[VarDecl],
    most: usize,
    depth: u32,
    text: &'a [u8],
) -> Result<(Part, &'a [u8]), Stop>
    requires { length vars.now ≤ 8 }
    ensures { Gives result (choice_read (parts vars.now) (side_read (parts vars.now) most Operators depth) (tokens text.now)) }
{
    let rest = behind(b"(", text)?;
    let (a, rest) = side(alloc, vars, most, Language::Operators, depth, rest)?;
    let ((op, swap), rest) = match compared(rest) {
        Some(found) => found,
        None => return Err(Stop::Syntax),
    };
    let (b, rest) = side(alloc, vars, most, Language::Operators, depth, rest)?;
    let both = compared_pair(swap, a, b)?;
    let (part, rest) = operands(alloc, vars, most, Language::Operators, depth, both, 2, rest)?;
    let rest = behind(b")", rest)?;
    let node = node_part(alloc, op, None, Amount::Int(0), part)?;
    Ok((node, rest))
}

#[cycle(side)]
fn lane_call<'a>(
    alloc: Global,
    vars: &[VarDecl],
    most: usize,
    depth: u32,
    text: &'a [u8],
) -> Result<(Part, &'a [u8]), Stop>
    requires { length vars.now ≤ 8 }
    ensures { Gives result (lane_call (parts vars.now) most (side_read (parts vars.now) most Lanes depth) depth (tokens text.now)) }
{
    let (word, rest) = match next_token(text) {
        Some(found) => found,
        None => return Err(Stop::Syntax),
    };
    match lane_of(word) {
        Some(op) => known_lane(alloc, vars, most, depth, op, rest),
        None if is_word(word) => loose(alloc, vars, most, depth, rest),
        None => Err(Stop::Syntax),
    }
}

/// What stands behind the word of a lane operation that there isn't.
#[cycle(side)]
fn loose<'a>(
    alloc: Global,
    vars: &[VarDecl],
    most: usize,
    depth: u32,
    text: &'a [u8],
) -> Result<(Part, &'a [u8]), Stop>
    requires { length vars.now ≤ 8 }
    ensures { Gives result (loose_read (parts vars.now) most (depth - 1) (side_read (parts vars.now) most Lanes depth) (tokens text.now)) }
{
    let rest = behind(b"(", text)?;
    let (to, rest) = match loose_stated(rest) {
        Some(found) => found,
        None => return Err(Stop::Syntax),
    };
    let (first, rest) = side(alloc, vars, most, Language::Lanes, depth, rest)?;
    let ((k, part), rest) = loose_operands(alloc, vars, most, depth, first, rest)?;
    let rest = behind(b")", rest)?;
    let node = lane_part(alloc, None, to, k, part)?;
    Ok((node, rest))
}

#[cycle(side)]
fn loose_operands<'a>(
    alloc: Global,
    vars: &[VarDecl],
    most: usize,
    depth: u32,
    first: Part,
    text: &'a [u8],
) -> Result<((Amount, Part), &'a [u8]), Stop>
    requires { length vars.now ≤ 8 }
    ensures { Gives result (loose_more (parts vars.now) most (depth - 1) (side_read (parts vars.now) most Lanes depth) most first (tokens text.now)) }
{
    let inside = depth.saturating_sub(1);
    let mut part = first;
    let mut rest = text;
    let mut left = most;
    'operands: while 0 < left {
        let onward = match after(b",", rest) {
            Some(onward) => onward,
            None => return Ok(((Amount::Int(0), part), rest)),
        };
        match exponent(alloc, most, inside, onward) {
            Ok((k, behind)) => return Ok(((k, part), behind)),
            Err(Stop::Memory) => return Err(Stop::Memory),
            Err(Stop::Syntax) => {
                let (next, behind) = side(alloc, vars, most, Language::Lanes, depth, onward)?;
                part = joined_part(part, next)?;
                rest = behind;
            }
        }
        left -= 1;
    }
    Err(Stop::Syntax)
}
