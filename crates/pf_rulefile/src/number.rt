ghost use Rattle.std.specs.Prelude.{◌≡◌, MatchOption, None, Some, true, false, codes};
ghost use Rattle.pf_rulefile.specs.Meaning.Tokens.{tokens};
ghost use Rattle.pf_rulefile.specs.Steps.Fronts.{after, sign_by};
ghost use Rattle.pf_rulefile.specs.Meaning.Grammar.{sum_sign, unit_of, plain_amount, plain_item};
ghost use Rattle.pf_rulefile.specs.Steps.NumberReads.{Gives, lin_read, unit_read, first_sign, signed_read, linear_read, linear_at, exponent_read, power_read, item_read, number_read, behind_base, behind_times, plain_part};

use crate::stop::Stop;
use crate::token::{after, int_of, next_token};
use pf_ints::Sequence;
use pf_rules::{Amount, LinOf, LinPart, LinParts, Number, NumberItem, NumberPart, NumberParts};
use std::alloc::Global;

/// The sign between two parts of a sum, whether it takes the next one away, and what follows it.
fn sign(text: &[u8]) -> Option<(bool, &[u8])>
    ensures { MatchOption result (sign_by sum_sign (tokens text.now) ≡ None) (λ p. sign_by sum_sign (tokens text.now) ≡ Some (p.0, tokens p.1.now)) }
{
    let (word, rest) = next_token(text)?;
    if word == b"+".as_slice() {
        Some((false, rest))
    } else if word == b"-".as_slice() {
        Some((true, rest))
    } else {
        None
    }
}

/// Whether a sum's first part is taken away, and the text from this part on.
fn first_sign(text: &[u8]) -> (bool, &[u8])
    ensures { first_sign (tokens text.now) ≡ (result.0, tokens result.1.now) }
{
    match after(b"-", text) {
        Some(rest) => (true, rest),
        None => (false, text),
    }
}

fn unit_of(word: &[u8]) -> Option<LinOf>
    ensures { result ≡ unit_of word.now }
{
    if word == b"w".as_slice() {
        Some(LinOf::W)
    } else if word == b"k".as_slice() {
        Some(LinOf::K)
    } else {
        None
    }
}

fn lin_part(minus: bool, text: &[u8]) -> Option<(LinPart, &[u8])>
    ensures { MatchOption result (lin_read minus (tokens text.now) ≡ None) (λ p. lin_read minus (tokens text.now) ≡ Some (p.0, tokens p.1.now)) }
{
    let (word, rest) = next_token(text)?;
    if let Some(of) = unit_of(word) {
        let times = 1;
        return Some((LinPart { minus, times, of }, rest));
    }
    let times = int_of(word)?;
    match after(b"*", rest) {
        Some(behind) => multiple(minus, times, behind),
        None => {
            let of = LinOf::One;
            Some((LinPart { minus, times, of }, rest))
        }
    }
}

fn multiple(minus: bool, times: i64, text: &[u8]) -> Option<(LinPart, &[u8])>
    ensures { MatchOption result (unit_read minus times (tokens text.now) ≡ None) (λ p. unit_read minus times (tokens text.now) ≡ Some (p.0, tokens p.1.now)) }
{
    let (word, rest) = next_token(text)?;
    let of = unit_of(word)?;
    Some((LinPart { minus, times, of }, rest))
}

/// The parts of a linear amount, and what follows them. No more are read than `most`.
fn lin_parts(alloc: Global, most: usize, text: &[u8]) -> Result<(LinParts, &[u8]), Stop>
    ensures { Gives result (signed_read lin_read most (tokens text.now)) }
{
    let (mut minus, mut rest) = first_sign(text);
    let mut parts = Sequence::new(alloc);
    let mut left = most;
    'parts: while 0 < left {
        let (part, behind) = match lin_part(minus, rest) {
            Some(found) => found,
            None => return Err(Stop::Syntax),
        };
        parts.push(part)?;
        match sign(behind) {
            Some((next, onward)) => {
                minus = next;
                rest = onward;
            }
            None => return Ok((parts, behind)),
        }
        left -= 1;
    }
    Err(Stop::Syntax)
}

fn linear(alloc: Global, most: usize, text: &[u8]) -> Result<(Amount, &[u8]), Stop>
    ensures { Gives result (linear_read most (tokens text.now)) }
{
    let (parts, rest) = lin_parts(alloc, most, text)?;
    match after(b")", rest) {
        Some(behind) => Ok((Amount::Linear(parts), behind)),
        None => Err(Stop::Syntax),
    }
}

fn plain_amount(word: &[u8]) -> Option<Amount>
    ensures { result ≡ plain_amount word.now }
{
    if word == b"w".as_slice() {
        return Some(Amount::W);
    }
    if word == b"k".as_slice() {
        return Some(Amount::K);
    }
    let n = int_of(word)?;
    Some(Amount::Int(n))
}

fn linear_at(alloc: Global, most: usize, depth: u32, text: &[u8]) -> Result<(Amount, &[u8]), Stop>
    ensures { Gives result (linear_at most depth (tokens text.now)) }
{
    if depth == 0 {
        Err(Stop::Syntax)
    } else {
        linear(alloc, most, text)
    }
}

/// An amount or an exponent with round brackets at most so deep, and what follows it.
pub fn exponent(
    alloc: Global,
    most: usize,
    depth: u32,
    text: &[u8],
) -> Result<(Amount, &[u8]), Stop>
    ensures { Gives result (exponent_read most depth (tokens text.now)) }
{
    match next_token(text) {
        Some((word, rest)) if word == b"(".as_slice() => linear_at(alloc, most, depth, rest),
        Some((word, rest)) => match plain_amount(word) {
            Some(amount) => Ok((amount, rest)),
            None => Err(Stop::Syntax),
        },
        None => Err(Stop::Syntax),
    }
}

fn power(
    alloc: Global,
    most: usize,
    depth: u32,
    minus: bool,
    times: i64,
    text: &[u8],
) -> Result<(NumberPart, &[u8]), Stop>
    ensures { Gives result (power_read most depth minus times (tokens text.now)) }
{
    let (exponent, rest) = exponent(alloc, most, depth, text)?;
    let item = NumberItem::Power { times, exponent };
    Ok((NumberPart { minus, item }, rest))
}

fn plain_item(word: &[u8]) -> Option<NumberItem>
    ensures { result ≡ plain_item word.now }
{
    if word == b"w".as_slice() {
        return Some(NumberItem::W);
    }
    if word == b"k".as_slice() {
        return Some(NumberItem::K);
    }
    let n = int_of(word)?;
    Some(NumberItem::Int(n))
}

/// What follows `2^`.
fn behind_base(text: &[u8]) -> Option<&[u8]>
    ensures { MatchOption result (behind_base (tokens text.now) ≡ None) (λ rest. behind_base (tokens text.now) ≡ Some (tokens rest.now)) }
{
    let rest = after(b"2", text)?;
    after(b"^", rest)
}

/// What follows `*`, where the text begins with a number and that.
fn behind_times(text: &[u8]) -> Option<(i64, &[u8])>
    ensures { MatchOption result (behind_times (tokens text.now) ≡ None) (λ p. behind_times (tokens text.now) ≡ Some (p.0, tokens p.1.now)) }
{
    let (word, rest) = next_token(text)?;
    let times = int_of(word)?;
    let behind = after(b"*", rest)?;
    Some((times, behind))
}

fn item(
    alloc: Global,
    most: usize,
    depth: u32,
    minus: bool,
    text: &[u8],
) -> Result<(NumberPart, &[u8]), Stop>
    ensures { Gives result (item_read most depth minus (tokens text.now)) }
{
    if let Some(rest) = behind_base(text) {
        return power(alloc, most, depth, minus, 1, rest);
    }
    if let Some((times, rest)) = behind_times(text) {
        return match behind_base(rest) {
            Some(behind) => power(alloc, most, depth, minus, times, behind),
            None => Err(Stop::Syntax),
        };
    }
    plain_part(minus, text)
}

fn plain_part(minus: bool, text: &[u8]) -> Result<(NumberPart, &[u8]), Stop>
    ensures { Gives result (plain_part minus (tokens text.now)) }
{
    match next_token(text) {
        Some((word, rest)) => match plain_item(word) {
            Some(item) => Ok((NumberPart { minus, item }, rest)),
            None => Err(Stop::Syntax),
        },
        None => Err(Stop::Syntax),
    }
}

fn number_parts(
    alloc: Global,
    most: usize,
    depth: u32,
    text: &[u8],
) -> Result<(NumberParts, &[u8]), Stop>
    ensures { Gives result (signed_read (item_read most depth) most (tokens text.now)) }
{
    let (mut minus, mut rest) = first_sign(text);
    let mut parts = Sequence::new(alloc);
    let mut left = most;
    'parts: while 0 < left {
        let (part, behind) = item(alloc, most, depth, minus, rest)?;
        parts.push(part)?;
        match sign(behind) {
            Some((next, onward)) => {
                minus = next;
                rest = onward;
            }
            None => return Ok((parts, behind)),
        }
        left -= 1;
    }
    Err(Stop::Syntax)
}

/// A number with round brackets at most so deep, and what follows it. No sum in it is read that
/// has more parts than `most`.
pub fn number(alloc: Global, most: usize, depth: u32, text: &[u8]) -> Result<(Number, &[u8]), Stop>
    ensures { Gives result (number_read most depth (tokens text.now)) }
{
    let (parts, rest) = number_parts(alloc, most, depth, text)?;
    Ok((Number { parts }, rest))
}
