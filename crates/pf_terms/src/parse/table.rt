ghost use Rattle.std.specs.Prelude.{◌≡◌, None, Some, MatchOption};
ghost use Rattle.pf_terms.specs.Meaning.Grammar.{call_shape};
ghost use Rattle.pf_terms.specs.Steps.Parsing.{call_symbols, parser_after, after_atom, meets, goes_on, may_be_none, passes};

use crate::parse::symbol::{CallShape, ParserSymbol};
use crate::token::TokenKind;
use pf_values::Op;

pub fn may_be_none(symbol: ParserSymbol) -> bool
    ensures { result ≡ may_be_none symbol }
{
    match symbol {
        ParserSymbol::Factors
        | ParserSymbol::Summands
        | ParserSymbol::Shifts
        | ParserSymbol::Offsets
        | ParserSymbol::End => true,
        _ => false,
    }
}

/// Whether the symbol brings nothing where this token comes.
pub fn passes(symbol: ParserSymbol, kind: &TokenKind) -> bool
    ensures { result ≡ passes symbol kind.now }
{
    may_be_none(symbol) && !goes_on(symbol, *kind)
}

fn goes_on(symbol: ParserSymbol, kind: TokenKind) -> bool
    ensures { result ≡ goes_on symbol kind }
{
    match (symbol, kind) {
        (ParserSymbol::Factors, TokenKind::Times) => true,
        (ParserSymbol::Summands, TokenKind::Plus) => true,
        (ParserSymbol::Summands, TokenKind::Minus) => true,
        (ParserSymbol::Shifts, TokenKind::ShiftLeft) => true,
        (ParserSymbol::Shifts, TokenKind::ShiftRight) => true,
        (ParserSymbol::Offsets, TokenKind::OpenSquare) => true,
        _ => false,
    }
}

/// What is to come in the symbol's place behind the token, or None where it doesn't begin so.
pub fn parser_after(symbol: ParserSymbol, kind: &TokenKind) -> Option<&'static [ParserSymbol]>
    ensures { MatchOption result (parser_after symbol kind.now ≡ None) (λ new. parser_after symbol kind.now ≡ Some new.now) }
{
    match (symbol, *kind) {
        (ParserSymbol::Atom, _) => after_atom(*kind),
        (ParserSymbol::Factors, TokenKind::Times) => Some(&[
            ParserSymbol::Atom,
            ParserSymbol::End,
            ParserSymbol::Factors,
        ]),
        (ParserSymbol::Summands, TokenKind::Plus) => Some(&SUMMAND),
        (ParserSymbol::Summands, TokenKind::Minus) => Some(&SUMMAND),
        (ParserSymbol::Shifts, TokenKind::ShiftLeft) => Some(&SHIFT),
        (ParserSymbol::Shifts, TokenKind::ShiftRight) => Some(&SHIFT),
        (ParserSymbol::Offsets, TokenKind::OpenSquare) => Some(&OFFSETS),
        (ParserSymbol::Column, TokenKind::Minus) => Some(&[ParserSymbol::NegatedColumn]),
        (ParserSymbol::Row, TokenKind::Minus) => Some(&[ParserSymbol::NegatedRow]),
        _ => if is_met(symbol, *kind) {
            Some(&[])
        } else {
            None
        },
    }
}

const SUMMAND: [ParserSymbol; 4] = [
    ParserSymbol::Atom,
    ParserSymbol::Factors,
    ParserSymbol::End,
    ParserSymbol::Summands,
];

const SHIFT: [ParserSymbol; 3] = [
    ParserSymbol::Digits,
    ParserSymbol::End,
    ParserSymbol::Shifts,
];

const OFFSETS: [ParserSymbol; 4] = [
    ParserSymbol::Column,
    ParserSymbol::Comma,
    ParserSymbol::Row,
    ParserSymbol::CloseSquare,
];

// Whether a symbol that stands for one token is met by it.
fn is_met(symbol: ParserSymbol, kind: TokenKind) -> bool
    ensures { result ≡ meets symbol kind }
{
    match (symbol, kind) {
        (ParserSymbol::Column, TokenKind::Number(_)) => true,
        (ParserSymbol::Row, TokenKind::Number(_)) => true,
        (ParserSymbol::NegatedColumn, TokenKind::Number(_)) => true,
        (ParserSymbol::NegatedRow, TokenKind::Number(_)) => true,
        (ParserSymbol::Digits, TokenKind::Number(_)) => true,
        (ParserSymbol::Negated, TokenKind::Typed(n, ty)) => ty.contains(-(n as i128)),
        (ParserSymbol::TypeName, TokenKind::TypeWord(_)) => true,
        (ParserSymbol::Comparison, TokenKind::Greater) => true,
        (ParserSymbol::Comparison, TokenKind::Less) => true,
        (ParserSymbol::Comparison, TokenKind::Same) => true,
        (ParserSymbol::Open, TokenKind::Open) => true,
        (ParserSymbol::Close, TokenKind::Close) => true,
        (ParserSymbol::CloseSquare, TokenKind::CloseSquare) => true,
        (ParserSymbol::Comma, TokenKind::Comma) => true,
        _ => false,
    }
}

fn after_atom(kind: TokenKind) -> Option<&'static [ParserSymbol]>
    ensures { MatchOption result (after_atom kind ≡ None) (λ new. after_atom kind ≡ Some new.now) }
{
    match kind {
        TokenKind::Typed(n, ty) => if ty.contains(n as i128) {
            Some(&[])
        } else {
            None
        },
        TokenKind::Minus => Some(&[ParserSymbol::Negated]),
        TokenKind::Name(_) => Some(&[ParserSymbol::Offsets, ParserSymbol::End]),
        TokenKind::TypeWord(_) => Some(&ONE),
        TokenKind::Open => Some(&BRACKET),
        TokenKind::Word(op) => call_symbols(shape_of(op)),
        TokenKind::Choose => Some(&CHOICE),
        _ => None,
    }
}

const BRACKET: [ParserSymbol; 5] = [
    ParserSymbol::Atom,
    ParserSymbol::Factors,
    ParserSymbol::Summands,
    ParserSymbol::Shifts,
    ParserSymbol::Close,
];

const CHOICE: [ParserSymbol; 22] = [
    ParserSymbol::Open,
    ParserSymbol::Atom,
    ParserSymbol::Factors,
    ParserSymbol::Summands,
    ParserSymbol::Shifts,
    ParserSymbol::Comparison,
    ParserSymbol::Atom,
    ParserSymbol::Factors,
    ParserSymbol::Summands,
    ParserSymbol::Shifts,
    ParserSymbol::Comma,
    ParserSymbol::Atom,
    ParserSymbol::Factors,
    ParserSymbol::Summands,
    ParserSymbol::Shifts,
    ParserSymbol::Comma,
    ParserSymbol::Atom,
    ParserSymbol::Factors,
    ParserSymbol::Summands,
    ParserSymbol::Shifts,
    ParserSymbol::Close,
    ParserSymbol::End,
];

// What is to come behind the word of a call.
fn call_symbols(shape: CallShape) -> Option<&'static [ParserSymbol]>
    ensures { MatchOption result (call_symbols shape ≡ None) (λ new. call_symbols shape ≡ Some new.now) }
{
    match shape {
        CallShape::One => Some(&ONE),
        CallShape::Two => Some(&TWO),
        CallShape::OneAndAmount => Some(&ONE_AND_AMOUNT),
        CallShape::TwoAndAmount => Some(&TWO_AND_AMOUNT),
        CallShape::TypeAndOne => Some(&TYPE_AND_ONE),
        CallShape::NoCall => None,
    }
}

const ONE: [ParserSymbol; 7] = [
    ParserSymbol::Open,
    ParserSymbol::Atom,
    ParserSymbol::Factors,
    ParserSymbol::Summands,
    ParserSymbol::Shifts,
    ParserSymbol::Close,
    ParserSymbol::End,
];

const TWO: [ParserSymbol; 12] = [
    ParserSymbol::Open,
    ParserSymbol::Atom,
    ParserSymbol::Factors,
    ParserSymbol::Summands,
    ParserSymbol::Shifts,
    ParserSymbol::Comma,
    ParserSymbol::Atom,
    ParserSymbol::Factors,
    ParserSymbol::Summands,
    ParserSymbol::Shifts,
    ParserSymbol::Close,
    ParserSymbol::End,
];

const ONE_AND_AMOUNT: [ParserSymbol; 9] = [
    ParserSymbol::Open,
    ParserSymbol::Atom,
    ParserSymbol::Factors,
    ParserSymbol::Summands,
    ParserSymbol::Shifts,
    ParserSymbol::Comma,
    ParserSymbol::Digits,
    ParserSymbol::Close,
    ParserSymbol::End,
];

const TWO_AND_AMOUNT: [ParserSymbol; 14] = [
    ParserSymbol::Open,
    ParserSymbol::Atom,
    ParserSymbol::Factors,
    ParserSymbol::Summands,
    ParserSymbol::Shifts,
    ParserSymbol::Comma,
    ParserSymbol::Atom,
    ParserSymbol::Factors,
    ParserSymbol::Summands,
    ParserSymbol::Shifts,
    ParserSymbol::Comma,
    ParserSymbol::Digits,
    ParserSymbol::Close,
    ParserSymbol::End,
];

const TYPE_AND_ONE: [ParserSymbol; 9] = [
    ParserSymbol::Open,
    ParserSymbol::TypeName,
    ParserSymbol::Comma,
    ParserSymbol::Atom,
    ParserSymbol::Factors,
    ParserSymbol::Summands,
    ParserSymbol::Shifts,
    ParserSymbol::Close,
    ParserSymbol::End,
];

fn shape_of(op: Op) -> CallShape
    ensures { result ≡ call_shape op }
{
    match op {
        Op::Cast
        | Op::Add
        | Op::Sub
        | Op::Mul
        | Op::ShiftLeft
        | Op::ShiftRight
        | Op::SelectGreater
        | Op::SelectEqual => CallShape::NoCall,
        Op::Abs => CallShape::One,
        Op::RoundingShr => CallShape::OneAndAmount,
        Op::MulShr | Op::RoundingMulShr => CallShape::TwoAndAmount,
        Op::SaturatingCast => CallShape::TypeAndOne,
        _ => CallShape::Two,
    }
}
