ghost use Rattle.std.specs.Prelude.{◌≡◌, MatchOption, None, Some};
ghost use Rattle.pf_rulefile.specs.Meaning.Words.{lane_word, ptype_of, closing_type, op_in, call_ops, lane_in, lane_ops, is_variable, shaped, shape_of, lane_shape, operands_behind, is_stated, has_amount, comparison, is_rule_name, is_word, language_of};

use pf_laneops::{LaneAmounts, LaneGives, LaneName, LaneOperands};
use pf_rules::{Kind, PatType};
use pf_text::is_name;
use pf_values::Op;

/// What a side is made of besides variables and typed numbers.
#[derive(Clone, Copy)]
pub enum Language {
    Operators,
    Lanes,
}

/// The type of this word, as `u1`.
pub fn ptype_of(word: &[u8]) -> Option<PatType>
    ensures { result ≡ ptype_of word.now }
{
    let (signed, times) = if word == b"u1".as_slice() {
        (false, 1)
    } else if word == b"u2".as_slice() {
        (false, 2)
    } else if word == b"u4".as_slice() {
        (false, 4)
    } else if word == b"i1".as_slice() {
        (true, 1)
    } else if word == b"i2".as_slice() {
        (true, 2)
    } else if word == b"i4".as_slice() {
        (true, 4)
    } else {
        return None;
    };
    Some(PatType { signed, times })
}

/// The type of this word behind `}`.
pub fn closing_type(word: &[u8]) -> Option<PatType>
    ensures { result ≡ closing_type word.now }
{
    match word {
        [b'}', rest @ ..] => ptype_of(rest),
        _ => None,
    }
}

/// The sign of a comparison: its operator, and whether its operands change places.
pub fn comparison(word: &[u8]) -> Option<(Op, bool)>
    ensures { result ≡ comparison word.now }
{
    if word == b">".as_slice() {
        Some((Op::SelectGreater, false))
    } else if word == b"<".as_slice() {
        Some((Op::SelectGreater, true))
    } else if word == b"==".as_slice() {
        Some((Op::SelectEqual, false))
    } else {
        None
    }
}

/// Whether the word may name a rule.
pub fn is_rule_name(word: &[u8]) -> bool
    ensures { result ≡ is_rule_name word.now }
{
    is_name(word) && ptype_of(word).is_none()
}

/// Whether the word may name a variable.
pub fn is_variable(word: &[u8]) -> bool
    ensures { result ≡ is_variable word.now }
{
    is_rule_name(word) && word != b"w".as_slice() && word != b"k".as_slice()
}

const CALLS: [Op; 17] = [
    Op::Min,
    Op::Max,
    Op::Abs,
    Op::WideningAdd,
    Op::WideningSub,
    Op::WideningMul,
    Op::ExtendingAdd,
    Op::HalvingAdd,
    Op::RoundingHalvingAdd,
    Op::HalvingSub,
    Op::SaturatingAdd,
    Op::SaturatingSub,
    Op::SaturatingCast,
    Op::Absd,
    Op::RoundingShr,
    Op::MulShr,
    Op::RoundingMulShr,
];

/// The operator that is written as this word before round brackets.
pub fn call_of(word: &[u8]) -> Option<Op>
    ensures { result ≡ op_in call_ops word.now }
{
    op_in(&CALLS, word)
}

fn op_in(ops: &[Op], word: &[u8]) -> Option<Op>
    ensures { result ≡ op_in ops.now word.now }
{
    for op in ops {
        if op.word() == word {
            return Some(*op);
        }
    }
    None
}

const LANES: [LaneName; 39] = [
    LaneName::Add,
    LaneName::Sub,
    LaneName::Mul,
    LaneName::Mla,
    LaneName::HalvingAdd,
    LaneName::RoundingHalvingAdd,
    LaneName::HalvingSub,
    LaneName::SaturatingAdd,
    LaneName::SaturatingSub,
    LaneName::Min,
    LaneName::Max,
    LaneName::Absd,
    LaneName::Abs,
    LaneName::Not,
    LaneName::Shl,
    LaneName::Shr,
    LaneName::RoundingShr,
    LaneName::MulHigh,
    LaneName::MulQ,
    LaneName::MulQr,
    LaneName::MulHrs,
    LaneName::SelGt,
    LaneName::SelEq,
    LaneName::Bits,
    LaneName::Widen,
    LaneName::WidenShl,
    LaneName::WideningAdd,
    LaneName::WideningSub,
    LaneName::WideningMul,
    LaneName::MulUs,
    LaneName::ExtendingAdd,
    LaneName::WideningMla,
    LaneName::WideningAbsd,
    LaneName::Narrow,
    LaneName::SatNarrow,
    LaneName::NarrowShr,
    LaneName::NarrowRshr,
    LaneName::SatNarrowShr,
    LaneName::SatNarrowRshr,
];

/// The word of a lane operation.
pub fn lane_word(op: LaneName) -> &'static [u8]
    ensures { result.now ≡ lane_word op }
{
    match op {
        LaneName::Add => b"add",
        LaneName::Sub => b"sub",
        LaneName::Mul => b"mul",
        LaneName::Mla => b"mla",
        LaneName::HalvingAdd => b"halving_add",
        LaneName::RoundingHalvingAdd => b"rounding_halving_add",
        LaneName::HalvingSub => b"halving_sub",
        LaneName::SaturatingAdd => b"saturating_add",
        LaneName::SaturatingSub => b"saturating_sub",
        LaneName::Min => b"min",
        LaneName::Max => b"max",
        LaneName::Absd => b"absd",
        LaneName::Abs => b"abs",
        LaneName::Not => b"not",
        LaneName::Shl => b"shl",
        LaneName::Shr => b"shr",
        LaneName::RoundingShr => b"rounding_shr",
        LaneName::MulHigh => b"mul_high",
        LaneName::MulQ => b"mul_q",
        LaneName::MulQr => b"mul_qr",
        LaneName::MulHrs => b"mul_hrs",
        LaneName::SelGt => b"sel_gt",
        LaneName::SelEq => b"sel_eq",
        LaneName::Bits => b"bits",
        LaneName::Widen => b"widen",
        LaneName::WidenShl => b"widen_shl",
        LaneName::WideningAdd => b"widening_add",
        LaneName::WideningSub => b"widening_sub",
        LaneName::WideningMul => b"widening_mul",
        LaneName::MulUs => b"mul_us",
        LaneName::ExtendingAdd => b"extending_add",
        LaneName::WideningMla => b"widening_mla",
        LaneName::WideningAbsd => b"widening_absd",
        LaneName::Narrow => b"narrow",
        LaneName::SatNarrow => b"sat_narrow",
        LaneName::NarrowShr => b"narrow_shr",
        LaneName::NarrowRshr => b"narrow_rshr",
        LaneName::SatNarrowShr => b"sat_narrow_shr",
        LaneName::SatNarrowRshr => b"sat_narrow_rshr",
    }
}

/// The lane operation of this word.
pub fn lane_of(word: &[u8]) -> Option<LaneName>
    ensures { result ≡ lane_in lane_ops word.now }
{
    lane_in(&LANES, word)
}

fn lane_in(ops: &[LaneName], word: &[u8]) -> Option<LaneName>
    ensures { result ≡ lane_in ops.now word.now }
{
    for op in ops {
        if lane_word(*op) == word {
            return Some(*op);
        }
    }
    None
}

/// What stands in the round brackets of a call: a type first or none, one operand and some more,
/// and an amount last or none.
#[derive(Clone, Copy)]
pub struct Shape {
    pub states: bool,
    pub more: u8,
    pub amount: bool,
}

fn shaped(states: bool, more: u8, amount: bool) -> Shape
    ensures { result ≡ shaped states more amount }
{
    Shape {
        states,
        more,
        amount,
    }
}

/// What stands in the round brackets behind an operator's word.
pub fn shape_of(op: Op) -> Shape
    ensures { result ≡ shape_of op }
{
    match op {
        Op::Abs => shaped(false, 0, false),
        Op::SaturatingCast => shaped(true, 0, false),
        Op::RoundingShr => shaped(false, 0, true),
        Op::MulShr | Op::RoundingMulShr => shaped(false, 1, true),
        _ => shaped(false, 1, false),
    }
}

fn operands_behind(operands: LaneOperands) -> u8
    ensures { result ≡ operands_behind operands }
{
    match operands {
        LaneOperands::One => 0,
        LaneOperands::Two | LaneOperands::UnsignedAndSigned | LaneOperands::WideAndNarrow => 1,
        LaneOperands::Three | LaneOperands::WideAndTwo => 2,
        LaneOperands::Four => 3,
    }
}

fn is_stated(gives: LaneGives) -> bool
    ensures { result ≡ is_stated gives }
{
    match gives {
        LaneGives::SameWidth | LaneGives::HalfWidth => true,
        _ => false,
    }
}

fn has_amount(amounts: LaneAmounts) -> bool
    ensures { result ≡ has_amount amounts }
{
    match amounts {
        LaneAmounts::Without => false,
        _ => true,
    }
}

/// What stands in the round brackets behind a lane operation's word.
pub fn lane_shape(op: LaneName) -> Shape
    ensures { result ≡ lane_shape op }
{
    let row = op.row();
    shaped(
        is_stated(row.gives),
        operands_behind(row.operands),
        has_amount(row.amounts),
    )
}

/// Whether the word may be that of an axiom or a lane operation: at most 32 bytes, a small letter
/// and then small letters, digits or `_`.
pub fn is_word(word: &[u8]) -> bool
    ensures { result ≡ is_word word.now }
{
    match word {
        [first, ..] => b'a' <= *first && *first <= b'z' && word.len() <= 32,
        [] => false,
    }
}

/// What the right sides of such a file are made of.
pub fn language_of(kind: Kind) -> Language
    ensures { result ≡ language_of kind }
{
    match kind {
        Kind::Lift => Language::Operators,
        Kind::Lower(_) => Language::Lanes,
    }
}
