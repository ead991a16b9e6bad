ghost use Rattle.std.specs.Prelude.{◌≡◌};
ghost use Rattle.pf_values.specs.Meaning.Operators.{row_of};
ghost use Rattle.pf_values.specs.Meaning.Spellings.{op_word, spelling_of};

use crate::row::{Amounts, Gives, Operands, Spelling};

/// The operators of terms.
#[derive(Clone, Copy, PartialEq, Eq)]
pub enum Op {
    /// The operand wrapped to the stated type.
    Cast,
    Add,
    Sub,
    Mul,
    ShiftLeft,
    ShiftRight,
    Min,
    Max,
    /// The third operand where the first is greater than the second, else the fourth.
    SelectGreater,
    /// The third operand where the first equals the second, else the fourth.
    SelectEqual,
    Abs,
    WideningAdd,
    WideningSub,
    WideningMul,
    ExtendingAdd,
    HalvingAdd,
    RoundingHalvingAdd,
    HalvingSub,
    SaturatingAdd,
    SaturatingSub,
    /// The operand clamped to the stated type.
    SaturatingCast,
    /// The distance of two operands.
    Absd,
    RoundingShr,
    MulShr,
    RoundingMulShr,
}

impl Op {
    /// Which types the operands have.
    pub fn operands(self) -> Operands
        ensures { result ≡ (row_of self).operands }
    {
        match self {
            Op::Cast | Op::ShiftLeft | Op::ShiftRight | Op::SaturatingCast | Op::RoundingShr => {
                Operands::One
            }
            Op::Abs => Operands::OneSigned,
            Op::WideningAdd | Op::WideningSub | Op::WideningMul => Operands::Narrow,
            Op::ExtendingAdd => Operands::WideFirst,
            Op::SelectGreater | Op::SelectEqual => Operands::Choice,
            _ => Operands::Alike,
        }
    }

    /// Which type the result has.
    pub fn gives(self) -> Gives
        ensures { result ≡ (row_of self).gives }
    {
        match self {
            Op::Cast | Op::SaturatingCast => Gives::Stated,
            Op::Abs | Op::Absd => Gives::Unsigned,
            Op::WideningAdd | Op::WideningMul => Gives::Twice,
            Op::WideningSub => Gives::SignedTwice,
            Op::SelectGreater | Op::SelectEqual => Gives::Third,
            _ => Gives::First,
        }
    }

    /// Which amounts it takes.
    pub fn amounts(self) -> Amounts
        ensures { result ≡ (row_of self).amounts }
    {
        match self {
            Op::ShiftLeft | Op::ShiftRight => Amounts::Shift,
            Op::RoundingShr => Amounts::RoundingShift,
            Op::MulShr => Amounts::Product,
            Op::RoundingMulShr => Amounts::RoundingProduct,
            _ => Amounts::Without,
        }
    }

    /// The weight of a node: 3 for an operator that lifting may replace, 2 for another.
    pub fn weight(self) -> u64
        ensures { result ≡ (row_of self).weight }
    {
        match self {
            Op::Cast
            | Op::Add
            | Op::Sub
            | Op::Mul
            | Op::ShiftLeft
            | Op::ShiftRight
            | Op::Min
            | Op::Max
            | Op::SelectGreater
            | Op::SelectEqual => 3,
            _ => 2,
        }
    }

    /// How it is written.
    pub fn spelling(self) -> Spelling
        ensures { result ≡ spelling_of self }
    {
        match self {
            Op::Cast => Spelling::TypeCall,
            Op::Add | Op::Sub | Op::Mul => Spelling::Infix,
            Op::ShiftLeft | Op::ShiftRight => Spelling::ShiftBy,
            Op::SelectGreater | Op::SelectEqual => Spelling::Select,
            Op::SaturatingCast => Spelling::CallWithType,
            Op::RoundingShr | Op::MulShr | Op::RoundingMulShr => Spelling::CallWithAmount,
            _ => Spelling::Call,
        }
    }

    /// Its sign or word, or nothing for a cast.
    pub fn word(self) -> &'static [u8]
        ensures { result.now ≡ op_word self }
    {
        match self {
            Op::Cast => b"",
            Op::Add => b"+",
            Op::Sub => b"-",
            Op::Mul => b"*",
            Op::ShiftLeft => b"<<",
            Op::ShiftRight => b">>",
            Op::Min => b"min",
            Op::Max => b"max",
            Op::SelectGreater => b">",
            Op::SelectEqual => b"==",
            Op::Abs => b"abs",
            Op::WideningAdd => b"widening_add",
            Op::WideningSub => b"widening_sub",
            Op::WideningMul => b"widening_mul",
            Op::ExtendingAdd => b"extending_add",
            Op::HalvingAdd => b"halving_add",
            Op::RoundingHalvingAdd => b"rounding_halving_add",
            Op::HalvingSub => b"halving_sub",
            Op::SaturatingAdd => b"saturating_add",
            Op::SaturatingSub => b"saturating_sub",
            Op::SaturatingCast => b"saturating_cast",
            Op::Absd => b"absd",
            Op::RoundingShr => b"rounding_shr",
            Op::MulShr => b"mul_shr",
            Op::RoundingMulShr => b"rounding_mul_shr",
        }
    }
}
