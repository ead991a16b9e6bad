ghost use Rattle.std.specs.Prelude.{◌≡◌, ◌<◌, ◌^◌, ◌∷◌, [], ◌-◌, pos, bit_and, bit_or};
ghost use Rattle.pf_ints.specs.Meaning.Whole.{floor_mod};
ghost use Rattle.pf_values.specs.Meaning.Small.{IsSmall, IsLong};
ghost use Rattle.pf_lanes.specs.Meaning.Works.{value, rounding};

use pf_ints::{LaneType, sat};
use pf_values::{Op, applied_to_one, applied_to_two, half_step, product, shifted};

/// What becomes of the lanes of an instruction's operands.
#[derive(Clone, Copy)]
pub enum Work {
    /// What an operator of terms makes of them.
    Operator(Op),
    /// The first and the product of the second and the third.
    MulAdd,
    /// 0 less the number, and -1 less the number, which turns each bit.
    Negate,
    Not,
    /// All ones where the two are equal, or where the first is greater, else 0.
    IsEqual,
    IsGreater,
    /// The second where the first is negative, or positive, else the third.
    WhereNegative,
    WherePositive,
    /// Each of eight bits from the second where the first has a one, else from the third.
    BitSelect,
    /// The product, shifted.
    MulShift,
    /// The product by 2 to the power of 15, rounded.
    MulRound,
    /// The number shifted, or shifted with rounding, and clamped.
    SaturateShift,
    SaturateRound,
}

/// What becomes of one number, at the type `ty` of the result and the amount `k`: 0 for a work of
/// more operands.
pub fn value_of_one(work: Work, ty: LaneType, k: u8, x: i128) -> i128
    requires small { IsSmall x }
    requires amount { k < 64 }
    ensures { result ≡ value work ty k (x ∷ []) }
{
    match work {
        Work::Operator(op) => applied_to_one(op, ty, k, x),
        Work::Negate => -x,
        Work::Not => -1 - x,
        Work::SaturateShift => sat(ty, shifted(x, k)),
        Work::SaturateRound => sat(ty, shifted(x + rounding(k), k)),
        _ => 0,
    }
}

/// What becomes of two numbers: a work of one operand takes the first alone, and one of three
/// makes 0.
pub fn value_of_two(work: Work, ty: LaneType, k: u8, x: i128, y: i128) -> i128
    requires first { IsSmall x }
    requires second { IsSmall y }
    requires amount { k < 64 }
    ensures { result ≡ value work ty k (x ∷ y ∷ []) }
{
    match work {
        Work::Operator(op) => applied_to_two(op, ty, k, x, y),
        Work::IsEqual => if x == y { -1 } else { 0 },
        Work::IsGreater => if x > y { -1 } else { 0 },
        Work::MulShift => shifted(product(x, y), k),
        Work::MulRound => shifted(shifted(product(x, y), 14) + 1, 1),
        Work::MulAdd | Work::WhereNegative | Work::WherePositive | Work::BitSelect => 0,
        _ => value_of_one(work, ty, k, x),
    }
}

/// What becomes of three numbers: a work of fewer operands takes the first ones alone.
pub fn value_of_three(work: Work, ty: LaneType, k: u8, x: i128, y: i128, z: i128) -> i128
    requires first { IsSmall x }
    requires second { IsSmall y }
    requires third { IsSmall z }
    requires amount { k < 64 }
    ensures { result ≡ value work ty k (x ∷ y ∷ z ∷ []) }
{
    match work {
        Work::MulAdd => x + product(y, z),
        Work::WhereNegative => if x < 0 { y } else { z },
        Work::WherePositive => if x > 0 { y } else { z },
        Work::BitSelect => bit_select(low_byte(x), low_byte(y), low_byte(z)),
        _ => value_of_two(work, ty, k, x, y),
    }
}

// What is added before a shift that rounds.
fn rounding(k: u8) -> i128
    requires { k < 64 }
    ensures value { result ≡ rounding k }
    ensures bound { IsLong result }
{
    if k == 0 { 0 } else { half_step(k) }
}

fn low_byte(n: i128) -> u8
    ensures { result ≡ floor_mod n 256 }
{
    n.rem_euclid(256) as u8
}

fn bit_select(mask: u8, x: u8, y: u8) -> i128
    ensures { result ≡ pos (bit_or (bit_and mask x) (bit_and (255 - mask) y)) }
{
    i128::from((mask & x) | ((255 - mask) & y))
}
