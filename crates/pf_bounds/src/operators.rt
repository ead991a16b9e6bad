ghost use Rattle.std.specs.Prelude.{◌≡◌, ◌<◌, ◌^◌, ◌∷◌, [], ℕ, option_and_then};
ghost use Rattle.pf_ints.specs.Meaning.Ranges.{within, range, sum_range, product_range, quotient_range, clamp_range};
ghost use Rattle.pf_ints.specs.declared.lane.LaneType.{LaneType as Ty};
ghost use Rattle.pf_values.specs.Meaning.Operators.{row_of, half_step};
ghost use Rattle.pf_values.specs.Meaning.Terms.{operand_count};
ghost use Rattle.pf_bounds.specs.Meaning.TermBounds.{row_range};

use pf_forms::power;
use pf_ints::{Interval, LaneType};
use pf_values::{Op, half_step};

/// The interval of an operator of one operand, by the result's type and the amount.
pub fn of_one(op: Op, ty: LaneType, k: u8, x: Interval) -> Option<Interval>
    requires count { operand_count (row_of op).operands ≡ 1 }
    requires amount { k < 64 }
    ensures { result ≡ row_range op ty k (x ∷ []) }
{
    match op {
        Op::Cast => Some(x.wrap(ty)),
        Op::ShiftLeft => Some(x.mul(alone(power(k))?)?.wrap(ty)),
        Op::ShiftRight => Some(x.floor_div(power(k))),
        Op::Abs => Some(x.abs()),
        Op::SaturatingCast => Some(x.sat(ty)),
        Op::RoundingShr => Some(and_half(x, k)?.floor_div(power(k))),
        _ => unreachable!(),
    }
}

/// The interval of an operator of two operands, by the result's type and the amount.
pub fn of_two(op: Op, ty: LaneType, k: u8, x: Interval, y: Interval) -> Option<Interval>
    requires count { operand_count (row_of op).operands ≡ 2 }
    requires amount { k < 64 }
    ensures { result ≡ row_range op ty k (x ∷ y ∷ []) }
{
    match op {
        Op::Add | Op::ExtendingAdd => Some(x.add(y)?.wrap(ty)),
        Op::Sub => Some(x.sub(y)?.wrap(ty)),
        Op::Mul => Some(x.mul(y)?.wrap(ty)),
        Op::Min => Some(x.min(y)),
        Op::Max => Some(x.max(y)),
        Op::WideningAdd => x.add(y),
        Op::WideningSub => x.sub(y),
        Op::WideningMul => x.mul(y),
        Op::HalvingAdd => Some(x.add(y)?.floor_div(2)),
        Op::RoundingHalvingAdd => Some(x.add(y)?.add(alone(1)?)?.floor_div(2)),
        Op::HalvingSub => Some(x.sub(y)?.floor_div(2).wrap(ty)),
        Op::SaturatingAdd => Some(x.add(y)?.sat(ty)),
        Op::SaturatingSub => Some(x.sub(y)?.sat(ty)),
        Op::Absd => Some(x.sub(y)?.abs()),
        Op::MulShr => Some(scaled(x.mul(y)?, ty, k)),
        Op::RoundingMulShr => Some(scaled(rounded_product(x, y, k)?, ty, k)),
        _ => unreachable!(),
    }
}

/// The interval of a choice: x where a is greater than b, or where both are equal, and else y.
pub fn of_four(op: Op, a: Interval, b: Interval, x: Interval, y: Interval) -> Option<Interval>
    requires count { operand_count (row_of op).operands ≡ 4 }
    ensures { (ty : Ty) (k : ℕ) → result ≡ row_range op ty k (a ∷ b ∷ x ∷ y ∷ []) }
{
    match op {
        Op::SelectGreater => Some(a.choose(b, x, y)),
        Op::SelectEqual => Some(a.choose(b, y, b.choose(a, y, x))),
        _ => unreachable!(),
    }
}

// The sums with half a step of a division by 2 to the power of k.
fn and_half(x: Interval, k: u8) -> Option<Interval>
    requires { k < 64 }
    ensures { result ≡ option_and_then (λ h. within (sum_range x h)) (within (range (half_step k) (half_step k))) }
{
    x.add(alone(half_step(k))?)
}

// The quotients by 2 to the power of k, brought to the type.
fn scaled(x: Interval, ty: LaneType, k: u8) -> Interval
    requires { k < 64 }
    ensures { result ≡ clamp_range ty (quotient_range x (2 ^ k)) }
{
    x.floor_div(power(k)).sat(ty)
}

fn rounded_product(x: Interval, y: Interval, k: u8) -> Option<Interval>
    requires { k < 64 }
    ensures { result ≡ option_and_then (λ p. option_and_then (λ h. within (sum_range p h)) (within (range (half_step k) (half_step k)))) (within (product_range x y)) }
{
    and_half(x.mul(y)?, k)
}

fn alone(n: i128) -> Option<Interval>
    ensures { result ≡ within (range n n) }
{
    Interval::new(n, n)
}
