ghost use Rattle.std.specs.Prelude.{◌≡◌, ◌<◌, ◌≤◌, ◌^◌, ◌∷◌, [], length, pos, neg_ℤ, ◌≤ℤ◌, ◌*ℤ◌, true, All, map};
ghost use Rattle.pf_ints.specs.Meaning.Lanes.{IsIn};
ghost use Rattle.pf_values.specs.Meaning.Operators.{row_of, half_step, shifted};
ghost use Rattle.pf_values.specs.Meaning.Terms.{Val, IsWellTyped, is_env_of, is_env_leaf, leaf_value, operand_count, stated_type};
ghost use Rattle.pf_values.specs.Meaning.Small.{IsSmall, IsLong};

use crate::op::Op;
use crate::term::{Env, Leaf, Term};
use pf_ints::{LaneType, sat, wrap};

/// The value of a well-typed term, where the environment has a number of the right type for each
/// of its leaves.
pub fn value(term: &Term, env: &Env) -> i128
    requires typed { IsWellTyped term.now }
    requires entries { is_env_of env.now term.now ≡ true }
    ensures value { result ≡ Val env.now term.now }
    ensures member { IsIn (stated_type term.now) result }
{
    match term {
        Term::Leaf { leaf, ty } => of_leaf(*leaf, *ty, env),
        Term::Node { op, ty, k, args } => {
            let mut values = [0; 4];
            for (n, arg) in args.as_slice().iter().enumerate() {
                values[n] = value(arg, env);
            }
            applied(*op, *ty, *k, &values[..args.len()])
        }
    }
}

fn of_leaf(leaf: Leaf, ty: LaneType, env: &Env) -> i128
    requires { is_env_leaf env.now leaf ty ≡ true }
    ensures { result ≡ leaf_value env.now leaf }
{
    match leaf {
        Leaf::Tap(n) => env.taps.as_slice()[n as usize],
        Leaf::Const(n) => n as i128,
        Leaf::Def(n) => env.defs.as_slice()[n as usize],
    }
}

// The value of a node by the values of its operands.
fn applied(op: Op, ty: LaneType, k: u8, xs: &[i128]) -> i128
    requires count { length xs.now ≡ operand_count (row_of op).operands }
    requires small { All IsSmall xs.now }
    requires amount { k < 64 }
    ensures { result ≡ (row_of op).value ty k xs.now }
{
    match xs {
        [x] => applied_to_one(op, ty, k, *x),
        [x, y] => applied_to_two(op, ty, k, *x, *y),
        [a, b, x, y] => of_four(op, ty, k, [*a, *b, *x, *y]),
        _ => unreachable!(),
    }
}

/// What an operator makes of one number: its value at the type `ty` of the result and the amount
/// `k`, or 0 where it has more operands than one.
pub fn applied_to_one(op: Op, ty: LaneType, k: u8, x: i128) -> i128
    requires small { IsSmall x }
    requires amount { k < 64 }
    ensures { result ≡ (row_of op).value ty k (x ∷ []) }
{
    match op {
        Op::Cast => wrap(ty, x),
        Op::ShiftLeft => wrap(ty, product(x, power(k))),
        Op::ShiftRight => shifted(x, k),
        Op::Abs => x.abs(),
        Op::SaturatingCast => sat(ty, x),
        Op::RoundingShr => shifted(x + half_step(k), k),
        _ => 0,
    }
}

/// What an operator makes of two numbers: its value at the type `ty` of the result and the amount
/// `k`. An operator of one operand takes the first number, and one of four makes 0.
pub fn applied_to_two(op: Op, ty: LaneType, k: u8, x: i128, y: i128) -> i128
    requires first { IsSmall x }
    requires second { IsSmall y }
    requires amount { k < 64 }
    ensures { result ≡ (row_of op).value ty k (x ∷ y ∷ []) }
{
    match op {
        Op::Add | Op::ExtendingAdd => wrap(ty, x + y),
        Op::Sub => wrap(ty, x - y),
        Op::Mul => wrap(ty, product(x, y)),
        Op::Min => x.min(y),
        Op::Max => x.max(y),
        Op::WideningAdd => x + y,
        Op::WideningSub => x - y,
        Op::WideningMul => product(x, y),
        Op::HalvingAdd => shifted(x + y, 1),
        Op::RoundingHalvingAdd => shifted(x + y + 1, 1),
        Op::HalvingSub => wrap(ty, shifted(x - y, 1)),
        Op::SaturatingAdd => sat(ty, x + y),
        Op::SaturatingSub => sat(ty, x - y),
        Op::Absd => (x - y).abs(),
        Op::MulShr => sat(ty, shifted(product(x, y), k)),
        Op::RoundingMulShr => sat(ty, shifted(product(x, y) + half_step(k), k)),
        Op::SelectGreater | Op::SelectEqual => 0,
        _ => applied_to_one(op, ty, k, x),
    }
}

fn of_four(op: Op, ty: LaneType, k: u8, xs: [i128; 4]) -> i128
    requires count { operand_count (row_of op).operands ≡ 4 }
    ensures { result ≡ (row_of op).value ty k xs }
{
    let [a, b, x, y] = xs;
    match op {
        Op::SelectGreater => if a > b { x } else { y },
        Op::SelectEqual => if a == b { x } else { y },
        _ => unreachable!(),
    }
}

// 2 to the power of k.
fn power(k: u8) -> i128
    requires { k < 64 }
    ensures value { result ≡ pos (2 ^ k) }
    ensures bound { IsLong result }
{
    1 << k
}

/// Half a step of a division by 2 to the power of `k`, or 1 where `k` is 0.
pub fn half_step(k: u8) -> i128
    requires { k < 64 }
    ensures { result ≡ half_step k }
{
    power(k.saturating_sub(1))
}

/// The quotient by 2 to the power of `k`, rounded down.
pub fn shifted(x: i128, k: u8) -> i128
    requires { k < 64 }
    ensures { result ≡ shifted x k }
{
    x >> k
}

/// The product of two numbers that aren't large.
pub fn product(x: i128, y: i128) -> i128
    requires first { IsSmall x }
    requires second { IsLong y }
    ensures value { result ≡ x *ℤ y }
    ensures bound { (neg_ℤ (pos (2 ^ 96)) ≤ℤ result) × (result ≤ℤ pos (2 ^ 96)) }
{
    x * y
}
