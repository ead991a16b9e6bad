ghost use Rattle.std.specs.Prelude.{◌≡◌, ◌≤◌, map, pos, ◌^◌, ◌+ℤ◌, ◌*ℤ◌, IfSome};
ghost use Rattle.pf_rules.specs.Meaning.Numbers.{limited, with_sign, sum_from, unit_at, linear_part_at, amount_at, power_at, item_at, part_at, number_at, IsLimited};

use crate::number::{Amount, LinOf, LinPart, Number, NumberItem, NumberPart};
use pf_ints::FURTHEST;

/// The value of a number at the width `w` and the shift `k`. None where a power has a negative
/// exponent, or a part or the sum of the first parts is further than 2^120 from 0.
pub fn number_at(number: &Number, w: u8, k: u8) -> Option<i128>
    ensures { result ≡ number_at w k number.now }
{
    let mut sum = 0;
    for part in number.parts.as_slice() {
        sum = sum_of(sum, part_at(part, w, k)?)?;
    }
    Some(sum)
}

/// The value of an amount or an exponent at the width `w` and the shift `k`. None where a part or
/// the sum of the first parts is further than 2^120 from 0.
pub fn amount_at(amount: &Amount, w: u8, k: u8) -> Option<i128>
    ensures { result ≡ amount_at w k amount.now }
{
    match amount {
        Amount::Int(n) => Some(i128::from(*n)),
        Amount::W => Some(i128::from(w)),
        Amount::K => Some(i128::from(k)),
        Amount::Linear(parts) => linear_at(parts.as_slice(), w, k),
    }
}

fn linear_at(parts: &[LinPart], w: u8, k: u8) -> Option<i128>
    ensures { result ≡ sum_from (pos 0) (map (linear_part_at w k) parts.now) }
{
    let mut sum = 0;
    for part in parts {
        sum = sum_of(sum, linear_part_at(part, w, k)?)?;
    }
    Some(sum)
}

fn linear_part_at(part: &LinPart, w: u8, k: u8) -> Option<i128>
    ensures { result ≡ linear_part_at w k part.now }
{
    let unit = match part.of {
        LinOf::One => 1,
        LinOf::W => i128::from(w),
        LinOf::K => i128::from(k),
    };
    Some(with_sign(part.minus, multiple_of(part.times, unit)?))
}

fn part_at(part: &NumberPart, w: u8, k: u8) -> Option<i128>
    ensures { result ≡ part_at w k part.now }
{
    Some(with_sign(part.minus, item_at(&part.item, w, k)?))
}

fn item_at(item: &NumberItem, w: u8, k: u8) -> Option<i128>
    ensures value { result ≡ item_at w k item.now }
    ensures within { IfSome result IsLimited }
{
    match item {
        NumberItem::Int(n) => Some(i128::from(*n)),
        NumberItem::Power { times, exponent } => power_at(*times, amount_at(exponent, w, k)?),
        NumberItem::W => Some(i128::from(w)),
        NumberItem::K => Some(i128::from(k)),
    }
}

fn power_at(times: i64, e: i128) -> Option<i128>
    ensures value { result ≡ power_at times e }
    ensures within { IfSome result IsLimited }
{
    if e < 0 {
        None
    } else if times == 0 {
        Some(0)
    } else if e > 120 {
        None
    } else {
        multiple_of(times, power(e as u8))
    }
}

fn power(e: u8) -> i128
    requires { e ≤ 120 }
    ensures { result ≡ pos (2 ^ e) }
{
    1 << e
}

fn sum_of(sum: i128, n: i128) -> Option<i128>
    ensures { result ≡ limited (sum +ℤ n) }
{
    limited(sum.checked_add(n)?)
}

fn multiple_of(times: i64, n: i128) -> Option<i128>
    ensures value { result ≡ limited (times *ℤ n) }
    ensures within { IfSome result IsLimited }
{
    limited(i128::from(times).checked_mul(n)?)
}

fn limited(n: i128) -> Option<i128>
    ensures value { result ≡ limited n }
    ensures within { IfSome result IsLimited }
{
    if -FURTHEST <= n && n <= FURTHEST {
        Some(n)
    } else {
        None
    }
}

fn with_sign(minus: bool, n: i128) -> i128
    requires { IsLimited n }
    ensures { result ≡ with_sign minus n }
{
    if minus { -n } else { n }
}
