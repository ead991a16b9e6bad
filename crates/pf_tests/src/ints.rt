use pf_ints::{FURTHEST, Interval, LaneType};
use std::test::Fail;

fn interval(lo: i128, hi: i128) -> Result<Interval, Fail> {
    Ok(Interval::new(lo, hi).ok_or("no interval")?)
}

fn is(i: Interval, lo: i128, hi: i128) -> bool {
    i.lo() == lo && i.hi() == hi
}

#[test]
fn intervals_keep_their_limits(rt: HostRuntime) -> Result<(), Fail> {
    let most = interval(-FURTHEST, FURTHEST)?;
    let far = 0x100_0000_0000_0000_0000_0000_0000_0000;
    assert!(rt; is(most, -far, far));
    assert!(rt; Interval::new(0, FURTHEST + 1).is_none() && Interval::new(1, 0).is_none());
    let (one, two, minus) = (interval(1, 1)?, interval(2, 2)?, interval(-1, -1)?);
    assert!(rt; most.add(one).is_none() && most.mul(two).is_none());
    assert!(rt; most.mul(minus) == Some(most));
    Ok(())
}

#[test]
fn intervals_reach_their_limits(rt: HostRuntime) -> Result<(), Fail> {
    let one = interval(1, 1)?;
    let sum = interval(0, FURTHEST - 1)?.add(one).ok_or("no sum")?;
    assert!(rt; is(sum, 1, FURTHEST));
    let difference = interval(1 - FURTHEST, 0)?.sub(one).ok_or("no difference")?;
    assert!(rt; is(difference, -FURTHEST, -1));
    Ok(())
}

#[test]
fn intervals_are_the_least(rt: HostRuntime) -> Result<(), Fail> {
    let (a, b) = (interval(-3, 5)?, interval(-7, 2)?);
    assert!(rt; is(a.mul(b).ok_or("no product")?, -35, 21));
    assert!(rt; is(a.floor_div(2), -2, 2) && is(a.abs(), 0, 5));
    assert!(rt; is(a.min(b), -7, 2) && is(a.max(b), -3, 5));
    let (negative, high, low) = (interval(-7, -2)?, interval(3, 256)?, interval(-3, 7)?);
    assert!(rt; is(negative.abs(), 2, 7));
    assert!(rt; is(high.wrap(LaneType::U8), 0, 255) && is(low.sat(LaneType::U8), 0, 7));
    Ok(())
}

#[test]
fn choices_are_the_least(rt: HostRuntime) -> Result<(), Fail> {
    let (a, b) = (interval(-3, 5)?, interval(-7, 2)?);
    let (below, above, both) = (interval(-9, -4)?, interval(5, 9)?, interval(1, 8)?);
    assert!(rt; a.choose(below, b, a) == b && a.choose(above, b, a) == a);
    assert!(rt; is(a.choose(a, b, both), -7, 8));
    Ok(())
}
