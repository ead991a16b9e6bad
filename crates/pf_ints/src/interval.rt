ghost use Rattle.std.specs.Prelude.{◌≡◌, ◌↔◌, ◌⊎◌, ℤ, pos, ◌≤ℤ◌, ◌+ℤ◌, ◌-ℤ◌, ◌*ℤ◌, IsSome, unsigned_abs};
ghost use Rattle.std.specs.Int.{int_max, int_min};
ghost use Rattle.pf_ints.specs.Meaning.Whole.{floor_div};
ghost use Rattle.pf_ints.specs.Meaning.Lanes.{clamped};
ghost use Rattle.pf_ints.specs.Meaning.Ranges.{range, IsRange, Includes, IsLeast, IsLeastWithin, IsImage, IsJointImage, within, sum_range, difference_range, product_range, quotient_range, min_range, max_range, abs_range, lane_range, lies_in, wrap_range, clamp_range, join_range, choice_range};

use crate::lane::{LaneType, sat};
use crate::sequence::{Duplicate, Sequence};
use std::alloc::{AllocError, Global};
use std::marker::Model;

/// How far from 0 a bound may be.
pub const FURTHEST: i128 = 1 << 120;

/// The whole numbers from `lo` to `hi`, none of them further than 2^120 from 0.
#[derive(Clone, Copy, Debug, PartialEq, Eq)]
pub struct Interval {
    lo: i128,
    hi: i128,
}

/// Intervals.
pub type IntervalList = Sequence<Interval>;

impl Model for Interval {
    ghost use Rattle.pf_ints.specs.Meaning.Ranges.{Range, range, IsRange};

    ghost Value = { Range };

    ghost view = { λ i. range i.lo i.hi };

    ghost invariant = { λ i. IsRange (range i.lo i.hi) };

    ghost inverse = { λ r. record { lo = r.lo; hi = r.hi } };
}

impl Interval {
    /// The interval of these bounds, or None where `lo` is above `hi` or a bound is too far
    /// from 0.
    #[tactic(auto, unfolding(crate::specs::Meaning::Ranges::within))]
    pub fn new(lo: i128, hi: i128) -> Option<Interval>
        ensures some { IsSome result ↔ IsRange (range lo hi) }
        ensures value { result ≡ within (range lo hi) }
    {
        if -FURTHEST <= lo && lo <= hi && hi <= FURTHEST {
            Some(Interval { lo, hi })
        } else {
            None
        }
    }

    /// The least number.
    pub fn lo(self) -> i128
        ensures value { result ≡ self.lo }
        ensures kept { IsRange self }
    {
        self.lo
    }

    /// The greatest number.
    pub fn hi(self) -> i128
        ensures value { result ≡ self.hi }
        ensures kept { IsRange self }
    {
        self.hi
    }

    /// The least interval of all sums, or None where it leaves the limits.
    pub fn add(self, o: Interval) -> Option<Interval>
        ensures least { IsLeastWithin (IsJointImage (λ x y. x +ℤ y) self o) result }
        ensures value { result ≡ within (sum_range self o) }
    {
        Interval::new(self.lo + o.lo, self.hi + o.hi)
    }

    /// The least interval of all differences, or None where it leaves the limits.
    pub fn sub(self, o: Interval) -> Option<Interval>
        ensures least { IsLeastWithin (IsJointImage (λ x y. x -ℤ y) self o) result }
        ensures value { result ≡ within (difference_range self o) }
    {
        Interval::new(self.lo - o.hi, self.hi - o.lo)
    }

    /// The least interval of all products, or None where it leaves the limits.
    pub fn mul(self, o: Interval) -> Option<Interval>
        ensures least { IsLeastWithin (IsJointImage (λ x y. x *ℤ y) self o) result }
        ensures value { result ≡ within (product_range self o) }
    {
        self.product(o)
    }

    fn product(self, o: Interval) -> Option<Interval>
        ensures value { result ≡ within (product_range self o) }
        ensures kept { IsRange self }
        ensures kept_o { IsRange o }
    {
        let low_low = self.lo.checked_mul(o.lo)?;
        let high_low = self.hi.checked_mul(o.lo)?;
        let low_high = self.lo.checked_mul(o.hi)?;
        let high_high = self.hi.checked_mul(o.hi)?;
        let least = low_low.min(high_low).min(low_high.min(high_high));
        let greatest = low_low.max(high_low).max(low_high.max(high_high));
        Interval::new(least, greatest)
    }

    /// The least interval of all quotients by `d`, rounded down.
    pub fn floor_div(self, d: i128) -> Interval
        requires { pos 1 ≤ℤ d }
        ensures least { IsLeast (IsImage (λ x. floor_div x (unsigned_abs d)) self) result }
        ensures value { result ≡ quotient_range self (unsigned_abs d) }
    {
        Interval {
            lo: self.lo.div_euclid(d),
            hi: self.hi.div_euclid(d),
        }
    }

    /// The least interval of the lesser of two numbers.
    pub fn min(self, o: Interval) -> Interval
        ensures least { IsLeast (IsJointImage int_min self o) result }
        ensures value { result ≡ min_range self o }
    {
        Interval {
            lo: self.lo.min(o.lo),
            hi: self.hi.min(o.hi),
        }
    }

    /// The least interval of the greater of two numbers.
    pub fn max(self, o: Interval) -> Interval
        ensures least { IsLeast (IsJointImage int_max self o) result }
        ensures value { result ≡ max_range self o }
    {
        Interval {
            lo: self.lo.max(o.lo),
            hi: self.hi.max(o.hi),
        }
    }

    /// The least interval of the distances from 0.
    pub fn abs(self) -> Interval
        ensures least { IsLeast (IsImage (λ x. pos (unsigned_abs x)) self) result }
        ensures value { result ≡ abs_range self }
    {
        Interval {
            lo: self.lo.max(-self.hi).max(0),
            hi: self.hi.max(-self.lo),
        }
    }

    /// All members of `t`.
    pub fn of(t: LaneType) -> Interval
        ensures { result ≡ lane_range t }
    {
        Interval {
            lo: t.least(),
            hi: t.greatest(),
        }
    }

    /// Whether `o` holds all of this interval.
    pub fn lies_in(self, o: Interval) -> bool
        ensures { result ≡ lies_in self o }
    {
        o.lo <= self.lo && self.hi <= o.hi
    }

    /// This interval where it lies in `t`, else all of `t`.
    pub fn wrap(self, t: LaneType) -> Interval
        ensures { result ≡ wrap_range t self }
    {
        let whole = Interval::of(t);
        if self.lies_in(whole) { self } else { whole }
    }

    /// This interval with both ends brought to the nearest member of `t`.
    pub fn sat(self, t: LaneType) -> Interval
        ensures least { IsLeast (IsImage (λ n. clamped t n) self) result }
        ensures value { result ≡ clamp_range t self }
    {
        Interval {
            lo: sat(t, self.lo),
            hi: sat(t, self.hi),
        }
    }

    /// The least interval that holds all of both.
    pub fn join(self, o: Interval) -> Interval
        ensures least { IsLeast (λ n. Includes self n ⊎ Includes o n) result }
        ensures value { result ≡ join_range self o }
    {
        Interval {
            lo: self.lo.min(o.lo),
            hi: self.hi.max(o.hi),
        }
    }

    /// Where "x if a is above b, and else y" lies, for a of this interval and b of `o`: `x` where
    /// every a is above every b, `y` where none is, and else the least interval that holds both.
    pub fn choose(self, o: Interval, x: Interval, y: Interval) -> Interval
        ensures { result ≡ choice_range self o x y }
    {
        if self.lo > o.hi {
            x
        } else if self.hi <= o.lo {
            y
        } else {
            x.join(y)
        }
    }
}

impl Duplicate for Interval {
    fn copy(&self, _alloc: Global) -> Result<Interval, AllocError> {
        Ok(*self)
    }
}
