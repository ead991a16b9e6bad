ghost use Rattle.std.specs.Prelude.{◌≡◌, true, Some, IsSome, slice_get};
ghost use Rattle.pf_ints.specs.Meaning.Lanes.{is_in};
ghost use Rattle.pf_ints.specs.Meaning.Ranges.{Includes, IsRange, range, within, lies_in, lane_range};
ghost use Rattle.pf_values.specs.declared.term.Env.{Env};
ghost use Rattle.pf_values.specs.Meaning.Terms.{Val, IsWellTyped, stated_type, is_formed_leaf};
ghost use Rattle.pf_bounds.specs.Meaning.TermBounds.{leaf_range, interval_of, lies_in_type, is_ranged_leaf, are_ranges_of, IsWithin};

use crate::operators::{of_four, of_one, of_two};
use crate::ranges::Ranges;
use pf_ints::{Interval, IntervalList, LaneType};
use pf_values::{Leaf, Term};

/// The interval of a well-typed term each of whose leaves has a range that lies in the leaf's
/// type. It lies in the term's type, and holds the term's value wherever the leaves' numbers lie
/// in their ranges. It takes no memory, and a call deep for each node above another.
pub fn bounds(term: &Term, ranges: &Ranges) -> Interval
    requires typed { IsWellTyped term.now }
    requires entries { are_ranges_of ranges.now term.now ≡ true }
    ensures value { interval_of ranges.now term.now ≡ Some result }
    ensures member { lies_in result (lane_range (stated_type term.now)) ≡ true }
    ensures holds { (env : Env) → IsWithin ranges.now env → Includes result (Val env term.now) }
{
    inferred(term, ranges)
}

fn inferred(term: &Term, ranges: &Ranges) -> Interval
    requires typed { IsWellTyped term.now }
    requires entries { are_ranges_of ranges.now term.now ≡ true }
    ensures value { interval_of ranges.now term.now ≡ Some result }
    ensures kept { IsRange result }
    ensures member { lies_in result (lane_range (stated_type term.now)) ≡ true }
{
    match term {
        Term::Leaf { leaf, ty } => of_leaf(*leaf, *ty, ranges),
        Term::Node { op, ty, k, args } => match args.as_slice() {
            [x] => found(of_one(*op, *ty, *k, inferred(x, ranges))),
            [x, y] => found(of_two(*op, *ty, *k, inferred(x, ranges), inferred(y, ranges))),
            [a, b, x, y] => {
                let a = inferred(a, ranges);
                let b = inferred(b, ranges);
                let x = inferred(x, ranges);
                let y = inferred(y, ranges);
                found(of_four(*op, a, b, x, y))
            }
            _ => unreachable!(),
        },
    }
}

// The range of what a leaf stands for.
pub fn of_leaf(leaf: Leaf, ty: LaneType, ranges: &Ranges) -> Interval
    requires formed { is_formed_leaf leaf ty ≡ true }
    requires entry { is_ranged_leaf ranges.now leaf ty ≡ true }
    ensures value { leaf_range ranges.now leaf ≡ Some result }
    ensures kept { IsRange result }
    ensures member { lies_in result (lane_range ty) ≡ true }
{
    match leaf {
        Leaf::Tap(n) => entry(&ranges.taps, n, ty),
        Leaf::Const(n) => alone(n, ty),
        Leaf::Def(n) => entry(&ranges.defs, n, ty),
    }
}

// The range at a place of the list.
fn entry(ranges: &IntervalList, n: u8, _ty: LaneType) -> Interval
    requires { lies_in_type (slice_get ranges.now n) _ty ≡ true }
    ensures value { slice_get ranges.now n ≡ Some result }
    ensures kept { IsRange result }
    ensures member { lies_in result (lane_range _ty) ≡ true }
{
    let range = ranges.as_slice()[n as usize];
    let _lo = range.lo();
    range
}

// The interval of one member of a type.
#[tactic(auto, using(crate::proofs::TermLaws::const_kept))]
fn alone(n: i64, _ty: LaneType) -> Interval
    requires { is_in _ty n ≡ true }
    ensures value { within (range n n) ≡ Some result }
    ensures kept { IsRange result }
    ensures member { lies_in result (lane_range _ty) ≡ true }
{
    let interval = found(Interval::new(n as i128, n as i128));
    let _lo = interval.lo();
    interval
}

pub fn found(interval: Option<Interval>) -> Interval
    requires { IsSome interval }
    ensures { interval ≡ Some result }
{
    match interval {
        Some(interval) => interval,
        None => unreachable!(),
    }
}
