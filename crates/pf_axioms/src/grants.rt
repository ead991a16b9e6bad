ghost use Rattle.std.specs.Prelude.{◌≡◌, ◌≤◌, length};
ghost use Rattle.pf_templates.specs.Meaning.Letters.{letters};
ghost use Rattle.pf_templates.specs.Meaning.Building.{AreForms};
ghost use Rattle.pf_axioms.specs.Meaning.Needs.{suits, covers, wanted, keeps_ends, from_to, is_above, is_below};
ghost use Rattle.pf_axioms.specs.Meaning.AxiomSteps.{verdict};
ghost use Rattle.pf_axioms.specs.Steps.Grants.{Allows};

use crate::fault::StepFault;
use crate::needs::Needs;
use pf_forms::form_bounds;
use pf_ints::{Interval, IntervalList, LaneType};
use pf_templates::{Given, Numeral};

/// The least and the greatest number that an interval may reach to, where there are such.
#[derive(Clone, Copy)]
pub struct Ends {
    pub low: Option<i128>,
    pub high: Option<i128>,
}

/// Whether the types and exponents are such as is asked for.
pub fn suits(needs: Needs, given: &Given) -> bool
    ensures { result ≡ suits needs (letters given.now) }
{
    match needs {
        Needs::Wider => given.t.width() <= given.u.width(),
        Needs::Covered => covers(given.u, given.t),
        Needs::Ordered => given.a <= given.b,
        _ => true,
    }
}

/// Whether all of t lies in u.
fn covers(u: LaneType, t: LaneType) -> bool
    ensures { result ≡ covers u t }
{
    u.least() <= t.least() && t.greatest() <= u.greatest()
}

/// Whether the intervals that are asked for are such as is asked for.
pub fn grant(needs: Needs, given: &Given, ranges: &IntervalList) -> Result<(), StepFault>
    requires { AreForms (length ranges.now) (letters given.now) }
    ensures { Allows result (verdict needs ranges.now (letters given.now)) }
{
    if !needs.asks() {
        return Ok(());
    }
    let got = form_bounds(given.x, ranges).ok_or(StepFault::TooWide)?;
    let other = if needs.reads_y() { given.y } else { given.x };
    let other = form_bounds(other, ranges).ok_or(StepFault::TooWide)?;
    if keep(wanted(needs, given, other), got) {
        Ok(())
    } else {
        Err(StepFault::NotGranted { got })
    }
}

/// The ends that the interval of x has to keep, where the other form's interval is `other`.
fn wanted(needs: Needs, given: &Given, other: Interval) -> Ends
    requires { (letters given.now).a ≤ 120 }
    ensures { result ≡ wanted needs (letters given.now) other }
{
    match needs {
        Needs::InT => from_to(Some(given.t.least()), Some(given.t.greatest())),
        Needs::FromLeast => from_to(Some(given.t.least()), None),
        Needs::ToGreatest => from_to(None, Some(given.t.greatest())),
        Needs::BelowPower => from_to(Some(0), Some(given.numeral(Numeral::BelowTwoToA))),
        Needs::AbovePower => from_to(Some(-given.numeral(Numeral::TwoToA)), Some(-1)),
        Needs::Positive => from_to(Some(0), None),
        Needs::Negative => from_to(None, Some(0)),
        Needs::UnderY => from_to(None, Some(other.lo())),
        Needs::OverY => from_to(Some(other.hi()), None),
        _ => from_to(None, None),
    }
}

fn from_to(low: Option<i128>, high: Option<i128>) -> Ends
    ensures { result ≡ from_to low high }
{
    Ends { low, high }
}

/// Whether the interval keeps the ends.
fn keep(ends: Ends, got: Interval) -> bool
    ensures { result ≡ keeps_ends ends got }
{
    is_above(ends.low, got.lo()) && is_below(ends.high, got.hi())
}

fn is_above(low: Option<i128>, n: i128) -> bool
    ensures { result ≡ is_above low n }
{
    match low {
        Some(low) => low <= n,
        None => true,
    }
}

fn is_below(high: Option<i128>, n: i128) -> bool
    ensures { result ≡ is_below high n }
{
    match high {
        Some(high) => n <= high,
        None => true,
    }
}
