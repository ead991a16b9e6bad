ghost use Rattle.std.specs.Prelude.{◌≡◌, ◌+◌, ◌<◌, ◌^◌, length, map, IfOk, Ok, true};
ghost use Rattle.pf_forms.specs.Meaning.Shapes.{shape};
ghost use Rattle.pf_forms.specs.Meaning.Values.{IsFormOver};
ghost use Rattle.pf_rules.specs.Meaning.Sorts.{place};
ghost use Rattle.pf_rules.specs.Meaning.Sides.{form_at, HasSort};
ghost use Rattle.pf_rules.specs.Meaning.Rules.{pair};
ghost use Rattle.pf_check.specs.Meaning.Orders.{first_some};
ghost use Rattle.pf_check.specs.Meaning.Faults.{Says};
ghost use Rattle.pf_check.specs.Meaning.Checks.{at_pair, ranges_from, ranges_fault, HasOneType};
ghost use Rattle.pf_check.specs.Meaning.Replays.{sized, replay_of};
ghost use Rattle.pf_check.specs.Meaning.Accepts.{cites_fault, is_citable, replay_fault};
ghost use Rattle.pf_check.specs.Steps.Answers.{here, Makes};
ghost use Rattle.pf_check.specs.Steps.Pairs.{MakesRanges, onto, AllTyped, Lasts};

use crate::checked::EarlierList;
use crate::citing::Setting;
use crate::fault::RuleFault;
use pf_forms::Form;
use pf_ints::{IntervalList, Sequence};
use pf_rules::{By, Kind, Pair, Pattern, RuleParts, Step, VarDecl, VarList, form_of, range_of};
use std::alloc::Global;

/// That each variable has a range at each width and shift.
pub(crate) fn have_ranges(alloc: Global, parts: &RuleParts, pairs: &[Pair]) -> Result<(), RuleFault>
    requires { length parts.now.vars < 256 }
    ensures { Says result (first_some (map (ranges_fault parts.now) pairs.now)) }
{
    match pairs {
        [] => Ok(()),
        [pair, rest @ ..] => {
            ranges_at(alloc, *pair, parts.vars.as_slice())?;
            have_ranges(alloc, parts, rest)
        }
    }
}

/// The ranges of the variables at a width and a shift.
fn ranges_at(alloc: Global, pair: Pair, vars: &[VarDecl]) -> Result<IntervalList, RuleFault>
    requires { length vars.now < 256 }
    ensures { MakesRanges result (ranges_from pair 0 vars.now) }
{
    ranges_onto(pair, 0, vars, Sequence::new(alloc))
}

/// The ranges, and after them those of the variables from n on.
#[tactic(auto, using(crate::proofs::PairLaws::onto_none))]
fn ranges_onto(
    pair: Pair,
    n: u8,
    vars: &[VarDecl],
    ranges: IntervalList,
) -> Result<IntervalList, RuleFault>
    requires { n + length vars.now < 256 }
    ensures { MakesRanges result (onto ranges (ranges_from pair n vars.now)) }
{
    let mut ranges = ranges;
    match vars {
        [] => Ok(ranges),
        [var, rest @ ..] => match range_of(var, pair.w, pair.k) {
            Some(range) => {
                ranges.push(range)?;
                ranges_onto(pair, n + 1, rest, ranges)
            }
            None => Err(RuleFault::Range {
                var: Some(n),
                w: pair.w,
                k: pair.k,
            }),
        },
    }
}

/// That none of the steps, the first of them being step n, cites a rule that was refused.
pub(crate) fn are_citable(earlier: &EarlierList, n: u32, steps: &[Step]) -> Result<(), RuleFault>
    requires { n + length steps.now < 2 ^ 32 }
    ensures { Says result (cites_fault earlier.now n steps.now) }
{
    match steps {
        [] => Ok(()),
        [step, rest @ ..] => {
            if is_citable(earlier, step.by) {
                are_citable(earlier, n + 1, rest)
            } else {
                Err(RuleFault::Cites { n })
            }
        }
    }
}

fn is_citable(earlier: &EarlierList, by: By) -> bool
    ensures { result ≡ is_citable earlier.now by }
{
    match by {
        By::Axiom(_) => true,
        By::Rule(n) => match earlier.get(usize::from(n)) {
            Some(Some(_)) => true,
            _ => false,
        },
    }
}

/// That at each width and shift the certificate makes the forms of both sides equal.
pub(crate) fn are_certified(
    alloc: Global,
    kind: Kind,
    parts: &RuleParts,
    earlier: &EarlierList,
    pairs: &[Pair],
) -> Result<(), RuleFault>
    requires typed { AllTyped kind parts.now pairs.now }
    requires lasts { Lasts parts.now }
    ensures { Says result (first_some (map (replay_fault parts.now earlier.now) pairs.now)) }
{
    match pairs {
        [] => Ok(()),
        [pair, rest @ ..] => {
            is_certified(alloc, kind, parts, earlier, *pair)?;
            are_certified(alloc, kind, parts, earlier, rest)
        }
    }
}

fn is_certified(
    alloc: Global,
    kind: Kind,
    parts: &RuleParts,
    earlier: &EarlierList,
    pair: Pair,
) -> Result<(), RuleFault>
    requires typed { HasOneType true kind parts.now pair }
    requires lasts { Lasts parts.now }
    ensures { Says result (replay_fault parts.now earlier.now pair) }
{
    match ranges_at(alloc, pair, parts.vars.as_slice()) {
        Ok(ranges) => {
            let setting = Setting {
                w: pair.w,
                k: pair.k,
                ranges: &ranges,
                earlier,
            };
            setting.sides_meet(alloc, kind, parts)
        }
        Err(fault) => Err(fault),
    }
}

impl<'a> Setting<'a> {
    /// That the steps make the forms of both sides equal.
    fn sides_meet(&self, alloc: Global, kind: Kind, parts: &RuleParts) -> Result<(), RuleFault>
        requires typed { HasOneType true kind parts.now (pair self.now.w self.now.k) }
        requires lasts { Lasts parts.now }
        requires ranges { ranges_from (pair self.now.w self.now.k) 0 parts.now.vars ≡ Ok self.now.ranges.now }
        ensures { Says result (replay_of (here self.now) parts.now.steps (form_at (at_pair parts.now (pair self.now.w self.now.k)) parts.now.lhs) (form_at (at_pair parts.now (pair self.now.w self.now.k)) parts.now.rhs)) }
    {
        match self.side(alloc, &parts.lhs, &parts.vars) {
            Ok(left) => match self.side(alloc, &parts.rhs, &parts.vars) {
                Ok(right) => self.replay(alloc, 1, parts.steps.as_slice(), left, right),
                Err(fault) => Err(fault),
            },
            Err(fault) => Err(fault),
        }
    }

    /// The form of a side, unless it is too large.
    fn side(&self, alloc: Global, side: &Pattern, vars: &VarList) -> Result<Form, RuleFault>
        requires { HasSort (place self.now.w self.now.k vars.now) side.now }
        ensures value { Makes result (sized (here self.now) 0 (form_at (place self.now.w self.now.k vars.now) side.now)) }
        ensures is { IfOk result (λ f. shape f ≡ form_at (place self.now.w self.now.k vars.now) side.now) }
        ensures over { IfOk result (λ f. IsFormOver (length vars.now) (shape f)) }
    {
        let form = form_of(alloc, side, vars, self.w, self.k)?;
        self.sized(0, form)
    }
}
