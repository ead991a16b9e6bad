ghost use Rattle.std.specs.Prelude.{◌≡◌, ◌+◌, ◌≤◌, ◌<◌, ℕ, true, Some, IfOk, OnErr};
ghost use Rattle.pf_values.specs.Meaning.Terms.{IsWellTyped, weight_of};
ghost use Rattle.pf_values.specs.declared.term.Term.TheVariants as term;
ghost use Rattle.pf_bounds.specs.Meaning.TermBounds.{are_ranges_of, operands};
ghost use Rattle.pf_bounds.specs.Meaning.KeptBounds.{Kept};
ghost use Rattle.pf_rules.specs.declared.rule.Kind.TheVariants.{Lift};
ghost use Rattle.pf_check.specs.Meaning.Files.{AreOfKind};
ghost use Rattle.pf_lift.specs.Meaning.Rewriting.{LiftsTo};
ghost use Rattle.pf_lift.specs.Meaning.Lifted.{Keeps};
ghost use Rattle.pf_lift.specs.Steps.Counting.{AreNormal, Becomes, Lifts};

use crate::steps::Steps;
use pf_bounds::{Bounded, Operands, Ranges};
use pf_check::{CheckedFile, CheckedList};
use pf_ints::{LaneType, Memory, Path};
use pf_match::match_kept;
use pf_rules::instance;
use pf_values::{Leaf, Term};
use std::alloc::Global;
use std::sync::ledger::Ledger;

/// The term that a well-typed term becomes when its parts are rewritten by the rules of the file
/// until none matches: at each step the first part, children before parents and from left to
/// right, by the first rule. The counter rises by the number of steps, which is at most what the
/// term weighs more than the result. After want of memory it has risen by at most the term's
/// weight.
pub fn lift_term<L: Ledger>(
    alloc: Global,
    rules: &CheckedFile,
    term: &Term,
    ranges: &Ranges,
    steps: &mut Steps<L>,
) -> Result<Term, Memory>
    requires kind { rules.now.kind ≡ Lift }
    requires typed { IsWellTyped term.now }
    requires entries { are_ranges_of ranges.now term.now ≡ true }
    ensures lifts { IfOk result (λ u. (n : ℕ) × (steps.new ≡ steps.old + n) × LiftsTo rules.now.rules ranges.now n term.now u × (weight_of u + n ≤ weight_of term.now)) }
    ensures keeps { IfOk result (Keeps ranges.now term.now) }
    ensures few { steps.new ≤ steps.old + weight_of term.now }
{
    let lifting = Lifting {
        alloc,
        rules: rules.rules(),
        ranges,
    };
    let lifted = lifting.normal(term, steps)?;
    Ok(lifted.into_term())
}

#[derive(Clone, Copy)]
struct Lifting<'a> {
    alloc: Global,
    rules: &'a CheckedList,
    ranges: &'a Ranges,
}

impl<'a> Lifting<'a> {
    // The term, once no rule matches any part of it.
    #[cycle(lifting)]
    fn normal<L: Ledger>(&self, term: &Term, steps: &mut Steps<L>) -> Result<Bounded, Memory>
        requires kind { AreOfKind Lift self.now.rules.now }
        requires typed { IsWellTyped term.now }
        requires entries { are_ranges_of self.now.ranges.now term.now ≡ true }
        ensures lifts { IfOk result (λ b. Lifts self.now.rules.now self.now.ranges.now term.now b.term steps.old steps.new) }
        ensures kept { IfOk result (Kept self.now.ranges.now) }
        ensures few { steps.new ≤ steps.old + weight_of term.now }
    {
        match term {
            Term::Leaf { leaf, ty } => {
                let whole = self.leaf(*leaf, *ty)?;
                self.finish(whole, steps)
            }
            Term::Node { op, ty, k, args } => {
                let mut operands = Operands::new(self.alloc);
                for arg in args.as_slice() {
                    let operand = self.normal(arg, steps)?;
                    operands = operands.with(operand)?;
                }
                self.finish(Bounded::over(*op, *ty, *k, operands), steps)
            }
        }
    }

    // The term whose operands are so, once no rule matches any part of it.
    #[cycle(lifting)]
    fn finish<L: Ledger>(&self, whole: Bounded, steps: &mut Steps<L>) -> Result<Bounded, Memory>
        requires kind { AreOfKind Lift self.now.rules.now }
        requires typed { IsWellTyped whole.term }
        requires entries { are_ranges_of self.now.ranges.now whole.term ≡ true }
        requires kept { Kept self.now.ranges.now whole }
        requires normal { AreNormal self.now.rules.now self.now.ranges.now (operands whole.term) }
        ensures lifts { IfOk result (λ b. Lifts self.now.rules.now self.now.ranges.now whole.term b.term steps.old steps.new) }
        ensures kept { IfOk result (Kept self.now.ranges.now) }
        ensures few { steps.new ≤ steps.old + weight_of whole.term }
    {
        match self.rewritten(&whole)? {
            None => Ok(whole),
            Some(next) => {
                steps.tick();
                self.normal(&next, steps)
            }
        }
    }

    fn leaf(&self, leaf: Leaf, ty: LaneType) -> Result<Bounded, Memory>
        requires typed { IsWellTyped (term.Leaf leaf ty) }
        requires entries { are_ranges_of self.now.ranges.now (term.Leaf leaf ty) ≡ true }
        ensures term { IfOk result (λ b. b.term ≡ term.Leaf leaf ty) }
        ensures kept { IfOk result (Kept self.now.ranges.now) }
    {
        Bounded::new(self.alloc, Term::Leaf { leaf, ty }, self.ranges)
    }

    // What the first rule that matches makes of a term, or None where no rule matches.
    fn rewritten(&self, whole: &Bounded) -> Result<Option<Term>, Memory>
        requires kind { AreOfKind Lift self.now.rules.now }
        requires typed { IsWellTyped whole.now.term }
        requires entries { are_ranges_of self.now.ranges.now whole.now.term ≡ true }
        requires kept { Kept self.now.ranges.now whole.now }
        ensures { IfOk result (Becomes self.now.rules.now self.now.ranges.now whole.now.term) }
    {
        let root = Path::new(self.alloc);
        for n in 0..self.rules.len() {
            let Some(checked) = self.rules.get(n) else {
                unreachable!()
            };
            let found = match_kept(self.alloc, checked.rule(), whole, &root)?;
            if let Some(binding) = found {
                let parts = checked.rule().parts();
                let next = instance(self.alloc, &parts.rhs, &binding)?;
                return Ok(Some(next));
            }
        }
        Ok(None)
    }
}
