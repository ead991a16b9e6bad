ghost use Rattle.std.specs.Prelude.{◌≡◌, ◌+◌, ◌<◌, ◌^◌, ℕ, [], length, IfOk};
ghost use Rattle.pf_forms.specs.Meaning.Shapes.{shape};
ghost use Rattle.pf_forms.specs.Meaning.Values.{IsFormOver};
ghost use Rattle.pf_axioms.specs.Meaning.AxiomSteps.{KeepsValue};
ghost use Rattle.pf_check.specs.Meaning.Faults.{Says};
ghost use Rattle.pf_check.specs.Meaning.Replays.{told, stepped, taken, sized, replayed};
ghost use Rattle.pf_check.specs.Steps.Answers.{here, Makes};

use crate::citing::Setting;
use crate::fault::RuleFault;
use pf_axioms::{StepFault, apply};
use pf_forms::{Form, at, equal, put, size};
use pf_rules::{By, Step};
use std::alloc::Global;

/// How many nodes a form may have.
pub(crate) const MOST_NODES: u64 = 8192;

impl<'a> Setting<'a> {
    /// The steps in order, the first of them being step n: the first fault, or that at the end the
    /// two forms differ.
    pub(crate) fn replay(
        &self,
        alloc: Global,
        n: u32,
        steps: &[Step],
        left: Form,
        right: Form,
    ) -> Result<(), RuleFault>
        requires count { n + length steps.now < 2 ^ 32 }
        requires left { IsFormOver (length self.now.ranges.now) (shape left) }
        requires right { IsFormOver (length self.now.ranges.now) (shape right) }
        ensures { Says result (replayed (here self.now) n steps.now (shape left) (shape right)) }
    {
        match steps {
            [] => self.compare(left, right),
            [step, rest @ ..] => {
                if step.left {
                    let left = self.take(alloc, n, step, left)?;
                    self.replay(alloc, n + 1, rest, left, right)
                } else {
                    let right = self.take(alloc, n, step, right)?;
                    self.replay(alloc, n + 1, rest, left, right)
                }
            }
        }
    }

    fn compare(&self, left: Form, right: Form) -> Result<(), RuleFault>
        ensures { (n : ℕ) → Says result (replayed (here self.now) n [] (shape left) (shape right)) }
    {
        if equal(&left, &right) {
            Ok(())
        } else {
            Err(RuleFault::Apart {
                w: self.w,
                k: self.k,
                left,
                right,
            })
        }
    }

    /// What step n makes of a form.
    fn take(&self, alloc: Global, n: u32, step: &Step, form: Form) -> Result<Form, RuleFault>
        requires { IsFormOver (length self.now.ranges.now) (shape form) }
        ensures value { Makes result (taken (here self.now) n step.now (shape form)) }
        ensures keeps { IfOk result (λ g. KeepsValue self.now.ranges.now (shape form) (shape g)) }
    {
        let Some(part) = at(&form, &step.path) else {
            return Err(self.refused(n, StepFault::NoMatch));
        };
        match self.rewrite(alloc, n, step.by, part) {
            Ok(new) => self.sized(n, put(form, &step.path, new)),
            Err(fault) => Err(fault),
        }
    }

    /// What a part becomes at step n.
    fn rewrite(&self, alloc: Global, n: u32, by: By, part: &Form) -> Result<Form, RuleFault>
        requires { IsFormOver (length self.now.ranges.now) (shape part.now) }
        ensures value { Makes result (told (here self.now) n (stepped (here self.now) by (shape part.now))) }
        ensures keeps { IfOk result (λ g. KeepsValue self.now.ranges.now (shape part.now) (shape g)) }
    {
        match by {
            By::Axiom(axiom) => match apply(alloc, axiom, part, self.ranges) {
                Ok(new) => Ok(new),
                Err(fault) => Err(self.refused(n, fault)),
            },
            By::Rule(rule) => match self.earlier.get(usize::from(rule)) {
                Some(Some(checked)) => self.cite(alloc, n, checked, part),
                _ => Err(self.refused(n, StepFault::NoMatch)),
            },
        }
    }

    /// The form after step n, unless it is too large.
    pub(crate) fn sized(&self, n: u32, form: Form) -> Result<Form, RuleFault>
        ensures value { Makes result (sized (here self.now) n (shape form)) }
        ensures same { IfOk result (λ g. shape g ≡ shape form) }
    {
        let count = size(&form);
        if count <= MOST_NODES {
            Ok(form)
        } else {
            Err(RuleFault::TooLarge {
                n,
                w: self.w,
                k: self.k,
                count,
            })
        }
    }
}
