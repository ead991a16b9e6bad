ghost use Rattle.std.specs.Prelude.{◌≡◌, ◌+◌, ◌<◌, ℕ, None, Some, length, map, option_map, IfOk};
ghost use Rattle.pf_forms.specs.Meaning.Shapes.{shape};
ghost use Rattle.pf_forms.specs.Meaning.Values.{IsFormOver};
ghost use Rattle.pf_axioms.specs.Meaning.AxiomSteps.{KeepsValue};
ghost use Rattle.pf_rules.specs.Meaning.Rules.{first_bad, pair, pairs};
ghost use Rattle.pf_check.specs.Meaning.Citing.{bindings, cited, first_outside, has_pair, have_bounds, outside, shift_or};
ghost use Rattle.pf_check.specs.Meaning.Replays.{told};
ghost use Rattle.pf_check.specs.Steps.Answers.{here, Makes, AreForms, joined, refused};

use crate::checked::{Checked, EarlierList};
use crate::fault::RuleFault;
use crate::filling::{filled, fits, standing};
use pf_axioms::StepFault;
use pf_forms::{Form, form_bounds};
use pf_ints::{Interval, IntervalList};
use pf_rules::{Number, Pair, PairsFault, Rule, VarDecl, form_of, pairs, range_of};
use std::alloc::{AllocError, Global};

/// Where steps are taken: at this width and shift, inside the variables' ranges, with the earlier
/// rules that may be cited.
#[derive(Clone, Copy)]
pub(crate) struct Setting<'a> {
    pub(crate) w: u8,
    pub(crate) k: u8,
    pub(crate) ranges: &'a IntervalList,
    pub(crate) earlier: &'a EarlierList,
}

impl<'a> Setting<'a> {
    /// The fault of step n.
    pub(crate) fn refused(&self, n: u32, fault: StepFault) -> RuleFault
        ensures { result ≡ refused n self.now.w self.now.k fault }
    {
        match fault {
            StepFault::Memory => RuleFault::Memory,
            fault => RuleFault::Step {
                n,
                w: self.w,
                k: self.k,
                fault,
            },
        }
    }

    /// The form rewritten at its root by an earlier rule, at step n.
    pub(crate) fn cite(
        &self,
        alloc: Global,
        n: u32,
        checked: &Checked,
        form: &Form,
    ) -> Result<Form, RuleFault>
        requires { IsFormOver (length self.now.ranges.now) (shape form.now) }
        ensures value { Makes result (told (here self.now) n (cited checked.now.rule self.now.w self.now.k self.now.ranges.now (shape form.now))) }
        ensures keeps { IfOk result (λ g. KeepsValue self.now.ranges.now (shape form.now) (shape g)) }
    {
        let rule = checked.rule();
        let parts = rule.parts();
        let k = shift_or(&parts.shift, self.k);
        if !has_pair(alloc, rule, self.w, k)? {
            return Err(self.refused(n, StepFault::NoMatch));
        }
        let left = form_of(alloc, &parts.lhs, &parts.vars, self.w, k)?;
        let Some(forms) = bindings(alloc, parts.vars.as_slice(), &left, form)? else {
            return Err(self.refused(n, StepFault::NoMatch));
        };
        if !fits(&forms, &left, form) {
            return Err(self.refused(n, StepFault::NoMatch));
        }
        if !have_bounds(&forms, self.ranges) {
            return Err(self.refused(n, StepFault::TooWide));
        }
        let pair = Pair { w: self.w, k };
        if let Some(got) = first_outside(parts.vars.as_slice(), &forms, pair, self.ranges) {
            return Err(self.refused(n, StepFault::NotGranted { got }));
        }
        let right = form_of(alloc, &parts.rhs, &parts.vars, self.w, k)?;
        Ok(filled(alloc, &right, &forms)?)
    }
}

fn shift_or(shift: &Option<(Number, Number)>, k: u8) -> u8
    ensures { result ≡ shift_or shift.now k }
{
    match shift {
        Some(_) => k,
        None => 0,
    }
}

/// Whether a rule is one at this width and shift.
fn has_pair(alloc: Global, rule: &Rule, w: u8, k: u8) -> Result<bool, AllocError>
    requires { first_bad rule.now.widths rule.now.shift ≡ None }
    ensures { IfOk result (λ b. b ≡ has_pair (pairs rule.now) (pair w k)) }
{
    match pairs(alloc, rule) {
        Ok(all) => Ok(is_among(all.as_slice(), Pair { w, k })),
        Err(PairsFault::Shift { .. }) => unreachable!(),
        Err(PairsFault::Memory) => Err(AllocError),
    }
}

fn is_among(all: &[Pair], pair: Pair) -> bool
    ensures { result ≡ has_pair all.now pair }
{
    match all {
        [] => false,
        [first, rest @ ..] => (first.w == pair.w && first.k == pair.k) || is_among(rest, pair),
    }
}

/// Copies of what stands for each variable, or None where one of them stands nowhere.
fn bindings(
    alloc: Global,
    vars: &[VarDecl],
    pattern: &Form,
    form: &Form,
) -> Result<Option<Vec<Form>>, AllocError>
    requires { length vars.now < 256 }
    ensures { IfOk result (λ o. option_map (λ v. map shape v.items) o ≡ bindings 0 vars.now (shape pattern.now) (shape form.now)) }
{
    bindings_from(alloc, 0, vars, pattern, form, Vec::new(alloc))
}

/// The forms, and after them those for the variables from n on.
fn bindings_from(
    alloc: Global,
    n: u8,
    vars: &[VarDecl],
    pattern: &Form,
    form: &Form,
    forms: Vec<Form>,
) -> Result<Option<Vec<Form>>, AllocError>
    requires { n + length vars.now < 256 }
    ensures { IfOk result (λ o. option_map (λ v. map shape v.items) o ≡ joined (map shape forms.items) (bindings n vars.now (shape pattern.now) (shape form.now))) }
{
    let mut forms = forms;
    match vars {
        [] => Ok(Some(forms)),
        [_, rest @ ..] => match standing(n, pattern, form) {
            Some(found) => {
                forms.push(found.copy(alloc)?)?;
                bindings_from(alloc, n + 1, rest, pattern, form, forms)
            }
            None => Ok(None),
        },
    }
}

/// Whether each form has an interval.
fn have_bounds(forms: &[Form], ranges: &IntervalList) -> bool
    requires { AreForms (length ranges.now) (map shape forms.now) }
    ensures { result ≡ have_bounds ranges.now (map shape forms.now) }
{
    match forms {
        [] => true,
        [first, rest @ ..] => form_bounds(first, ranges).is_some() && have_bounds(rest, ranges),
    }
}

/// The first interval of a form that doesn't lie in its variable's range.
fn first_outside(
    vars: &[VarDecl],
    forms: &[Form],
    pair: Pair,
    ranges: &IntervalList,
) -> Option<Interval>
    requires { AreForms (length ranges.now) (map shape forms.now) }
    ensures { result ≡ first_outside pair ranges.now vars.now (map shape forms.now) }
{
    let [var, vars @ ..] = vars else {
        return None;
    };
    let [first, rest @ ..] = forms else {
        return None;
    };
    match outside(range_of(var, pair.w, pair.k), form_bounds(first, ranges)) {
        Some(got) => Some(got),
        None => first_outside(vars, rest, pair, ranges),
    }
}

fn outside(stated: Option<Interval>, got: Option<Interval>) -> Option<Interval>
    ensures { result ≡ outside stated got }
{
    match (stated, got) {
        (Some(stated), Some(got)) => { if got.lies_in(stated) { None } else { Some(got) } }
        (None, Some(got)) => Some(got),
        (_, None) => None,
    }
}
