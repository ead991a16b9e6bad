ghost use Rattle.std.specs.Prelude.{◌≡◌, ◌<◌, ℕ, ℤ, Ok, Some, pos, true, length, map, IfOk};
ghost use Rattle.pf_forms.specs.Meaning.Shapes.{shape};
ghost use Rattle.pf_forms.specs.Meaning.Values.{FVal, IsFormOver};
ghost use Rattle.pf_rules.specs.Meaning.Numbers.{amount_at};
ghost use Rattle.pf_rules.specs.Meaning.Sorts.{place};
ghost use Rattle.pf_rules.specs.Meaning.Sides.{form_at, typed_form, PVal, HasSort, stated_or, amount_or, lane_gives};
ghost use Rattle.pf_rules.specs.Steps.Sorted.{here, own_formed, HasOwnSort, IsSmallAmount, HasRow};

use crate::evaluating::{amount_at, number_at};
use crate::number::Amount;
use crate::pattern::{PatType, Pattern};
use crate::place::{Place, lane_at};
use crate::rule::VarList;
use crate::sorts::{op_gives, type_or};
use pf_forms::Form;
use pf_ints::{LaneType, Memory, Target};
use pf_laneops::{LaneName, lane_form, lane_type, op_form};
use std::alloc::Global;

/// The form of a pattern that has a type at the width `w` and the shift `k`. The form has the
/// pattern's value.

pub fn form_of(
    alloc: Global,
    pattern: &Pattern,
    vars: &VarList,
    w: u8,
    k: u8,
) -> Result<Form, Memory>
    requires { HasSort (place w k vars.now) pattern.now }
    ensures form { IfOk result (λ f. shape f ≡ form_at (place w k vars.now) pattern.now) }
    ensures value { IfOk result (λ f. (v : ℕ → ℤ) → FVal v (shape f) ≡ PVal (place w k vars.now) v pattern.now) }
    ensures over { IfOk result (λ f. IsFormOver (length vars.now) (shape f)) }
{
    form_at(alloc, pattern, vars, w, k)
}

fn form_at(alloc: Global, pattern: &Pattern, vars: &VarList, w: u8, k: u8) -> Result<Form, Memory>
    requires { HasSort (place w k vars.now) pattern.now }
    ensures { IfOk result (λ f. shape f ≡ form_at (place w k vars.now) pattern.now) }
{
    let place = Place { vars, w, k };
    let (_, form) = place.typed_form(alloc, pattern)?;
    Ok(form)
}

impl<'a> Place<'a> {
    /// The type and the form of a pattern.
    fn typed_form(&self, alloc: Global, pattern: &Pattern) -> Result<(LaneType, Form), Memory>
        requires { HasSort (here self.now) pattern.now }
        ensures ty { IfOk result (λ r. r.0 ≡ (typed_form (here self.now) pattern.now).0) }
        ensures form { IfOk result (λ r. shape r.1 ≡ (typed_form (here self.now) pattern.now).1) }
    {
        match pattern {
            Pattern::Var(_) | Pattern::Const { .. } => self.own_form(alloc, pattern, &[], &[]),
            Pattern::Node { args, .. } | Pattern::Lane { args, .. } => {
                let mut types = Vec::new(alloc);
                let mut forms = Vec::new(alloc);
                for arg in args.as_slice() {
                    let (ty, form) = self.typed_form(alloc, arg)?;
                    types.push(ty)?;
                    forms.push(form)?;
                }
                self.own_form(alloc, pattern, types.as_slice(), forms.as_slice())
            }
        }
    }

    /// The type and the form of a node, by those of its operands.
    fn own_form(
        &self,
        alloc: Global,
        pattern: &Pattern,
        types: &[LaneType],
        forms: &[Form],
    ) -> Result<(LaneType, Form), Memory>
        requires sorted { HasOwnSort (here self.now) types.now pattern.now }
        requires alike { length forms.now ≡ length types.now }
        ensures ty { IfOk result (λ r. r.0 ≡ (own_formed (here self.now) types.now (map shape forms.now) pattern.now).0) }
        ensures form { IfOk result (λ r. shape r.1 ≡ (own_formed (here self.now) types.now (map shape forms.now) pattern.now).1) }
    {
        match pattern {
            Pattern::Var(n) => Ok((type_or(self.type_of_var(*n)), Form::Var(*n))),
            Pattern::Const { n, ty } => {
                let value = number_at(n, self.w, self.k).unwrap_or(0);
                Ok((type_or(lane_at(*ty, self.w)), Form::Num(value)))
            }
            Pattern::Node { op, to, k, .. } => {
                let ty = op_gives(*op, self.stated_or(*to), types);
                let form = op_form(alloc, *op, ty, forms, self.amount_or(k))?;
                Ok((ty, form))
            }
            Pattern::Lane { op, to, k, .. } => {
                let k = self.amount_or(k);
                let ty = lane_gives(*op, self.stated_or(*to), types, k);
                let form = lane_form(alloc, *op, ty, forms, k)?;
                Ok((ty, form))
            }
        }
    }

    fn stated_or(&self, to: Option<PatType>) -> Option<LaneType>
        ensures { result ≡ stated_or (here self.now) to }
    {
        lane_at(to?, self.w)
    }

    fn amount_or(&self, k: &Amount) -> u8
        requires { IsSmallAmount (here self.now) k.now }
        ensures { result ≡ amount_or (here self.now) k.now }
    {
        match amount_at(k, self.w, self.k) {
            Some(n) => n as u8,
            None => 0,
        }
    }
}

/// The type of what a lane operation makes, where some target has a row for it.
fn lane_gives(op: LaneName, to: Option<LaneType>, types: &[LaneType], k: u8) -> LaneType
    requires { HasRow op to types.now k }
    ensures { result ≡ lane_gives op to types.now }
{
    if let Some((ty, _)) = lane_type(Target::Neon, op, to, types, k) {
        ty
    } else if let Some((ty, _)) = lane_type(Target::Avx2, op, to, types, k) {
        ty
    } else if let Some((ty, _)) = lane_type(Target::Hvx, op, to, types, k) {
        ty
    } else {
        unreachable!()
    }
}
