ghost use Rattle.std.specs.Prelude.{◌≡◌, List, [], Some, Ok, true, map, option_and_then, IfOk};
ghost use Rattle.pf_values.specs.declared.term.Env.{Env};
ghost use Rattle.pf_values.specs.Meaning.Terms.{Val, IsWellTyped, stated_type};
ghost use Rattle.pf_ints.specs.declared.lane.LaneType.{LaneType as Ty};
ghost use Rattle.pf_rules.specs.declared.rule.Kind.{Kind};
ghost use Rattle.pf_rules.specs.declared.rule.VarDecl.{VarDecl};
ghost use Rattle.pf_rules.specs.Meaning.Instances.{instance_of, HasInstance, HaveTypes, bound_values};
ghost use Rattle.pf_rules.specs.Meaning.Sides.{PVal, amount_or};
ghost use Rattle.pf_rules.specs.Meaning.Sorts.{lane_at, place, sorting};
ghost use Rattle.pf_rules.specs.Steps.Sorted.{IsSmallAmount};

use crate::evaluating::{amount_at, number_at};
use crate::number::Amount;
use crate::pattern::{PatType, Pattern};
use crate::place::lane_at;
use crate::sorts::{op_gives, type_or};
use pf_ints::{Duplicate, LaneType, Memory};
use pf_values::{Leaf, Term, Terms};
use sqlite_items::Items;
use std::alloc::Global;

/// The terms that stand for a rule's variables, by their numbers, at a width and a shift.
#[derive(Drop)]
pub struct Binding {
    pub w: u8,
    pub k: u8,
    pub vars: Terms,
}

/// The pattern with its variables replaced, where that is a well-typed term. It has the pattern's
/// type, and its value is the pattern's at the values of the bound terms.
pub fn instance(alloc: Global, pattern: &Pattern, binding: &Binding) -> Result<Term, Memory>
    requires { HasInstance binding.now pattern.now }
    ensures is { IfOk result (λ t. instance_of binding.now pattern.now ≡ Some t) }
    ensures typed { IfOk result IsWellTyped }
    ensures sort { IfOk result (λ t. (vars : List VarDecl) (kind : Kind) (ty : Ty) → HaveTypes binding.now.w vars binding.now.vars → sorting true kind (place binding.now.w binding.now.k vars) pattern.now ≡ Ok ty → stated_type t ≡ ty) }
    ensures value { IfOk result (λ t. (vars : List VarDecl) (env : Env) → HaveTypes binding.now.w vars binding.now.vars → Val env t ≡ PVal (place binding.now.w binding.now.k vars) (bound_values env binding.now) pattern.now) }
{
    replaced(alloc, pattern, binding)
}

fn replaced(alloc: Global, pattern: &Pattern, binding: &Binding) -> Result<Term, Memory>
    requires { HasInstance binding.now pattern.now }
    ensures { IfOk result (λ t. instance_of binding.now pattern.now ≡ Some t) }
{
    match pattern {
        Pattern::Var(n) => match binding.vars.get(usize::from(*n)) {
            Some(term) => term.copy(alloc),
            None => unreachable!(),
        },
        Pattern::Const { n, ty } => Ok(Term::Leaf {
            leaf: Leaf::Const(number_at(n, binding.w, binding.k).unwrap_or(0) as i64),
            ty: type_or(lane_at(*ty, binding.w)),
        }),
        Pattern::Node { op, to, k, args } => {
            let mut terms = Items::new(alloc);
            for arg in args.as_slice() {
                let term = replaced(alloc, arg, binding)?;
                terms.push(term)?;
            }
            let types = types_of(alloc, terms.as_slice())?;
            let stated = stated_or(*to, binding.w);
            Ok(Term::Node {
                op: *op,
                ty: op_gives(*op, stated, types.as_slice()),
                k: small_amount(k, binding.w, binding.k),
                args: terms,
            })
        }
        Pattern::Lane { .. } => unreachable!(),
    }
}

fn stated_or(to: Option<PatType>, w: u8) -> Option<LaneType>
    ensures { result ≡ option_and_then (lane_at w) to }
{
    lane_at(to?, w)
}

fn small_amount(k: &Amount, w: u8, shift: u8) -> u8
    requires { IsSmallAmount (place w shift []) k.now }
    ensures { result ≡ amount_or (place w shift []) k.now }
{
    match amount_at(k, w, shift) {
        Some(n) => n as u8,
        None => 0,
    }
}

fn types_of(alloc: Global, terms: &[Term]) -> Result<Vec<LaneType>, Memory>
    ensures { IfOk result (λ v. v.items ≡ map stated_type terms.now) }
{
    terms.iter().map(|term| stated_type(term)).collect(alloc)
}

/// The type that stands with the term's root.
pub fn stated_type(term: &Term) -> LaneType
    ensures { result ≡ stated_type term.now }
{
    match term {
        Term::Leaf { ty, .. } | Term::Node { ty, .. } => *ty,
    }
}
