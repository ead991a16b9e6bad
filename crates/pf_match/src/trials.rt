ghost use Rattle.std.specs.Prelude.{◌≡◌, ◌↔◌, ◌<◌, ◌+◌, ℕ, pos, true, Some, IsSome, IsTrue, IfSome, IfOk, length, option_map};
ghost use Rattle.pf_ints.specs.Meaning.Ranges.{Range, lies_in};
ghost use Rattle.pf_values.specs.Meaning.Terms.{IsWellTyped};
ghost use Rattle.pf_bounds.specs.declared.ranges.Ranges.{Ranges};
ghost use Rattle.pf_bounds.specs.Meaning.KeptBounds.{IsBounded, marks};
ghost use Rattle.pf_rules.specs.Meaning.Instances.{instance_by};
ghost use Rattle.pf_rules.specs.Meaning.Numbers.{amount_at, number_at};
ghost use Rattle.pf_rules.specs.Meaning.Rules.{pair};
ghost use Rattle.pf_rules.specs.Meaning.Sorts.{lane_at, stated_at};
ghost use Rattle.pf_match.specs.Steps.Trials.{standing, bound, is_type, IsHead, IsBound, AreBoundFrom, AreTermsOf};

use crate::equality::equal;
use pf_bounds::{Bounds, Part, operand};
use pf_ints::{Duplicate, Interval, LaneType, Memory};
use pf_rules::{
    Amount, Number, PatType, Pattern, VarDecl, amount_at, lane_at, number_at, range_of, stated_type,
};
use pf_values::{Gives, Leaf, Op, Term, Terms};
use sqlite_items::Items;
use std::alloc::Global;

/// A rule's left side beside a term with its intervals, at a width and a shift.
#[derive(Clone, Copy)]
pub(crate) struct Trial<'a> {
    pub(crate) lhs: &'a Pattern,
    pub(crate) term: &'a Term,
    pub(crate) bounds: &'a Bounds,
    pub(crate) w: u8,
    pub(crate) k: u8,
}

/// What stands in the term where the variable first stands in the pattern.
fn standing<'a>(n: u8, pattern: &Pattern, term: &'a Term, bounds: &'a Bounds) -> Option<Part<'a>>
    requires { IsBounded term.now bounds.now }
    ensures term { option_map (λ p. p.term.now) result ≡ standing n pattern.now term.now }
    ensures bounded { IfSome result (λ p. IsBounded p.term.now p.bounds.now) }
    ensures kept { (ranges : Ranges) → marks ranges term.now ≡ Some bounds.now → IfSome result (λ p. marks ranges p.term.now ≡ Some p.bounds.now) }
{
    match pattern {
        Pattern::Var(m) => if *m == n {
            Some(Part { term, bounds })
        } else {
            None
        },
        Pattern::Node { args, .. } => {
            for (i, arg) in args.as_slice().iter().enumerate() {
                let Some(part) = operand(term, bounds, i) else {
                    return None;
                };
                if let Some(found) = standing(n, arg, part.term, part.bounds) {
                    return Some(found);
                }
            }
            None
        }
        _ => None,
    }
}

impl<'a> Trial<'a> {
    /// What stands for a variable.
    fn bound(&self, n: u8) -> Option<Part<'a>>
        requires { IsBounded self.now.term.now self.now.bounds.now }
        ensures term { option_map (λ p. p.term.now) result ≡ bound self.now n }
        ensures bounded { IfSome result (λ p. IsBounded p.term.now p.bounds.now) }
        ensures kept { (ranges : Ranges) → marks ranges self.now.term.now ≡ Some self.now.bounds.now → IfSome result (λ p. marks ranges p.term.now ≡ Some p.bounds.now) }
    {
        standing(n, self.lhs, self.term, self.bounds)
    }

    /// Whether the term is the pattern with what stands for its variables.
    pub(crate) fn fits(&self, pattern: &Pattern, term: &Term) -> bool
        requires bounded { IsBounded self.now.term.now self.now.bounds.now }
        requires typed { IsWellTyped term.now }
        ensures { IsTrue result ↔ (instance_by self.now.w self.now.k (bound self.now) pattern.now ≡ Some term.now) }
    {
        match (pattern, term) {
            (Pattern::Var(n), _) => match self.bound(*n) {
                Some(part) => equal(part.term, term),
                None => false,
            },
            (
                Pattern::Const { n, ty },
                Term::Leaf {
                    leaf: Leaf::Const(number),
                    ty: stated,
                },
            ) => is_type_at(*ty, self.w, *stated) && self.is_number(n, *number),
            (
                Pattern::Node { op, to, k, args },
                Term::Node {
                    op: other,
                    ty,
                    k: amount,
                    args: terms,
                },
            ) => {
                if !self.is_head(*op, *to, k, *other, *ty, *amount) {
                    return false;
                }
                if args.len() != terms.len() {
                    return false;
                }
                for (i, arg) in args.as_slice().iter().enumerate() {
                    if !self.fits(arg, &terms.as_slice()[i]) {
                        return false;
                    }
                }
                true
            }
            _ => false,
        }
    }

    fn is_number(&self, number: &Number, n: i64) -> bool
        ensures { IsTrue result ↔ (number_at self.now.w self.now.k number.now ≡ Some n) }
    {
        match number_at(number, self.w, self.k) {
            Some(m) => m == i128::from(n),
            None => false,
        }
    }

    /// Whether the operator, the type and the amount of the node are the pattern's.
    fn is_head(
        &self,
        op: Op,
        to: Option<PatType>,
        k: &Amount,
        other: Op,
        ty: LaneType,
        amount: u8,
    ) -> bool
        ensures { IsTrue result ↔ IsHead op (stated_at self.now.w to) (amount_at self.now.w self.now.k k.now) other ty amount }
    {
        op == other && is_type(op.gives(), to, self.w, ty) && self.is_amount(k, amount)
    }

    fn is_amount(&self, k: &Amount, amount: u8) -> bool
        ensures { IsTrue result ↔ (amount_at self.now.w self.now.k k.now ≡ Some (pos amount)) }
    {
        match amount_at(k, self.w, self.k) {
            Some(n) => n == i128::from(amount),
            None => false,
        }
    }

    /// Whether what stands for each of the variables from n on is of its type and lies in its range.
    pub(crate) fn are_inside(&self, n: u8, vars: &[VarDecl]) -> bool
        requires bounded { IsBounded self.now.term.now self.now.bounds.now }
        requires few { n + length vars.now < 256 }
        ensures { (ranges : Ranges) → marks ranges self.now.term.now ≡ Some self.now.bounds.now → IsTrue result ↔ AreBoundFrom (pair self.now.w self.now.k) ranges (bound self.now) n vars.now }
    {
        match vars {
            [] => true,
            [var, rest @ ..] => match self.bound(n) {
                Some(part) => {
                    is_inside(var, part.term, part.bounds, self.w, self.k)
                        && self.are_inside(n + 1, rest)
                }
                None => false,
            },
        }
    }

    /// Copies of what stands for the first variables.
    pub(crate) fn terms(&self, alloc: Global, count: u8) -> Result<Terms, Memory>
        requires bounded { IsBounded self.now.term.now self.now.bounds.now }
        requires there { (n : ℕ) → n < count → IsSome (bound self.now n) }
        ensures { IfOk result (AreTermsOf (bound self.now) count) }
    {
        let mut terms = Items::new(alloc);
        for n in 0..count {
            match self.bound(n) {
                Some(part) => terms.push(part.term.copy(alloc)?)?,
                None => unreachable!(),
            }
        }
        Ok(terms)
    }
}

fn is_type_at(ty: PatType, w: u8, stated: LaneType) -> bool
    ensures { IsTrue result ↔ (lane_at w ty ≡ Some stated) }
{
    match lane_at(ty, w) {
        Some(found) => found == stated,
        None => false,
    }
}

/// Whether a type may stand with a node of an operator, if it is a well-typed one.
fn is_type(gives: Gives, to: Option<PatType>, w: u8, ty: LaneType) -> bool
    ensures { result ≡ is_type gives (stated_at w to) ty }
{
    let stated = match to {
        None => LaneType::U8,
        Some(to) => match lane_at(to, w) {
            Some(stated) => stated,
            None => return false,
        },
    };
    match gives {
        Gives::Stated => stated == ty,
        _ => true,
    }
}

/// Whether a part of a term is of the variable's type and lies in its range.
fn is_inside(var: &VarDecl, term: &Term, bounds: &Bounds, w: u8, k: u8) -> bool
    requires { IsBounded term.now bounds.now }
    ensures { (ranges : Ranges) → marks ranges term.now ≡ Some bounds.now → IsTrue result ↔ IsBound (pair w k) ranges var.now term.now }
{
    is_type_at(var.ty, w, stated_type(term)) && is_within(range_of(var, w, k), bounds.whole())
}

fn is_within(stated: Option<Interval>, got: Interval) -> bool
    ensures { IsTrue result ↔ ((r : Range) × (stated ≡ Some r) × (lies_in got r ≡ true)) }
{
    match stated {
        Some(stated) => got.lies_in(stated),
        None => false,
    }
}
