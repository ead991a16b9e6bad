ghost use Rattle.std.specs.Prelude.{◌≡◌, ◌<◌, ◌++◌, ◌∷◌, [], true, length, map, slice_get, IfOk, Some, None, IsSome, IfSome, MatchOption};
ghost use Rattle.pf_values.specs.Meaning.Operators.{row_of};
ghost use Rattle.pf_values.specs.declared.term.Term.TheVariants as term;
ghost use Rattle.pf_values.specs.Meaning.Terms.{IsWellTyped, operand_count};
ghost use Rattle.pf_bounds.specs.declared.ranges.Ranges.{Ranges};
ghost use Rattle.pf_bounds.specs.Meaning.TermBounds.{row_range, are_ranges_of, operands, part_of, interval_at};
ghost use Rattle.pf_bounds.specs.Meaning.KeptBounds.{whole, marks, IsBounded, Kept, AreKept};

use crate::inference::{found, of_leaf};
use crate::operators::{of_four, of_one, of_two};
use crate::ranges::Ranges;
use pf_ints::{Interval, LaneType, Memory, Path};
use pf_values::{Op, Term, Terms};
use sqlite_items::Items;
use std::alloc::Global;
use std::marker::Model;

/// The intervals of a term's nodes, in the term's shape.
#[derive(Drop)]
pub enum Bounds {
    Leaf(Interval),
    Node(Interval, Items<Bounds>),
}

impl Bounds {
    /// The interval of the whole term.
    pub fn whole(&self) -> Interval
        ensures { result ≡ whole self.now }
    {
        match self {
            Bounds::Leaf(at) => *at,
            Bounds::Node(at, _) => *at,
        }
    }
}

/// A term and the intervals of its nodes.
#[derive(Drop)]
pub struct BoundedParts {
    term: Term,
    bounds: Bounds,
}

/// A well-typed term with the interval of each of its nodes, which lies in the node's type.
#[derive(Drop)]
pub struct Bounded {
    parts: BoundedParts,
}

impl Model for Bounded {
    ghost use Rattle.pf_values.specs.contracts.term.Term as term;
    ghost use Rattle.pf_bounds.specs.contracts.kept.Bounds as bounds;
    ghost use Rattle.pf_bounds.specs.declared.kept.BoundedParts.{BoundedParts};
    ghost use Rattle.std.specs.Coded.{codes};

    ghost Value = { BoundedParts };

    ghost coded = { Prim.hlevel (codes, term.the_row.coded, bounds.the_row.coded) };

    ghost use Rattle.pf_bounds.specs.Meaning.KeptBounds.{IsBounded};

    ghost view = { λ b. b.parts };

    ghost invariant = { λ b. IsBounded b.parts.term b.parts.bounds };
}

/// A part of a term, with the intervals of its nodes.
#[derive(Clone, Copy)]
pub struct Part<'a> {
    pub term: &'a Term,
    pub bounds: &'a Bounds,
}

/// Terms and the intervals of their nodes.
#[derive(Drop)]
pub struct OperandParts {
    terms: Terms,
    bounds: Items<Bounds>,
}

/// Terms with the intervals of their nodes, for a node over them.
#[derive(Drop)]
pub struct Operands {
    parts: OperandParts,
}

impl Model for Operands {
    ghost use Rattle.pf_values.specs.contracts.term.Term as term;
    ghost use Rattle.pf_bounds.specs.contracts.kept.Bounds as bounds;
    ghost use Rattle.pf_bounds.specs.declared.kept.OperandParts.{OperandParts};
    ghost use Rattle.std.specs.Coded.{codes};

    ghost Value = { OperandParts };

    ghost coded = { Prim.hlevel (codes, term.the_row.coded, bounds.the_row.coded) };

    ghost use Rattle.pf_bounds.specs.Meaning.KeptBounds.{AreBounded};

    ghost view = { λ o. o.parts };

    ghost invariant = { λ o. AreBounded o.parts.terms o.parts.bounds };
}

impl Operands {
    /// No terms. It takes no memory.
    pub fn new(alloc: Global) -> Operands
        ensures terms { result.terms ≡ [] }
        ensures kept { (ranges : Ranges) → AreKept ranges result }
    {
        Operands {
            parts: OperandParts {
                terms: Items::new(alloc),
                bounds: Items::new(alloc),
            },
        }
    }

    /// These and one more behind them.
    pub fn with(self, operand: Bounded) -> Result<Operands, Memory>
        ensures terms { IfOk result (λ o. o.terms ≡ self.terms ++ operand.term ∷ []) }
        ensures kept { (ranges : Ranges) → AreKept ranges self → Kept ranges operand → IfOk result (AreKept ranges) }
    {
        let Operands { parts } = self;
        let OperandParts {
            mut terms,
            mut bounds,
        } = parts;
        let Bounded { parts: added } = operand;
        let BoundedParts {
            term,
            bounds: marks,
        } = added;
        terms.push(term)?;
        bounds.push(marks)?;
        Ok(Operands {
            parts: OperandParts { terms, bounds },
        })
    }
}

impl Bounded {
    /// The term with the intervals of its nodes by the ranges of its leaves, each of which has a
    /// range that lies in its type.
    pub fn new(alloc: Global, term: Term, ranges: &Ranges) -> Result<Bounded, Memory>
        requires typed { IsWellTyped term }
        requires entries { are_ranges_of ranges.now term ≡ true }
        ensures term { IfOk result (λ b. b.term ≡ term) }
        ensures kept { IfOk result (λ b. Kept ranges.now b) }
    {
        let bounds = marked(alloc, &term, ranges)?;
        Ok(Bounded {
            parts: BoundedParts { term, bounds },
        })
    }

    /// The node over these operands. Only the node's own interval is computed, and it takes no memory.
    pub fn over(op: Op, ty: LaneType, k: u8, operands: Operands) -> Bounded
        requires typed { IsWellTyped (term.Node op ty k operands.terms) }
        ensures term { result.term ≡ term.Node op ty k operands.terms }
        ensures kept { (ranges : Ranges) → AreKept ranges operands → Kept ranges result }
    {
        let Operands { parts } = operands;
        let OperandParts { terms, bounds } = parts;
        let at = found(of_node(op, ty, k, bounds.as_slice()));
        Bounded {
            parts: BoundedParts {
                term: Term::Node {
                    op,
                    ty,
                    k,
                    args: terms,
                },
                bounds: Bounds::Node(at, bounds),
            },
        }
    }

    /// The term.
    pub fn term(&self) -> &Term
        ensures value { result.now ≡ self.now.term }
        ensures kept { IsBounded self.now.term self.now.bounds }
    {
        &self.parts.term
    }

    /// The term alone.
    pub fn into_term(self) -> Term
        ensures value { result ≡ self.term }
        ensures typed { IsWellTyped result }
    {
        let Bounded { parts } = self;
        let BoundedParts { term, bounds: _ } = parts;
        term
    }

    /// The part of the term at a path, or None where the path leaves the term.
    pub fn part(&self, path: &Path) -> Option<Part<'_>>
        ensures part { MatchOption result (part_of self.now.term path.now ≡ None) (λ p. part_of self.now.term path.now ≡ Some p.term.now) }
        ensures bounded { IfSome result (λ p. IsBounded p.term.now p.bounds.now) }
        ensures kept { (ranges : Ranges) → Kept ranges self.now → IfSome result (λ p. marks ranges p.term.now ≡ Some p.bounds.now) }
    {
        descend(&self.parts.term, &self.parts.bounds, path.as_slice())
    }

    /// The interval of the part of the term at a path, or None where the path leaves the term.
    pub fn bounds_at(&self, path: &Path) -> Option<Interval>
        ensures stands { MatchOption result (part_of self.now.term path.now ≡ None) (λ r. IsSome (part_of self.now.term path.now)) }
        ensures kept { (ranges : Ranges) → Kept ranges self.now → result ≡ interval_at ranges self.now.term path.now }
    {
        let part = self.part(path)?;
        Some(part.bounds.whole())
    }
}

fn descend<'a>(term: &'a Term, bounds: &'a Bounds, path: &[u8]) -> Option<Part<'a>>
    requires { IsBounded term.now bounds.now }
    ensures part { MatchOption result (part_of term.now path.now ≡ None) (λ p. part_of term.now path.now ≡ Some p.term.now) }
    ensures bounded { IfSome result (λ p. IsBounded p.term.now p.bounds.now) }
    ensures kept { (ranges : Ranges) → marks ranges term.now ≡ Some bounds.now → IfSome result (λ p. marks ranges p.term.now ≡ Some p.bounds.now) }
{
    match path {
        [] => Some(Part { term, bounds }),
        [i, rest @ ..] => {
            let below = operand(term, bounds, usize::from(*i))?;
            descend(below.term, below.bounds, rest)
        }
    }
}

/// Operand i of a term with its intervals, or None where there is no such operand.
pub fn operand<'a>(term: &'a Term, bounds: &'a Bounds, i: usize) -> Option<Part<'a>>
    requires { IsBounded term.now bounds.now }
    ensures part { MatchOption result (slice_get (operands term.now) i ≡ None) (λ p. slice_get (operands term.now) i ≡ Some p.term.now) }
    ensures bounded { IfSome result (λ p. IsBounded p.term.now p.bounds.now) }
    ensures kept { (ranges : Ranges) → marks ranges term.now ≡ Some bounds.now → IfSome result (λ p. marks ranges p.term.now ≡ Some p.bounds.now) }
{
    match term {
        Term::Leaf { .. } => None,
        Term::Node { args, .. } => match bounds {
            Bounds::Leaf(_) => None,
            Bounds::Node(_, below) => {
                let term = args.get(i)?;
                let bounds = below.get(i)?;
                Some(Part { term, bounds })
            }
        },
    }
}

fn marked(alloc: Global, term: &Term, ranges: &Ranges) -> Result<Bounds, Memory>
    requires typed { IsWellTyped term.now }
    requires entries { are_ranges_of ranges.now term.now ≡ true }
    ensures bounds { IfOk result (λ b. marks ranges.now term.now ≡ Some b) }
    ensures bounded { IfOk result (λ b. IsBounded term.now b) }
{
    match term {
        Term::Leaf { leaf, ty } => Ok(Bounds::Leaf(of_leaf(*leaf, *ty, ranges))),
        Term::Node { op, ty, k, args } => {
            let mut below = Items::new(alloc);
            for arg in args.as_slice() {
                let bounds = marked(alloc, arg, ranges)?;
                below.push(bounds)?;
            }
            let at = found(of_node(*op, *ty, *k, below.as_slice()));
            Ok(Bounds::Node(at, below))
        }
    }
}

// The interval of a node by those of its operands.
fn of_node(op: Op, ty: LaneType, k: u8, args: &[Bounds]) -> Option<Interval>
    requires count { length args.now ≡ operand_count (row_of op).operands }
    requires amount { k < 64 }
    ensures { result ≡ row_range op ty k (map whole args.now) }
{
    match args {
        [x] => of_one(op, ty, k, x.whole()),
        [x, y] => of_two(op, ty, k, x.whole(), y.whole()),
        [a, b, x, y] => of_four(op, a.whole(), b.whole(), x.whole(), y.whole()),
        _ => unreachable!(),
    }
}
