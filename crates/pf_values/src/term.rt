ghost use Rattle.std.specs.Prelude.{◌≡◌};

use crate::op::Op;
use pf_ints::{Duplicate, LaneType, NumberList};
use sqlite_items::Items;
use std::alloc::{AllocError, Global};

/// What a term stands on.
#[derive(Clone, Copy, PartialEq, Eq)]
pub enum Leaf {
    /// A tap, by its number in the list of taps.
    Tap(u8),
    Const(i64),
    /// The value of a definition, by its number.
    Def(u8),
}

/// An expression at one pixel.
#[derive(Drop)]
pub enum Term {
    Leaf {
        leaf: Leaf,
        ty: LaneType,
    },
    /// An operator over its operands. `ty` is the type of its result, and `k` its amount, or 0
    /// where the operator has none.
    Node {
        op: Op,
        ty: LaneType,
        k: u8,
        args: Terms,
    },
}

/// Terms.
pub type Terms = Items<Term>;

/// The numbers of the taps and of the definitions at one pixel.
#[derive(Drop)]
pub struct Env {
    pub taps: NumberList,
    pub defs: NumberList,
}

impl Duplicate for Term {
    fn copy(&self, alloc: Global) -> Result<Term, AllocError> {
        match self {
            Term::Leaf { leaf, ty } => Ok(Term::Leaf {
                leaf: *leaf,
                ty: *ty,
            }),
            Term::Node { op, ty, k, args } => {
                let mut copies = Items::new(alloc);
                for arg in args.as_slice() {
                    copies.push(arg.copy(alloc)?)?;
                }
                Ok(Term::Node {
                    op: *op,
                    ty: *ty,
                    k: *k,
                    args: copies,
                })
            }
        }
    }
}
