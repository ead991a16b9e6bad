ghost use Rattle.std.specs.Prelude.{◌≡◌};

use crate::number::{Amount, Number};
use pf_ints::Duplicate;
use pf_laneops::LaneName;
use pf_values::Op;
use sqlite_items::Items;
use std::alloc::{AllocError, Global};

/// A lane type that depends on the width w: its lanes have `times` times w bits.
#[derive(Clone, Copy, PartialEq, Eq)]
pub struct PatType {
    pub signed: bool,
    pub times: u8,
}

/// A side of a rule: a term or lane code whose types and numbers depend on the width and the
/// shift, over the rule's variables.
#[derive(Drop)]
pub enum Pattern {
    /// A variable, by its number.
    Var(u8),
    /// A number of a type.
    Const {
        n: Number,
        ty: PatType,
    },
    /// An operator over its operands. `to` is the type that is written with it, if one is, and `k`
    /// its amount, or 0 where the operator has none.
    Node {
        op: Op,
        to: Option<PatType>,
        k: Amount,
        args: Patterns,
    },
    /// A lane operation over its operands, likewise.
    Lane {
        op: LaneName,
        to: Option<PatType>,
        k: Amount,
        args: Patterns,
    },
}

/// Patterns.
pub type Patterns = Items<Pattern>;

impl Duplicate for Pattern {
    fn copy(&self, alloc: Global) -> Result<Pattern, AllocError> {
        match self {
            Pattern::Var(n) => Ok(Pattern::Var(*n)),
            Pattern::Const { n, ty } => Ok(Pattern::Const {
                n: n.copy(alloc)?,
                ty: *ty,
            }),
            Pattern::Node { op, to, k, args } => {
                let mut copies = Items::new(alloc);
                for arg in args.as_slice() {
                    copies.push(arg.copy(alloc)?)?;
                }
                Ok(Pattern::Node {
                    op: *op,
                    to: *to,
                    k: k.copy(alloc)?,
                    args: copies,
                })
            }
            Pattern::Lane { op, to, k, args } => {
                let mut copies = Items::new(alloc);
                for arg in args.as_slice() {
                    copies.push(arg.copy(alloc)?)?;
                }
                Ok(Pattern::Lane {
                    op: *op,
                    to: *to,
                    k: k.copy(alloc)?,
                    args: copies,
                })
            }
        }
    }
}
