//! Bounds of terms: the interval in which a term's value lies, by the ranges of its leaves.
#![tactic(auto)]

mod inference;
mod kept;
mod operators;
mod ranges;

pub use inference::bounds;
pub use kept::{Bounded, BoundedParts, Bounds, OperandParts, Operands, Part, operand};
pub use ranges::Ranges;
