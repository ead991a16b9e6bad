//! The ranges of what the leaves of a kernel's terms stand for.
#![tactic(auto)]

mod leaves;

pub use leaves::ranges;
