//! Selection: the text of a target's instructions that computes a kernel.
#![tactic(auto)]

mod min_program;
mod operands;
mod passes;
mod selected;

pub use passes::{SelectFault, is_built, select};
