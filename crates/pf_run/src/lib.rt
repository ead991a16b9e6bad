//! Runs of programs on images, evaluations of kernels on images, and what is wrong with a set of images.
#![tactic(auto)]

mod any;
mod eval;
mod fault;
mod output;
mod places;
mod plan;
mod program;
mod reach;
mod rows;
mod set;
mod text;

pub use any::{AnyProgram, read_any, run_any};
pub use eval::eval_images;
pub use fault::{EvalFault, RunFault, SetFault};
pub use program::run_program;
pub use set::judge_set;
pub use text::run_images;
