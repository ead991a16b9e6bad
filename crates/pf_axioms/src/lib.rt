//! Axioms: a form rewritten at its root by a law that keeps its value.
#![tactic(auto)]

mod fault;
mod folds;
mod grants;
mod laws;
mod needs;
mod steps;

pub use fault::StepFault;
pub use steps::apply;
