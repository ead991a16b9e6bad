//! Terms rewritten by checked rules until none matches.
#![tactic(auto)]

mod kernels;
mod lifting;
mod steps;

pub use kernels::lift;
pub use lifting::lift_term;
pub use steps::Steps;
