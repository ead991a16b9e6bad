//! Blocks of lane code: a value in names for each item, in an order of its own.
#![tactic(auto)]

mod driver;
mod kept;
mod maker;
mod needed;
mod target;

pub use driver::expand;
pub use kept::Kept;
pub use maker::Maker;
pub use target::Expand;
