//! The instructions of HVX, as a set for the machine.
#![tactic(auto)]

mod hvx;
mod rows;

pub use hvx::{Hvx, HvxRows, Op};
pub use rows::Mnemonic;
