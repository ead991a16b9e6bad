//! The instructions of A64 Advanced SIMD, as a set for the machine.
#![tactic(auto)]

mod mnemonic;
mod neon;
mod rows;

pub use mnemonic::Mnemonic;
pub use neon::{Neon, NeonRows, Op};
