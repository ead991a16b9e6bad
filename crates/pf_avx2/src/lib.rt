//! The instructions of AVX2, as a set for the machine.
#![tactic(auto)]

mod avx2;
mod rows;

pub use avx2::{Avx2, Avx2Rows, Op};
pub use rows::Mnemonic;
