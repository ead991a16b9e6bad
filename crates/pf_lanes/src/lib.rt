//! Vectors by their lanes: what becomes of the lanes of vectors, one by one.
#![tactic(auto)]

mod lanes;
mod recipes;
mod registers;
mod works;

pub use lanes::{LaneWise, bytes_of, fill, lane};
pub use recipes::{Operands, Place, Recipe, View, compute, spread};
pub use registers::{Double, Transfer, Triple, renamed_vector};
pub use works::{Work, value_of_one, value_of_three, value_of_two};
