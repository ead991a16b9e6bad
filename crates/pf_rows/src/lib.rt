//! Programs that make the output row by row.
#![tactic(auto)]

mod copies;
mod items;
mod lines;
mod program;
mod scratch;

pub use program::row_program;
pub use scratch::scratch_size;
