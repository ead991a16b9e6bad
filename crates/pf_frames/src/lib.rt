//! Lines of instructions as frames with operands: a target's table of lines, printed and read back.
#![tactic(auto)]

mod frame;
mod line;
mod lines;
mod read;
mod register;

pub use line::{Numbers, Spelling, TableLine};
pub use lines::{Lines, Parts};
pub use read::{parsed_control, parsed_op, printed_control, printed_line};
