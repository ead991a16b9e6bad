//! The files and the output outside the program, whatever the command: files read and judged one at
//! a time, what a call over them comes to, and the lines that tell it.
#![tactic(auto)]

mod judging;
mod report;
mod stop;

pub use judging::{read_front, write_file};
pub use report::{Lines, Piece, line_of, tell_line, tell_lines, tell_want, tell_write_failed};
pub use stop::Stop;
