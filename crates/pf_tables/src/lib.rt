//! Sets of vector instructions as tables of rows: each row is the line of an instruction, with what it makes of its operands.
#![tactic(auto)]

mod controls;
mod effects;
mod entries;
mod instruction;
mod isa;
mod lines;
mod made;
mod moves;
mod op;
mod operands;
mod recipes;
mod registers;
mod row;
mod set;

pub use effects::effect_of;
pub use entries::{Entry, entry_at};
pub use instruction::Instruction;
pub use isa::SetOf;
pub use lines::LinesOf;
pub use op::Op;
pub use operands::{Ends, Sources};
pub use recipes::{COPIED, NONE};
pub use registers::{access_of, cost_of, defs_of, is_fixed, uses_of};
pub use row::{Extent, Row, Shape, Style, place};
pub use set::Rows;
