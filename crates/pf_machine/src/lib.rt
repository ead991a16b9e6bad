//! Instruction sets, control instructions, programs, and the machine that they mean.
#![tactic(auto)]

mod access;
mod block;
mod code;
mod control;
mod isa;
mod machine;
mod memory;
mod memory_access;
mod program;
mod registers;
mod steps;

pub use access::Access;
pub use block::{Block, Item, ItemList};
pub use code::{Code, Label, LabelList, Line, jump_label};
pub use control::{Control, Ctl, checked, role};
pub use isa::{Isa, laws_of};
pub use machine::Machine;
pub use memory::{Region, RegionList};
pub use program::{Head, Program};
pub use registers::{Reg, RegFile, RegList, VectorList};
pub use steps::Trap;
