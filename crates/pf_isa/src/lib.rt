//! The texts of programs: written and read. Programs and their machine are pf_machine's, which is passed on.
#![tactic(auto)]

mod code_line;
mod fault;
mod head_words;
mod jumps;
mod lines;
mod read_code;
mod read_head;
mod so_far;
mod target_line;
mod term_size;
mod text;
mod words;
mod write;

pub use fault::{TextFault, TextKind};
pub use pf_machine::{
    Access, Block, Code, Control, Ctl, Head, Isa, Item, ItemList, Label, LabelList, Line, Machine,
    Program, Reg, RegFile, RegList, Region, RegionList, Trap, VectorList, checked, laws_of, role,
};
pub use text::{read_text, reread, target_of};
pub use write::write_text;
