//! The texts of rule files: read, each fault by its line and its kind, and written.
#![tactic(auto)]

mod fault;
mod field;
mod line;
mod number;
mod part;
mod read;
mod reading;
mod side;
mod stop;
mod token;
mod word;
mod write;
mod write_number;
mod write_side;

pub use fault::{RuleTextFault, RuleTextKind};
pub use read::read_rules;
pub use write::{kind_word, write_migrated, write_path, write_rules};
