//! What is said of the rules of a file once they are checked: a line for each.
#![tactic(auto)]

mod fault_text;
mod verdicts;

pub use verdicts::{Verdicts, judge_rules};
