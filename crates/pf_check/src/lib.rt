//! Checking rules: whether the certificate of a rule shows that both its sides have one value.
#![tactic(auto)]

mod certifying;
mod checked;
mod citing;
mod fault;
mod files;
mod filling;
mod judging;
mod lifting;
mod replay;
mod sides;

pub use checked::{Checked, CheckedParts, EarlierList};
pub use fault::RuleFault;
pub use files::{CheckedFile, CheckedList, OutcomeList, check_file, judge_file};
pub use judging::check_rule;
