//! Rules: patterns over lane types that depend on a width, what they mean at a width and an
//! amount, and their forms.
#![tactic(auto)]

mod checks;
mod counts;
mod evaluating;
mod fault;
mod forms;
mod instances;
mod number;
mod pattern;
mod place;
mod rule;
mod rule_file;
mod shifts;
mod sizes;
mod sorts;

pub use checks::{
    has_lane_amounts, is_formed, is_free, is_free_amount, is_rule, lane_operand_count, lane_states,
    suits,
};
pub use counts::{is_bare, is_lane_free, is_op_free, nodes, occurrences, weight};
pub use evaluating::{amount_at, number_at};
pub use fault::SortFault;
pub use forms::form_of;
pub use instances::{Binding, instance, stated_type};
pub use number::{Amount, LinOf, LinPart, LinParts, Number, NumberItem, NumberPart, NumberParts};
pub use pattern::{PatType, Pattern, Patterns};
pub use place::lane_at;
pub use rule::{By, Kind, Rule, RuleList, RuleParts, Step, StepList, VarDecl, VarList};
pub use rule_file::{FileParts, RuleFile, is_file};
pub use shifts::{Pair, PairList, PairsFault, pairs, range_of};
pub use sizes::form_size;
pub use sorts::{sort_of, type_of};
