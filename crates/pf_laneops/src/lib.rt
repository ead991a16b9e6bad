//! Lane operations: which a target has for which types, what they cost, and their formulas.
#![tactic(auto)]

mod arg_list;
mod formulas;
mod lane_code;
mod lane_forms;
mod lane_item;
mod lane_name;
mod lane_row;
mod lane_types;

pub use arg_list::ArgList;
pub use lane_code::LaneCode;
pub use lane_forms::{lane_form, op_form};
pub use lane_item::LaneItem;
pub use lane_name::LaneName;
pub use lane_row::{Cost, LaneAmounts, LaneGives, LaneOperands, LaneRow, LaneSet};
pub use lane_types::lane_type;
