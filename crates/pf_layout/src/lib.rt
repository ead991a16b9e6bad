//! Orders of lanes: the places at which the pixels of a block stand in vectors.
#![tactic(auto)]

mod layout;

pub use layout::Layout;
