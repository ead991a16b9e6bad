//! Forms: formulas over whole numbers, their value, their interval, their parts and their text.
#![tactic(auto)]

mod axioms;
mod bounds;
mod copies;
mod equals;
mod form;
mod parts;
mod sizes;
mod texts;

pub use axioms::Axiom;
pub use bounds::{form_bounds, power};
pub use equals::{equal, same_type};
pub use form::Form;
pub use parts::{at, child_of, put};
pub use sizes::size;
pub use texts::print_form;
