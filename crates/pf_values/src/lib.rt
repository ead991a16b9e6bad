//! Terms over the lanes of images: operators with their types, weights and values, and what a kernel declares.
#![tactic(auto)]

mod fault;
mod kernel;
mod limit;
mod names;
mod op;
mod reach;
mod row;
mod sizes;
mod term;
mod types;
mod values;
mod weights;

pub use fault::TermFault;
pub use kernel::{Definition, Definitions, ImageDecl, ImageList};
pub use limit::LimitKind;
pub use names::{DefName, DefNames, ImageName, ImageNames, Names, Tap, TapList};
pub use op::Op;
pub use reach::{Axis, extent, least_offset};
pub use row::{Amounts, Gives, Operands, Spelling};
pub use sizes::{depth, nodes};
pub use term::{Env, Leaf, Term, Terms};
pub use types::{is_amount, result_type, type_fault, type_of};
pub use values::{applied_to_one, applied_to_two, half_step, product, shifted, value};
pub use weights::weight;
