//! Kernels: their texts, and the size of their outputs.
#![tactic(auto)]

mod expression;
mod fault;
mod front;
mod kernel;
mod line;
mod read;
mod reading;
mod size;
mod write;

pub use fault::KernelFault;
pub use kernel::Kernel;
pub use pf_terms::{Definition, Definitions, ImageDecl, ImageList};
pub use read::read_kernel;
pub use size::out_size;
pub use write::write_kernel;
