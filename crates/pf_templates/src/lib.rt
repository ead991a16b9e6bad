//! Templates: forms with letters. Calls find what the letters stand for in a form, test whether
//! the form is the template, and make a form of it.
#![tactic(auto)]

mod exponents;
mod fault;
mod fitting;
mod given;
mod looking;
mod making;
mod template;

pub use exponents::two_to;
pub use fault::BuildFault;
pub use fitting::fits;
pub use given::Given;
pub use looking::look;
pub use making::build;
pub use template::{Exponent, Letter, Numeral, Template, Which};
