//! Whether the arguments of a call agree with the parameters of what is called, and how each of them is
//! passed.
#![tactic(auto)]

mod agreement;
mod arguments;
pub mod error;
mod passing;
#[cfg(test)]
mod tests;

pub use arguments::{ARGUMENTS_DIFFER, check_args};
pub use error::TypeError;
