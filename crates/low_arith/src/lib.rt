//! Checked arithmetic: the instructions that do an operation of `Int` exactly, or trap.
#![tactic(auto)]

mod codes;
pub mod places;

pub use codes::checked;
