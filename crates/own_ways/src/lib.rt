//! What the runs of the language at every stage stand on: how a step comes out and how steps follow one
//! another, arithmetic of `Int`, and the codes of traps. The definitions stand in `specs/`.
#![tactic(auto)]

pub mod laws;
pub mod traps;

pub use laws::{exact_results_are_ints, trap_codes_are_these};
