//! What is known of a typed program by itself, for what is proved of its runs and of the code that reads it.
//! The definitions stand in `specs/`; the functions here name what is proved of them.
#![tactic(auto)]

pub mod laws;

pub use laws::{matching_is_one, typed_programs_are_known};
