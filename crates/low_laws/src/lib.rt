//! The module that a core becomes, and what is proved of it: that it does what the core does, in both
//! directions, and that some bytes spell it. The definitions stand in `specs/`; the functions here name
//! what is proved of them.
#![tactic(auto)]

pub mod laws;
pub mod places;

pub use laws::{modules_are_spelled, modules_follow};
