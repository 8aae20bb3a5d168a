//! *Typing*: which program the bodies of a text become, and which judgement is false of those that become
//! none. The definitions stand in `specs/`; the functions here name what is proved of them.
#![tactic(auto)]

pub mod laws;

pub use laws::{fault_is_one, finds_typing, never_both, typed_or_refused, typing_is_one};
