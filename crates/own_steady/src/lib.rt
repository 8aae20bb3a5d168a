//! No run of a steady program strays: each step keeps a store whose values fit the types of their places.
//! The definitions stand in `specs/`; the functions here name what is proved of them.
#![tactic(auto)]

pub mod laws;

pub use laws::{only_turns_cut_runs, steady_programs_do_not_stray, typed_programs_do_not_stray};
