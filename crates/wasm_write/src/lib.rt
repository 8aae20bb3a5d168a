//! Modules as bytes: each has one shortest spelling.
#![tactic(auto)]

mod code;
mod encode;
mod entries;
mod module;
mod number;

pub use module::write_module;
