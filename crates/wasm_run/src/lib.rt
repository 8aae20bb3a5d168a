//! A machine that runs a WebAssembly module: at most so many steps, with output to a sink.
#![tactic(auto)]

mod machine;
mod state;

pub use machine::{Machine, Ran};
