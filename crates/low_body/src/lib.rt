//! A core as a module: `to_wasm`, and the functions that add the code of each part of a core to a list of
//! instructions.
#![tactic(auto)]

mod code;
mod module;
mod parts;
mod print;
mod round;

pub use module::to_wasm;
