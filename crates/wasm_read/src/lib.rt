//! Modules from bytes: exactly what WebAssembly Core 1.0 spells within the profile and the limits.
#![tactic(auto)]

mod code;
mod counts;
mod fault;
mod globals;
mod imports;
mod input;
mod laws;
mod module;
mod number;
mod opcodes;
mod plain;
mod sections;
mod segments;
mod types;

pub use fault::ReadError;
pub use laws::spelling_law;
pub use module::read_module;
