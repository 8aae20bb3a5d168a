//! A WebAssembly module as data, with the definitions of its steps.
//!
//! The profile is the integer part of WebAssembly Core 1.0 with six imports. Values are unsigned
//! bits everywhere: a signed number is its two's complement.
#![tactic(auto)]

pub mod instr;
pub mod limits;
pub mod module;
pub mod opcode;
pub mod traps;
pub mod types;

pub use instr::{Instr, MemArg};
pub use module::{
    CodeEntry, DataSegment, ElementSegment, Export, ExportKind, GlobalEntry, HostCall, Import,
    LocalGroup, Module,
};
pub use types::{BlockType, FunctionType, Limits, Value, ValueType};
