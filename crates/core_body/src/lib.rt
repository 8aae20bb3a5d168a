//! The core of a typed program: `to_core`.
#![tactic(auto)]

mod arguments;
mod bodies;
mod calls;
mod closures;
mod coder;
mod constructions;
mod droppers;
mod events;
mod expressions;
mod items;
mod jumps;
mod loops;
mod members;
mod patterns;
mod program;
mod single;
mod statements;
mod switches;
mod texts;
mod words;

pub use program::to_core;
