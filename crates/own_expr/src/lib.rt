//! The parser of expressions, patterns, statements and blocks.
#![tactic(auto)]

mod atoms;
mod block;
mod fault;
mod let_patterns;
mod lines;
mod makers;
mod next;
mod nodes;
mod operators;
mod paths;
mod patterns;
mod read;
pub mod tokens;

pub use block::{BlockAt, parse_block};
