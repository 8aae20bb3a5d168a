//! Statements and closures as far as they do not need the walk over their parts: locals, jumps, `discard self`, and
//! what a closure has besides its statements.
#![tactic(auto)]

pub mod jumps;
pub mod locals;
pub mod opened;
pub mod stated;

pub use stated::Stated;
