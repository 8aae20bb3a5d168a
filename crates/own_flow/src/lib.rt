//! Which makers of leaves reach which nodes of a flow graph, as rows of bits.
#![tactic(auto)]

mod bits;
mod facts;
mod made;
mod pass;
mod round;
mod sweep;
mod tables;

pub use facts::{Facts, advance, reach};

#[cfg(test)]
mod tests;
