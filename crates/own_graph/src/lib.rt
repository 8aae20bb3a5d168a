//! The flow graph of an op tree, and the makers of the leaves of a body at its nodes.
#![tactic(auto)]

mod lay;
mod nodes;
mod pairs;
mod targets;

pub use lay::graph;
pub use pairs::makers;

#[cfg(test)]
mod tests;
