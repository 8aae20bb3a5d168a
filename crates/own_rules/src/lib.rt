//! The findings of the path rules of a body, O1 to O6 and F1, and the facts of its leaves.
#![tactic(auto)]

mod asks;
mod best;
mod body;
mod breaks;
mod by_leaf;
mod causes;
mod falls;
mod findings;
mod offer;
mod order;

pub use findings::path_findings;
