//! The flow graph of an op tree and the makers of its leaves, without code: that the walks of the graph
//! are the traces of the tree, what breaks the path rules at its nodes, and which makers reach these. The
//! definitions stand in `specs/`; the functions here name what is proved of them.
#![tactic(auto)]

pub mod laws;

pub use laws::{
    breaks_are_at_exits, breaks_are_at_nodes, falls_are_at_one, graphs_are_exact, marks_are_makers,
    pairs_are_makers, walks_are_traces,
};
