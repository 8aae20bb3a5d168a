//! The graph of a body, its makers and their facts together, and what they say of the traces of the body. The
//! functions of `laws` do nothing; they name what is proved of the definitions in `specs/`.
#![tactic(auto)]

mod bodies;
pub mod laws;

pub use bodies::{Flow, flow_of};
pub use laws::{facts_are_of_traces, graphs_and_makers_fit};
