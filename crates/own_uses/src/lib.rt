//! The op tree of a body of a typed program: what it does to places, on which ways.
#![tactic(auto)]

mod bindings;
mod bodies;
mod builder;
mod building;
mod clauses;
mod counting;
pub mod error;
mod expressions;
mod joined;
mod leaves;
mod makers;
mod measure;
mod parts;
mod paths;
mod single;
mod slots;
mod statements;
mod tally;
mod types;
mod usage;

pub use building::op_tree;
pub use counting::op_count;
pub use error::UsesError;
