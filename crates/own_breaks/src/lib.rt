//! What breaks the path rules of a body, and which facts its leaves have, without code: by the makers that
//! reach the nodes of its graph. The definitions stand in `specs/`; the functions here name what is proved
//! of them.
#![tactic(auto)]

pub mod laws;

pub use laws::{
    best_are_findings, breaks_are_blamed, facts_are_at_nodes, facts_are_by_makers, offers_gather,
};
