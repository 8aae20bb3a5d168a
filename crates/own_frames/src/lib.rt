//! The frame law: a call changes nothing beyond its own activation but what it was granted, closures and the
//! aliases of patterns included. The definitions stand in `specs/`; the functions here name what is proved of
//! them.
#![tactic(auto)]

pub mod laws;

pub use laws::{
    calls_are_framed, leaves_are_emptied, lending_changes_nothing, runs_end_empty,
    whole_from_leaves, writes_are_seen,
};
