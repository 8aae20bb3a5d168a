//! The terms of typed programs: what expressions become once their parts are typed.
#![tactic(auto)]

pub mod arguments;
pub mod items;
pub mod nodes;
pub mod operators;
pub mod values;
