//! The findings of the fixed rules: what breaks O7 to O11 by itself, whatever ways lead to it.
#![tactic(auto)]

mod access;
mod breaks;
mod calls;
mod change;
mod expressions;
mod findings;
mod leaves;
mod places;
mod properties;
mod rules;
mod statements;
mod switches;
mod types;
mod walk;

pub use findings::fixed_findings;
pub use own_within::{Captured, captures};
