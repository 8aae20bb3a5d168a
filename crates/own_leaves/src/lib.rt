//! The leaves of a body, and what an op does to those at its place or below it.
#![tactic(auto)]

mod effects;
mod leaves;
mod places;

pub use effects::{ends_nothing, is_maker};
pub use leaves::body_leaves;
pub use places::{covers, is_strictly_above, overlaps};

#[cfg(test)]
mod tests;
