//! The bindings that each body of a program declares, by their numbers.
#![tactic(auto)]

mod index;
mod numbers;

pub use index::BodyBindings;
pub use numbers::bindings_of;

#[cfg(test)]
mod tests;
