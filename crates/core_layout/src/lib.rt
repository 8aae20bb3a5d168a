//! Which words of a frame the bindings and the waiting values of a body have, and what the table of types
//! says of any type.
#![tactic(auto)]

mod frames;
mod modes;
mod placing;
pub mod types;
mod waiting;
mod words;

pub use modes::{is_alias, words_of_mode};
pub use placing::layout;
pub use waiting::{holder, is_given};
pub use words::Layout;

#[cfg(test)]
mod tests;
