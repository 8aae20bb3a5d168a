//! What a text has that is counted and judged before its bodies are typed: one walk over its tree.
#![tactic(auto)]

mod declarations;
mod expressions;
pub mod laws;
pub mod names;
mod notes;
mod scopes;
pub mod survey;
pub mod text;

pub use laws::text_limits_are_exceeded;
pub use survey::{Fault, Judgement, Survey, Written};
