//! What stands within a block of a typed program, as lists, and what a closure captures.
#![tactic(auto)]

pub mod captured;
mod capturing;
mod expressions;
mod mentions;
mod nodes;
mod outer;
mod statements;
mod within;

pub use captured::Captured;
pub use capturing::captures;
pub use nodes::{first_passing, node_of, other_passings, path_of};
pub use within::{expressions_of, statements_in};
