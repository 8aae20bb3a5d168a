//! *Typing*: the program that the bodies of a text become.
#![tactic(auto)]

mod bodies;
mod branches;
mod calls;
mod clauses;
mod closures;
mod discards;
mod expressions;
mod headings;
mod loops;
mod program;
mod statements;

pub use own_calls::TypeError;
pub use program::type_program;
