//! Places in a text as people count them, and the lines of refusals and findings, which name them.
#![tactic(auto)]

mod diagnostic;
mod fields;
mod finding;
mod lexing;
mod limits;
mod line;
pub mod place;
mod places;
mod refusal;
mod rules;
mod typing;

pub use finding::{finding_lines, finding_text};
pub use place::{LineColumn, place_in, place_of};
pub use refusal::refusal_text;
