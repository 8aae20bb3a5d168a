//! What is said of a text: whether it is in the grammar, well typed and within the limits, and which rules of
//! ownership it breaks; and the module that an accepted one becomes.
#![tactic(auto)]

mod bodies;
mod building;
mod front;
mod order;
mod text;

pub use building::{Built, build};
pub use text::{Checked, Refused, check_text};
