//! Where values stand in words, which words are marks, and how a value moves and ends.
#![tactic(auto)]

mod ending;
mod flags;
mod forms;
mod places;
mod scope;
mod spot;
mod values;

pub use flags::place;
pub use forms::{constant, push_copy, push_store, push_when};
pub use places::Places;
pub use scope::Scope;
pub use spot::Spot;
pub use values::{field_offset, field_type, payload_offset, payload_types, start_of};
