//! What types are made of: what a text declares, the shape that a type unfolds to, its leaves and slots,
//! and places. The definitions stand in `specs/`; the functions here name what is proved of them.
#![tactic(auto)]

pub mod counted;
pub mod info;
pub mod laws;

pub use counted::Counted;
pub use info::{CaseInfo, FieldInfo, TypeInfo};
pub use laws::{
    leaves_are_apart, opened_leaves_are_apart, parts_are_no_larger, places_are_ordered,
    shapes_unfold,
};
