//! Whether patterns match every value of a type, and the first form of a value that none matches.
#![tactic(auto)]

mod column;
mod covering;
mod found;
mod head;
pub mod laws;
mod search;
mod silent;
mod values;

pub use covering::cover;
pub use laws::{
    first_missing_is_one, forms_are_apart, forms_are_ordered, forms_are_small, has_value_is_exact,
    values_have_forms,
};
