//! The core language, which stands between the typed program and the module: functions over words of
//! frames. What a core does, what a core has to keep to so that its module is within the limits of
//! modules, and the numbers of both stand in `specs/` and here.
#![tactic(auto)]

pub mod code;
pub mod laws;
pub mod limits;
pub mod program;
#[cfg(test)]
mod tests;

pub use code::{CoreAt, CoreForm, CorePiece, CoreWord};
pub use laws::{areas_are_these, rates_are_within};
pub use program::{Core, CoreFunction};
