//! Whether a module has room for a core: one walk over it, against the sums of `core_form/specs/Sizes.antt`.
#![tactic(auto)]

mod code;
mod program;
mod room;

pub use program::fits;
