//! The patterns of a `switch`: what they match and bind, and whether they cover (SE-0432).
#![tactic(auto)]

pub mod copies;
pub mod coverage;
pub mod forms;
pub mod heads;
pub mod how;
pub mod literals;
pub mod matched;
mod names;
pub mod patterns;

pub use copies::all_matched;
pub use coverage::covering;
pub use heads::{alternatives, one_or_none};
pub use how::{How, how_taken, moved, unguarded};
pub use matched::{Matched, MatchedList};
pub use patterns::pattern_of;
