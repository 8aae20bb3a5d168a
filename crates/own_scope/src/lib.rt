//! What is known at a place in the bodies of a text, and what has been made of the text up to there.
#![tactic(auto)]

pub mod builder;
pub mod building;
pub mod callable;
mod counting;
pub mod declared;
mod entries;
pub mod frame;
pub mod held;
pub mod known;
pub mod local;
pub mod scope;
pub mod seen;
pub mod signatures;
pub mod types;

pub use builder::Builder;
pub use building::known_of;
pub use callable::{Callable, Entry, Method};
pub use frame::Frame;
pub use known::Known;
pub use local::{Bound, Local};
pub use scope::{Context, Receiver, Scope};
pub use seen::{Seen, seen_at};
