//! A name, as a scope keeps it.

use crate::local::Bound;
use own_tree::Bytes;

/// A name with what it is bound to.
#[derive(Debug, Drop)]
pub struct Held {
    pub name: Bytes,
    pub bound: Bound,
}
