//! A count of something in a text, with a place.

use own_tree::Span;

/// A count, and the place that is named where it is too large.
#[derive(Clone, Copy, Debug, PartialEq, Eq)]
pub struct Counted {
    pub count: u64,
    pub at: Span,
}
