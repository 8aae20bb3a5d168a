//! What is counted of an op tree.

use crate::builder::Builder;

/// What is counted of the ops of a tree.
#[derive(Clone, Copy)]
pub(crate) enum Measure<'t> {
    /// Each counts once.
    Ops,
    /// Each counts the leaves that it makes, ends or declares in the body of that number.
    Makers(&'t Builder<'t>, u32),
}
