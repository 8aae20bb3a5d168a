//! What the op trees of a program are made from.

use own_table::TypeTable;
use own_tree::Typed;
use std::alloc::Global;

/// A typed program with its types, and where memory is taken.
#[derive(Clone, Copy)]
pub(crate) struct Builder<'t> {
    pub alloc: Global,
    pub typed: &'t Typed,
    pub table: &'t TypeTable,
}
