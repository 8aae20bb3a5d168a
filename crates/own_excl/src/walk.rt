//! What a body is walked with.

use own_table::TypeTable;
use own_tree::Typed;
use std::alloc::Global;

/// A body of a typed program, by its number, with the types, and where memory is taken.
#[derive(Clone, Copy)]
pub(crate) struct Walk<'t> {
    pub alloc: Global,
    pub typed: &'t Typed,
    pub table: &'t TypeTable,
    pub body: u32,
}
