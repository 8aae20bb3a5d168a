//! What the path rules go by.

use own_flow::Facts;
use own_table::TypeTable;
use own_tree::{Binding, Maker, Node, Place, Row};

/// A body by its graph, its makers and which of these reach which nodes.
#[derive(Clone, Copy)]
pub(crate) struct Body<'b> {
    pub nodes: &'b [Node],
    pub leaves: &'b [Place],
    pub pairs: &'b [Maker],
    pub facts: &'b Facts,
    /// The makers of each leaf, by their numbers.
    pub by_leaf: &'b [Row<u32>],
    pub bindings: &'b [Binding],
    pub table: &'b TypeTable,
    /// Whether it contains `discard self`.
    pub discards: bool,
}
