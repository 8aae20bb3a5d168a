//! The flow graph of a body and the facts on its leaves.

use crate::op::Op;
use crate::place::Place;
use crate::row::Row;
use crate::span::Span;

/// A point of a body: an op, or a way out with its span, or neither.
#[derive(Debug, Drop)]
pub struct Node {
    pub op: Option<Op>,
    /// Where a return stands here.
    pub exit: Option<Span>,
    /// The nodes that may come next.
    pub next: Row<u32>,
}

/// The flow graph of a body. Its walks from the entry are the ways through the body.
#[derive(Debug, Drop)]
pub struct Graph {
    pub nodes: Row<Node>,
    /// The node at which the body begins, which has no op.
    pub entry: u32,
}

/// A node that makes, ends or declares a leaf.
#[derive(Clone, Copy, Debug, PartialEq, Eq)]
pub struct Maker {
    pub node: u32,
    pub leaf: u32,
    /// Whether it makes the leaf.
    pub live: bool,
}

/// The makers of the leaves of a body.
#[derive(Debug, Drop)]
pub struct Makers {
    /// The leaves of the bindings that the body declares, in order.
    pub leaves: Row<Place>,
    /// First one for each leaf at the entry, which is not live.
    pub pairs: Row<Maker>,
}

/// Whether a leaf has a value before an op, over all paths to it.
#[derive(Clone, Copy, Debug, PartialEq, Eq)]
pub enum LeafFact {
    Always,
    /// On no path, or there is none.
    Never,
    /// On some paths and not on others.
    Both,
}

/// The facts of a body: entry i of `ops` and row i of `rows` belong to node i of its graph.
#[derive(Debug, Drop)]
pub struct BodyFacts {
    pub leaves: Row<Place>,
    pub ops: Row<Option<Op>>,
    pub rows: Row<Row<LeafFact>>,
}

/// The facts of all bodies, in order.
#[derive(Debug, Drop)]
pub struct LeafFacts {
    pub bodies: Row<BodyFacts>,
}
