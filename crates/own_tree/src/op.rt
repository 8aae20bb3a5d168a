//! Op trees: what the body of a text does to places, in order of evaluation. A contract sees an op tree
//! through `specs/OpView.antt`.

use crate::place::Place;
use crate::row::Row;
use crate::span::Span;
use sqlite_items::{Boxed, Items};

/// What an op does to its place.
#[derive(Clone, Copy, Debug, PartialEq, Eq)]
pub enum OpKind {
    Declare,
    Make,
    Read,
    Borrow,
    Inout,
    Consume,
    Discard,
    Assign,
    Capture,
    End,
}

/// One use of a place.
#[derive(Debug, Drop)]
pub struct Op {
    pub kind: OpKind,
    pub place: Place,
    pub span: Span,
    /// The innermost node of the body's block whose span holds that of the op, or 0.
    pub node: u32,
}

/// The ops of a body, with its branches, loops, scopes and ways out.
#[derive(Drop)]
pub enum OpTree {
    Op(Op),
    Seq(Items<OpTree>),
    Either(Boxed<OpTree>, Boxed<OpTree>),
    /// In each turn the first part and then the second. A `Continue` ends the first part, a `Break` the
    /// loop.
    Loop(Boxed<OpTree>, Boxed<OpTree>),
    /// Ends a `Break`.
    Catch(Boxed<OpTree>),
    /// The bindings of a scope that have an End, in order, and the span of its `}`. Every way out has an
    /// End for each, the last first.
    Scope(Row<u32>, Span, Boxed<OpTree>),
    Break(Span),
    Continue(Span),
    Return(Span),
    /// A `switch` over an enum without cases, which never goes on.
    Halt,
}
