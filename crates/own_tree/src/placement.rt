//! What is said of the destruction of leaves, and of the clauses of a `switch`, to the layer below.

use crate::place::Place;
use crate::row::Row;
use crate::span::Span;

/// A leaf of a body for which the running program remembers whether it has a value.
#[derive(Debug, Drop)]
pub struct Flag {
    pub body: u32,
    pub place: Place,
}

/// Whether a leaf is destroyed.
#[derive(Clone, Copy, Debug, PartialEq, Eq)]
pub enum How {
    Yes,
    No,
    /// Where the flag of this number is set.
    Flag(u32),
}

/// What becomes of a leaf at the span of an End or Assign of a body.
#[derive(Debug, Drop)]
pub struct Plan {
    pub body: u32,
    pub at: Span,
    pub leaf: Place,
    pub how: How,
}

/// The flags of a program, and what becomes of each leaf at each End and Assign.
#[derive(Debug, Drop)]
pub struct Placement {
    pub flags: Row<Flag>,
    pub plans: Row<Plan>,
}

/// What a part of a subject has to be.
#[derive(Clone, Copy, Debug, PartialEq, Eq)]
pub enum Want {
    Case(u32),
    Number(i64),
    Truth(bool),
}

/// A test of a part of the subject. A place of an arm lies within the subject: its binding is 0 and
/// names nothing, and its fields are the numbers of the payloads on the way, from the outside in.
#[derive(Debug, Drop)]
pub struct Test {
    pub at: Place,
    pub want: Want,
}

/// A part of the subject that moves to a binding.
#[derive(Debug, Drop)]
pub struct Move {
    pub from: Place,
    pub to: u32,
}

/// What a pattern tests, moves and leaves to be destroyed.
#[derive(Debug, Drop)]
pub struct Arm {
    pub tests: Row<Test>,
    pub moves: Row<Move>,
    pub drops: Row<Place>,
}
