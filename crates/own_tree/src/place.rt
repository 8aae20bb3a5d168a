//! Types, bindings and places, as the typing of a text numbers them.

use crate::row::{Bytes, Row};
use crate::span::Span;

/// A type.
#[derive(Clone, Copy, Debug, PartialEq, Eq)]
pub enum Ty {
    Int,
    Bool,
    /// What a body without a result gives.
    Unit,
    /// The struct or enum that is declared after so many others.
    Named(u32),
    /// A function type: so many entries stand before its own in the signatures of the program. Equal
    /// function types have one entry.
    Fun(u32),
}

/// A binding, or a stored property in it. `fields` are the numbers of the properties on the way, from
/// the outside in, each in order of declaration from 0.
#[derive(Debug, Drop)]
pub struct Place {
    pub binding: u32,
    pub fields: Row<u32>,
}

/// How a binding came about, which says who owns its value and what may be done to it.
#[derive(Clone, Copy, Debug, PartialEq, Eq)]
pub enum Mode {
    /// A `let` of a block.
    Let,
    /// A `var` of a block.
    Var,
    /// A parameter without a modifier, and `self` in an unmarked method of a copyable type.
    Plain,
    /// A `borrowing` parameter (SE-0377).
    Borrowing,
    /// A `consuming` parameter (SE-0377).
    Consuming,
    Inout,
    /// The variable of a `for`.
    Turn,
    /// A binding of a pattern that owns its value (SE-0432).
    PatternOwned,
    /// A binding of a pattern that lies in the borrowed subject (SE-0432).
    PatternBorrowed,
    SelfBorrowing,
    SelfConsuming,
    SelfMutating,
    SelfInit,
    SelfDeinit,
    /// A parameter of function type.
    Closure,
}

/// A name that stands for a value: a local, a parameter, `self`, a loop variable or a name in a
/// pattern. They are numbered from 0 through the text, in order of their spans; of two with the same
/// span the borrowed one comes first.
#[derive(Debug, Drop)]
pub struct Binding {
    /// Empty where the text has `_`.
    pub name: Bytes,
    pub ty: Ty,
    pub mode: Mode,
    /// The name in the text; of `self` the name of its method, or the word `init` or `deinit`.
    pub span: Span,
    /// The body that declares it.
    pub body: u32,
}
