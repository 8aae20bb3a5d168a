//! The typed program: the bodies of a text in the shape of its tree, with each name as a place, and
//! each call with its target and the way in which it passes its arguments. A contract sees it through
//! `specs/TypedView.antt`, as plain data of `specs/TypedSource.antt`.

use crate::arithmetic::Arith;
use crate::pattern::TPattern;
use crate::place::{Binding, Mode, Place, Ty};
use crate::row::{Bytes, Row};
use crate::span::Span;
use crate::tree::RangeOperator;
use sqlite_items::{Boxed, Items};

/// What each node has: a number of its own in the text, its span, and its type, which is `Unit` for a
/// statement.
#[derive(Clone, Copy, Debug, PartialEq, Eq)]
pub struct At {
    pub id: u32,
    pub span: Span,
    pub ty: Ty,
}

/// A path of the text, which names a place.
#[derive(Debug, Drop)]
pub struct TypedPath {
    pub at: At,
    pub place: Place,
}

/// A comparison of two `Int` or, by equality alone, of two `Bool`.
#[derive(Clone, Copy, Debug, PartialEq, Eq)]
pub enum Comparison {
    Equal,
    Unequal,
    Less,
    LessEqual,
    Greater,
    GreaterEqual,
}

/// `&&` or `||`, whose second part is evaluated only where the first one leaves it open.
#[derive(Clone, Copy, Debug, PartialEq, Eq)]
pub enum Logic {
    And,
    Or,
}

/// What a call calls. Bodies and types are numbered through the text, cases in their enum.
#[derive(Clone, Copy, Debug, PartialEq, Eq)]
pub enum Target {
    /// The body of a function.
    Function(u32),
    /// The body of a method. Its receiver is the first argument.
    Method(u32),
    /// The body of a declared `init`.
    Init(u32),
    /// The construction of a struct without one, by its type.
    Memberwise(u32),
    /// The construction of a case, by its enum and its own number.
    Case(u32, u32),
    /// A parameter of function type, by its binding.
    Closure(u32),
    Print,
    ReadInt,
}

/// How an argument is passed, by the parameter that takes it (SE-0377).
#[derive(Clone, Copy, Debug, PartialEq, Eq)]
pub enum Passing {
    /// A copy of a copyable value, and an item of `print`.
    ByValue,
    Borrow,
    Inout,
    Consume,
    Closure,
}

/// An expression.
#[derive(Drop)]
pub enum TypedExpr {
    Number(At, i64),
    /// The text between the quotes, which stands only in a `print`.
    Text(At, Bytes),
    Truth(At, bool),
    Path(TypedPath),
    Parenthesized(At, Boxed<TypedExpr>),
    /// `consume path` (SE-0366), a node over the path's own.
    Consume(At, TypedPath),
    /// A `-`, with the span of the mark.
    Negate(At, Span, Boxed<TypedExpr>),
    /// A `!`.
    Not(At, Boxed<TypedExpr>),
    /// Arithmetic that traps on overflow, with the span of the operator.
    Arithmetic(At, Arith, Span, Boxed<TypedExpr>, Boxed<TypedExpr>),
    /// `&+`, `&-` or `&*`.
    Wrapping(At, Arith, Boxed<TypedExpr>, Boxed<TypedExpr>),
    Compare(At, Comparison, Boxed<TypedExpr>, Boxed<TypedExpr>),
    Logic(At, Logic, Boxed<TypedExpr>, Boxed<TypedExpr>),
    /// `condition ? first : second`.
    Choice(At, Boxed<TypedExpr>, Boxed<TypedExpr>, Boxed<TypedExpr>),
    /// A stored property of a value that is no place, by its number.
    Member(At, Boxed<TypedExpr>, u32),
    /// A call or a construction, with its arguments and the way in which each is passed. A receiver
    /// stands first; the `self` of a call without one has the span of the name that is called.
    Call(At, Target, Items<TypedExpr>, Row<Passing>),
    /// `&path`, which is one node.
    Address(TypedPath),
    /// A closure literal, by the number of its body.
    Closure(At, u32),
    /// A parameter of function type that is passed on, by its binding.
    Function(At, u32),
}

/// A statement.
#[cycle(typed)]
#[derive(Drop)]
pub enum TypedStmt {
    /// A `let` or `var` with a value, by its binding.
    Let(At, u32, TypedExpr),
    /// A `var` without one.
    Declare(At, u32),
    /// `_ = e`, in each of its spellings.
    Ignore(At, TypedExpr),
    Assign(At, TypedPath, TypedExpr),
    /// An assignment with arithmetic, and the span of its operator.
    Update(At, TypedPath, Arith, Span, TypedExpr),
    /// `discard self` (SE-0390).
    Discard(At, Place),
    If(At, TypedExpr, TypedBlock),
    IfElse(At, TypedExpr, TypedBlock, TypedBlock),
    ElseIf(At, TypedExpr, TypedBlock, Boxed<TypedStmt>),
    While(At, TypedExpr, TypedBlock),
    Repeat(At, TypedBlock, TypedExpr),
    /// The binding (None for `_`), the lower bound, the operator with its span, the upper bound.
    For(At, Option<u32>, TypedExpr, RangeOperator, Span, TypedExpr, TypedBlock),
    Switch(At, TypedExpr, Items<TypedClause>),
    Break(At),
    Continue(At),
    Return(At),
    ReturnValue(At, TypedExpr),
    /// An expression, which is a node of its own under the statement.
    Evaluate(At, TypedExpr),
}

/// A clause of a `switch`, which is no node.
#[cycle(typed)]
#[derive(Drop)]
pub struct TypedClause {
    pub span: Span,
    pub head: TypedHead,
    pub statements: Items<TypedStmt>,
}

/// What stands before the `:` of a clause.
#[derive(Drop)]
pub enum TypedHead {
    Case(Row<TPattern>),
    /// A pattern with a `where`.
    Guarded(TPattern, TypedExpr),
    Default,
}

/// The statements between two braces, which are one node with them.
#[cycle(typed)]
#[derive(Drop)]
pub struct TypedBlock {
    pub at: At,
    pub statements: Items<TypedStmt>,
}

/// What a body belongs to.
#[derive(Clone, Copy, Debug, PartialEq, Eq)]
pub enum BodyKind {
    Function,
    Method,
    Initializer,
    Deinitializer,
    /// A closure literal, with the body that it stands in.
    Closure(u32),
}

/// A function, a method, an `init`, a `deinit` or a closure. Bodies are numbered from 0 through the
/// text, in order of their `span`.
#[derive(Drop)]
pub struct Body {
    pub kind: BodyKind,
    /// The number of the type whose member it is.
    pub owner: Option<u32>,
    /// The bindings of `self`, where there is one, and of the parameters, in order.
    pub params: Row<u32>,
    pub result: Ty,
    /// Whether it contains `discard self`.
    pub discards: bool,
    /// Its name, the word `init` or `deinit`, or the `{` of a closure.
    pub span: Span,
    /// Its closing brace.
    pub close: Span,
    pub block: TypedBlock,
}

/// A function type, or what a body takes and gives.
#[derive(Debug, Drop)]
pub struct Signature {
    pub params: Row<ParamInfo>,
    pub result: Ty,
}

/// What a parameter says to its callers.
#[derive(Debug, Drop)]
pub struct ParamInfo {
    pub label: Option<Bytes>,
    pub mode: Mode,
    pub ty: Ty,
}

/// How an argument is written.
#[derive(Clone, Copy, Debug, PartialEq, Eq)]
pub enum Form {
    /// An expression that names no place.
    Value,
    Path,
    /// `&path`
    Address,
    Closure,
}

/// What an argument says to the parameter that takes it.
#[derive(Debug, Drop)]
pub struct ArgInfo {
    pub label: Option<Bytes>,
    pub form: Form,
    pub ty: Ty,
    pub at: Span,
}

/// A text after typing.
#[derive(Drop)]
pub struct Typed {
    pub bodies: Row<Body>,
    pub bindings: Row<Binding>,
    /// The function types of the text.
    pub signatures: Row<Signature>,
    /// The body of `func main`.
    pub main: u32,
    /// The number of tokens of the text.
    pub tokens: u32,
}
