//! The tree of a text before typing: one variant for each production of the grammar, with its parts in
//! order and its span. A contract sees a tree through `specs/View.antt`, as a plain tree of
//! `specs/Source.antt`.

use crate::row::{Bytes, Row};
use crate::span::Span;
use sqlite_items::{Boxed, Items};

/// A name, as it stands in the text.
#[derive(Debug, Drop)]
pub struct Name {
    pub text: Bytes,
    pub span: Span,
}

/// A text: its declarations and the last `main()`.
#[derive(Drop)]
pub struct Tree {
    pub declarations: Row<Declaration>,
    /// The word `main` of the last statement.
    pub main: Span,
    /// The number of tokens of the text.
    pub tokens: u32,
}

/// A struct, an enum or a function at the top of a text.
#[derive(Drop)]
pub enum Declaration {
    Struct(StructDeclaration),
    Enum(EnumDeclaration),
    Function(FunctionDeclaration),
}

/// A struct (SE-0390: `noncopyable` where `: ~Copyable` stands after its name).
#[derive(Drop)]
pub struct StructDeclaration {
    pub span: Span,
    pub name: Name,
    pub noncopyable: bool,
    pub members: Row<StructMember>,
}

/// What stands in the braces of a struct.
#[derive(Drop)]
pub enum StructMember {
    Field(Field),
    Initializer(Initializer),
    Deinitializer(Deinitializer),
    Method(Method),
}

/// A stored property. `keyword` says whether it may be assigned later.
#[derive(Drop)]
pub struct Field {
    pub span: Span,
    pub keyword: Keyword,
    pub name: Name,
    pub written: Name,
}

/// An `init`, at most one of which a struct has.
#[derive(Drop)]
pub struct Initializer {
    pub span: Span,
    pub parameters: Row<Parameter>,
    pub block: Block,
}

/// A `deinit` (SE-0390).
#[derive(Drop)]
pub struct Deinitializer {
    pub span: Span,
    pub block: Block,
}

/// A function of a type, and the modifier of its `self` where one is written.
#[derive(Drop)]
pub struct Method {
    pub span: Span,
    pub mode: Option<MethodMode>,
    pub function: FunctionDeclaration,
}

/// What a method does with `self` (SE-0377; `mutating` is Swift's own).
#[derive(Clone, Copy, Debug, PartialEq, Eq)]
pub enum MethodMode {
    Borrowing,
    Consuming,
    Mutating,
}

/// A function, `result` of which is None where the text writes none.
#[derive(Drop)]
pub struct FunctionDeclaration {
    pub span: Span,
    pub name: Name,
    pub parameters: Row<Parameter>,
    pub result: Option<ResultType>,
    pub block: Block,
}

/// An enum (SE-0390: `noncopyable` where `: ~Copyable` stands after its name).
#[derive(Drop)]
pub struct EnumDeclaration {
    pub span: Span,
    pub name: Name,
    pub noncopyable: bool,
    pub members: Row<EnumMember>,
}

/// What stands in the braces of an enum.
#[derive(Drop)]
pub enum EnumMember {
    /// The items of one `case`.
    Cases(Span, Row<CaseItem>),
    Deinitializer(Deinitializer),
    Method(Method),
}

/// One name of a `case`, and the written types of its payloads.
#[derive(Drop)]
pub struct CaseItem {
    pub span: Span,
    pub name: Name,
    pub payloads: Row<Name>,
}

/// A parameter of a function, method or `init`.
#[derive(Drop)]
pub struct Parameter {
    pub span: Span,
    pub label: Label,
    pub name: Name,
    pub written: ParameterType,
}

/// What stands before a parameter's name: nothing, so that the name is the label too, a `_`, or a label.
#[derive(Drop)]
pub enum Label {
    Same,
    Omitted,
    Other(Name),
}

/// The written type of a parameter: a name with its modifier, or a function type.
#[derive(Drop)]
pub enum ParameterType {
    Named {
        span: Span,
        mode: Option<PassingMode>,
        name: Name,
    },
    Function {
        span: Span,
        parameters: Row<FunctionParameter>,
        result: ResultType,
    },
}

/// A parameter inside a function type.
#[derive(Drop)]
pub struct FunctionParameter {
    pub span: Span,
    pub mode: Option<PassingMode>,
    pub name: Name,
}

/// The modifier of a parameter (SE-0377).
#[derive(Clone, Copy, Debug, PartialEq, Eq)]
pub enum PassingMode {
    Borrowing,
    Consuming,
    Inout,
}

/// What stands after `->`: a name or `()`.
#[derive(Drop)]
pub enum ResultType {
    Named(Name),
    Empty(Span),
}

/// `let` or `var`.
#[derive(Clone, Copy, Debug, PartialEq, Eq)]
pub enum Keyword {
    Let,
    Var,
}

/// A name or `self`, and the fields after it.
#[derive(Drop)]
pub struct Path {
    pub span: Span,
    pub root: Root,
    pub fields: Row<Name>,
}

/// What a path begins with.
#[derive(Drop)]
pub enum Root {
    Named(Name),
    SelfWord(Span),
}

/// A mark that stands right before its part: `-` or `!`.
#[derive(Clone, Copy, Debug, PartialEq, Eq)]
pub enum PrefixOperator {
    Minus,
    Not,
}

/// An operator between two parts. `Wrapping` are those with `&`, which do not trap.
#[derive(Clone, Copy, Debug, PartialEq, Eq)]
pub enum BinaryOperator {
    Or,
    And,
    Equal,
    Unequal,
    Less,
    LessEqual,
    Greater,
    GreaterEqual,
    Plus,
    Minus,
    PlusWrapping,
    MinusWrapping,
    Times,
    Divide,
    Remainder,
    TimesWrapping,
}

/// `=`, or an operator with a `=` after it.
#[derive(Clone, Copy, Debug, PartialEq, Eq)]
pub enum AssignOperator {
    Plain,
    Plus,
    Minus,
    Times,
    Divide,
    Remainder,
}

/// The operator of a `for`: `..<` leaves the upper bound out.
#[derive(Clone, Copy, Debug, PartialEq, Eq)]
pub enum RangeOperator {
    HalfOpen,
    Closed,
}

/// A pattern of a `case` (SE-0432 for noncopyable subjects).
#[derive(Drop)]
pub enum Pattern {
    Any(Span),
    Bind(Span, Name),
    /// `let` before a case: the names inside bind.
    BindCase(Span, LetPattern),
    Case(Span, Name, Items<Pattern>),
    /// A number, negative where a `-` stands before it.
    Number(Span, bool, u64),
    Truth(Span, bool),
}

/// A pattern after `let`, in which a name binds.
#[derive(Drop)]
pub enum LetPattern {
    Any(Span),
    Bind(Name),
    Case(Span, Name, Items<LetPattern>),
    Number(Span, bool, u64),
    Truth(Span, bool),
}

/// An expression.
#[cycle(tree)]
#[derive(Drop)]
pub enum Expr {
    /// A number, at most 2^63, negative where a `-` stands right before it.
    Number(Span, bool, u64),
    /// A text, its escapes replaced.
    Text(Span, Bytes),
    Truth(Span, bool),
    Path(Path),
    /// `.name`, a case of the enum that is expected here.
    ImplicitMember(Span, Name),
    Parenthesized(Span, Boxed<Expr>),
    Consume(Span, Path),
    Prefix(Span, PrefixOperator, Boxed<Expr>),
    /// An operator between two parts. The second span is that of the operator.
    Binary(Span, BinaryOperator, Span, Boxed<Expr>, Boxed<Expr>),
    /// `condition ? first : second`.
    Choice(Span, Boxed<Expr>, Boxed<Expr>, Boxed<Expr>),
    Member(Span, Boxed<Expr>, Name),
    Call(Span, Boxed<Expr>, Items<Argument>),
    /// A call whose last argument is the closure after its parentheses.
    CallClosing(Span, Boxed<Expr>, Items<Argument>, Closure),
    /// A call without parentheses, of one closure.
    CallClosure(Span, Boxed<Expr>, Closure),
}

/// An argument of a call, with its label where one is written.
#[cycle(tree)]
#[derive(Drop)]
pub struct Argument {
    pub label: Option<Name>,
    pub passed: Passed,
}

/// What an argument passes: a value, a place by `&`, or a closure.
#[cycle(tree)]
#[derive(Drop)]
pub enum Passed {
    Value(Expr),
    Address(Span, Path),
    Closure(Closure),
}

/// A name of a closure. `_` binds without a name to look up.
#[derive(Debug, Drop)]
pub enum ClosureName {
    Any(Span),
    Bind(Name),
}

/// A closure literal. Its names stand before `in`.
#[cycle(tree)]
#[derive(Drop)]
pub struct Closure {
    pub span: Span,
    pub names: Row<ClosureName>,
    pub statements: Items<Stmt>,
}

/// A statement.
#[cycle(tree)]
#[derive(Drop)]
pub enum Stmt {
    /// `let` or `var`, a name, a type where one is written, and a value.
    Let(Span, Keyword, Name, Option<Name>, Expr),
    /// The same without a value: a name, None for `_`, and a type where one is written.
    Declare(Span, Keyword, Option<Name>, Option<Name>),
    /// An assignment, with the span of its operator.
    Assign(Span, Path, AssignOperator, Span, Expr),
    /// `_ = e`, or `let _ = e` with the type that it may write.
    Ignore(Span, Option<Name>, Expr),
    /// `discard self` (SE-0390).
    Discard(Span),
    If(Span, Expr, Block),
    IfElse(Span, Expr, Block, Block),
    ElseIf(Span, Expr, Block, Boxed<Stmt>),
    While(Span, Expr, Block),
    Repeat(Span, Block, Expr),
    /// A name (None for `_`), the lower bound, the operator with its span, the upper bound.
    For(Span, Option<Name>, Expr, RangeOperator, Span, Expr, Block),
    Switch(Span, Expr, Items<Clause>),
    Break(Span),
    Continue(Span),
    Return(Span),
    ReturnValue(Span, Expr),
    Evaluate(Expr),
}

/// A clause of a `switch`: its head and the statements after the `:`.
#[cycle(tree)]
#[derive(Drop)]
pub struct Clause {
    pub span: Span,
    pub head: Head,
    pub statements: Items<Stmt>,
}

/// What stands before the `:` of a clause.
#[cycle(tree)]
#[derive(Drop)]
pub enum Head {
    Case(Row<Pattern>),
    /// A pattern with a `where`.
    Guarded(Pattern, Expr),
    Default,
}

/// The statements between two braces, and the span of both braces and what is between.
#[cycle(tree)]
#[derive(Drop)]
pub struct Block {
    pub span: Span,
    pub statements: Items<Stmt>,
}
