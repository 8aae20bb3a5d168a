//! Parts of trees: spans, and nodes that are made or taken apart in more than one place.
ghost use Rattle.std.specs.Prelude.{◌≡◌, max, suc, IfOk, IfErr, [], ◌∷◌, length, map, Some, None};
ghost use Rattle.own_grammar.specs.Nesting as nesting;
ghost use Rattle.own_grammar.specs.Nesting.{exp_span, nest, nest_stm};
ghost use Rattle.own_grammar.specs.Reading as reading;
ghost use Rattle.own_grammar.specs.Tests.{till};
ghost use Rattle.own_tree.specs.Source as source;
ghost use Rattle.own_tree.specs.View.{expr_view, stmt_view, let_pattern_view, stms_of};

use crate::next;
use own_tree::tree::{BinaryOperator, Expr, Keyword, LetPattern, Name, Path, Pattern, Stmt};
use own_tree::{Row, Span};
use sqlite_items::Boxed;
use std::alloc::{AllocError, Global};

pub(crate) fn larger(a: u32, b: u32) -> u32
    ensures { result ≡ max a b }
{
    if a < b { b } else { a }
}

pub(crate) fn expr_span(e: &Expr) -> Span
    ensures { result ≡ exp_span (expr_view e.now) }
{
    match e {
        Expr::Number(span, _, _) => *span,
        Expr::Text(span, _) => *span,
        Expr::Truth(span, _) => *span,
        Expr::Path(path) => path.span,
        Expr::ImplicitMember(span, _) => *span,
        Expr::Parenthesized(span, _) => *span,
        Expr::Consume(span, _) => *span,
        Expr::Prefix(span, _, _) => *span,
        Expr::Binary(span, _, _, _, _) => *span,
        Expr::Choice(span, _, _, _) => *span,
        Expr::Member(span, _, _) => *span,
        Expr::Call(span, _, _) => *span,
        Expr::CallClosing(span, _, _, _) => *span,
        Expr::CallClosure(span, _, _) => *span,
    }
}

pub(crate) fn stmt_span(statement: &Stmt) -> Span
    ensures { result ≡ nesting.stm_span (stmt_view statement.now) }
{
    match statement {
        Stmt::Let(span, _, _, _, _) => *span,
        Stmt::Declare(span, _, _, _) => *span,
        Stmt::Assign(span, _, _, _, _) => *span,
        Stmt::Ignore(span, _, _) => *span,
        Stmt::Discard(span) => *span,
        Stmt::If(span, _, _) => *span,
        Stmt::IfElse(span, _, _, _) => *span,
        Stmt::ElseIf(span, _, _, _) => *span,
        Stmt::While(span, _, _) => *span,
        Stmt::Repeat(span, _, _) => *span,
        Stmt::For(span, _, _, _, _, _, _) => *span,
        Stmt::Switch(span, _, _) => *span,
        Stmt::Break(span) => *span,
        Stmt::Continue(span) => *span,
        Stmt::Return(span) => *span,
        Stmt::ReturnValue(span, _) => *span,
        Stmt::Evaluate(e) => expr_span(e),
    }
}

pub(crate) fn let_pattern_span(pattern: &LetPattern) -> Span
    ensures { result ≡ nesting.let_pat_span (let_pattern_view pattern.now) }
{
    match pattern {
        LetPattern::Any(span) => *span,
        LetPattern::Bind(name) => name.span,
        LetPattern::Case(span, _, _) => *span,
        LetPattern::Number(span, _, _) => *span,
        LetPattern::Truth(span, _) => *span,
    }
}

/// Whether a statement is a `return` without a value.
pub(crate) fn is_return(statement: &Stmt) -> bool
    ensures { result ≡ nesting.is_return (stmt_view statement.now) }
{
    match statement {
        Stmt::Return(_) => true,
        _ => false,
    }
}

/// The span of the last name, or the one given where there is none.
pub(crate) fn names_end(before: Span, names: &[Name]) -> Span
    ensures { result ≡ nesting.names_end before names.now }
{
    match names {
        [.., last] => last.span,
        [] => before,
    }
}

/// The span of a written type, or the one given where none is written.
pub(crate) fn written_end(before: Span, written: &Option<Name>) -> Span
    ensures { result ≡ nesting.typed_end before written.now }
{
    match written {
        Some(name) => name.span,
        None => before,
    }
}

/// The span of the last statement, or the one given where there is none.
pub(crate) fn statements_end(before: Span, statements: &[Stmt]) -> Span
    ensures { result ≡ nesting.stms_end before (stms_of (map stmt_view statements.now)) }
{
    match statements {
        [.., last] => stmt_span(last),
        [] => before,
    }
}

/// An operator, at its span, between its parts.
pub(crate) fn binary(
    alloc: Global,
    left: Expr,
    operator: BinaryOperator,
    at: Span,
    right: Expr,
) -> Result<Expr, AllocError>
    ensures { IfOk result (λ e. expr_view e ≡ source.binary (till (exp_span (expr_view left)) (exp_span (expr_view right))) operator at (expr_view left) (expr_view right)) }
{
    let span = next::till(expr_span(&left), expr_span(&right));
    let left = Boxed::new(alloc, left);
    let right = Boxed::new(alloc, right);
    Ok(Expr::Binary(span, operator, at, left?, right?))
}

/// What an assignment stores to, where the expression is a path. Otherwise the expression itself.
pub(crate) fn into_path(e: Expr) -> Result<Path, Expr>
    ensures path { IfOk result (λ path. reading.path_in (expr_view e) ≡ Some path) }
    ensures other { IfErr result (λ other. (other ≡ e) × (reading.path_in (expr_view e) ≡ None)) }
{
    match e {
        Expr::Path(path) => Ok(path),
        other => Err(other),
    }
}

/// A `let` or `var` with a value: one that lets the value go where the name is a `_`.
pub(crate) fn bound(
    span: Span,
    keyword: Keyword,
    name: Option<Name>,
    written: Option<Name>,
    value: Expr,
) -> Stmt
    ensures value { stmt_view result ≡ reading.bound span keyword name written (expr_view value) }
    ensures height { nest_stm (stmt_view result) ≡ suc (nest (expr_view value)) }
{
    match name {
        Some(name) => Stmt::Let(span, keyword, name, written, value),
        None => Stmt::Ignore(span, written, value),
    }
}

/// The pattern of a list of one: only after such a list does a `where` belong to the clause.
pub(crate) fn only_pattern(patterns: Row<Pattern>) -> Result<Pattern, Row<Pattern>>
    ensures one { IfOk result (λ pattern. patterns ≡ pattern ∷ []) }
    ensures other { IfErr result (λ others. (others ≡ patterns) × (length patterns ≡ 1 → ⊥)) }
{
    let mut patterns = patterns.into_vec();
    if patterns.len() != 1 {
        return Err(Row::from_vec(patterns));
    }
    match patterns.pop() {
        Some(pattern) => Ok(pattern),
        None => Err(Row::from_vec(patterns)),
    }
}
