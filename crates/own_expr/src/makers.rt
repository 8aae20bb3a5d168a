//! Nodes of parts. Each takes its parts whole, so that nothing is left over where memory is refused.
ghost use Rattle.std.specs.Prelude.{◌≡◌, IfOk, map};
ghost use Rattle.own_grammar.specs.Nesting.{exp_span, clo_span, blk_span, stm_span};
ghost use Rattle.own_grammar.specs.Tests.{till};
ghost use Rattle.own_tree.specs.Source as source;
ghost use Rattle.own_tree.specs.View.{expr_view, stmt_view, block_view, closure_view, argument_view, pattern_view, args_of, pats_of};
ghost use Rattle.own_expr.specs.Views.{head_view};

use crate::next;
use crate::nodes::{expr_span, stmt_span};
use own_tree::tree::{Argument, Block, Closure, Expr, Head, Name, Pattern, PrefixOperator, Stmt};
use own_tree::{Row, Span};
use sqlite_items::{Boxed, Items};
use std::alloc::{AllocError, Global};

pub(crate) fn parenthesized(alloc: Global, span: Span, inner: Expr) -> Result<Expr, AllocError>
    ensures { IfOk result (λ e. expr_view e ≡ source.parenthesized span (expr_view inner)) }
{
    Ok(Expr::Parenthesized(span, Boxed::new(alloc, inner)?))
}

/// A prefix mark, whose span is `at`, and its operand.
pub(crate) fn prefix(
    alloc: Global,
    at: Span,
    sign: PrefixOperator,
    operand: Expr,
) -> Result<Expr, AllocError>
    ensures { IfOk result (λ e. expr_view e ≡ source.prefix (till at (exp_span (expr_view operand))) sign (expr_view operand)) }
{
    let span = next::till(at, expr_span(&operand));
    Ok(Expr::Prefix(span, sign, Boxed::new(alloc, operand)?))
}

pub(crate) fn choice(
    alloc: Global,
    condition: Expr,
    first: Expr,
    second: Expr,
) -> Result<Expr, AllocError>
    ensures { IfOk result (λ e. expr_view e ≡ source.choice (till (exp_span (expr_view condition)) (exp_span (expr_view second))) (expr_view condition) (expr_view first) (expr_view second)) }
{
    let span = next::till(expr_span(&condition), expr_span(&second));
    let condition = Boxed::new(alloc, condition);
    let first = Boxed::new(alloc, first);
    let second = Boxed::new(alloc, second);
    Ok(Expr::Choice(span, condition?, first?, second?))
}

/// A member, whose name ends at `end`.
pub(crate) fn member(alloc: Global, whole: Expr, end: Span, name: Name) -> Result<Expr, AllocError>
    ensures { IfOk result (λ e. expr_view e ≡ source.member (till (exp_span (expr_view whole)) end) (expr_view whole) name) }
{
    let span = next::till(expr_span(&whole), end);
    Ok(Expr::Member(span, Boxed::new(alloc, whole)?, name))
}

/// A call, whose parenthesis is at `end`.
pub(crate) fn call(
    alloc: Global,
    callee: Expr,
    end: Span,
    arguments: Items<Argument>,
) -> Result<Expr, AllocError>
    ensures { IfOk result (λ e. expr_view e ≡ source.call (till (exp_span (expr_view callee)) end) (expr_view callee) (args_of (map argument_view arguments))) }
{
    let span = next::till(expr_span(&callee), end);
    Ok(Expr::Call(span, Boxed::new(alloc, callee)?, arguments))
}

pub(crate) fn call_closing(
    alloc: Global,
    callee: Expr,
    arguments: Items<Argument>,
    closure: Closure,
) -> Result<Expr, AllocError>
    ensures { IfOk result (λ e. expr_view e ≡ source.call_closing (till (exp_span (expr_view callee)) (clo_span (closure_view closure))) (expr_view callee) (args_of (map argument_view arguments)) (closure_view closure)) }
{
    let span = next::till(expr_span(&callee), closure.span);
    Ok(Expr::CallClosing(span, Boxed::new(alloc, callee)?, arguments, closure))
}

pub(crate) fn call_closure(
    alloc: Global,
    callee: Expr,
    closure: Closure,
) -> Result<Expr, AllocError>
    ensures { IfOk result (λ e. expr_view e ≡ source.call_closure (till (exp_span (expr_view callee)) (clo_span (closure_view closure))) (expr_view callee) (closure_view closure)) }
{
    let span = next::till(expr_span(&callee), closure.span);
    Ok(Expr::CallClosure(span, Boxed::new(alloc, callee)?, closure))
}

/// An `if`, whose first token is at `start`, without an `else`.
pub(crate) fn if_then(start: Span, condition: Expr, block: Block) -> Stmt
    ensures { stmt_view result ≡ source.if_then (till start (blk_span (block_view block))) (expr_view condition) (block_view block) }
{
    Stmt::If(next::till(start, block.span), condition, block)
}

/// An `if`, whose first token is at `start`, and the block after its `else`.
pub(crate) fn if_else(start: Span, condition: Expr, block: Block, other: Block) -> Stmt
    ensures { stmt_view result ≡ source.if_else (till start (blk_span (block_view other))) (expr_view condition) (block_view block) (block_view other) }
{
    Stmt::IfElse(next::till(start, other.span), condition, block, other)
}

/// An `if`, whose first token is at `start`, and the `if` after its `else`.
pub(crate) fn else_if(
    alloc: Global,
    start: Span,
    condition: Expr,
    block: Block,
    other: Stmt,
) -> Result<Stmt, AllocError>
    ensures { IfOk result (λ s. stmt_view s ≡ source.else_if (till start (stm_span (stmt_view other))) (expr_view condition) (block_view block) (stmt_view other)) }
{
    let span = next::till(start, stmt_span(&other));
    Ok(Stmt::ElseIf(span, condition, block, Boxed::new(alloc, other)?))
}

/// The head of a clause without a guard.
pub(crate) fn case_head(patterns: Row<Pattern>) -> Head
    ensures { head_view result ≡ source.case_of (pats_of (map pattern_view patterns)) }
{
    Head::Case(patterns)
}

pub(crate) fn guarded_head(pattern: Pattern, guard: Expr) -> Head
    ensures { head_view result ≡ source.case_where (pattern_view pattern) (expr_view guard) }
{
    Head::Guarded(pattern, guard)
}
