//! Op trees that are put together.

ghost use Rattle.std.specs.Prelude.{◌≡◌, [], ◌∷◌, ◌++◌, IfOk, Some, None, map};
ghost use Rattle.own_tree.specs.OpSource.{nothing, either, loop, catch, scope, halt, break_at, in_order};
ghost use Rattle.own_tree.specs.OpView.{op_view};
ghost use Rattle.own_tree.specs.TypedView.{expr_view};
ghost use Rattle.own_paths.specs.Ops.{is_literal_true, branch, clause_tree};

use crate::single::nothing;
use own_tree::typed::TypedExpr;
use own_tree::{OpTree, Row, Span};
use sqlite_items::{Boxed, Items};
use std::alloc::{AllocError, Global};

/// One after another.
pub(crate) fn in_order(parts: Items<OpTree>) -> OpTree
    ensures { op_view result ≡ in_order (map op_view parts) }
{
    OpTree::Seq(parts)
}

/// One after the other.
pub(crate) fn both(alloc: Global, first: OpTree, second: OpTree) -> Result<OpTree, AllocError>
    ensures { IfOk result (λ tree. op_view tree ≡ in_order (op_view first ∷ op_view second ∷ [])) }
{
    let mut parts = Items::new(alloc);
    parts.push(first)?;
    parts.push(second)?;
    Ok(OpTree::Seq(parts))
}

/// Three, one after the other.
pub(crate) fn three(
    alloc: Global,
    first: OpTree,
    second: OpTree,
    third: OpTree,
) -> Result<OpTree, AllocError>
    ensures { IfOk result (λ tree. op_view tree ≡ in_order (op_view first ∷ op_view second ∷ op_view third ∷ [])) }
{
    let mut parts = Items::new(alloc);
    parts.push(first)?;
    parts.push(second)?;
    parts.push(third)?;
    Ok(OpTree::Seq(parts))
}

/// One or the other.
pub(crate) fn either(alloc: Global, first: OpTree, second: OpTree) -> Result<OpTree, AllocError>
    ensures { IfOk result (λ tree. op_view tree ≡ either (op_view first) (op_view second)) }
{
    Ok(OpTree::Either(Boxed::new(alloc, first)?, Boxed::new(alloc, second)?))
}

/// One or nothing.
pub(crate) fn perhaps(alloc: Global, tree: OpTree) -> Result<OpTree, AllocError>
    ensures { IfOk result (λ both. op_view both ≡ either (op_view tree) nothing) }
{
    either(alloc, tree, nothing(alloc))
}

/// Turns of one and then the other.
pub(crate) fn turns(alloc: Global, first: OpTree, second: OpTree) -> Result<OpTree, AllocError>
    ensures { IfOk result (λ tree. op_view tree ≡ loop (op_view first) (op_view second)) }
{
    Ok(OpTree::Loop(Boxed::new(alloc, first)?, Boxed::new(alloc, second)?))
}

/// A scope of bindings that have an End, with the span of its `}`.
pub(crate) fn scope(
    alloc: Global,
    ended: Row<u32>,
    close: Span,
    parts: Items<OpTree>,
) -> Result<OpTree, AllocError>
    ensures { IfOk result (λ tree. op_view tree ≡ scope ended close (in_order (map op_view parts))) }
{
    Ok(OpTree::Scope(ended, close, Boxed::new(alloc, OpTree::Seq(parts))?))
}

/// The clauses of a `switch`, none of which goes on but by a `Break`.
pub(crate) fn choose(alloc: Global, clauses: Items<OpTree>) -> Result<OpTree, AllocError>
    ensures { IfOk result (λ tree. op_view tree ≡ catch (in_order (map op_view clauses ++ halt ∷ []))) }
{
    let mut parts = clauses;
    parts.push(OpTree::Halt)?;
    Ok(OpTree::Catch(Boxed::new(alloc, OpTree::Seq(parts))?))
}

/// Whether a condition is the literal `true`, not in parentheses.
fn is_literal_true(condition: &TypedExpr) -> bool
    ensures { result ≡ is_literal_true (expr_view condition.now) }
{
    match condition {
        TypedExpr::Truth(_, truth) => *truth,
        _ => false,
    }
}

/// What follows a condition, which has no false side where it is the literal `true`.
pub(crate) fn branch(
    alloc: Global,
    condition: &TypedExpr,
    first: OpTree,
    second: OpTree,
) -> Result<OpTree, AllocError>
    ensures { IfOk result (λ tree. op_view tree ≡ branch (expr_view condition.now) (op_view first) (op_view second)) }
{
    if is_literal_true(condition) {
        Ok(first)
    } else {
        either(alloc, first, second)
    }
}

/// A body of a clause, after which the `switch` ends.
fn chosen(alloc: Global, body: OpTree, span: Span) -> Result<OpTree, AllocError>
    ensures { IfOk result (λ tree. op_view tree ≡ in_order (op_view body ∷ break_at span ∷ [])) }
{
    both(alloc, body, OpTree::Break(span))
}

/// A clause without a guard: what it makes, and its body.
pub(crate) fn plain_clause(
    alloc: Global,
    makes: Items<OpTree>,
    body: OpTree,
    span: Span,
) -> Result<OpTree, AllocError>
    ensures { IfOk result (λ tree. op_view tree ≡ clause_tree (map op_view makes) None (op_view body) span) }
{
    let mut parts = makes;
    parts.push(body)?;
    parts.push(OpTree::Break(span))?;
    perhaps(alloc, OpTree::Seq(parts))
}

/// A clause with a guard: what it makes before its guard, the guard, and then its body.
pub(crate) fn guarded_clause(
    alloc: Global,
    makes: Items<OpTree>,
    guard: OpTree,
    body: OpTree,
    span: Span,
) -> Result<OpTree, AllocError>
    ensures { IfOk result (λ tree. op_view tree ≡ clause_tree (map op_view makes) (Some (op_view guard))
        (op_view body) span) }
{
    let inner = chosen(alloc, body, span)?;
    let mut parts = makes;
    parts.push(guard)?;
    parts.push(perhaps(alloc, inner)?)?;
    perhaps(alloc, OpTree::Seq(parts))
}
