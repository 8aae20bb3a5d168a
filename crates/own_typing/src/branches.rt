//! `if`, `else` and `else if`.

use crate::closures::block_of;
use crate::expressions::value;
use crate::statements::statement;
use own_calls::TypeError;
use own_scope::{Builder, Known, Scope};
use own_stated::Stated;
use own_terms::nodes::node_at;
use own_tree::tree::Stmt;
use own_tree::typed::{At, TypedBlock, TypedExpr, TypedStmt};
use own_tree::{Span, Ty};
use sqlite_items::Boxed;
use std::alloc::Global;

/// The node of a statement.
pub fn stated_at(id: u32, span: Span) -> At {
    node_at(id, span, Ty::Unit)
}

/// `if` with an `else if`.
fn else_if(
    alloc: Global,
    at: At,
    condition: TypedExpr,
    first: TypedBlock,
    other: Stated<'_>,
) -> Result<TypedStmt, TypeError> {
    let other = Boxed::new(alloc, other.statement)?;
    Ok(TypedStmt::ElseIf(at, condition, first, other))
}

/// `if` without an `else`.
#[cycle(walk)]
pub fn if_alone(
    alloc: Global,
    known: &Known<'_>,
    builder: &mut Builder,
    scope: &Scope<'_>,
    s: &Stmt,
) -> Result<TypedStmt, TypeError> {
    match s {
        Stmt::If(span, condition, block) => {
            let id = builder.node()?;
            let condition = value(alloc, known, builder, scope, condition, Some(Ty::Bool))?;
            let block = block_of(alloc, known, builder, scope, block)?;
            Ok(TypedStmt::If(stated_at(id, *span), condition, block))
        }
        _ => Err(TypeError::Memory),
    }
}

/// `if` with an `else`.
#[cycle(walk)]
pub fn if_with_else(
    alloc: Global,
    known: &Known<'_>,
    builder: &mut Builder,
    scope: &Scope<'_>,
    s: &Stmt,
) -> Result<TypedStmt, TypeError> {
    match s {
        Stmt::IfElse(span, condition, first, second) => {
            let id = builder.node()?;
            let condition = value(alloc, known, builder, scope, condition, Some(Ty::Bool))?;
            let first = block_of(alloc, known, builder, scope, first)?;
            let second = block_of(alloc, known, builder, scope, second)?;
            Ok(TypedStmt::IfElse(stated_at(id, *span), condition, first, second))
        }
        _ => Err(TypeError::Memory),
    }
}

/// `if` with an `else if`.
#[cycle(walk)]
pub fn if_with_else_if(
    alloc: Global,
    known: &Known<'_>,
    builder: &mut Builder,
    scope: &Scope<'_>,
    s: &Stmt,
) -> Result<TypedStmt, TypeError> {
    match s {
        Stmt::ElseIf(span, condition, first, other) => {
            let id = builder.node()?;
            let condition = value(alloc, known, builder, scope, condition, Some(Ty::Bool))?;
            let first = block_of(alloc, known, builder, scope, first)?;
            let other = statement(alloc, known, builder, scope, other.get(), false)?;
            else_if(alloc, stated_at(id, *span), condition, first, other)
        }
        _ => Err(TypeError::Memory),
    }
}
