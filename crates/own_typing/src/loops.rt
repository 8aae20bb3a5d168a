//! Loops.

use crate::branches::stated_at;
use crate::closures::block_in;
use crate::expressions::value;
use own_calls::TypeError;
use own_scope::{Builder, Known, Local, Scope};
use own_stated::locals::{loop_scope, loop_variable};
use own_tree::Ty;
use own_tree::tree::{Block, Stmt};
use own_tree::typed::{At, TypedBlock, TypedExpr, TypedStmt};
use std::alloc::Global;

/// The block of a `for` with that variable, or of another loop.
#[cycle(walk)]
fn loop_block(
    alloc: Global,
    known: &Known<'_>,
    builder: &mut Builder,
    scope: &Scope<'_>,
    block: &Block,
    variable: Option<Local<'_>>,
) -> Result<TypedBlock, TypeError> {
    let inner = loop_scope(alloc, scope, variable)?;
    block_in(
        alloc,
        known,
        builder,
        inner,
        block.statements.as_slice(),
        block.span,
        false,
    )
}

/// `while`.
#[cycle(walk)]
pub fn while_loop(
    alloc: Global,
    known: &Known<'_>,
    builder: &mut Builder,
    scope: &Scope<'_>,
    s: &Stmt,
) -> Result<TypedStmt, TypeError> {
    match s {
        Stmt::While(span, condition, block) => {
            let id = builder.node()?;
            let condition = value(alloc, known, builder, scope, condition, Some(Ty::Bool))?;
            let block = loop_block(alloc, known, builder, scope, block, None)?;
            Ok(TypedStmt::While(stated_at(id, *span), condition, block))
        }
        _ => Err(TypeError::Memory),
    }
}

/// `repeat`.
#[cycle(walk)]
pub fn repeat_loop(
    alloc: Global,
    known: &Known<'_>,
    builder: &mut Builder,
    scope: &Scope<'_>,
    s: &Stmt,
) -> Result<TypedStmt, TypeError> {
    match s {
        Stmt::Repeat(span, block, condition) => {
            let id = builder.node()?;
            let block = loop_block(alloc, known, builder, scope, block, None)?;
            let condition = value(alloc, known, builder, scope, condition, Some(Ty::Bool))?;
            Ok(TypedStmt::Repeat(stated_at(id, *span), block, condition))
        }
        _ => Err(TypeError::Memory),
    }
}

/// The bounds of a `for`.
#[derive(Drop)]
struct Bounds {
    low: TypedExpr,
    high: TypedExpr,
}

/// The bounds of a `for`.
#[cycle(walk)]
fn bounds_of(
    alloc: Global,
    known: &Known<'_>,
    builder: &mut Builder,
    scope: &Scope<'_>,
    s: &Stmt,
) -> Result<Bounds, TypeError> {
    match s {
        Stmt::For(_, _, low, _, _, high, _) => {
            let low = value(alloc, known, builder, scope, low, Some(Ty::Int))?;
            let high = value(alloc, known, builder, scope, high, Some(Ty::Int))?;
            Ok(Bounds { low, high })
        }
        _ => Err(TypeError::Memory),
    }
}

/// A `for`, by its parts.
fn for_of(
    at: At,
    s: &Stmt,
    variable: Option<Local<'_>>,
    bounds: Bounds,
    block: TypedBlock,
) -> Result<TypedStmt, TypeError> {
    match s {
        Stmt::For(_, _, _, operator, mark, _, _) => {
            let number = variable.map(|local| local.binding);
            let Bounds { low, high } = bounds;
            Ok(TypedStmt::For(at, number, low, *operator, *mark, high, block))
        }
        _ => Err(TypeError::Memory),
    }
}

/// `for`. Its variable is a binding before those in the bounds.
#[cycle(walk)]
pub fn for_loop(
    alloc: Global,
    known: &Known<'_>,
    builder: &mut Builder,
    scope: &Scope<'_>,
    s: &Stmt,
) -> Result<TypedStmt, TypeError> {
    match s {
        Stmt::For(span, name, _, _, _, _, block) => {
            let id = builder.node()?;
            let variable = loop_variable(alloc, builder, scope, name)?;
            let bounds = bounds_of(alloc, known, builder, scope, s)?;
            let block = loop_block(alloc, known, builder, scope, block, variable)?;
            for_of(stated_at(id, *span), s, variable, bounds, block)
        }
        _ => Err(TypeError::Memory),
    }
}
