//! Statements.

use crate::branches::{if_alone, if_with_else, if_with_else_if, stated_at};
use crate::clauses::switch;
use crate::expressions::{expression, value};
use crate::loops::{for_loop, repeat_loop, while_loop};
use own_calls::TypeError;
use own_named::a_place;
use own_scope::{Builder, Known, Scope};
use own_stated::Stated;
use own_stated::jumps::{
    RETURN_DIFFERS, UNUSED_VALUE, alone_standing, has_result, is_effect, plain,
};
use own_stated::locals::{
    and_local, binding_of, local_mode, local_of, or_unit, updated, updating, written_type,
};
use own_terms::nodes::{node_of, span_of};
use own_terms::values::holding;
use own_tree::Ty;
use own_tree::tree::{Expr, Keyword, Name, Stmt};
use own_tree::typed::{At, TypedExpr, TypedStmt};
use std::alloc::Global;

/// Begins a local, whose type is known only where one is written.
fn begun(
    alloc: Global,
    builder: &mut Builder,
    scope: &Scope<'_>,
    name: &Name,
    keyword: Keyword,
    written: Option<Ty>,
) -> Result<u32, TypeError> {
    let body = scope.context.body;
    let binding = binding_of(alloc, name, or_unit(written), local_mode(keyword), body)?;
    Ok(builder.declare(binding)?)
}

/// Ends a local, which has the type of its value.
fn settled<'t>(
    alloc: Global,
    builder: &mut Builder,
    scope: &Scope<'_>,
    at: At,
    name: &'t Name,
    keyword: Keyword,
    number: u32,
    value: TypedExpr,
) -> Result<Stated<'t>, TypeError> {
    let ty = node_of(&value).ty;
    let body = scope.context.body;
    let binding = binding_of(alloc, name, ty, local_mode(keyword), body)?;
    builder.settle(number, binding)?;
    Ok(Stated {
        statement: TypedStmt::Let(at, number, value),
        local: Some(local_of(name, number, ty)),
    })
}

/// A local with its value.
#[cycle(walk)]
fn local<'t>(
    alloc: Global,
    known: &Known<'_>,
    builder: &mut Builder,
    scope: &Scope<'_>,
    s: &'t Stmt,
) -> Result<Stated<'t>, TypeError> {
    match s {
        Stmt::Let(span, keyword, name, written, e) => {
            let id = builder.node()?;
            let written = written_type(known, written);
            let number = begun(alloc, builder, scope, name, *keyword, written)?;
            let typed = value(alloc, known, builder, scope, e, written)?;
            let at = stated_at(id, *span);
            settled(alloc, builder, scope, at, name, *keyword, number, typed)
        }
        _ => Err(TypeError::Memory),
    }
}

/// An assignment, with or without arithmetic.
#[cycle(walk)]
fn assigned(
    alloc: Global,
    known: &Known<'_>,
    builder: &mut Builder,
    scope: &Scope<'_>,
    s: &Stmt,
) -> Result<Stated<'static>, TypeError> {
    match s {
        Stmt::Assign(span, path, operator, mark, e) => {
            let id = builder.node()?;
            let place = a_place(alloc, known, builder, scope, path)?;
            let at = stated_at(id, *span);
            match updating(*operator) {
                Some(operation) => {
                    let typed = value(alloc, known, builder, scope, e, None)?;
                    updated(at, place, operation, *mark, typed)
                }
                None => {
                    let typed = value(alloc, known, builder, scope, e, Some(place.at.ty))?;
                    Ok(plain(TypedStmt::Assign(at, place, typed)))
                }
            }
        }
        _ => Err(TypeError::Memory),
    }
}

/// An expression as a statement: the value of a body with a result in which it is alone (SE-0255), else a
/// call or a `consume` (T23).
#[cycle(walk)]
fn evaluated(
    alloc: Global,
    known: &Known<'_>,
    builder: &mut Builder,
    scope: &Scope<'_>,
    e: &Expr,
    alone: bool,
) -> Result<TypedStmt, TypeError> {
    let id = builder.node()?;
    let at = stated_at(id, span_of(e));
    let result = scope.context.result;
    if alone && has_result(result) {
        let typed = value(alloc, known, builder, scope, e, Some(result))?;
        return Ok(TypedStmt::Evaluate(at, typed));
    }
    holding(is_effect(e), UNUSED_VALUE, at.span)?;
    let typed = expression(alloc, known, builder, scope, e, None)?;
    Ok(TypedStmt::Evaluate(at, typed))
}

/// A statement of a value alone.
#[cycle(walk)]
fn of_value(
    alloc: Global,
    known: &Known<'_>,
    builder: &mut Builder,
    scope: &Scope<'_>,
    s: &Stmt,
    alone: bool,
) -> Result<TypedStmt, TypeError> {
    match s {
        Stmt::Ignore(span, written, e) => {
            let id = builder.node()?;
            let wanted = written_type(known, written);
            let typed = value(alloc, known, builder, scope, e, wanted)?;
            Ok(TypedStmt::Ignore(stated_at(id, *span), typed))
        }
        Stmt::ReturnValue(span, e) => {
            let id = builder.node()?;
            let result = scope.context.result;
            holding(has_result(result), RETURN_DIFFERS, *span)?;
            let typed = value(alloc, known, builder, scope, e, Some(result))?;
            Ok(TypedStmt::ReturnValue(stated_at(id, *span), typed))
        }
        Stmt::Evaluate(e) => evaluated(alloc, known, builder, scope, e, alone),
        _ => Err(TypeError::Memory),
    }
}

/// A statement of several parts.
#[cycle(walk)]
fn nested(
    alloc: Global,
    known: &Known<'_>,
    builder: &mut Builder,
    scope: &Scope<'_>,
    s: &Stmt,
) -> Result<TypedStmt, TypeError> {
    match s {
        Stmt::If(..) => if_alone(alloc, known, builder, scope, s),
        Stmt::IfElse(..) => if_with_else(alloc, known, builder, scope, s),
        Stmt::ElseIf(..) => if_with_else_if(alloc, known, builder, scope, s),
        Stmt::While(..) => while_loop(alloc, known, builder, scope, s),
        Stmt::Repeat(..) => repeat_loop(alloc, known, builder, scope, s),
        Stmt::For(..) => for_loop(alloc, known, builder, scope, s),
        Stmt::Switch(..) => switch(alloc, known, builder, scope, s),
        _ => Err(TypeError::Memory),
    }
}

/// A statement; whether it is alone in its body.
#[cycle(walk)]
pub fn statement<'t>(
    alloc: Global,
    known: &Known<'_>,
    builder: &mut Builder,
    scope: &Scope<'_>,
    s: &'t Stmt,
    alone: bool,
) -> Result<Stated<'t>, TypeError> {
    match s {
        Stmt::Let(..) => local(alloc, known, builder, scope, s),
        Stmt::Assign(..) => assigned(alloc, known, builder, scope, s),
        Stmt::Ignore(..) | Stmt::ReturnValue(..) | Stmt::Evaluate(_) => {
            Ok(plain(of_value(alloc, known, builder, scope, s, alone)?))
        }
        Stmt::Declare(..)
        | Stmt::Discard(_)
        | Stmt::Break(_)
        | Stmt::Continue(_)
        | Stmt::Return(_) => alone_standing(alloc, known, builder, scope, s, alone),
        _ => Ok(plain(nested(alloc, known, builder, scope, s)?)),
    }
}

/// Statements in order, each of which sees the locals before it; whether one of them may be alone in a body.
#[cycle(walk)]
pub fn statements(
    alloc: Global,
    known: &Known<'_>,
    builder: &mut Builder,
    scope: Scope<'_>,
    inside: &[Stmt],
    alone: bool,
) -> Result<Vec<TypedStmt>, TypeError> {
    let mut scope = scope;
    let mut made = Vec::new(alloc);
    for s in inside {
        let Stated {
            statement: typed,
            local: declared,
        } = statement(alloc, known, builder, &scope, s, alone)?;
        made.push(typed)?;
        and_local(alloc, &mut scope, declared)?;
    }
    Ok(made)
}
