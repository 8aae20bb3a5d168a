//! Expressions, by the type that is expected of them.

use crate::calls::call;
use own_calls::TypeError;
use own_named::{a_place, finished_alone, implicit_case, member_of, path_value};
use own_scope::types::copyable;
use own_scope::{Builder, Known, Scope};
use own_terms::nodes::{node_at, node_of, span_of};
use own_terms::operators::{operated, prefixed};
use own_terms::values::{chosen, holding, number_literal, valued};
use own_tree::tree::Expr;
use own_tree::typed::{TypedExpr, TypedPath};
use own_tree::{Bytes, Span, Ty};
use sqlite_items::Boxed;
use std::alloc::Global;

/// The judgement that a copyable place is consumed whole.
pub const PART_CONSUMED: u8 = 28;

/// `consume` of a place (SE-0366). A part of a copyable value is not consumed (T28).
fn consumed(
    known: &Known<'_>,
    id: u32,
    span: Span,
    place: TypedPath,
) -> Result<TypedExpr, TypeError> {
    let ty = place.at.ty;
    let stands = !copyable(known.table, ty) || place.place.fields.is_empty();
    holding(stands, PART_CONSUMED, span)?;
    Ok(TypedExpr::Consume(node_at(id, span, ty), place))
}

/// An expression in parentheses, which has its type.
fn parenthesized(
    alloc: Global,
    id: u32,
    span: Span,
    inner: TypedExpr,
) -> Result<TypedExpr, TypeError> {
    let at = node_at(id, span, node_of(&inner).ty);
    Ok(TypedExpr::Parenthesized(at, Boxed::new(alloc, inner)?))
}

/// What has no expression inside, at its node.
fn leaf(
    alloc: Global,
    known: &Known<'_>,
    builder: &mut Builder,
    scope: &Scope<'_>,
    e: &Expr,
    wanted: Option<Ty>,
) -> Result<TypedExpr, TypeError> {
    let id = builder.node()?;
    match e {
        Expr::Number(span, negative, number) => number_literal(id, *span, *negative, *number),
        Expr::Text(span, text) => {
            let copy = Bytes::from_slice(alloc, text.as_slice())?;
            Ok(TypedExpr::Text(node_at(id, *span, Ty::Unit), copy))
        }
        Expr::Truth(span, truth) => Ok(TypedExpr::Truth(node_at(id, *span, Ty::Bool), *truth)),
        Expr::Path(path) => {
            let fields = path.fields.as_slice();
            path_value(
                alloc, known, builder, scope, id, path.span, &path.root, fields,
            )
        }
        Expr::ImplicitMember(span, name) => {
            let case = implicit_case(alloc, known, id, *span, wanted, name)?;
            finished_alone(alloc, known, case)
        }
        Expr::Consume(span, path) => {
            let place = a_place(alloc, known, builder, scope, path)?;
            consumed(known, id, *span, place)
        }
        _ => Err(TypeError::Memory),
    }
}

/// A value, of the type that is expected where there is one.
#[cycle(walk)]
pub fn value(
    alloc: Global,
    known: &Known<'_>,
    builder: &mut Builder,
    scope: &Scope<'_>,
    e: &Expr,
    wanted: Option<Ty>,
) -> Result<TypedExpr, TypeError> {
    let typed = expression(alloc, known, builder, scope, e, wanted)?;
    valued(span_of(e), wanted, typed)
}

/// An operator between two parts, of which no type is expected.
#[cycle(walk)]
fn binary(
    alloc: Global,
    known: &Known<'_>,
    builder: &mut Builder,
    scope: &Scope<'_>,
    e: &Expr,
) -> Result<TypedExpr, TypeError> {
    match e {
        Expr::Binary(span, operator, mark, left, right) => {
            let id = builder.node()?;
            let left = value(alloc, known, builder, scope, left.get(), None)?;
            let right = value(alloc, known, builder, scope, right.get(), None)?;
            operated(alloc, id, *span, *mark, *operator, left, right)
        }
        _ => Err(TypeError::Memory),
    }
}

/// A condition and two branches, of both of which the type is expected.
#[cycle(walk)]
fn choice(
    alloc: Global,
    known: &Known<'_>,
    builder: &mut Builder,
    scope: &Scope<'_>,
    e: &Expr,
    wanted: Option<Ty>,
) -> Result<TypedExpr, TypeError> {
    match e {
        Expr::Choice(span, condition, first, second) => {
            let id = builder.node()?;
            let condition = value(
                alloc,
                known,
                builder,
                scope,
                condition.get(),
                Some(Ty::Bool),
            )?;
            let first = value(alloc, known, builder, scope, first.get(), wanted)?;
            let second = value(alloc, known, builder, scope, second.get(), wanted)?;
            chosen(alloc, id, *span, condition, first, second)
        }
        _ => Err(TypeError::Memory),
    }
}

/// An expression, by the type that is expected, which goes into parentheses and into both branches of `?:`.
/// It need not be a value: a text, a call without a result and a function are none.
#[cycle(walk)]
pub fn expression(
    alloc: Global,
    known: &Known<'_>,
    builder: &mut Builder,
    scope: &Scope<'_>,
    e: &Expr,
    wanted: Option<Ty>,
) -> Result<TypedExpr, TypeError> {
    match e {
        Expr::Parenthesized(span, inner) => {
            let id = builder.node()?;
            let inner = expression(alloc, known, builder, scope, inner.get(), wanted)?;
            parenthesized(alloc, id, *span, inner)
        }
        Expr::Prefix(span, operator, inner) => {
            let id = builder.node()?;
            let inner = value(alloc, known, builder, scope, inner.get(), None)?;
            prefixed(alloc, id, *span, *operator, inner)
        }
        Expr::Member(span, inner, name) => {
            let id = builder.node()?;
            let inner = value(alloc, known, builder, scope, inner.get(), None)?;
            member_of(alloc, known, id, *span, inner, name)
        }
        Expr::Binary(..) => binary(alloc, known, builder, scope, e),
        Expr::Choice(..) => choice(alloc, known, builder, scope, e, wanted),
        Expr::Call(..) | Expr::CallClosing(..) | Expr::CallClosure(..) => {
            call(alloc, known, builder, scope, e, wanted)
        }
        Expr::Number(..)
        | Expr::Text(..)
        | Expr::Truth(..)
        | Expr::Path(_)
        | Expr::ImplicitMember(..)
        | Expr::Consume(..) => leaf(alloc, known, builder, scope, e, wanted),
    }
}
