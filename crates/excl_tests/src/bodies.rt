//! Bodies made by hand. A node stands at the offset that it is given, and a binding at its number.

ghost use Rattle.std.specs.Prelude.{◌≡◌, IfOk, length};

use own_table::{FieldInfo, TypeInfo, TypeTable};
use own_tree::typed::{At, Body, BodyKind, Target, TypedBlock, TypedExpr, TypedPath, TypedStmt};
use own_tree::{Binding, Bytes, Mode, Passing, Place, Row, Span, Ty, Typed};
use sqlite_items::Items;
use std::alloc::{AllocError, Global};
use std::test::*;

/// `struct Leaf: ~Copyable { var n: Int; deinit { } }`
pub(crate) const LEAF: Ty = Ty::Named(0);

/// `struct Pair: ~Copyable { let first: Leaf; var second: Leaf }`
pub(crate) const PAIR: Ty = Ty::Named(1);

/// `struct Box: ~Copyable { var inner: Leaf; deinit { } }`
pub(crate) const BOX: Ty = Ty::Named(2);

fn span_at(start: u32) -> Span {
    Span {
        start,
        end: start.saturating_add(1),
    }
}

pub(crate) fn at(start: u32, ty: Ty) -> At {
    At {
        id: start,
        span: span_at(start),
        ty,
    }
}

/// A path by its binding and at most one field.
pub(crate) fn path(
    alloc: Global,
    start: u32,
    binding: u32,
    fields: &[u32],
    ty: Ty,
) -> Result<TypedPath, AllocError> {
    Ok(TypedPath {
        at: at(start, ty),
        place: Place {
            binding,
            fields: Row::from_slice(alloc, fields)?,
        },
    })
}

/// The same as an expression.
pub(crate) fn value(
    alloc: Global,
    start: u32,
    binding: u32,
    fields: &[u32],
    ty: Ty,
) -> Result<TypedExpr, AllocError> {
    Ok(TypedExpr::Path(path(alloc, start, binding, fields, ty)?))
}

/// A call of two arguments that are passed so.
pub(crate) fn call(
    alloc: Global,
    first: TypedExpr,
    second: TypedExpr,
    passings: &[Passing],
) -> Result<TypedExpr, AllocError> {
    let mut arguments = Items::new(alloc);
    arguments.push(first)?;
    arguments.push(second)?;
    Ok(TypedExpr::Call(
        at(0, Ty::Int),
        Target::Function(0),
        arguments,
        Row::from_slice(alloc, passings)?,
    ))
}

fn push_type(
    alloc: Global,
    types: &mut Row<TypeInfo>,
    has_deinit: bool,
    fields: &[(Ty, bool)],
) -> Result<(), AllocError> {
    let mut infos = Row::new(alloc);
    for (ty, changes) in fields {
        infos.push(FieldInfo {
            name: Bytes::new(alloc),
            ty: *ty,
            changes: *changes,
        })?;
    }
    types.push(TypeInfo {
        name: Bytes::new(alloc),
        is_enum: false,
        noncopyable: true,
        has_deinit,
        fields: infos,
        cases: Row::new(alloc),
    })
}

pub(crate) fn table(alloc: Global) -> Result<TypeTable, Fail> {
    let mut types = Row::new(alloc);
    push_type(alloc, &mut types, true, &[(Ty::Int, true)])?;
    push_type(alloc, &mut types, false, &[(LEAF, false), (LEAF, true)])?;
    push_type(alloc, &mut types, true, &[(LEAF, true)])?;
    Ok(TypeTable::from_types(alloc, types).ok().ok_or("no table")?)
}

fn body(alloc: Global, statements: Items<TypedStmt>) -> Body {
    Body {
        kind: BodyKind::Function,
        owner: None,
        params: Row::new(alloc),
        result: Ty::Unit,
        discards: false,
        span: span_at(0),
        close: span_at(0),
        block: TypedBlock {
            at: at(0, Ty::Unit),
            statements,
        },
    }
}

/// A body with these statements, a closure with those, and the bindings, each by its mode, its type and
/// the number of its body.
pub(crate) fn program(
    alloc: Global,
    statements: Items<TypedStmt>,
    closure: Items<TypedStmt>,
    declared: &[(Mode, Ty, u32)],
) -> Result<Typed, AllocError>
    ensures { IfOk result (λ typed. length typed.bodies ≡ 2) }
{
    let mut bindings = Row::new(alloc);
    for (number, (mode, ty, body)) in declared.iter().enumerate() {
        bindings.push(Binding {
            name: Bytes::new(alloc),
            ty: *ty,
            mode: *mode,
            span: span_at(u32::try_from(number).unwrap_or(0)),
            body: *body,
        })?;
    }
    let mut bodies = Row::new(alloc);
    bodies.push(body(alloc, statements))?;
    bodies.push(body(alloc, closure))?;
    Ok(Typed {
        bodies,
        bindings,
        signatures: Row::new(alloc),
        main: 0,
        tokens: 0,
    })
}
