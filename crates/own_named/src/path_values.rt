//! Paths that are not called.

use crate::callee::{case_named, finished_alone};
use crate::members::{UNKNOWN_MEMBER, parts, refused};
use crate::places::{StoredProperty, UNKNOWN_NAME, at_local, of_property, of_self, standing};
use own_calls::TypeError;
use own_scope::{Builder, Known, Local, Scope, Seen, seen_at};
use own_terms::nodes::{FUNCTION_STANDS, node_at, till};
use own_tree::tree::{Name, Root};
use own_tree::typed::TypedExpr;
use own_tree::{Span, Ty};
use std::alloc::Global;

/// A local by its type: a parameter of function type is passed on as a whole.
fn of_local(
    alloc: Global,
    known: &Known<'_>,
    id: u32,
    span: Span,
    local: Local<'_>,
    fields: &[Name],
) -> Result<TypedExpr, TypeError> {
    if let Ty::Fun(_) = local.ty {
        return match fields.first() {
            None => Ok(TypedExpr::Function(node_at(id, span, local.ty), local.binding)),
            Some(name) => Err(refused(UNKNOWN_MEMBER, name.span)),
        };
    }
    let path = standing(alloc, known, id, span, at_local(local), fields)?;
    Ok(TypedExpr::Path(path))
}

/// A path that begins with the name of a type is a construction, and then a member of that.
fn of_type(
    alloc: Global,
    known: &Known<'_>,
    builder: &mut Builder,
    id: u32,
    span: Span,
    name: &Name,
    number: u32,
    fields: &[Name],
) -> Result<TypedExpr, TypeError> {
    let Some((case, rest)) = fields.split_first() else {
        return Err(refused(FUNCTION_STANDS, name.span));
    };
    let callee = case_named(
        alloc,
        known,
        id,
        till(span, case.span),
        name.span,
        number,
        case,
    )?;
    let made = finished_alone(alloc, known, callee)?;
    parts(alloc, known, builder, span, made, rest)
}

/// A path from a name.
fn named(
    alloc: Global,
    known: &Known<'_>,
    builder: &mut Builder,
    scope: &Scope<'_>,
    id: u32,
    span: Span,
    name: &Name,
    fields: &[Name],
) -> Result<TypedExpr, TypeError> {
    match seen_at(known, scope, name.text.as_slice()) {
        None => Err(refused(UNKNOWN_NAME, name.span)),
        Some(Seen::Local(local)) => of_local(alloc, known, id, span, local, fields),
        Some(Seen::Property(number, field)) => {
            let property = StoredProperty {
                number,
                ty: field.ty,
            };
            let path = of_property(alloc, known, scope, id, span, name, property, fields)?;
            Ok(TypedExpr::Path(path))
        }
        Some(Seen::Type(number)) => {
            of_type(alloc, known, builder, id, span, name, number, fields)
        }
        Some(Seen::Method(_) | Seen::Function(_) | Seen::Print | Seen::ReadInt) => {
            Err(refused(FUNCTION_STANDS, name.span))
        }
    }
}

/// A path that is not called.
pub fn path_value(
    alloc: Global,
    known: &Known<'_>,
    builder: &mut Builder,
    scope: &Scope<'_>,
    id: u32,
    span: Span,
    root: &Root,
    fields: &[Name],
) -> Result<TypedExpr, TypeError> {
    match root {
        Root::SelfWord(word) => {
            Ok(TypedExpr::Path(of_self(alloc, known, scope, id, span, *word, fields)?))
        }
        Root::Named(name) => named(alloc, known, builder, scope, id, span, name, fields),
    }
}
