//! Members: stored properties of a type, and fields of values.

use own_calls::TypeError;
use own_scope::types::{copyable, property};
use own_scope::{Builder, Known};
use own_terms::nodes::{FUNCTION_STANDS, node_at, node_of, path_of, till};
use own_terms::values::holding;
use own_tree::tree::Name;
use own_tree::typed::{TypedExpr, TypedPath};
use own_tree::{Place, Row, Span, Ty};
use sqlite_items::Boxed;
use std::alloc::Global;

/// The judgement that the type has that field, method or case.
pub const UNKNOWN_MEMBER: u8 = 11;

/// The judgement that a field of a value that is no place is copyable, and that no mutating method is called
/// on such a value.
pub const PART_OF_TEMPORARY: u8 = 27;

/// The judgement of that number is false at that place.
pub fn refused(code: u8, at: Span) -> TypeError {
    TypeError::BadType { code, at }
}

/// The judgement by which a name is no member: T24 of a method that is not called, else T11.
pub fn missing_member(is_method: bool) -> u8 {
    if is_method {
        FUNCTION_STANDS
    } else {
        UNKNOWN_MEMBER
    }
}

/// A stored property of that name, by its number and its type.
pub fn stored(known: &Known<'_>, ty: Ty, name: &Name) -> Result<(u32, Ty), TypeError> {
    let text = name.text.as_slice();
    match property(known.table, ty, text) {
        Some((number, field)) => Ok((number, field.ty)),
        None => {
            let code = missing_member(known.method_of(ty, text).is_some());
            Err(refused(code, name.span))
        }
    }
}

/// A field of a value that is no place.
pub fn part(
    alloc: Global,
    known: &Known<'_>,
    id: u32,
    span: Span,
    e: TypedExpr,
    name: &Name,
) -> Result<TypedExpr, TypeError> {
    let (number, ty) = stored(known, node_of(&e).ty, name)?;
    holding(copyable(known.table, ty), PART_OF_TEMPORARY, span)?;
    Ok(TypedExpr::Member(node_at(id, span, ty), Boxed::new(alloc, e)?, number))
}

/// Fields of a value that is no place, one in another.
pub fn parts(
    alloc: Global,
    known: &Known<'_>,
    builder: &mut Builder,
    span: Span,
    e: TypedExpr,
    names: &[Name],
) -> Result<TypedExpr, TypeError> {
    let mut made = e;
    for name in names {
        let id = builder.node()?;
        made = part(alloc, known, id, till(span, name.span), made, name)?;
    }
    Ok(made)
}

/// The place of a field of a place.
fn place_in(
    alloc: Global,
    known: &Known<'_>,
    id: u32,
    span: Span,
    path: &TypedPath,
    name: &Name,
) -> Result<TypedPath, TypeError> {
    let (number, ty) = stored(known, path.at.ty, name)?;
    let mut fields = Row::from_slice(alloc, path.place.fields.as_slice())?;
    fields.push(number)?;
    Ok(TypedPath {
        at: node_at(id, span, ty),
        place: Place {
            binding: path.place.binding,
            fields,
        },
    })
}

/// A member of what stands in parentheses or is called: of a place it is a place.
pub fn member_of(
    alloc: Global,
    known: &Known<'_>,
    id: u32,
    span: Span,
    e: TypedExpr,
    name: &Name,
) -> Result<TypedExpr, TypeError> {
    match path_of(&e) {
        Some(path) => Ok(TypedExpr::Path(place_in(alloc, known, id, span, path, name)?)),
        None => part(alloc, known, id, span, e, name),
    }
}
