//! Places: paths from `self`, from a stored property of the enclosing type, and from a local.

use crate::members::{refused, stored};
use own_calls::TypeError;
use own_scope::{Builder, Known, Local, Receiver, Scope, Seen, seen_at};
use own_terms::nodes::{FUNCTION_STANDS, node_at};
use own_terms::values::holding;
use own_tree::tree::{Name, Path, Root};
use own_tree::typed::TypedPath;
use own_tree::{Mode, Place, Row, Span, Ty};
use std::alloc::Global;

/// The judgement that a name has a binding, a member, a function or a declared type.
pub const UNKNOWN_NAME: u8 = 10;

/// The judgement that `&`, the left side of an assignment and `consume` name a place.
pub const NO_PLACE: u8 = 16;

/// The judgement that `self` in an `init` stands only before a field, and not in a closure.
pub const WHOLE_SELF: u8 = 26;

/// Where a path begins: a binding, the field of it before those that are named, and the type there.
#[derive(Clone, Copy)]
pub struct Begin {
    pub binding: u32,
    pub before: Option<u32>,
    pub ty: Ty,
}

/// A place, by its begin and the fields that are named.
pub fn standing(
    alloc: Global,
    known: &Known<'_>,
    id: u32,
    span: Span,
    begin: Begin,
    names: &[Name],
) -> Result<TypedPath, TypeError> {
    let mut fields = Row::new(alloc);
    if let Some(number) = begin.before {
        fields.push(number)?;
    }
    let mut last = begin.ty;
    for name in names {
        let (number, next) = stored(known, last, name)?;
        fields.push(number)?;
        last = next;
    }
    Ok(TypedPath {
        at: node_at(id, span, last),
        place: Place {
            binding: begin.binding,
            fields,
        },
    })
}

/// `self` of the body, or of the body that the closure stands in.
fn receiver(scope: &Scope<'_>, word: Span) -> Result<Receiver, TypeError> {
    match scope.context.receiver {
        Some(receiver) => Ok(receiver),
        None => Err(refused(UNKNOWN_NAME, word)),
    }
}

/// `self` as a whole, which does not stand in an `init` (T26).
fn whole_receiver(scope: &Scope<'_>, word: Span) -> Result<Receiver, TypeError> {
    let receiver = receiver(scope, word)?;
    holding(receiver.mode != Mode::SelfInit, WHOLE_SELF, word)?;
    Ok(receiver)
}

/// `self` before a field, which stands in no closure of an `init` (T26).
fn receiver_of_field(scope: &Scope<'_>, word: Span) -> Result<Receiver, TypeError> {
    let receiver = receiver(scope, word)?;
    let stands = receiver.mode != Mode::SelfInit || !scope.context.in_closure;
    holding(stands, WHOLE_SELF, word)?;
    Ok(receiver)
}

/// `self` before these fields.
fn receiver_before(scope: &Scope<'_>, word: Span, fields: &[Name]) -> Result<Receiver, TypeError> {
    match fields {
        [] => whole_receiver(scope, word),
        [_, ..] => receiver_of_field(scope, word),
    }
}

/// A path from `self`.
pub fn of_self(
    alloc: Global,
    known: &Known<'_>,
    scope: &Scope<'_>,
    id: u32,
    span: Span,
    word: Span,
    fields: &[Name],
) -> Result<TypedPath, TypeError> {
    let me = receiver_before(scope, word, fields)?;
    let begin = Begin {
        binding: me.binding,
        before: None,
        ty: me.ty,
    };
    standing(alloc, known, id, span, begin, fields)
}

/// A stored property of the enclosing type, by its number and its type.
#[derive(Clone, Copy)]
pub struct StoredProperty {
    pub number: u32,
    pub ty: Ty,
}

/// A path from a stored property of the enclosing type.
pub fn of_property(
    alloc: Global,
    known: &Known<'_>,
    scope: &Scope<'_>,
    id: u32,
    span: Span,
    name: &Name,
    property: StoredProperty,
    fields: &[Name],
) -> Result<TypedPath, TypeError> {
    let me = receiver_of_field(scope, name.span)?;
    let begin = Begin {
        binding: me.binding,
        before: Some(property.number),
        ty: property.ty,
    };
    standing(alloc, known, id, span, begin, fields)
}

/// Where a path from a local begins.
pub fn at_local(local: Local<'_>) -> Begin {
    Begin {
        binding: local.binding,
        before: None,
        ty: local.ty,
    }
}

/// A path that has to be a place, from a name.
fn place_by(
    alloc: Global,
    known: &Known<'_>,
    scope: &Scope<'_>,
    id: u32,
    path: &Path,
    name: &Name,
) -> Result<TypedPath, TypeError> {
    let fields = path.fields.as_slice();
    match seen_at(known, scope, name.text.as_slice()) {
        None => Err(refused(UNKNOWN_NAME, name.span)),
        Some(Seen::Local(local)) => match local.ty {
            Ty::Fun(_) => Err(refused(FUNCTION_STANDS, path.span)),
            _ => standing(alloc, known, id, path.span, at_local(local), fields),
        },
        Some(Seen::Property(number, field)) => {
            let property = StoredProperty {
                number,
                ty: field.ty,
            };
            of_property(alloc, known, scope, id, path.span, name, property, fields)
        }
        Some(_) => Err(refused(NO_PLACE, path.span)),
    }
}

/// A path that has to be a place.
pub fn a_place(
    alloc: Global,
    known: &Known<'_>,
    builder: &mut Builder,
    scope: &Scope<'_>,
    path: &Path,
) -> Result<TypedPath, TypeError> {
    let id = builder.node()?;
    match &path.root {
        Root::SelfWord(word) => {
            of_self(
                alloc,
                known,
                scope,
                id,
                path.span,
                *word,
                path.fields.as_slice(),
            )
        }
        Root::Named(name) => place_by(alloc, known, scope, id, path, name),
    }
}
