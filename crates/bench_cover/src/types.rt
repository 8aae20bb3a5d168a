//! The types of a problem. The first is the one that its patterns are of.

ghost use Rattle.std.specs.Prelude.{◌<◌, IfOk, length};

use crate::kind::Kind;
use own_table::{CaseInfo, FieldInfo, TypeInfo};
use own_tree::limits::MOST_PARAMETERS;
use own_tree::{Bytes, Row, Ty};
use std::alloc::{AllocError, Global};

/// The levels of a chain of enums.
pub const LEVELS: u32 = 8;

/// The cases of each enum of the chain.
pub const BRANCHES: u32 = 4;

/// The types of the problem of this kind and size.
pub fn types_of(alloc: Global, kind: Kind, size: u32) -> Result<Row<TypeInfo>, AllocError>
    ensures { IfOk result (λ types. 0 < length types) }
{
    match kind {
        Kind::Cases | Kind::Truths => wide_enum(alloc, size),
        Kind::Clauses => wide_enum(alloc, 1),
        Kind::Nested => chain(alloc),
        Kind::Single => beside_only_case(alloc, size),
        Kind::Structs => beside_structs(alloc, size),
        Kind::Pairs => two_groups(alloc, size),
    }
}

/// An enum of so many cases, with the most payloads in each.
fn wide_enum(alloc: Global, cases: u32) -> Result<Row<TypeInfo>, AllocError>
    ensures { IfOk result (λ types. 0 < length types) }
{
    let mut types = Row::new(alloc);
    types.push(enum_of(alloc, cases, [Ty::Bool; MOST_PARAMETERS].as_slice())?)?;
    Ok(types)
}

/// Enums whose cases each hold the next one; those of the last hold nothing.
fn chain(alloc: Global) -> Result<Row<TypeInfo>, AllocError>
    ensures { IfOk result (λ types. 0 < length types) }
{
    let mut types = Row::new(alloc);
    for inner in 1..LEVELS {
        types.push(enum_of(alloc, BRANCHES, &[Ty::Named(inner)])?)?;
    }
    types.push(enum_of(alloc, BRANCHES, &[])?)?;
    Ok(types)
}

/// So many truths.
fn truths(alloc: Global, count: u32) -> Result<Vec<Ty>, AllocError> {
    vec![in alloc; Ty::Bool; count as usize]
}

/// A case of so many truths and an enum of one case.
fn beside_only_case(alloc: Global, count: u32) -> Result<Row<TypeInfo>, AllocError>
    ensures { IfOk result (λ types. 0 < length types) }
{
    let mut payloads = truths(alloc, count)?;
    payloads.push(Ty::Named(1))?;
    let mut types = Row::new(alloc);
    types.push(enum_of(alloc, 1, payloads.as_slice())?)?;
    types.push(enum_of(alloc, 1, &[Ty::Int])?)?;
    Ok(types)
}

/// An enum of two cases, and so many structs that each hold the next one.
fn beside_structs(alloc: Global, count: u32) -> Result<Row<TypeInfo>, AllocError>
    ensures { IfOk result (λ types. 0 < length types) }
{
    let mut types = Row::new(alloc);
    types.push(enum_of(alloc, 2, &[])?)?;
    for inner in 1..count {
        types.push(struct_of(alloc, Ty::Named(inner.saturating_add(1)))?)?;
    }
    types.push(struct_of(alloc, Ty::Int)?)?;
    Ok(types)
}

/// A case of two groups of so many truths.
fn two_groups(alloc: Global, count: u32) -> Result<Row<TypeInfo>, AllocError>
    ensures { IfOk result (λ types. 0 < length types) }
{
    let mut types = Row::new(alloc);
    types.push(enum_of(alloc, 1, &[Ty::Named(1), Ty::Named(1)])?)?;
    types.push(enum_of(alloc, 1, truths(alloc, count)?.as_slice())?)?;
    Ok(types)
}

/// A struct of one property.
fn struct_of(alloc: Global, ty: Ty) -> Result<TypeInfo, AllocError> {
    let mut fields = Row::new(alloc);
    fields.push(FieldInfo {
        name: Bytes::from_slice(alloc, b"inner")?,
        ty,
        changes: false,
    })?;
    Ok(TypeInfo {
        name: Bytes::from_slice(alloc, b"Struct")?,
        is_enum: false,
        noncopyable: true,
        has_deinit: false,
        fields,
        cases: Row::new(alloc),
    })
}

/// An enum of so many cases with these payloads.
fn enum_of(alloc: Global, cases: u32, payloads: &[Ty]) -> Result<TypeInfo, AllocError> {
    let mut infos = Row::new(alloc);
    for _ in 0..cases {
        infos.push(CaseInfo {
            name: Bytes::from_slice(alloc, b"one")?,
            payloads: Row::from_slice(alloc, payloads)?,
        })?;
    }
    Ok(TypeInfo {
        name: Bytes::from_slice(alloc, b"Enum")?,
        is_enum: true,
        noncopyable: true,
        has_deinit: false,
        fields: Row::new(alloc),
        cases: infos,
    })
}
