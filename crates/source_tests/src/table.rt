use own_table::*;
use own_tree::{Bytes, Row, Ty};
use std::alloc::{AllocError, Global};
use std::test::*;

/// How a struct is declared.
#[derive(Clone, Copy, PartialEq, Eq)]
enum Kind {
    Copyable,
    Noncopyable,
    /// Noncopyable, with a `deinit`.
    Tracked,
}

fn struct_of(alloc: Global, kind: Kind, tys: &[Ty]) -> Result<TypeInfo, AllocError> {
    let mut fields = Row::new(alloc);
    for ty in tys {
        fields.push(FieldInfo {
            name: Bytes::from_slice(alloc, b"property")?,
            ty: *ty,
            changes: true,
        })?;
    }
    Ok(TypeInfo {
        name: Bytes::from_slice(alloc, b"Struct")?,
        is_enum: false,
        noncopyable: kind != Kind::Copyable,
        has_deinit: kind == Kind::Tracked,
        fields,
        cases: Row::new(alloc),
    })
}

fn enum_of(alloc: Global, cases: &[&[Ty]]) -> Result<TypeInfo, AllocError> {
    let mut infos = Row::new(alloc);
    for payloads in cases {
        infos.push(CaseInfo {
            name: Bytes::from_slice(alloc, b"one")?,
            payloads: Row::from_slice(alloc, *payloads)?,
        })?;
    }
    Ok(TypeInfo {
        name: Bytes::from_slice(alloc, b"Enum")?,
        is_enum: true,
        noncopyable: true,
        has_deinit: false,
        fields: Row::new(alloc),
        cases: infos,
    })
}

/// What the readers say of a type.
#[derive(Clone, Copy, Debug, PartialEq, Eq)]
struct Facts {
    copyable: bool,
    tracked: bool,
    holds_tracked: bool,
    leaves: u32,
    slots: u32,
    is_enum: bool,
    parts: usize,
}

fn facts_of(table: &TypeTable, t: Ty) -> Option<Facts> {
    if let Ty::Named(k) = t {
        if k >= table.count() {
            return None;
        }
    }
    let fields = table.fields(t).len();
    let cases = table.cases(t).len();
    Some(Facts {
        copyable: table.copyable(t),
        tracked: table.tracked(t),
        holds_tracked: table.holds_tracked(t),
        leaves: table.leaf_count(t),
        slots: table.slots(t),
        is_enum: table.is_enum(t),
        parts: fields.max(cases),
    })
}

fn leaf(table: &TypeTable, number: u32, k: u32) -> Option<&[u32]> {
    if number >= table.count() || k >= table.leaf_count(Ty::Named(number)) {
        return None;
    }
    Some(table.leaf(Ty::Named(number), k))
}

/// A file, which is tracked; a point; a pair of both and a number; a struct and an enum without parts,
/// the enum of all.
fn mixed_types(alloc: Global) -> Result<Row<TypeInfo>, AllocError> {
    let mut types = Row::new(alloc);
    types.push(struct_of(alloc, Kind::Tracked, &[Ty::Int])?)?;
    types.push(enum_of(alloc, &[&[], &[Ty::Named(3)], &[Ty::Int, Ty::Named(2)]])?)?;
    types.push(struct_of(alloc, Kind::Copyable, &[Ty::Bool, Ty::Int])?)?;
    let pair = [Ty::Int, Ty::Named(0), Ty::Named(2)];
    types.push(struct_of(alloc, Kind::Noncopyable, &pair)?)?;
    types.push(struct_of(alloc, Kind::Copyable, &[])?)?;
    types.push(enum_of(alloc, &[&[]])?)?;
    Ok(types)
}

#[test]
fn reads_types_as_they_are_declared(rt: HostRuntime) -> Result<(), Fail> {
    let types = mixed_types(rt.alloc()).ok().ok_or("memory")?;
    let table = TypeTable::from_types(rt.alloc(), types)
        .ok()
        .ok_or("no table")?;
    // copyable, tracked, holds what is tracked; leaves, slots, whether it is an enum, its parts
    let rows: [(Ty, (bool, bool, bool), (u32, u32, bool, usize)); 10] = [
        (Ty::Int, (true, false, false), (1, 1, false, 0)),
        (Ty::Bool, (true, false, false), (1, 1, false, 0)),
        (Ty::Unit, (true, false, false), (1, 0, false, 0)),
        (Ty::Fun(7), (true, false, false), (1, 2, false, 0)),
        (Ty::Named(0), (false, true, true), (1, 2, false, 1)),
        (Ty::Named(1), (false, false, true), (1, 6, true, 3)),
        (Ty::Named(2), (true, false, false), (2, 2, false, 2)),
        (Ty::Named(3), (false, false, true), (4, 5, false, 3)),
        (Ty::Named(4), (true, false, false), (1, 1, false, 0)),
        (Ty::Named(5), (false, false, false), (1, 1, true, 1)),
    ];
    for (ty, (copyable, tracked, holds_tracked), (leaves, slots, is_enum, parts)) in rows {
        let expected = Facts {
            copyable,
            tracked,
            holds_tracked,
            leaves,
            slots,
            is_enum,
            parts,
        };
        assert_eq!(rt; facts_of(&table, ty), Some(expected));
    }
    Ok(())
}

#[test]
fn leaves_come_apart_at_structs_without_deinit(rt: HostRuntime) -> Result<(), Fail> {
    let types = mixed_types(rt.alloc()).ok().ok_or("memory")?;
    let table = TypeTable::from_types(rt.alloc(), types)
        .ok()
        .ok_or("no table")?;
    let rows: [(u32, u32, Option<&[u32]>); 7] = [
        (0, 0, Some(&[])),
        (1, 0, Some(&[])),
        (3, 0, Some(&[0])),
        (3, 1, Some(&[1])),
        (3, 2, Some(&[2, 0])),
        (3, 3, Some(&[2, 1])),
        (3, 4, None),
    ];
    for (number, k, expected) in rows {
        assert_eq!(rt; leaf(&table, number, k), expected);
    }
    Ok(())
}

/// The fault of types, if there is one.
fn unfit(alloc: Global, types: Row<TypeInfo>) -> Option<Unfit> {
    TypeTable::from_types(alloc, types).err()
}

/// Type `from` contains the next type, and so on to type `to`, which contains type `last`.
fn chain(alloc: Global, from: u32, to: u32, last: Ty) -> Result<Row<TypeInfo>, AllocError> {
    let mut types = Row::new(alloc);
    for number in from..to {
        types.push(struct_of(alloc, Kind::Copyable, &[Ty::Int, Ty::Named(number + 1)])?)?;
    }
    types.push(struct_of(alloc, Kind::Copyable, &[last])?)?;
    Ok(types)
}

#[test]
fn a_type_in_a_circle_contains_itself(rt: HostRuntime) -> Result<(), Fail> {
    let alloc = rt.alloc();
    // Type 3 leads back to type 1, not to type 0.
    let types = chain(alloc, 0, 3, Ty::Named(1)).ok().ok_or("memory")?;
    assert_eq!(rt; unfit(alloc, types), Some(Unfit::ContainsItself(1)));
    let types = chain(alloc, 0, 3, Ty::Named(3)).ok().ok_or("memory")?;
    assert_eq!(rt; unfit(alloc, types), Some(Unfit::ContainsItself(3)));
    let types = chain(alloc, 0, 3, Ty::Int).ok().ok_or("memory")?;
    assert_eq!(rt; unfit(alloc, types), None);
    Ok(())
}

/// A struct with so many numbers, and a struct that contains it.
fn wide(alloc: Global, numbers: usize) -> Result<Row<TypeInfo>, AllocError> {
    let mut tys = Vec::new(alloc);
    for _ in 0..numbers {
        tys.push(Ty::Int)?;
    }
    let mut types = Row::new(alloc);
    types.push(struct_of(alloc, Kind::Copyable, &[Ty::Named(1)])?)?;
    types.push(struct_of(alloc, Kind::Copyable, tys.as_slice())?)?;
    Ok(types)
}

#[test]
fn a_type_has_at_most_64_slots(rt: HostRuntime) -> Result<(), Fail> {
    let alloc = rt.alloc();
    let types = wide(alloc, 64).ok().ok_or("memory")?;
    assert_eq!(rt; unfit(alloc, types), None);
    // The type that contains it has 65 too, but a part that is over.
    let types = wide(alloc, 65).ok().ok_or("memory")?;
    let over = Over {
        number: 1,
        count: 65,
    };
    assert_eq!(rt; unfit(alloc, types), Some(Unfit::Over(over)));
    let types = wide(alloc, 257).ok().ok_or("memory")?;
    assert_eq!(rt; unfit(alloc, types), Some(Unfit::Parts));
    Ok(())
}

/// A type by itself.
fn alone(alloc: Global, info: TypeInfo) -> Result<Row<TypeInfo>, AllocError> {
    let mut types = Row::new(alloc);
    types.push(info)?;
    Ok(types)
}

#[test]
fn a_declaration_has_the_parts_of_its_kind(rt: HostRuntime) -> Result<(), Fail> {
    let alloc = rt.alloc();
    // T04: a copyable struct with a noncopyable part.
    let mut types = Row::new(alloc);
    let part = struct_of(alloc, Kind::Noncopyable, &[Ty::Int]);
    types.push(part.ok().ok_or("memory")?).ok().ok_or("memory")?;
    let whole = struct_of(alloc, Kind::Copyable, &[Ty::Named(0)]);
    types
        .push(whole.ok().ok_or("memory")?)
        .ok()
        .ok_or("memory")?;
    assert_eq!(rt; unfit(alloc, types), Some(Unfit::Parts));
    // T05: an enum with a `deinit`.
    let mut info = enum_of(alloc, &[&[]]).ok().ok_or("memory")?;
    info.has_deinit = true;
    let types = alone(alloc, info).ok().ok_or("memory")?;
    assert_eq!(rt; unfit(alloc, types), Some(Unfit::Parts));
    // An enum that says it is a struct.
    let mut info = enum_of(alloc, &[&[]]).ok().ok_or("memory")?;
    info.is_enum = false;
    let types = alone(alloc, info).ok().ok_or("memory")?;
    assert_eq!(rt; unfit(alloc, types), Some(Unfit::Parts));
    // M5 counts cases too.
    let cases: [&[Ty]; 257] = [&[]; 257];
    let info = enum_of(alloc, &cases).ok().ok_or("memory")?;
    let types = alone(alloc, info).ok().ok_or("memory")?;
    assert_eq!(rt; unfit(alloc, types), Some(Unfit::Parts));
    Ok(())
}

/// So many structs, each of which contains the next one alone.
fn nested(alloc: Global, count: u32) -> Result<Row<TypeInfo>, AllocError> {
    let mut types = Row::new(alloc);
    for number in 1..count {
        types.push(struct_of(alloc, Kind::Noncopyable, &[Ty::Named(number)])?)?;
    }
    types.push(struct_of(alloc, Kind::Tracked, &[])?)?;
    Ok(types)
}

#[test]
fn a_text_has_at_most_1000_types(rt: HostRuntime) -> Result<(), Fail> {
    let alloc = rt.alloc();
    let types = nested(alloc, 1_000).ok().ok_or("memory")?;
    let table = TypeTable::from_types(alloc, types).ok().ok_or("no table")?;
    assert_eq!(rt; leaf(&table, 0, 0).map(|path| path.len()), Some(999));
    let types = nested(alloc, 1_001).ok().ok_or("memory")?;
    assert_eq!(rt; unfit(alloc, types), Some(Unfit::Parts));
    Ok(())
}
