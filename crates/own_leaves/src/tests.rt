ghost use Rattle.std.specs.Prelude.{◌≡◌, true, IfOk};
ghost use Rattle.own_leaves.specs.Bindings.{AreTyped};
ghost use Rattle.own_table.specs.Table.{IsTypeIn};

use super::*;
use own_shapes::{FieldInfo, TypeInfo};
use own_table::TypeTable;
use own_tree::{Binding, Bytes, Mode, Op, OpKind, Place, Row, Span, Ty};
use std::alloc::{AllocError, Global};
use std::process::Abort;
use std::test::*;

const AT: Span = Span { start: 0, end: 1 };

fn place_of(alloc: Global, binding: u32, fields: &[u32]) -> Result<Place, AllocError> {
    Ok(Place {
        binding,
        fields: Row::from_slice(alloc, fields)?,
    })
}

/// Two places, and whether the first covers, overlaps and lies strictly above the second.
type Lying<'p> = ((u32, &'p [u32]), (u32, &'p [u32]), (bool, bool, bool));

const LYING: &[Lying<'static>] = &[
    ((1, &[]), (1, &[0]), (true, true, true)),
    ((1, &[0]), (1, &[0]), (true, true, false)),
    ((1, &[0, 2]), (1, &[0]), (false, true, false)),
    ((1, &[0]), (1, &[1]), (false, false, false)),
    ((1, &[]), (2, &[]), (false, false, false)),
];

#[test]
fn places_lie_in_each_other(rt: HostRuntime) -> Result<(), Fail> {
    let alloc = rt.alloc();
    for ((first, fields), (second, others), (is_covered, overlapping, is_above)) in LYING {
        let p = place_of(alloc, *first, *fields)?;
        let q = place_of(alloc, *second, *others)?;
        assert_eq!(rt; covers(&p, &q), *is_covered);
        assert_eq!(rt; overlaps(&p, &q), *overlapping);
        assert_eq!(rt; is_strictly_above(&p, &q), *is_above);
    }
    Ok(())
}

/// A struct with a `deinit` or without one, and the types of its stored properties.
fn struct_of(alloc: Global, has_deinit: bool, properties: &[Ty]) -> Result<TypeInfo, AllocError> {
    let mut fields = Row::new(alloc);
    for ty in properties {
        fields.push(FieldInfo {
            name: Bytes::from_slice(alloc, b"property")?,
            ty: *ty,
            changes: true,
        })?;
    }
    Ok(TypeInfo {
        name: Bytes::from_slice(alloc, b"Struct")?,
        is_enum: false,
        noncopyable: true,
        has_deinit,
        fields,
        cases: Row::new(alloc),
    })
}

const FILE: Ty = Ty::Named(0);

const PAIR: Ty = Ty::Named(1);

const HELD: Ty = Ty::Named(2);

fn table_of(alloc: Global) -> Result<TypeTable, Fail> {
    let mut types = Row::new(alloc);
    types.push(struct_of(alloc, true, &[Ty::Int])?)?;
    types.push(struct_of(alloc, false, &[FILE, Ty::Int])?)?;
    types.push(struct_of(alloc, true, &[PAIR, FILE])?)?;
    let table = TypeTable::from_types(alloc, types).ok().ok_or("no table")?;
    Ok(table)
}

fn is_type(table: &TypeTable, ty: Ty) -> bool
    ensures { result ≡ true → IsTypeIn table.now ty }
{
    match ty {
        Ty::Named(number) => number < table.count(),
        _ => true,
    }
}

/// Bindings by their types, their modes and their bodies.
fn bindings_of(
    rt: &impl Abort,
    alloc: Global,
    table: &TypeTable,
    rows: &[(Ty, Mode, u32)],
) -> Result<Vec<Binding>, AllocError>
    ensures { IfOk result (λ bindings. AreTyped table.now bindings.items) }
{
    let mut bindings = Vec::new(alloc);
    for (ty, mode, body) in rows {
        assert!(rt; is_type(table, *ty));
        bindings.push(Binding {
            name: Bytes::new(alloc),
            ty: *ty,
            mode: *mode,
            span: AT,
            body: *body,
        })?;
    }
    Ok(bindings)
}

const BINDINGS: &[(Ty, Mode, u32)] = &[
    (PAIR, Mode::Let, 1),
    (FILE, Mode::Borrowing, 0),
    (HELD, Mode::SelfInit, 1),
    (HELD, Mode::Var, 1),
];

/// Those of body 1: `self` in its `init` is opened, and what has a `deinit` is one leaf elsewhere.
const LEAVES: &[(u32, &[u32])] = &[
    (0, &[0]),
    (0, &[1]),
    (2, &[0, 0]),
    (2, &[0, 1]),
    (2, &[1]),
    (3, &[]),
];

#[test]
fn self_in_init_is_opened(rt: HostRuntime) -> Result<(), Fail> {
    let alloc = rt.alloc();
    let table = table_of(alloc)?;
    let bindings = bindings_of(&rt, alloc, &table, BINDINGS)?;
    let leaves = body_leaves(alloc, &table, bindings.as_slice(), 1)?;
    assert_eq!(rt; leaves.len(), LEAVES.len());
    for (leaf, (binding, fields)) in leaves.as_slice().iter().zip(LEAVES) {
        assert!(rt; leaf.binding == *binding && leaf.fields.as_slice() == *fields);
    }
    Ok(())
}

/// An op of body 1, and whether it ends nothing: what is borrowed or captured, and a part of a leaf.
const ENDING: &[(OpKind, u32, &[u32], bool)] = &[
    (OpKind::Consume, 0, &[0], false),
    (OpKind::Consume, 0, &[0, 0], true),
    (OpKind::Consume, 1, &[], true),
    (OpKind::Consume, 2, &[0], true),
    (OpKind::Consume, 3, &[], false),
    (OpKind::Consume, 3, &[0], true),
    (OpKind::End, 1, &[], false),
    (OpKind::Consume, 9, &[], false),
];

#[test]
fn some_consumes_end_nothing(rt: HostRuntime) -> Result<(), Fail> {
    let alloc = rt.alloc();
    let table = table_of(alloc)?;
    let bindings = bindings_of(&rt, alloc, &table, BINDINGS)?;
    for (kind, binding, fields, wanted) in ENDING {
        let op = Op {
            kind: *kind,
            place: place_of(alloc, *binding, *fields)?,
            span: AT,
            node: 0,
        };
        assert_eq!(rt; ends_nothing(&table, bindings.as_slice(), 1, &op), *wanted);
    }
    assert!(rt; is_maker(OpKind::Consume) && !is_maker(OpKind::Borrow));
    Ok(())
}
