use super::{types, *};
use core_form::limits::SLOTS;
use own_table::{FieldInfo, TypeInfo, TypeTable};
use own_tree::tree::RangeOperator;
use own_tree::typed::{At, Body, BodyKind, TypedBlock, TypedExpr, TypedPath, TypedStmt};
use own_tree::{Binding, Bytes, Mode, Place, Row, Span, Ty, Typed};
use sqlite_items::Items;
use std::alloc::{AllocError, Global};
use std::test::*;

const NAME: Span = Span { start: 3, end: 5 };

/// A noncopyable struct with two properties of type `Int`.
const PAIR: Ty = Ty::Named(0);

/// A type that no table of these tests declares.
const ABSENT: Ty = Ty::Named(1);

fn at(id: u32, ty: Ty) -> At {
    At { id, span: NAME, ty }
}

fn table(alloc: Global) -> Result<TypeTable, Fail> {
    let mut fields = Row::new(alloc);
    for _ in 0..2 {
        fields.push(FieldInfo {
            name: Bytes::new(alloc),
            ty: Ty::Int,
            changes: true,
        })?;
    }
    let mut types = Row::new(alloc);
    types.push(TypeInfo {
        name: Bytes::from_slice(alloc, b"Pair")?,
        is_enum: false,
        noncopyable: true,
        has_deinit: false,
        fields,
        cases: Row::new(alloc),
    })?;
    Ok(TypeTable::from_types(alloc, types).ok().ok_or("no table")?)
}

#[test]
fn every_type_has_an_answer(rt: HostRuntime) -> Result<(), Fail> {
    let table = table(rt.alloc())?;
    assert_eq!(rt; types::slots(&table, PAIR), 2);
    assert_eq!(rt; types::leaf_count(&table, PAIR), 2);
    assert_eq!(rt; types::leaf(&table, PAIR, 1), [1u32].as_slice());
    assert_eq!(rt; types::leaf(&table, PAIR, 2).len(), 0);
    assert_eq!(rt; types::properties(&table, PAIR).len(), 2);
    assert_eq!(rt; types::name(&table, PAIR), b"Pair".as_slice());
    assert!(rt; !types::copyable(&table, PAIR) && types::copyable(&table, ABSENT));
    assert_eq!(rt; types::slots(&table, ABSENT), 0);
    assert_eq!(rt; types::leaf_count(&table, ABSENT), 1);
    assert_eq!(rt; types::cases(&table, ABSENT).len(), 0);
    Ok(())
}

/// A binding's type and mode, and where it stands in the frame.
const BINDINGS: &[(Ty, Mode, u32)] = &[
    (PAIR, Mode::Let, SLOTS + 1),
    // the parameter comes first, and is an address
    (PAIR, Mode::Borrowing, SLOTS),
    (Ty::Fun(0), Mode::Closure, SLOTS + 3),
];

fn bindings(alloc: Global) -> Result<Row<Binding>, AllocError> {
    let mut bindings = Row::new(alloc);
    for (ty, mode, _) in BINDINGS {
        bindings.push(Binding {
            name: Bytes::new(alloc),
            ty: *ty,
            mode: *mode,
            span: NAME,
            body: 0,
        })?;
    }
    Ok(bindings)
}

/// `_ = consume x`, and a `for` with an empty block.
fn statements(alloc: Global) -> Result<Items<TypedStmt>, AllocError> {
    let path = TypedPath {
        at: at(3, PAIR),
        place: Place {
            binding: 0,
            fields: Row::new(alloc),
        },
    };
    let value = TypedExpr::Consume(at(2, PAIR), path);
    let mut statements = Items::new(alloc);
    statements.push(TypedStmt::Ignore(at(1, Ty::Unit), value))?;
    statements.push(TypedStmt::For(
        at(4, Ty::Unit),
        None,
        TypedExpr::Number(at(5, Ty::Int), 0),
        RangeOperator::HalfOpen,
        NAME,
        TypedExpr::Number(at(6, Ty::Int), 9),
        TypedBlock {
            at: at(7, Ty::Unit),
            statements: Items::new(alloc),
        },
    ))?;
    Ok(statements)
}

fn program(alloc: Global) -> Result<Typed, AllocError> {
    let mut bodies = Row::new(alloc);
    bodies.push(Body {
        kind: BodyKind::Function,
        owner: None,
        params: Row::from_slice(alloc, &[1])?,
        result: Ty::Unit,
        discards: false,
        span: NAME,
        close: NAME,
        block: TypedBlock {
            at: at(0, Ty::Unit),
            statements: statements(alloc)?,
        },
    })?;
    Ok(Typed {
        bodies,
        bindings: bindings(alloc)?,
        signatures: Row::new(alloc),
        main: 0,
        tokens: 0,
    })
}

/// The `for` has two words, which stand before those of the `consume`; the literals have none.
const NODES: &[(u32, Option<u32>)] = &[
    (2, Some(SLOTS + 7)),
    (4, Some(SLOTS + 5)),
    (5, None),
    (9, None),
];

#[test]
fn words_are_laid_out(rt: HostRuntime) -> Result<(), Fail> {
    let alloc = rt.alloc();
    let layout = layout(alloc, &program(alloc)?, &table(alloc)?)?;
    for (number, (_, _, wanted)) in BINDINGS.iter().enumerate() {
        assert_eq!(rt; layout.offset(number as u32), *wanted);
    }
    for (number, wanted) in NODES {
        assert_eq!(rt; layout.node(*number), *wanted);
    }
    // nine words and the one of the maker
    assert_eq!(rt; layout.frame(0), 10);
    assert_eq!(rt; layout.frame(1), 0);
    Ok(())
}
