ghost use Rattle.std.specs.Prelude.{◌≡◌, IfOk, length};

use own_table::{FieldInfo, TypeInfo, TypeTable};
use own_tree::typed::{At, Body, BodyKind, TypedBlock, TypedExpr, TypedPath, TypedStmt};
use own_tree::{Binding, Bytes, LimitKind, Mode, OpTree, Place, Row, Span, Ty, Typed};
use own_uses::{UsesError, op_count, op_tree};
use sqlite_items::Items;
use std::alloc::{AllocError, Global};
use std::test::*;

const NAME: Span = Span { start: 3, end: 5 };

const CLOSE: Span = Span { start: 90, end: 91 };

/// A noncopyable struct with 64 properties of type `Int`.
const LARGE: Ty = Ty::Named(0);

fn at(ty: Ty) -> At {
    At {
        id: 7,
        span: NAME,
        ty,
    }
}

fn path(alloc: Global, binding: u32, ty: Ty) -> TypedPath {
    TypedPath {
        at: at(ty),
        place: Place {
            binding,
            fields: Row::new(alloc),
        },
    }
}

fn table(alloc: Global) -> Result<TypeTable, Fail> {
    let mut fields = Row::new(alloc);
    for _ in 0..64 {
        fields.push(FieldInfo {
            name: Bytes::new(alloc),
            ty: Ty::Int,
            changes: true,
        })?;
    }
    let mut types = Row::new(alloc);
    types.push(TypeInfo {
        name: Bytes::new(alloc),
        is_enum: false,
        noncopyable: true,
        has_deinit: false,
        fields,
        cases: Row::new(alloc),
    })?;
    Ok(TypeTable::from_types(alloc, types).ok().ok_or("no table")?)
}

/// One body with these statements, which declares so many bindings of that mode and type.
fn program(
    alloc: Global,
    count: u32,
    mode: Mode,
    ty: Ty,
    statements: Items<TypedStmt>,
) -> Result<Typed, AllocError>
    ensures { IfOk result (λ typed. length typed.bodies ≡ 1) }
{
    let mut bindings = Row::new(alloc);
    for _ in 0..count {
        bindings.push(Binding {
            name: Bytes::new(alloc),
            ty,
            mode,
            span: NAME,
            body: 0,
        })?;
    }
    let mut bodies = Row::new(alloc);
    bodies.push(Body {
        kind: BodyKind::Function,
        owner: None,
        params: Row::from_slice(alloc, &[0])?,
        result: Ty::Unit,
        discards: false,
        span: NAME,
        close: CLOSE,
        block: TypedBlock {
            at: at(Ty::Unit),
            statements,
        },
    })?;
    Ok(Typed {
        bodies,
        bindings,
        signatures: Row::new(alloc),
        main: 0,
        tokens: 0,
    })
}

/// `_ = x` so often, where `x` is the parameter.
fn uses(alloc: Global, count: u32, ty: Ty) -> Result<Items<TypedStmt>, AllocError> {
    let mut statements = Items::new(alloc);
    for _ in 0..count {
        let value = TypedExpr::Path(path(alloc, 0, ty));
        statements.push(TypedStmt::Ignore(at(Ty::Unit), value))?;
    }
    Ok(statements)
}

/// The number of bindings, their mode and type, and how often the first of them is used.
type Texts = (u32, Mode, Ty, u32);

/// Each with the count of its ops.
const WITHIN: &[(Texts, u64)] = &[
    // the parameter is made and ends
    ((1, Mode::Plain, Ty::Int, 0), 2),
    ((1, Mode::Plain, Ty::Int, 5), 7),
    // a borrowed one has no End
    ((1, Mode::Borrowing, LARGE, 1), 2),
    ((1, Mode::Plain, Ty::Int, 19_998), 20_000),
];

#[test]
fn ops_are_counted(rt: HostRuntime) -> Result<(), Fail> {
    let table = table(rt.alloc())?;
    for ((count, mode, ty, times), wanted) in WITHIN {
        let statements = uses(rt.alloc(), *times, *ty)?;
        let typed = program(rt.alloc(), *count, *mode, *ty, statements)?;
        let tree = op_tree(rt.alloc(), &typed, &table, 0)
            .ok()
            .ok_or("refused")?;
        assert_eq!(rt; op_count(&tree), *wanted);
    }
    Ok(())
}

/// Each with the limit that it passes, and the count.
const OVER: &[(Texts, LimitKind, u64)] = &[
    ((32, Mode::Consuming, LARGE, 0), LimitKind::BodySlots, 2_048),
    // the slots come first
    (
        (32, Mode::Consuming, LARGE, 20_000),
        LimitKind::BodySlots,
        2_048,
    ),
    (
        (1, Mode::Plain, Ty::Int, 19_999),
        LimitKind::BodyOps,
        20_001,
    ),
    // borrowed bindings have leaves, though no slots
    (
        (32, Mode::Borrowing, LARGE, 0),
        LimitKind::BodyLeaves,
        2_048,
    ),
    // the parameter is made, consumed and ends
    (
        (1, Mode::Consuming, LARGE, 63),
        LimitKind::BodyMakers,
        4_160,
    ),
];

#[test]
fn limits_are_named(rt: HostRuntime) -> Result<(), Fail> {
    let table = table(rt.alloc())?;
    for ((count, mode, ty, times), which, passed) in OVER {
        let statements = uses(rt.alloc(), *times, *ty)?;
        let typed = program(rt.alloc(), *count, *mode, *ty, statements)?;
        let error = op_tree(rt.alloc(), &typed, &table, 0)
            .err()
            .ok_or("no limit")?;
        let wanted = UsesError::Limit {
            which: *which,
            count: *passed,
            at: NAME,
        };
        assert_eq!(rt; error, wanted);
    }
    Ok(())
}
