use own_tree::typed::{At, Body, BodyKind, Target, TypedBlock, TypedExpr, TypedPath, TypedStmt};
use own_tree::{Binding, Bytes, Mode, Passing, Place, Row, Span, Ty, Typed};
use own_within::{Captured, captures};
use sqlite_items::Items;
use std::alloc::{AllocError, Global};
use std::test::*;

const HERE: Span = Span { start: 3, end: 5 };

const NODE: At = At {
    id: 7,
    span: HERE,
    ty: Ty::Int,
};

fn path(alloc: Global, binding: u32) -> TypedPath {
    TypedPath {
        at: NODE,
        place: Place {
            binding,
            fields: Row::new(alloc),
        },
    }
}

fn binding(alloc: Global, body: u32) -> Binding {
    Binding {
        name: Bytes::new(alloc),
        ty: Ty::Int,
        mode: Mode::Var,
        span: HERE,
        body,
    }
}

fn body(alloc: Global, kind: BodyKind, statements: Items<TypedStmt>) -> Body {
    Body {
        kind,
        owner: None,
        params: Row::new(alloc),
        result: Ty::Unit,
        discards: false,
        span: HERE,
        close: HERE,
        block: TypedBlock {
            at: NODE,
            statements,
        },
    }
}

/// `{ x in y = x; _ = z.m(x); _ = { w = v } }`, where `x` is 3 and `m` mutates.
fn outer(alloc: Global) -> Result<Items<TypedStmt>, AllocError> {
    let mut arguments = Items::new(alloc);
    arguments.push(TypedExpr::Path(path(alloc, 1)))?;
    arguments.push(TypedExpr::Path(path(alloc, 3)))?;
    let passings = Row::from_slice(alloc, &[Passing::Inout, Passing::ByValue])?;
    let mut statements = Items::new(alloc);
    let value = TypedExpr::Path(path(alloc, 3));
    statements.push(TypedStmt::Assign(NODE, path(alloc, 0), value))?;
    let call = TypedExpr::Call(NODE, Target::Method(0), arguments, passings);
    statements.push(TypedStmt::Ignore(NODE, call))?;
    statements.push(TypedStmt::Ignore(NODE, TypedExpr::Closure(NODE, 2)))?;
    Ok(statements)
}

/// `{ w = v }`, where `w` is its own and `v` is 2.
fn inner(alloc: Global) -> Result<Items<TypedStmt>, AllocError> {
    let mut statements = Items::new(alloc);
    let value = TypedExpr::Path(path(alloc, 2));
    statements.push(TypedStmt::Assign(NODE, path(alloc, 4), value))?;
    Ok(statements)
}

fn program(alloc: Global) -> Result<Typed, AllocError> {
    let mut bodies = Row::new(alloc);
    bodies.push(body(alloc, BodyKind::Function, Items::new(alloc)))?;
    bodies.push(body(alloc, BodyKind::Closure(0), outer(alloc)?))?;
    bodies.push(body(alloc, BodyKind::Closure(1), inner(alloc)?))?;
    let mut bindings = Row::new(alloc);
    for number in [0, 0, 0, 1, 2] {
        bindings.push(binding(alloc, number))?;
    }
    Ok(Typed {
        bodies,
        bindings,
        signatures: Row::new(alloc),
        main: 0,
        tokens: 0,
    })
}

#[test]
fn captures_are_those_of_closures_inside_too(rt: HostRuntime) -> Result<(), Fail> {
    let typed = program(rt.alloc())?;
    let found = captures(rt.alloc(), &typed, 1)?;
    let wanted = [
        Captured {
            binding: 0,
            change: true,
        },
        Captured {
            binding: 1,
            change: true,
        },
        Captured {
            binding: 2,
            change: false,
        },
    ];
    assert_eq!(rt; found.as_slice(), wanted.as_slice());
    Ok(())
}
