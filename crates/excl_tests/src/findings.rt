use crate::bodies::{BOX, LEAF, PAIR, at, call, path, program, table, value};
use own_excl::fixed_findings;
use own_tree::typed::{TypedClause, TypedExpr, TypedHead, TypedStmt};
use own_tree::{Finding, Mode, Passing, Row, Rule, Span, Ty};
use sqlite_items::Items;
use std::alloc::{AllocError, Global};
use std::process::Abort;
use std::test::*;

/// A borrowing parameter, a consuming one, a `let`, a captured `var`, a `var`, and `self` in an `init`.
const DECLARED: &[(Mode, Ty, u32)] = &[
    (Mode::Borrowing, LEAF, 0),
    (Mode::Consuming, BOX, 0),
    (Mode::Let, PAIR, 0),
    (Mode::Var, LEAF, 1),
    (Mode::Var, PAIR, 0),
    (Mode::SelfInit, PAIR, 0),
];

/// The rule, the start of the span, the binding, and the start of the cause.
type Wanted = (Rule, u32, u32, u32);

fn found(alloc: Global, statements: Items<TypedStmt>) -> Result<Row<Finding>, Fail> {
    let mut closure = Items::new(alloc);
    let changed = path(alloc, 40, 2, &[1], LEAF)?;
    closure.push(TypedStmt::Assign(
        at(0, Ty::Unit),
        changed,
        TypedExpr::Number(at(0, Ty::Int), 0),
    ))?;
    let typed = program(alloc, statements, closure, DECLARED)?;
    Ok(fixed_findings(alloc, &typed, &table(alloc)?, 0)?)
}

fn expect(rt: &impl Abort, found: &Row<Finding>, wanted: &[Wanted]) -> Result<(), Fail> {
    assert_eq!(rt; found.len(), wanted.len());
    for (finding, (rule, start, binding, cause)) in found.as_slice().iter().zip(wanted) {
        assert_eq!(rt; finding.rule, *rule);
        assert_eq!(rt; finding.span.start, *start);
        assert_eq!(rt; finding.place.binding, *binding);
        assert_eq!(rt; finding.cause.start, *cause);
    }
    Ok(())
}

fn ignore(value: TypedExpr) -> TypedStmt {
    TypedStmt::Ignore(at(0, Ty::Unit), value)
}

fn set(alloc: Global, start: u32, binding: u32, fields: &[u32]) -> Result<TypedStmt, AllocError> {
    let place = path(alloc, start, binding, fields, LEAF)?;
    Ok(TypedStmt::Assign(at(0, Ty::Unit), place, TypedExpr::Number(at(0, Ty::Int), 0)))
}

/// `switch path { default: statement }`
fn switch(
    alloc: Global,
    subject: TypedExpr,
    statement: TypedStmt,
) -> Result<TypedStmt, AllocError> {
    let mut statements = Items::new(alloc);
    statements.push(statement)?;
    let mut clauses = Items::new(alloc);
    clauses.push(TypedClause {
        span: Span { start: 0, end: 0 },
        head: TypedHead::Default,
        statements,
    })?;
    Ok(TypedStmt::Switch(at(0, Ty::Unit), subject, clauses))
}

#[test]
fn what_is_borrowed_or_a_part_of_a_leaf_is_not_consumed(rt: HostRuntime) -> Result<(), Fail> {
    let alloc = rt.alloc();
    let mut statements = Items::new(alloc);
    for (start, binding, fields) in [
        (53, 3, &[] as &[u32]),
        (50, 0, &[]),
        (51, 1, &[0]),
        (52, 2, &[1]),
        (54, 5, &[0]),
    ] {
        statements.push(ignore(value(alloc, start, binding, fields, LEAF)?))?;
    }
    let wanted = [
        (Rule::O7, 50, 0, 0),
        (Rule::O8, 51, 1, 1),
        (Rule::O7, 53, 3, 3),
        (Rule::O7, 54, 5, 5),
    ];
    expect(&rt, &found(alloc, statements)?, &wanted)
}

#[test]
fn what_cannot_change_is_not_changed(rt: HostRuntime) -> Result<(), Fail> {
    let alloc = rt.alloc();
    let mut statements = Items::new(alloc);
    for (start, binding, field) in [(60, 2, 1), (61, 4, 0), (62, 4, 1), (63, 5, 0)] {
        statements.push(set(alloc, start, binding, &[field])?)?;
    }
    let address = TypedExpr::Address(path(alloc, 64, 5, &[0], LEAF)?);
    statements.push(ignore(address))?;
    statements.push(ignore(TypedExpr::Closure(at(65, Ty::Int), 1)))?;
    let wanted = [
        (Rule::O9, 60, 2, 2),
        (Rule::O9, 61, 4, 4),
        (Rule::O9, 64, 5, 5),
        (Rule::O9, 65, 2, 2),
    ];
    expect(&rt, &found(alloc, statements)?, &wanted)
}

#[test]
fn a_later_argument_conflicts_with_what_is_held(rt: HostRuntime) -> Result<(), Fail> {
    let alloc = rt.alloc();
    let mut statements = Items::new(alloc);
    let passings = [Passing::Borrow, Passing::Borrow];
    let changed = TypedExpr::Address(path(alloc, 70, 4, &[1], LEAF)?);
    let whole = value(alloc, 71, 4, &[], PAIR)?;
    statements.push(ignore(call(alloc, changed, whole, &passings)?))?;
    // the consume stands in a call within the second argument, and overlaps its own first argument too
    let inner = call(
        alloc,
        value(alloc, 74, 4, &[1], LEAF)?,
        value(alloc, 75, 4, &[], PAIR)?,
        &[Passing::Borrow, Passing::Consume],
    )?;
    let whole = value(alloc, 73, 4, &[], PAIR)?;
    statements.push(ignore(call(alloc, whole, inner, &[Passing::Borrow, Passing::ByValue])?))?;
    // two that borrow
    let whole = value(alloc, 76, 4, &[], PAIR)?;
    let again = value(alloc, 77, 4, &[], PAIR)?;
    statements.push(ignore(call(alloc, whole, again, &passings)?))?;
    let wanted = [(Rule::O10, 71, 4, 70), (Rule::O10, 75, 4, 73)];
    expect(&rt, &found(alloc, statements)?, &wanted)
}

#[test]
fn the_subject_of_a_switch_is_not_changed(rt: HostRuntime) -> Result<(), Fail> {
    let alloc = rt.alloc();
    let mut statements = Items::new(alloc);
    let subject = value(alloc, 81, 4, &[1], LEAF)?;
    let inner = switch(alloc, subject, set(alloc, 82, 4, &[1])?)?;
    let subject = value(alloc, 80, 4, &[], PAIR)?;
    statements.push(switch(alloc, subject, inner)?)?;
    // a part that does not overlap
    let subject = value(alloc, 83, 4, &[0], LEAF)?;
    statements.push(switch(alloc, subject, set(alloc, 84, 4, &[1])?)?)?;
    let wanted = [(Rule::O11, 82, 4, 80)];
    expect(&rt, &found(alloc, statements)?, &wanted)
}
