//! `switch` and its clauses.

use crate::branches::stated_at;
use crate::expressions::value;
use crate::statements::statements;
use own_calls::TypeError;
use own_patterns::{
    How, Matched, MatchedList, all_matched, alternatives, covering, how_taken, moved, one_or_none,
    pattern_of, unguarded,
};
use own_scope::types::copyable;
use own_scope::{Builder, Known, Local, Scope};
use own_terms::nodes::{node_of, path_of};
use own_terms::values::holding;
use own_tree::tree::{Clause, Expr, Head, Pattern, Stmt};
use own_tree::typed::{At, TypedClause, TypedExpr, TypedHead, TypedStmt};
use own_tree::{Row, Span, Ty};
use sqlite_items::Items;
use std::alloc::{AllocError, Global};

/// The judgement that a clause with several patterns binds no name.
pub const SEVERAL_BIND: u8 = 31;

/// What a `switch` says to its clauses: how they take the subject, and its type.
#[derive(Clone, Copy)]
struct Taken {
    how: How,
    ty: Ty,
}

/// The head of a clause, and the names that its statements see.
#[derive(Drop)]
struct Headed<'t> {
    head: TypedHead,
    locals: Vec<Local<'t>>,
}

/// The word of a `switch`.
fn word_of(span: Span) -> Span {
    Span {
        start: span.start,
        end: span.start.saturating_add(6).min(span.end),
    }
}

/// A subject, as its clauses take it.
fn how_subject_is_taken(known: &Known<'_>, subject: &TypedExpr) -> Taken {
    let ty = node_of(subject).ty;
    let how = how_taken(copyable(known.table, ty), path_of(subject));
    Taken { how, ty }
}

/// A `switch` with its clauses, whose patterns cover its subject (T20).
fn covered(
    alloc: Global,
    known: &Known<'_>,
    at: At,
    ty: Ty,
    subject: TypedExpr,
    clauses: Vec<TypedClause>,
) -> Result<TypedStmt, TypeError> {
    let patterns = all_matched(alloc, clauses.as_slice())?;
    covering(
        alloc,
        known.table,
        ty,
        patterns.as_slice(),
        word_of(at.span),
    )?;
    Ok(TypedStmt::Switch(at, subject, Items::from_vec(clauses)))
}

/// The same place, with these names.
fn scope_with<'i>(
    alloc: Global,
    scope: &'i Scope<'_>,
    locals: &[Local<'_>],
) -> Result<Scope<'i>, AllocError> {
    let mut inner = (&*scope).block(alloc)?;
    inner.declare_all(alloc, locals)?;
    Ok(inner)
}

/// The patterns of a clause without a guard. Several bind no name (T31).
fn case_head<'t>(
    alloc: Global,
    known: &Known<'_>,
    builder: &mut Builder,
    scope: &Scope<'_>,
    patterns: &'t [Pattern],
    span: Span,
    taken: Taken,
) -> Result<Headed<'t>, TypeError> {
    let how = unguarded(taken.how);
    let found = alternatives(alloc, known, builder, scope, patterns, how, taken.ty)?;
    holding(
        one_or_none(patterns, found.locals.as_slice()),
        SEVERAL_BIND,
        span,
    )?;
    let MatchedList {
        patterns: made,
        locals,
    } = found;
    Ok(Headed {
        head: TypedHead::Case(Row::from_vec(made)),
        locals,
    })
}

/// A pattern with its guard, behind which what it binds may be moved.
fn guarded_head<'t>(
    alloc: Global,
    how: How,
    matched: Matched<'t>,
    guard: TypedExpr,
) -> Result<Headed<'t>, TypeError> {
    let Matched { pattern, locals } = matched;
    Ok(Headed {
        head: TypedHead::Guarded(pattern, guard),
        locals: moved(alloc, how, locals)?,
    })
}

/// What follows a `where`, which sees the names of the pattern.
#[cycle(walk)]
fn guard_with(
    alloc: Global,
    known: &Known<'_>,
    builder: &mut Builder,
    scope: &Scope<'_>,
    guard: &Expr,
    locals: &[Local<'_>],
) -> Result<TypedExpr, TypeError> {
    let seen = scope_with(alloc, scope, locals)?;
    value(alloc, known, builder, &seen, guard, Some(Ty::Bool))
}

/// The head of the clause of that span.
#[cycle(walk)]
fn head_of<'t>(
    alloc: Global,
    known: &Known<'_>,
    builder: &mut Builder,
    scope: &Scope<'_>,
    head: &'t Head,
    span: Span,
    taken: Taken,
) -> Result<Headed<'t>, TypeError> {
    match head {
        Head::Default => Ok(Headed {
            head: TypedHead::Default,
            locals: Vec::new(alloc),
        }),
        Head::Case(patterns) => {
            case_head(
                alloc,
                known,
                builder,
                scope,
                patterns.as_slice(),
                span,
                taken,
            )
        }
        Head::Guarded(pattern, guard) => {
            let matched = pattern_of(alloc, known, builder, scope, pattern, taken.how, taken.ty)?;
            let locals = matched.locals.as_slice();
            let guard = guard_with(alloc, known, builder, scope, guard, locals)?;
            guarded_head(alloc, taken.how, matched, guard)
        }
    }
}

/// The statements of a clause, which see its names.
#[cycle(walk)]
fn statements_with(
    alloc: Global,
    known: &Known<'_>,
    builder: &mut Builder,
    scope: &Scope<'_>,
    inside: &[Stmt],
    locals: &[Local<'_>],
) -> Result<Vec<TypedStmt>, TypeError> {
    let inner = scope_with(alloc, scope, locals)?;
    statements(alloc, known, builder, inner, inside, false)
}

/// A clause.
#[cycle(walk)]
fn clause_of(
    alloc: Global,
    known: &Known<'_>,
    builder: &mut Builder,
    scope: &Scope<'_>,
    clause: &Clause,
    taken: Taken,
) -> Result<TypedClause, TypeError> {
    let headed = head_of(
        alloc,
        known,
        builder,
        scope,
        &clause.head,
        clause.span,
        taken,
    )?;
    let Headed { head, locals } = headed;
    let inside = clause.statements.as_slice();
    let made = statements_with(alloc, known, builder, scope, inside, locals.as_slice())?;
    Ok(TypedClause {
        span: clause.span,
        head,
        statements: Items::from_vec(made),
    })
}

/// Clauses, in order.
#[cycle(walk)]
fn clauses_of(
    alloc: Global,
    known: &Known<'_>,
    builder: &mut Builder,
    scope: &Scope<'_>,
    clauses: &[Clause],
    taken: Taken,
) -> Result<Vec<TypedClause>, TypeError> {
    let mut made = Vec::new(alloc);
    for clause in clauses {
        made.push(clause_of(alloc, known, builder, scope, clause, taken)?)?;
    }
    Ok(made)
}

/// The inside of a `switch`.
#[cycle(walk)]
fn inside_switch(
    alloc: Global,
    known: &Known<'_>,
    builder: &mut Builder,
    scope: &Scope<'_>,
    clauses: &[Clause],
    taken: Taken,
) -> Result<Vec<TypedClause>, TypeError> {
    let inner = scope.inside_switch(alloc)?;
    clauses_of(alloc, known, builder, &inner, clauses, taken)
}

/// `switch`.
#[cycle(walk)]
pub fn switch(
    alloc: Global,
    known: &Known<'_>,
    builder: &mut Builder,
    scope: &Scope<'_>,
    s: &Stmt,
) -> Result<TypedStmt, TypeError> {
    match s {
        Stmt::Switch(span, subject, clauses) => {
            let id = builder.node()?;
            let subject = value(alloc, known, builder, scope, subject, None)?;
            let taken = how_subject_is_taken(known, &subject);
            let clauses = clauses.as_slice();
            let made = inside_switch(alloc, known, builder, scope, clauses, taken)?;
            covered(alloc, known, stated_at(id, *span), taken.ty, subject, made)
        }
        _ => Err(TypeError::Memory),
    }
}
