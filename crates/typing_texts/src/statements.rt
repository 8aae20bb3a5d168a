//! Statements in a short form, each with a `;` behind it.

use crate::expressions::{put_binding, put_expression, put_place};
use crate::words::{put, put_count, put_truth, range_word, trapping_word};
use own_tree::TPattern;
use own_tree::typed::{TypedBlock, TypedClause, TypedHead, TypedStmt};
use std::fmt::Write;

/// A pattern: a name by the number of its binding, a case by its own.
#[cycle(patterns)]
fn put_pattern(out: &mut String, pattern: &TPattern) {
    match pattern {
        TPattern::Any => put(out, "_"),
        TPattern::Bind(number) => put_binding(out, *number),
        TPattern::Case(number, parts) => {
            put(out, ".");
            put_count(out, *number);
            put_patterns(out, parts.as_slice())
        }
        TPattern::Number(number) => {
            let number = *number;
            let _ = write!(out, "{number}");
        }
        TPattern::Truth(truth) => put_truth(out, *truth),
    }
}

#[cycle(patterns)]
fn put_patterns(out: &mut String, patterns: &[TPattern]) {
    put(out, "(");
    for pattern in patterns {
        put_pattern(out, pattern);
        put(out, ",");
    }
    put(out, ")")
}

fn put_head(out: &mut String, head: &TypedHead) {
    match head {
        TypedHead::Case(patterns) => put_patterns(out, patterns.as_slice()),
        TypedHead::Guarded(pattern, guard) => {
            put_pattern(out, pattern);
            put(out, " where ");
            put_expression(out, guard)
        }
        TypedHead::Default => put(out, "default"),
    }
}

#[cycle(statements)]
fn put_clauses(out: &mut String, clauses: &[TypedClause]) {
    put(out, " {");
    for clause in clauses {
        put(out, " ");
        put_head(out, &clause.head);
        put(out, ":");
        put_statements(out, clause.statements.as_slice());
    }
    put(out, " }")
}

#[cycle(statements)]
pub fn put_block(out: &mut String, block: &TypedBlock) {
    put(out, " {");
    put_statements(out, block.statements.as_slice());
    put(out, " }")
}

#[cycle(statements)]
fn put_statements(out: &mut String, statements: &[TypedStmt]) {
    for s in statements {
        put(out, " ");
        put_statement(out, s);
        put(out, ";");
    }
}

#[cycle(statements)]
fn put_statement(out: &mut String, s: &TypedStmt) {
    match s {
        TypedStmt::If(_, condition, block) => {
            put(out, "if ");
            put_expression(out, condition);
            put_block(out, block)
        }
        TypedStmt::IfElse(_, condition, first, second) => {
            put(out, "if ");
            put_expression(out, condition);
            put_block(out, first);
            put(out, " else");
            put_block(out, second)
        }
        TypedStmt::ElseIf(_, condition, first, other) => {
            put(out, "if ");
            put_expression(out, condition);
            put_block(out, first);
            put(out, " else ");
            put_statement(out, other.get())
        }
        TypedStmt::While(_, condition, block) => {
            put(out, "while ");
            put_expression(out, condition);
            put_block(out, block)
        }
        TypedStmt::Repeat(_, block, condition) => {
            put(out, "repeat");
            put_block(out, block);
            put(out, " while ");
            put_expression(out, condition)
        }
        TypedStmt::For(_, _, _, _, _, _, block) => {
            put_for(out, s);
            put_block(out, block)
        }
        TypedStmt::Switch(_, subject, clauses) => {
            put(out, "switch ");
            put_expression(out, subject);
            put_clauses(out, clauses.as_slice())
        }
        _ => put_simple(out, s),
    }
}

/// A `for` before its block.
fn put_for(out: &mut String, s: &TypedStmt) {
    if let TypedStmt::For(_, number, low, operator, _, high, _) = s {
        put(out, "for ");
        match number {
            Some(number) => put_binding(out, *number),
            None => put(out, "_"),
        }
        put(out, " in ");
        put_expression(out, low);
        put(out, range_word(*operator));
        put_expression(out, high)
    }
}

/// A statement without statements in it.
fn put_simple(out: &mut String, s: &TypedStmt) {
    match s {
        TypedStmt::Let(_, number, e) => {
            put_binding(out, *number);
            put(out, " := ");
            put_expression(out, e)
        }
        TypedStmt::Declare(_, number) => {
            put(out, "var ");
            put_binding(out, *number)
        }
        TypedStmt::Ignore(_, e) => {
            put(out, "_ = ");
            put_expression(out, e)
        }
        TypedStmt::Assign(_, path, e) => {
            put_place(out, &path.place);
            put(out, " = ");
            put_expression(out, e)
        }
        TypedStmt::Update(_, path, operation, _, e) => {
            put_place(out, &path.place);
            put(out, trapping_word(*operation));
            put(out, "= ");
            put_expression(out, e)
        }
        TypedStmt::Discard(_, place) => {
            put(out, "discard ");
            put_place(out, place)
        }
        TypedStmt::Break(_) => put(out, "break"),
        TypedStmt::Continue(_) => put(out, "continue"),
        TypedStmt::Return(_) => put(out, "return"),
        TypedStmt::ReturnValue(_, e) => {
            put(out, "return ");
            put_expression(out, e)
        }
        TypedStmt::Evaluate(_, e) => put_expression(out, e),
        _ => {}
    }
}
