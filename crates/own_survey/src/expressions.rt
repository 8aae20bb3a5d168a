//! The walk over expressions, statements and blocks. It goes as deep as the tree is nested.

ghost use Rattle.std.specs.Prelude.{◌≡◌, OnOk, map};
ghost use Rattle.own_tree.specs.View.{args_of, stms_of, clauses_of, expr_view, passed_view, argument_view, stmt_view, clause_view, closure_view, block_view};
ghost use Rattle.own_survey.specs.Names.{written_in};
ghost use Rattle.own_survey.specs.Parts.{local_names};
ghost use Rattle.own_survey.specs.Walks.{exp_walk, given_walk, args_walk, closure_walk, stm_walk, stms_walk, when_walk, clauses_walk, block_walk, scope_walk, head_view};

use crate::names::TypeNames;
use crate::notes::{
    note_call, note_closing_call, note_closure, note_locals, note_pattern, note_patterns,
    note_print, note_written,
};
use crate::survey::Survey;
use own_tree::tree::{Argument, Block, Clause, Closure, Expr, Head, Passed, Stmt};
use std::alloc::{AllocError, Global};

/// Walks over an expression.
#[cycle(walk)]
pub(crate) fn walk_expr(
    alloc: Global,
    names: &TypeNames,
    survey: &mut Survey,
    expr: &Expr,
) -> Result<(), AllocError>
    ensures { OnOk result (survey.new ≡ exp_walk (written_in names.now) (expr_view expr.now) survey.old) }
{
    match expr {
        Expr::Parenthesized(_, inner) => walk_expr(alloc, names, survey, inner.get()),
        Expr::Prefix(_, _, inner) => walk_expr(alloc, names, survey, inner.get()),
        Expr::Member(_, inner, _) => walk_expr(alloc, names, survey, inner.get()),
        Expr::Binary(_, _, _, left, right) => {
            walk_expr(alloc, names, survey, left.get())?;
            walk_expr(alloc, names, survey, right.get())
        }
        Expr::Choice(_, condition, first, second) => {
            walk_expr(alloc, names, survey, condition.get())?;
            walk_expr(alloc, names, survey, first.get())?;
            walk_expr(alloc, names, survey, second.get())
        }
        Expr::Call(_, callee, arguments) => {
            note_call(names, survey, callee.get(), arguments.as_slice());
            walk_expr(alloc, names, survey, callee.get())?;
            walk_arguments(alloc, names, survey, arguments.as_slice())
        }
        Expr::CallClosing(_, callee, arguments, closure) => {
            note_closing_call(names, survey, callee.get(), arguments.as_slice());
            walk_expr(alloc, names, survey, callee.get())?;
            walk_arguments(alloc, names, survey, arguments.as_slice())?;
            walk_closure(alloc, names, survey, closure)
        }
        Expr::CallClosure(_, callee, closure) => {
            note_print(names, survey, callee.get(), 1);
            walk_expr(alloc, names, survey, callee.get())?;
            walk_closure(alloc, names, survey, closure)
        }
        Expr::Number(..)
        | Expr::Text(..)
        | Expr::Truth(..)
        | Expr::Path(_)
        | Expr::ImplicitMember(..)
        | Expr::Consume(..) => Ok(()),
    }
}

/// Walks over what an argument passes.
#[cycle(walk)]
fn walk_passed(
    alloc: Global,
    names: &TypeNames,
    survey: &mut Survey,
    passed: &Passed,
) -> Result<(), AllocError>
    ensures { OnOk result (survey.new ≡ given_walk (written_in names.now) (passed_view passed.now) survey.old) }
{
    match passed {
        Passed::Value(expr) => walk_expr(alloc, names, survey, expr),
        Passed::Address(..) => Ok(()),
        Passed::Closure(closure) => walk_closure(alloc, names, survey, closure),
    }
}

/// Walks over the arguments of a call.
#[cycle(walk)]
fn walk_arguments(
    alloc: Global,
    names: &TypeNames,
    survey: &mut Survey,
    arguments: &[Argument],
) -> Result<(), AllocError>
    ensures { OnOk result (survey.new ≡ args_walk (written_in names.now) (args_of (map argument_view arguments.now)) survey.old) }
{
    for argument in arguments {
        walk_passed(alloc, names, survey, &argument.passed)?;
    }
    Ok(())
}

/// Walks over a closure: a body, its names and its statements.
#[cycle(walk)]
fn walk_closure(
    alloc: Global,
    names: &TypeNames,
    survey: &mut Survey,
    closure: &Closure,
) -> Result<(), AllocError>
    ensures { OnOk result (survey.new ≡ closure_walk (written_in names.now) (closure_view closure.now) survey.old) }
{
    note_closure(alloc, survey, closure)?;
    walk_scope(alloc, names, survey, closure.statements.as_slice())
}

/// Walks over statements that are a scope of their own.
#[cycle(walk)]
fn walk_scope(
    alloc: Global,
    names: &TypeNames,
    survey: &mut Survey,
    statements: &[Stmt],
) -> Result<(), AllocError>
    ensures { OnOk result (survey.new ≡ stms_walk (written_in names.now) (stms_of (map stmt_view statements.now)) (scope_walk (local_names (stms_of (map stmt_view statements.now))) survey.old)) }
{
    note_locals(alloc, survey, statements)?;
    walk_statements(alloc, names, survey, statements)
}

/// Walks over statements, one after the other.
#[cycle(walk)]
fn walk_statements(
    alloc: Global,
    names: &TypeNames,
    survey: &mut Survey,
    statements: &[Stmt],
) -> Result<(), AllocError>
    ensures { OnOk result (survey.new ≡ stms_walk (written_in names.now) (stms_of (map stmt_view statements.now)) survey.old) }
{
    for statement in statements {
        walk_statement(alloc, names, survey, statement)?;
    }
    Ok(())
}

/// Walks over a block.
#[cycle(walk)]
pub(crate) fn walk_block(
    alloc: Global,
    names: &TypeNames,
    survey: &mut Survey,
    block: &Block,
) -> Result<(), AllocError>
    ensures { OnOk result (survey.new ≡ block_walk (written_in names.now) (block_view block.now) survey.old) }
{
    walk_scope(alloc, names, survey, block.statements.as_slice())
}

/// Walks over a statement.
#[cycle(walk)]
fn walk_statement(
    alloc: Global,
    names: &TypeNames,
    survey: &mut Survey,
    statement: &Stmt,
) -> Result<(), AllocError>
    ensures { OnOk result (survey.new ≡ stm_walk (written_in names.now) (stmt_view statement.now) survey.old) }
{
    match statement {
        Stmt::Let(_, _, _, written, value) => {
            note_written(names, survey, written);
            walk_expr(alloc, names, survey, value)
        }
        Stmt::Declare(_, _, _, written) => {
            note_written(names, survey, written);
            Ok(())
        }
        Stmt::Ignore(_, written, value) => {
            note_written(names, survey, written);
            walk_expr(alloc, names, survey, value)
        }
        Stmt::Assign(_, _, _, _, value) => walk_expr(alloc, names, survey, value),
        Stmt::ReturnValue(_, value) => walk_expr(alloc, names, survey, value),
        Stmt::Evaluate(value) => walk_expr(alloc, names, survey, value),
        Stmt::If(_, condition, block) => {
            walk_expr(alloc, names, survey, condition)?;
            walk_block(alloc, names, survey, block)
        }
        Stmt::IfElse(_, condition, first, second) => {
            walk_expr(alloc, names, survey, condition)?;
            walk_block(alloc, names, survey, first)?;
            walk_block(alloc, names, survey, second)
        }
        Stmt::ElseIf(_, condition, block, other) => {
            walk_expr(alloc, names, survey, condition)?;
            walk_block(alloc, names, survey, block)?;
            walk_statement(alloc, names, survey, other.get())
        }
        Stmt::While(_, condition, block) => {
            walk_expr(alloc, names, survey, condition)?;
            walk_block(alloc, names, survey, block)
        }
        Stmt::Repeat(_, block, condition) => {
            walk_block(alloc, names, survey, block)?;
            walk_expr(alloc, names, survey, condition)
        }
        Stmt::For(_, _, low, _, _, high, block) => {
            walk_expr(alloc, names, survey, low)?;
            walk_expr(alloc, names, survey, high)?;
            walk_block(alloc, names, survey, block)
        }
        Stmt::Switch(_, subject, clauses) => {
            walk_expr(alloc, names, survey, subject)?;
            walk_clauses(alloc, names, survey, clauses.as_slice())
        }
        Stmt::Discard(_) | Stmt::Break(_) | Stmt::Continue(_) | Stmt::Return(_) => Ok(()),
    }
}

/// Walks over the clauses of a `switch`.
#[cycle(walk)]
fn walk_clauses(
    alloc: Global,
    names: &TypeNames,
    survey: &mut Survey,
    clauses: &[Clause],
) -> Result<(), AllocError>
    ensures { OnOk result (survey.new ≡ clauses_walk (written_in names.now) (clauses_of (map clause_view clauses.now)) survey.old) }
{
    for clause in clauses {
        walk_head(alloc, names, survey, &clause.head)?;
        walk_scope(alloc, names, survey, clause.statements.as_slice())?;
    }
    Ok(())
}

/// Walks over the head of a clause.
#[cycle(walk)]
fn walk_head(
    alloc: Global,
    names: &TypeNames,
    survey: &mut Survey,
    head: &Head,
) -> Result<(), AllocError>
    ensures { OnOk result (survey.new ≡ when_walk (written_in names.now) (head_view head.now) survey.old) }
{
    match head {
        Head::Case(patterns) => note_patterns(alloc, survey, patterns.as_slice()),
        Head::Guarded(pattern, guard) => {
            note_pattern(alloc, survey, pattern)?;
            walk_expr(alloc, names, survey, guard)
        }
        Head::Default => Ok(()),
    }
}
