//! How many closures a tree has. It goes as deep as the tree is nested.

ghost use Rattle.std.specs.Prelude.{◌≡◌, OnOk, map, suc};
ghost use Rattle.own_tree.specs.View.{args_of, stms_of, clauses_of, expr_view, passed_view, argument_view, stmt_view, clause_view, closure_view, block_view};
ghost use Rattle.own_survey.specs.Walks.{head_view};
ghost use Rattle.own_scope.specs.Counting.{exp_closures, given_closures, args_closures, closure_closures, stm_closures, stms_closures, when_closures, clauses_closures, block_closures};

use own_tree::tree::{Argument, Block, Clause, Closure, Expr, Head, Passed, Stmt};
use std::alloc::AllocError;

/// Counts one more. A number that is too large counts as memory that is refused.
fn count_one(count: &mut u32) -> Result<(), AllocError>
    ensures { OnOk result (count.new ≡ suc count.old) }
{
    if *count == u32::MAX {
        return Err(AllocError);
    }
    *count += 1;
    Ok(())
}

/// Counts those of an expression.
#[cycle(count)]
fn count_expr(count: &mut u32, expr: &Expr) -> Result<(), AllocError>
    ensures { OnOk result (count.new ≡ exp_closures (expr_view expr.now) count.old) }
{
    match expr {
        Expr::Parenthesized(_, inner) => count_expr(count, inner.get()),
        Expr::Prefix(_, _, inner) => count_expr(count, inner.get()),
        Expr::Member(_, inner, _) => count_expr(count, inner.get()),
        Expr::Binary(_, _, _, left, right) => {
            count_expr(count, left.get())?;
            count_expr(count, right.get())
        }
        Expr::Choice(_, condition, first, second) => {
            count_expr(count, condition.get())?;
            count_expr(count, first.get())?;
            count_expr(count, second.get())
        }
        Expr::Call(_, callee, arguments) => {
            count_expr(count, callee.get())?;
            count_arguments(count, arguments.as_slice())
        }
        Expr::CallClosing(_, callee, arguments, closure) => {
            count_expr(count, callee.get())?;
            count_arguments(count, arguments.as_slice())?;
            count_closure(count, closure)
        }
        Expr::CallClosure(_, callee, closure) => {
            count_expr(count, callee.get())?;
            count_closure(count, closure)
        }
        Expr::Number(..)
        | Expr::Text(..)
        | Expr::Truth(..)
        | Expr::Path(_)
        | Expr::ImplicitMember(..)
        | Expr::Consume(..) => Ok(()),
    }
}

/// Counts those of what an argument passes.
#[cycle(count)]
fn count_passed(count: &mut u32, passed: &Passed) -> Result<(), AllocError>
    ensures { OnOk result (count.new ≡ given_closures (passed_view passed.now) count.old) }
{
    match passed {
        Passed::Value(expr) => count_expr(count, expr),
        Passed::Address(..) => Ok(()),
        Passed::Closure(closure) => count_closure(count, closure),
    }
}

/// Counts those of the arguments of a call.
#[cycle(count)]
fn count_arguments(count: &mut u32, arguments: &[Argument]) -> Result<(), AllocError>
    ensures { OnOk result (count.new ≡ args_closures (args_of (map argument_view arguments.now)) count.old) }
{
    for argument in arguments {
        count_passed(count, &argument.passed)?;
    }
    Ok(())
}

/// Counts a closure and those in it.
#[cycle(count)]
fn count_closure(count: &mut u32, closure: &Closure) -> Result<(), AllocError>
    ensures { OnOk result (count.new ≡ closure_closures (closure_view closure.now) count.old) }
{
    count_one(count)?;
    count_statements(count, closure.statements.as_slice())
}

/// Counts those of statements.
#[cycle(count)]
fn count_statements(count: &mut u32, statements: &[Stmt]) -> Result<(), AllocError>
    ensures { OnOk result (count.new ≡ stms_closures (stms_of (map stmt_view statements.now)) count.old) }
{
    for statement in statements {
        count_statement(count, statement)?;
    }
    Ok(())
}

/// Counts those of a block.
#[cycle(count)]
pub(crate) fn count_block(count: &mut u32, block: &Block) -> Result<(), AllocError>
    ensures { OnOk result (count.new ≡ block_closures (block_view block.now) count.old) }
{
    count_statements(count, block.statements.as_slice())
}

/// Counts those of a statement.
#[cycle(count)]
fn count_statement(count: &mut u32, statement: &Stmt) -> Result<(), AllocError>
    ensures { OnOk result (count.new ≡ stm_closures (stmt_view statement.now) count.old) }
{
    match statement {
        Stmt::Let(_, _, _, _, value) => count_expr(count, value),
        Stmt::Ignore(_, _, value) => count_expr(count, value),
        Stmt::Assign(_, _, _, _, value) => count_expr(count, value),
        Stmt::ReturnValue(_, value) => count_expr(count, value),
        Stmt::Evaluate(value) => count_expr(count, value),
        Stmt::If(_, condition, block) => {
            count_expr(count, condition)?;
            count_block(count, block)
        }
        Stmt::IfElse(_, condition, first, second) => {
            count_expr(count, condition)?;
            count_block(count, first)?;
            count_block(count, second)
        }
        Stmt::ElseIf(_, condition, block, other) => {
            count_expr(count, condition)?;
            count_block(count, block)?;
            count_statement(count, other.get())
        }
        Stmt::While(_, condition, block) => {
            count_expr(count, condition)?;
            count_block(count, block)
        }
        Stmt::Repeat(_, block, condition) => {
            count_block(count, block)?;
            count_expr(count, condition)
        }
        Stmt::For(_, _, low, _, _, high, block) => {
            count_expr(count, low)?;
            count_expr(count, high)?;
            count_block(count, block)
        }
        Stmt::Switch(_, subject, clauses) => {
            count_expr(count, subject)?;
            count_clauses(count, clauses.as_slice())
        }
        Stmt::Declare(..)
        | Stmt::Discard(_)
        | Stmt::Break(_)
        | Stmt::Continue(_)
        | Stmt::Return(_) => Ok(()),
    }
}

/// Counts those of the clauses of a `switch`.
#[cycle(count)]
fn count_clauses(count: &mut u32, clauses: &[Clause]) -> Result<(), AllocError>
    ensures { OnOk result (count.new ≡ clauses_closures (clauses_of (map clause_view clauses.now)) count.old) }
{
    for clause in clauses {
        count_head(count, &clause.head)?;
        count_statements(count, clause.statements.as_slice())?;
    }
    Ok(())
}

/// Counts those of the head of a clause.
#[cycle(count)]
fn count_head(count: &mut u32, head: &Head) -> Result<(), AllocError>
    ensures { OnOk result (count.new ≡ when_closures (head_view head.now) count.old) }
{
    match head {
        Head::Guarded(_, guard) => count_expr(count, guard),
        Head::Case(_) | Head::Default => Ok(()),
    }
}
