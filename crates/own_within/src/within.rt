//! What stands within a block. The block of a closure stands in a body of its own, so it is no part of the
//! literal.

ghost use Rattle.std.specs.Prelude.{◌≡◌, ◌++◌, OnOk, IfOk, map};
ghost use Rattle.own_tree.specs.TypedView.{head_view, clauses_of, clause_view, stmt_view, block_view};
ghost use Rattle.own_paths.specs.Within.{exps_of_head, exps_of_heads, exps_of_stm, exps_of_stms, stms_in_block};
ghost use Rattle.own_within.specs.View.{exps_seen, stms_seen};

use crate::expressions::push_expression;
use crate::statements::push_block;
use own_tree::typed::{TypedBlock, TypedClause, TypedExpr, TypedHead, TypedStmt};
use std::alloc::{AllocError, Global};

/// Adds the expressions of a guard.
fn push_head<'t>(found: &mut Vec<&'t TypedExpr>, head: &'t TypedHead) -> Result<(), AllocError>
    ensures { OnOk result (exps_seen found.new.items ≡ exps_seen found.old.items ++ exps_of_head (head_view head.now)) }
{
    match head {
        TypedHead::Guarded(_, guard) => push_expression(found, guard),
        TypedHead::Case(_) | TypedHead::Default => Ok(()),
    }
}

/// Adds those of the guards of clauses.
fn push_heads<'t>(
    found: &mut Vec<&'t TypedExpr>,
    clauses: &'t [TypedClause],
) -> Result<(), AllocError>
    ensures { OnOk result (exps_seen found.new.items ≡ exps_seen found.old.items ++ exps_of_heads
        (clauses_of (map clause_view clauses.now))) }
{
    for clause in clauses {
        push_head(found, &clause.head)?;
    }
    Ok(())
}

/// Adds the expressions of a statement that belong to no statement in it.
fn push_expressions_of<'t>(
    found: &mut Vec<&'t TypedExpr>,
    statement: &'t TypedStmt,
) -> Result<(), AllocError>
    ensures { OnOk result (exps_seen found.new.items ≡ exps_seen found.old.items ++ exps_of_stm
        (stmt_view statement.now)) }
{
    match statement {
        TypedStmt::Let(_, _, value)
        | TypedStmt::Ignore(_, value)
        | TypedStmt::Assign(_, _, value)
        | TypedStmt::Update(_, _, _, _, value)
        | TypedStmt::ReturnValue(_, value)
        | TypedStmt::Evaluate(_, value) => push_expression(found, value),
        TypedStmt::If(_, condition, _)
        | TypedStmt::IfElse(_, condition, _, _)
        | TypedStmt::ElseIf(_, condition, _, _)
        | TypedStmt::While(_, condition, _)
        | TypedStmt::Repeat(_, _, condition) => push_expression(found, condition),
        TypedStmt::For(_, _, low, _, _, high, _) => {
            push_expression(found, low)?;
            push_expression(found, high)
        }
        TypedStmt::Switch(_, subject, clauses) => {
            push_expression(found, subject)?;
            push_heads(found, clauses.as_slice())
        }
        TypedStmt::Declare(..)
        | TypedStmt::Discard(..)
        | TypedStmt::Break(_)
        | TypedStmt::Continue(_)
        | TypedStmt::Return(_) => Ok(()),
    }
}

/// The statements within a block, each before its parts and the parts in order.
pub fn statements_in(alloc: Global, block: &TypedBlock) -> Result<Vec<&TypedStmt>, AllocError>
    ensures { IfOk result (λ found. stms_seen found.items ≡ stms_in_block (block_view block.now)) }
{
    let mut found = Vec::new(alloc);
    push_block(&mut found, block)?;
    Ok(found)
}

/// The expressions of statements, those of each before those of the next. Of the statements within a block
/// they are the expressions within the block.
pub fn expressions_of<'t>(
    alloc: Global,
    statements: &[&'t TypedStmt],
) -> Result<Vec<&'t TypedExpr>, AllocError>
    ensures { IfOk result (λ found. exps_seen found.items ≡ exps_of_stms (stms_seen statements.now)) }
{
    let mut found = Vec::new(alloc);
    for statement in statements {
        push_expressions_of(&mut found, *statement)?;
    }
    Ok(found)
}
