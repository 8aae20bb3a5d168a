//! The statements within a statement. The walk goes as deep as the statement is nested.

ghost use Rattle.std.specs.Prelude.{◌≡◌, ◌++◌, OnOk, map};
ghost use Rattle.own_tree.specs.TypedView.{stms_of, clauses_of, stmt_view, clause_view, block_view};
ghost use Rattle.own_paths.specs.Within.{stms_in, stms_in_list, stms_in_clauses, stms_in_block};
ghost use Rattle.own_within.specs.View.{stms_seen};

use own_tree::typed::{TypedBlock, TypedClause, TypedStmt};
use std::alloc::AllocError;

/// Adds a statement and what stands within it, each before its parts and the parts in order.
#[cycle(within)]
fn push_statement<'t>(
    found: &mut Vec<&'t TypedStmt>,
    statement: &'t TypedStmt,
) -> Result<(), AllocError>
    ensures { OnOk result (stms_seen found.new.items ≡ stms_seen found.old.items ++ stms_in (stmt_view statement.now)) }
{
    found.push(statement)?;
    match statement {
        TypedStmt::If(_, _, block)
        | TypedStmt::While(_, _, block)
        | TypedStmt::Repeat(_, block, _)
        | TypedStmt::For(_, _, _, _, _, _, block) => push_block(found, block),
        TypedStmt::IfElse(_, _, first, second) => {
            push_block(found, first)?;
            push_block(found, second)
        }
        TypedStmt::ElseIf(_, _, block, other) => {
            push_block(found, block)?;
            push_statement(found, other.get())
        }
        TypedStmt::Switch(_, _, clauses) => push_clauses(found, clauses.as_slice()),
        TypedStmt::Let(..)
        | TypedStmt::Declare(..)
        | TypedStmt::Ignore(..)
        | TypedStmt::Assign(..)
        | TypedStmt::Update(..)
        | TypedStmt::Discard(..)
        | TypedStmt::Break(_)
        | TypedStmt::Continue(_)
        | TypedStmt::Return(_)
        | TypedStmt::ReturnValue(..)
        | TypedStmt::Evaluate(..) => Ok(()),
    }
}

/// Adds those of each of these.
#[cycle(within)]
fn push_statements<'t>(
    found: &mut Vec<&'t TypedStmt>,
    statements: &'t [TypedStmt],
) -> Result<(), AllocError>
    ensures { OnOk result (stms_seen found.new.items ≡ stms_seen found.old.items ++ stms_in_list
        (stms_of (map stmt_view statements.now))) }
{
    for statement in statements {
        push_statement(found, statement)?;
    }
    Ok(())
}

/// Adds those of a block.
#[cycle(within)]
pub(crate) fn push_block<'t>(
    found: &mut Vec<&'t TypedStmt>,
    block: &'t TypedBlock,
) -> Result<(), AllocError>
    ensures { OnOk result (stms_seen found.new.items ≡ stms_seen found.old.items ++ stms_in_block
        (block_view block.now)) }
{
    push_statements(found, block.statements.as_slice())
}

/// Adds those of the clauses of a `switch`.
#[cycle(within)]
fn push_clauses<'t>(
    found: &mut Vec<&'t TypedStmt>,
    clauses: &'t [TypedClause],
) -> Result<(), AllocError>
    ensures { OnOk result (stms_seen found.new.items ≡ stms_seen found.old.items ++ stms_in_clauses
        (clauses_of (map clause_view clauses.now))) }
{
    for clause in clauses {
        push_statements(found, clause.statements.as_slice())?;
    }
    Ok(())
}
