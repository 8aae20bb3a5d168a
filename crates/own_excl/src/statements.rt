//! What changes places within statements. The walk goes as deep as the statement is nested.

ghost use Rattle.std.specs.Prelude.{◌≡◌, ◌++◌, OnOk, map};
ghost use Rattle.own_tree.specs.TypedView.{stms_of, clauses_of, head_view, stmt_view, clause_view, block_view};
ghost use Rattle.own_excl.specs.Changes.{head_changes, stm_changes, stms_changes, block_changes, clauses_changes};
ghost use Rattle.own_excl.specs.View.{changes_view, types_for, program_for};

use crate::change::{Change, push_op, push_path_op};
use crate::walk::Walk;
use own_tree::typed::{TypedBlock, TypedClause, TypedHead, TypedStmt};
use own_tree::{OpKind, Passing};
use std::alloc::AllocError;

impl<'t> Walk<'t> {
    /// Adds those of a guard.
    fn push_head(
        &self,
        changes: &mut Vec<Change<'t>>,
        head: &'t TypedHead,
    ) -> Result<(), AllocError>
        ensures { OnOk result (changes_view changes.new.items
            ≡ changes_view changes.old.items ++ head_changes (types_for self.now) (program_for self.now)
            (head_view head.now)) }
    {
        match head {
            TypedHead::Guarded(_, guard) => self.push_expression(changes, guard, Passing::ByValue),
            TypedHead::Case(_) | TypedHead::Default => Ok(()),
        }
    }

    /// Adds what changes a place within a statement, its parts included.
    #[cycle(statements)]
    fn push_statement(
        &self,
        changes: &mut Vec<Change<'t>>,
        statement: &'t TypedStmt,
    ) -> Result<(), AllocError>
        ensures { OnOk result (changes_view changes.new.items
            ≡ changes_view changes.old.items ++ stm_changes (types_for self.now) (program_for self.now)
            (stmt_view statement.now)) }
    {
        match statement {
            TypedStmt::Let(_, _, value)
            | TypedStmt::Ignore(_, value)
            | TypedStmt::ReturnValue(_, value)
            | TypedStmt::Evaluate(_, value) => {
                self.push_expression(changes, value, Passing::ByValue)
            }
            TypedStmt::Assign(_, path, value) | TypedStmt::Update(_, path, _, _, value) => {
                self.push_expression(changes, value, Passing::ByValue)?;
                push_path_op(changes, OpKind::Assign, path)
            }
            TypedStmt::Discard(at, place) => push_op(changes, OpKind::Discard, place, at.span),
            TypedStmt::If(_, condition, block) | TypedStmt::While(_, condition, block) => {
                self.push_expression(changes, condition, Passing::ByValue)?;
                self.push_block(changes, block)
            }
            TypedStmt::IfElse(_, condition, first, second) => {
                self.push_expression(changes, condition, Passing::ByValue)?;
                self.push_block(changes, first)?;
                self.push_block(changes, second)
            }
            TypedStmt::ElseIf(_, condition, block, other) => {
                self.push_expression(changes, condition, Passing::ByValue)?;
                self.push_block(changes, block)?;
                self.push_statement(changes, other.get())
            }
            TypedStmt::Repeat(_, block, condition) => {
                self.push_block(changes, block)?;
                self.push_expression(changes, condition, Passing::ByValue)
            }
            TypedStmt::For(_, _, low, _, _, high, block) => {
                self.push_expression(changes, low, Passing::ByValue)?;
                self.push_expression(changes, high, Passing::ByValue)?;
                self.push_block(changes, block)
            }
            TypedStmt::Switch(_, subject, clauses) => {
                self.push_expression(changes, subject, Passing::Borrow)?;
                self.push_clauses(changes, clauses.as_slice())
            }
            TypedStmt::Declare(..)
            | TypedStmt::Break(_)
            | TypedStmt::Continue(_)
            | TypedStmt::Return(_) => Ok(()),
        }
    }

    /// Adds those of each of these.
    #[cycle(statements)]
    fn push_statements(
        &self,
        changes: &mut Vec<Change<'t>>,
        statements: &'t [TypedStmt],
    ) -> Result<(), AllocError>
        ensures { OnOk result (changes_view changes.new.items
            ≡ changes_view changes.old.items ++ stms_changes (types_for self.now) (program_for self.now)
            (stms_of (map stmt_view statements.now))) }
    {
        for statement in statements {
            self.push_statement(changes, statement)?;
        }
        Ok(())
    }

    /// Adds those of a block.
    #[cycle(statements)]
    pub(crate) fn push_block(
        &self,
        changes: &mut Vec<Change<'t>>,
        block: &'t TypedBlock,
    ) -> Result<(), AllocError>
        ensures { OnOk result (changes_view changes.new.items
            ≡ changes_view changes.old.items ++ block_changes (types_for self.now) (program_for self.now)
            (block_view block.now)) }
    {
        self.push_statements(changes, block.statements.as_slice())
    }

    /// Adds those of the clauses of a `switch`, with their guards.
    #[cycle(statements)]
    pub(crate) fn push_clauses(
        &self,
        changes: &mut Vec<Change<'t>>,
        clauses: &'t [TypedClause],
    ) -> Result<(), AllocError>
        ensures { OnOk result (changes_view changes.new.items
            ≡ changes_view changes.old.items ++ clauses_changes (types_for self.now) (program_for self.now)
            (clauses_of (map clause_view clauses.now))) }
    {
        for clause in clauses {
            self.push_head(changes, &clause.head)?;
            self.push_statements(changes, clause.statements.as_slice())?;
        }
        Ok(())
    }
}
