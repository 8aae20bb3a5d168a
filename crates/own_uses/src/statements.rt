//! The ops of statements. The walk goes as deep as the statement is nested.

ghost use Rattle.std.specs.Prelude.{◌≡◌, IfOk, map};
ghost use Rattle.own_tree.specs.OpView.{op_view};
ghost use Rattle.own_tree.specs.TypedView.{stms_of, clauses_of, expr_view, stmt_view, clause_view, block_view};
ghost use Rattle.own_paths.specs.Ops.{stm_ops, stms_ops, block_ops, clauses_ops};
ghost use Rattle.own_uses.specs.Building.{types_for, program_for};

use crate::bindings::closing;
use crate::builder::Builder;
use crate::single::{at_name, nothing, op_at};
use crate::usage::Use;
use own_tree::typed::{At, TypedBlock, TypedClause, TypedExpr, TypedStmt};
use own_tree::{OpKind, OpTree};
use sqlite_items::Items;
use std::alloc::AllocError;

impl Builder<'_> {
    /// The ops of a statement.
    #[cycle(statements)]
    fn statement_ops(&self, statement: &TypedStmt) -> Result<OpTree, AllocError>
        ensures { IfOk result (λ tree. op_view tree ≡ stm_ops (types_for self.now) (program_for self.now)
            (stmt_view statement.now)) }
    {
        match statement {
            TypedStmt::Let(at, number, value) => self.let_ops(*at, *number, value),
            TypedStmt::Declare(at, number) => {
                let binding = self.typed.bindings.get(*number as usize);
                Ok(at_name(self.alloc, OpKind::Declare, at.id, *number, binding))
            }
            TypedStmt::Ignore(_, value) | TypedStmt::Evaluate(_, value) => {
                self.expression_ops(value, Use::Value)
            }
            TypedStmt::Assign(_, path, value) => self.assign_ops(path, value),
            TypedStmt::Update(_, path, _, _, value) => self.update_ops(path, value),
            TypedStmt::Discard(at, place) => op_at(self.alloc, OpKind::Discard, place, *at),
            TypedStmt::If(_, condition, block) => {
                let first = self.block_ops(block)?;
                self.condition_ops(condition, first, nothing(self.alloc))
            }
            TypedStmt::IfElse(_, condition, block, other) => {
                let first = self.block_ops(block)?;
                let second = self.block_ops(other)?;
                self.condition_ops(condition, first, second)
            }
            TypedStmt::ElseIf(_, condition, block, other) => {
                let first = self.block_ops(block)?;
                let second = self.statement_ops(other.get())?;
                self.condition_ops(condition, first, second)
            }
            TypedStmt::While(at, condition, block) => {
                let body = self.block_ops(block)?;
                self.while_ops(*at, condition, body)
            }
            TypedStmt::Repeat(at, block, condition) => {
                let body = self.block_ops(block)?;
                self.repeat_ops(*at, body, condition)
            }
            TypedStmt::For(at, turn, low, _, _, high, block) => {
                let parts = self.statements_ops(block.statements.as_slice())?;
                self.for_ops(*at, *turn, low, high, block, parts)
            }
            TypedStmt::Switch(at, subject, clauses) => {
                let clauses = self.clauses_ops(clauses.as_slice(), subject, *at)?;
                self.switch_ops(subject, clauses)
            }
            TypedStmt::Break(at) => Ok(OpTree::Break(at.span)),
            TypedStmt::Continue(at) => Ok(OpTree::Continue(at.span)),
            TypedStmt::Return(at) => Ok(OpTree::Return(at.span)),
            TypedStmt::ReturnValue(at, value) => self.return_ops(value, at.span),
        }
    }

    /// Those of statements, one after the other.
    #[cycle(statements)]
    fn statements_ops(&self, statements: &[TypedStmt]) -> Result<Items<OpTree>, AllocError>
        ensures { IfOk result (λ trees. map op_view trees ≡ stms_ops (types_for self.now) (program_for self.now)
            (stms_of (map stmt_view statements.now))) }
    {
        let mut trees = Items::new(self.alloc);
        for statement in statements {
            trees.push(self.statement_ops(statement)?)?;
        }
        Ok(trees)
    }

    /// Those of a block, which is a scope.
    #[cycle(statements)]
    pub(crate) fn block_ops(&self, block: &TypedBlock) -> Result<OpTree, AllocError>
        ensures { IfOk result (λ tree. op_view tree ≡ block_ops (types_for self.now) (program_for self.now)
            (block_view block.now)) }
    {
        let parts = self.statements_ops(block.statements.as_slice())?;
        let statements = block.statements.as_slice();
        self.scope_with(&[], statements, closing(block.at.span), parts)
    }

    /// Those of the clauses of a `switch`.
    #[cycle(statements)]
    fn clauses_ops(
        &self,
        clauses: &[TypedClause],
        subject: &TypedExpr,
        at: At,
    ) -> Result<Items<OpTree>, AllocError>
        ensures { IfOk result (λ trees. map op_view trees
            ≡ clauses_ops (types_for self.now) (program_for self.now) (expr_view subject.now) at
            (clauses_of (map clause_view clauses.now))) }
    {
        let mut trees = Items::new(self.alloc);
        for clause in clauses {
            let parts = self.statements_ops(clause.statements.as_slice())?;
            trees.push(self.clause_ops(subject, at, clause, parts)?)?;
        }
        Ok(trees)
    }
}
