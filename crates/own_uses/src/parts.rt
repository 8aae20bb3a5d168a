//! The ops of statements, by what their blocks come to.

ghost use Rattle.std.specs.Prelude.{◌≡◌, [], ◌∷◌, ◌++◌, IfOk, map};
ghost use Rattle.own_tree.specs.OpSource.{in_order, loop, either, catch, halt, nothing, break_at, return_at};
ghost use Rattle.own_tree.specs.OpView.{op_view};
ghost use Rattle.own_tree.specs.TypedView.{stms_of, expr_view, stmt_view};
ghost use Rattle.own_tree.specs.declared.op.OpKind.TheVariants as kind;
ghost use Rattle.own_paths.specs.Ops.{as_value, as_borrow, op_at, make, branch, closing, scope_of, exp_ops};
ghost use Rattle.own_paths.specs.Within.{locals};
ghost use Rattle.own_uses.specs.Building.{types_for, program_for, turn_scope};

use crate::bindings::closing;
use crate::builder::Builder;
use crate::joined::{both, branch, choose, either, three, turns};
use crate::single::{nothing, op_at};
use crate::usage::Use;
use own_tree::typed::{At, TypedBlock, TypedExpr, TypedPath};
use own_tree::{OpKind, OpTree, Span};
use sqlite_items::Items;
use std::alloc::AllocError;

impl Builder<'_> {
    /// A binding with a value.
    pub(crate) fn let_ops(
        &self,
        at: At,
        number: u32,
        value: &TypedExpr,
    ) -> Result<OpTree, AllocError>
        ensures { IfOk result (λ tree. op_view tree
            ≡ in_order (exp_ops (types_for self.now) (program_for self.now) (expr_view value.now) as_value
            ∷ make (types_for self.now) (program_for self.now) at number ∷ [])) }
    {
        let value = self.expression_ops(value, Use::Value)?;
        both(self.alloc, value, self.make(at, number))
    }

    /// An assignment.
    pub(crate) fn assign_ops(
        &self,
        path: &TypedPath,
        value: &TypedExpr,
    ) -> Result<OpTree, AllocError>
        ensures { IfOk result (λ tree. op_view tree
            ≡ in_order (exp_ops (types_for self.now) (program_for self.now) (expr_view value.now) as_value
            ∷ op_at kind.Assign path.now.place path.now.at ∷ [])) }
    {
        let value = self.expression_ops(value, Use::Value)?;
        let assign = op_at(self.alloc, OpKind::Assign, &path.place, path.at)?;
        both(self.alloc, value, assign)
    }

    /// An assignment with arithmetic, whose place is read after the right side.
    pub(crate) fn update_ops(
        &self,
        path: &TypedPath,
        value: &TypedExpr,
    ) -> Result<OpTree, AllocError>
        ensures { IfOk result (λ tree. op_view tree
            ≡ in_order (exp_ops (types_for self.now) (program_for self.now) (expr_view value.now) as_value
            ∷ op_at kind.Read path.now.place path.now.at ∷ op_at kind.Assign path.now.place path.now.at ∷ [])) }
    {
        let value = self.expression_ops(value, Use::Value)?;
        let read = op_at(self.alloc, OpKind::Read, &path.place, path.at)?;
        let assign = op_at(self.alloc, OpKind::Assign, &path.place, path.at)?;
        three(self.alloc, value, read, assign)
    }

    /// A return with a value.
    pub(crate) fn return_ops(&self, value: &TypedExpr, at: Span) -> Result<OpTree, AllocError>
        ensures { IfOk result (λ tree. op_view tree
            ≡ in_order (exp_ops (types_for self.now) (program_for self.now) (expr_view value.now) as_value
            ∷ return_at at ∷ [])) }
    {
        let value = self.expression_ops(value, Use::Value)?;
        both(self.alloc, value, OpTree::Return(at))
    }

    /// A condition with its two sides.
    pub(crate) fn condition_ops(
        &self,
        condition: &TypedExpr,
        first: OpTree,
        second: OpTree,
    ) -> Result<OpTree, AllocError>
        ensures { IfOk result (λ tree. op_view tree
            ≡ in_order (exp_ops (types_for self.now) (program_for self.now) (expr_view condition.now) as_value
            ∷ branch (expr_view condition.now) (op_view first) (op_view second) ∷ [])) }
    {
        let test = self.expression_ops(condition, Use::Value)?;
        let sides = branch(self.alloc, condition, first, second)?;
        both(self.alloc, test, sides)
    }

    /// A loop with its condition in front.
    pub(crate) fn while_ops(
        &self,
        at: At,
        condition: &TypedExpr,
        body: OpTree,
    ) -> Result<OpTree, AllocError>
        ensures { IfOk result (λ tree. op_view tree
            ≡ loop (in_order (exp_ops (types_for self.now) (program_for self.now) (expr_view condition.now) as_value
            ∷ branch (expr_view condition.now) (op_view body) (break_at at.span) ∷ [])) nothing) }
    {
        let turn = self.condition_ops(condition, body, OpTree::Break(at.span))?;
        turns(self.alloc, turn, nothing(self.alloc))
    }

    /// A loop with its condition behind.
    pub(crate) fn repeat_ops(
        &self,
        at: At,
        body: OpTree,
        condition: &TypedExpr,
    ) -> Result<OpTree, AllocError>
        ensures { IfOk result (λ tree. op_view tree
            ≡ loop (op_view body) (in_order (exp_ops (types_for self.now) (program_for self.now)
            (expr_view condition.now) as_value
            ∷ branch (expr_view condition.now) nothing (break_at at.span) ∷ []))) }
    {
        let test = self.condition_ops(condition, nothing(self.alloc), OpTree::Break(at.span))?;
        turns(self.alloc, body, test)
    }

    /// A turn of a `for`: the scope of its variable and of what its block declares.
    fn turn_ops(
        &self,
        at: At,
        turn: &[u32],
        body: &TypedBlock,
        parts: Items<OpTree>,
    ) -> Result<OpTree, AllocError>
        ensures { IfOk result (λ tree. op_view tree
            ≡ scope_of (types_for self.now) (program_for self.now)
            (turn.now ++ locals (stms_of (map stmt_view body.now.statements))) (closing body.now.at.span)
            (map (make (types_for self.now) (program_for self.now) at) turn.now ++ map op_view parts)) }
    {
        let mut all = self.makes(at, turn)?;
        all.append(parts)?;
        self.scope_with(turn, body.statements.as_slice(), closing(body.at.span), all)
    }

    /// That of a `for` whose variable may be `_`.
    fn variable_ops(
        &self,
        at: At,
        turn: Option<u32>,
        body: &TypedBlock,
        parts: Items<OpTree>,
    ) -> Result<OpTree, AllocError>
        ensures { IfOk result (λ tree. op_view tree ≡ turn_scope (types_for self.now) (program_for self.now) at turn
            (closing body.now.at.span) (stms_of (map stmt_view body.now.statements)) (map op_view parts)) }
    {
        match turn {
            Some(number) => self.turn_ops(at, &[number], body, parts),
            None => self.turn_ops(at, &[], body, parts),
        }
    }

    /// A `for` between two bounds, with the ops of the statements of its block.
    pub(crate) fn for_ops(
        &self,
        at: At,
        turn: Option<u32>,
        low: &TypedExpr,
        high: &TypedExpr,
        body: &TypedBlock,
        parts: Items<OpTree>,
    ) -> Result<OpTree, AllocError>
        ensures { IfOk result (λ tree. op_view tree
            ≡ in_order (exp_ops (types_for self.now) (program_for self.now) (expr_view low.now) as_value
            ∷ exp_ops (types_for self.now) (program_for self.now) (expr_view high.now) as_value
            ∷ loop (either (turn_scope (types_for self.now) (program_for self.now) at turn (closing body.now.at.span)
            (stms_of (map stmt_view body.now.statements)) (map op_view parts)) (break_at at.span)) nothing ∷ [])) }
    {
        let low = self.expression_ops(low, Use::Value)?;
        let high = self.expression_ops(high, Use::Value)?;
        let body = self.variable_ops(at, turn, body, parts)?;
        let turn = either(self.alloc, body, OpTree::Break(at.span))?;
        three(
            self.alloc,
            low,
            high,
            turns(self.alloc, turn, nothing(self.alloc))?,
        )
    }

    /// A `switch`, with the ops of its clauses.
    pub(crate) fn switch_ops(
        &self,
        subject: &TypedExpr,
        clauses: Items<OpTree>,
    ) -> Result<OpTree, AllocError>
        ensures { IfOk result (λ tree. op_view tree
            ≡ in_order (exp_ops (types_for self.now) (program_for self.now) (expr_view subject.now) as_borrow
            ∷ catch (in_order (map op_view clauses ++ halt ∷ [])) ∷ [])) }
    {
        let subject = self.expression_ops(subject, Use::Borrow)?;
        let chosen = choose(self.alloc, clauses)?;
        both(self.alloc, subject, chosen)
    }
}
