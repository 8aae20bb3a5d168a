//! The op tree of a body.

ghost use Rattle.std.specs.Prelude.{◌≡◌, ◌++◌, OnOk, IfOk, map, slice_get, option_map};
ghost use Rattle.own_tree.specs.OpView.{op_view};
ghost use Rattle.own_tree.specs.TypedView.{expr_view, stms_of, stmt_view, block_view, body_view};
ghost use Rattle.own_paths.specs.Ops.{at_entry, has_result, returning, body_ops};
ghost use Rattle.own_uses.specs.Building.{types_for, program_for, returned, value_of, only_value, returned_or_block};

use crate::bindings::closing;
use crate::builder::Builder;
use crate::joined::both;
use crate::single::at_entry;
use crate::usage::Use;
use own_tree::typed::{Body, TypedBlock, TypedExpr, TypedStmt};
use own_tree::{OpTree, Ty};
use own_within::node_of;
use sqlite_items::Items;
use std::alloc::AllocError;

fn has_result(ty: Ty) -> bool
    ensures { result ≡ has_result ty }
{
    !matches!(ty, Ty::Unit)
}

/// The expression that a statement is.
fn value_of(statement: &TypedStmt) -> Option<&TypedExpr>
    ensures { option_map (λ value. expr_view value.now) result ≡ value_of (stmt_view statement.now) }
{
    match statement {
        TypedStmt::Evaluate(_, value) => Some(value),
        _ => None,
    }
}

/// The expression that statements are, if they are one expression.
fn only_value(statements: &[TypedStmt]) -> Option<&TypedExpr>
    ensures { option_map (λ value. expr_view value.now) result ≡ only_value (stms_of (map stmt_view statements.now)) }
{
    match statements.split_first() {
        Some((first, others)) => match others.split_first() {
            Some(_) => None,
            None => value_of(first),
        },
        None => None,
    }
}

impl Builder<'_> {
    /// Adds what the entry of a body does to `self` and the parameters.
    fn push_entries(&self, parts: &mut Items<OpTree>, params: &[u32]) -> Result<(), AllocError>
        ensures { OnOk result (map op_view parts.new
            ≡ map op_view parts.old ++ map (λ x. at_entry x (slice_get (program_for self.now).bindings x)) params.now) }
    {
        for number in params {
            let binding = self.typed.bindings.get(*number as usize);
            parts.push(at_entry(self.alloc, *number, binding))?;
        }
        Ok(())
    }

    /// A block that is one expression, whose value is returned with the span of the expression.
    fn returned_ops(&self, block: &TypedBlock, value: &TypedExpr) -> Result<OpTree, AllocError>
        ensures { IfOk result (λ tree. op_view tree
            ≡ returned (types_for self.now) (program_for self.now) block.now.at (expr_view value.now)) }
    {
        let mut parts = Items::new(self.alloc);
        parts.push(self.expression_ops(value, Use::Value)?)?;
        parts.push(OpTree::Return(node_of(value).span))?;
        self.scope_of(&[], closing(block.at.span), parts)
    }

    /// The block of a body with a result.
    fn result_ops(&self, block: &TypedBlock) -> Result<OpTree, AllocError>
        ensures { IfOk result (λ tree. op_view tree
            ≡ returned_or_block (types_for self.now) (program_for self.now) (block_view block.now)
            (only_value (stms_of (map stmt_view block.now.statements)))) }
    {
        match only_value(block.statements.as_slice()) {
            Some(value) => self.returned_ops(block, value),
            None => self.block_ops(block),
        }
    }

    /// The block of a body with or without a result.
    fn returning_ops(&self, is_value: bool, block: &TypedBlock) -> Result<OpTree, AllocError>
        ensures { IfOk result (λ tree. op_view tree ≡ returning (types_for self.now) (program_for self.now) is_value
            (block_view block.now)) }
    {
        if is_value {
            self.result_ops(block)
        } else {
            self.block_ops(block)
        }
    }

    /// The op tree of a body.
    pub(crate) fn body_ops(&self, body: &Body) -> Result<OpTree, AllocError>
        ensures { IfOk result (λ tree. op_view tree ≡ body_ops (types_for self.now) (program_for self.now)
            (body_view body.now)) }
    {
        let params = body.params.as_slice();
        let mut parts = Items::new(self.alloc);
        self.push_entries(&mut parts, params)?;
        parts.push(self.returning_ops(has_result(body.result), &body.block)?)?;
        let inner = self.scope_of(params, body.close, parts)?;
        both(self.alloc, inner, OpTree::Return(body.close))
    }
}
