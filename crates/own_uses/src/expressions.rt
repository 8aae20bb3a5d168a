//! The ops of expressions, in order of evaluation. The walk goes as deep as the expression is nested.

ghost use Rattle.std.specs.Prelude.{◌≡◌, IfOk, map};
ghost use Rattle.own_tree.specs.OpView.{op_view};
ghost use Rattle.own_tree.specs.TypedView.{exps_of, expr_view};
ghost use Rattle.own_paths.specs.Ops.{exp_ops, args_ops};
ghost use Rattle.own_uses.specs.Building.{types_for, program_for};
ghost use Rattle.own_uses.specs.View.{use_view};

use crate::builder::Builder;
use crate::joined::{both, either, perhaps};
use crate::single::{nothing, op_at};
use crate::usage::{Use, use_by};
use own_tree::typed::TypedExpr;
use own_tree::{OpKind, OpTree, Passing};
use own_within::{first_passing, other_passings};
use sqlite_items::Items;
use std::alloc::AllocError;

impl Builder<'_> {
    /// The ops of an expression, where a path that it is is used so.
    #[cycle(expressions)]
    pub(crate) fn expression_ops(&self, expr: &TypedExpr, used: Use) -> Result<OpTree, AllocError>
        ensures { IfOk result (λ tree. op_view tree
            ≡ exp_ops (types_for self.now) (program_for self.now) (expr_view expr.now) (use_view used)) }
    {
        match expr {
            TypedExpr::Number(..)
            | TypedExpr::Text(..)
            | TypedExpr::Truth(..)
            | TypedExpr::Function(..) => Ok(nothing(self.alloc)),
            TypedExpr::Path(path) => self.path_ops(used, path),
            TypedExpr::Consume(_, path) => {
                op_at(self.alloc, OpKind::Consume, &path.place, path.at)
            }
            TypedExpr::Address(path) => op_at(self.alloc, OpKind::Inout, &path.place, path.at),
            TypedExpr::Parenthesized(_, inner) => self.expression_ops(inner.get(), used),
            TypedExpr::Negate(_, _, inner)
            | TypedExpr::Not(_, inner)
            | TypedExpr::Member(_, inner, _) => self.expression_ops(inner.get(), Use::Value),
            TypedExpr::Arithmetic(_, _, _, left, right)
            | TypedExpr::Wrapping(_, _, left, right)
            | TypedExpr::Compare(_, _, left, right) => {
                let left = self.expression_ops(left.get(), Use::Value)?;
                let right = self.expression_ops(right.get(), Use::Value)?;
                both(self.alloc, left, right)
            }
            TypedExpr::Logic(_, _, left, right) => {
                let left = self.expression_ops(left.get(), Use::Value)?;
                let right = self.expression_ops(right.get(), Use::Value)?;
                both(self.alloc, left, perhaps(self.alloc, right)?)
            }
            TypedExpr::Choice(_, condition, first, second) => {
                let condition = self.expression_ops(condition.get(), Use::Value)?;
                let first = self.expression_ops(first.get(), Use::Value)?;
                let second = self.expression_ops(second.get(), Use::Value)?;
                both(self.alloc, condition, either(self.alloc, first, second)?)
            }
            TypedExpr::Call(_, _, arguments, passings) => {
                let trees = self.argument_ops(arguments.as_slice(), passings.as_slice())?;
                Ok(OpTree::Seq(trees))
            }
            TypedExpr::Closure(at, body) => self.capture_ops(*at, *body),
        }
    }

    /// Those of arguments that are passed so.
    #[cycle(expressions)]
    fn argument_ops(
        &self,
        arguments: &[TypedExpr],
        passings: &[Passing],
    ) -> Result<Items<OpTree>, AllocError>
        ensures { IfOk result (λ trees. map op_view trees
            ≡ args_ops (types_for self.now) (program_for self.now) (exps_of (map expr_view arguments.now))
            passings.now) }
    {
        let mut trees = Items::new(self.alloc);
        let mut passings = passings;
        for argument in arguments {
            trees.push(self.expression_ops(argument, use_by(first_passing(passings)))?)?;
            passings = other_passings(passings);
        }
        Ok(trees)
    }
}
