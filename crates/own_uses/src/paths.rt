//! The ops of paths, bindings, captures and scopes of a program.

ghost use Rattle.std.specs.Prelude.{◌≡◌, ◌++◌, OnOk, IfOk, map};
ghost use Rattle.own_tree.specs.OpView.{op_view};
ghost use Rattle.own_tree.specs.TypedView.{expr_view};
ghost use Rattle.own_paths.specs.Ops.{make, path_ops, capture_ops, scope_of, binds_twice};
ghost use Rattle.own_uses.specs.View.{use_view};
ghost use Rattle.own_uses.specs.Building.{types_for, program_for, captured_ops};

use crate::bindings::{ended, opening};
use crate::builder::Builder;
use crate::joined::{in_order, scope};
use crate::single::{at_name, op_at, op_on};
use crate::types::is_copyable;
use crate::usage::{Use, kind_of};
use own_tree::typed::{At, TypedExpr, TypedPath};
use own_tree::{OpKind, OpTree, Span};
use own_within::{Captured, captures, node_of, path_of};
use sqlite_items::Items;
use std::alloc::{AllocError, Global};

/// The Captures of a closure literal, at its `{`.
fn captured_ops(alloc: Global, at: At, captured: &[Captured]) -> Result<Items<OpTree>, AllocError>
    ensures { IfOk result (λ trees. map op_view trees ≡ captured_ops at captured.now) }
{
    let mut trees = Items::new(alloc);
    for capture in captured {
        trees.push(op_on(
            alloc,
            OpKind::Capture,
            capture.binding,
            opening(at.span),
            at.id,
        ))?;
    }
    Ok(trees)
}

impl Builder<'_> {
    /// A path that is used so.
    pub(crate) fn path_ops(&self, used: Use, path: &TypedPath) -> Result<OpTree, AllocError>
        ensures { IfOk result (λ tree. op_view tree ≡ path_ops (types_for self.now) (program_for self.now)
            (use_view used) path.now) }
    {
        let kind = kind_of(used, is_copyable(self.table, path.at.ty));
        op_at(self.alloc, kind, &path.place, path.at)
    }

    /// A binding with a value, at its name.
    pub(crate) fn make(&self, at: At, number: u32) -> OpTree
        ensures { op_view result ≡ make (types_for self.now) (program_for self.now) at number }
    {
        let binding = self.typed.bindings.get(number as usize);
        at_name(self.alloc, OpKind::Make, at.id, number, binding)
    }

    /// Adds those of these bindings.
    pub(crate) fn push_makes(
        &self,
        parts: &mut Items<OpTree>,
        at: At,
        numbers: &[u32],
    ) -> Result<(), AllocError>
        ensures { OnOk result (map op_view parts.new
            ≡ map op_view parts.old ++ map (make (types_for self.now) (program_for self.now) at) numbers.now) }
    {
        for number in numbers {
            parts.push(self.make(at, *number))?;
        }
        Ok(())
    }

    /// A closure literal, by the number of its body, uses each binding that it captures.
    pub(crate) fn capture_ops(&self, at: At, body: u32) -> Result<OpTree, AllocError>
        ensures { IfOk result (λ tree. op_view tree ≡ capture_ops (types_for self.now) (program_for self.now) at body) }
    {
        let captured = captures(self.alloc, self.typed, body)?;
        Ok(in_order(captured_ops(self.alloc, at, captured.as_slice())?))
    }

    /// The scope of these bindings.
    pub(crate) fn scope_of(
        &self,
        numbers: &[u32],
        close: Span,
        parts: Items<OpTree>,
    ) -> Result<OpTree, AllocError>
        ensures { IfOk result (λ tree. op_view tree
            ≡ scope_of (types_for self.now) (program_for self.now) numbers.now close (map op_view parts)) }
    {
        let ended = ended(self.alloc, &self.typed.bindings, numbers)?;
        scope(self.alloc, ended, close, parts)
    }

    /// Whether a clause with a guard binds its names twice: the `switch` consumes a noncopyable subject.
    pub(crate) fn binds_twice(&self, subject: &TypedExpr) -> bool
        ensures { result ≡ binds_twice (types_for self.now) (program_for self.now) (expr_view subject.now) }
    {
        !is_copyable(self.table, node_of(subject).ty) && path_of(subject).is_none()
    }
}
