//! The clauses of a `switch`, by what the statements of each come to.

ghost use Rattle.std.specs.Prelude.{◌≡◌, ◌++◌, IfOk, Some, None, map};
ghost use Rattle.own_tree.specs.OpView.{op_view};
ghost use Rattle.own_tree.specs.TypedView.{expr_view, pattern_view, stms_of, stmt_view, head_view};
ghost use Rattle.own_paths.specs.Ops.{make, closing, scope_of, clause_tree, clause_ops};
ghost use Rattle.own_paths.specs.Within.{locals};
ghost use Rattle.own_uses.specs.Building.{types_for, program_for, guarded_scope};
ghost use Rattle.own_tree.specs.TypedSource.{case_where};

use crate::bindings::{closing, owned, pattern_bindings, patterns_bindings, push_locals};
use crate::builder::Builder;
use crate::joined::{guarded_clause, plain_clause};
use crate::usage::Use;
use own_tree::typed::{At, TypedClause, TypedExpr, TypedHead, TypedStmt};
use own_tree::{OpTree, Span, TPattern};
use sqlite_items::Items;
use std::alloc::AllocError;

impl Builder<'_> {
    /// What these bindings make.
    pub(crate) fn makes(&self, at: At, numbers: &[u32]) -> Result<Items<OpTree>, AllocError>
        ensures { IfOk result (λ trees. map op_view trees
            ≡ map (make (types_for self.now) (program_for self.now) at) numbers.now) }
    {
        let mut trees = Items::new(self.alloc);
        self.push_makes(&mut trees, at, numbers)?;
        Ok(trees)
    }

    /// The scope of these bindings and of those that statements declare.
    pub(crate) fn scope_with(
        &self,
        numbers: &[u32],
        statements: &[TypedStmt],
        close: Span,
        parts: Items<OpTree>,
    ) -> Result<OpTree, AllocError>
        ensures { IfOk result (λ tree. op_view tree ≡ scope_of (types_for self.now) (program_for self.now)
            (numbers.now ++ locals (stms_of (map stmt_view statements.now))) close (map op_view parts)) }
    {
        let mut bound = Vec::from_slice(self.alloc, numbers)?;
        push_locals(&mut bound, statements)?;
        self.scope_of(bound.as_slice(), close, parts)
    }

    /// A clause without a guard that binds these names.
    fn plain_ops(
        &self,
        at: At,
        numbers: &[u32],
        clause: &TypedClause,
        parts: Items<OpTree>,
    ) -> Result<OpTree, AllocError>
        ensures { IfOk result (λ tree. op_view tree
            ≡ clause_tree (map (make (types_for self.now) (program_for self.now) at) numbers.now) None
            (scope_of (types_for self.now) (program_for self.now)
            (numbers.now ++ locals (stms_of (map stmt_view clause.now.statements))) (closing at.span)
            (map op_view parts))
            clause.now.span) }
    {
        let makes = self.makes(at, numbers)?;
        let body = self.scope_with(
            numbers,
            clause.statements.as_slice(),
            closing(at.span),
            parts,
        )?;
        plain_clause(self.alloc, makes, body, clause.span)
    }

    /// The body of a clause with a guard, whose names it owns: they are bound anew, if the guard sees
    /// borrowed ones.
    fn guarded_body(
        &self,
        subject: &TypedExpr,
        at: At,
        numbers: &[u32],
        clause: &TypedClause,
        parts: Items<OpTree>,
    ) -> Result<OpTree, AllocError>
        ensures { IfOk result (λ tree. op_view tree ≡ guarded_scope (types_for self.now) (program_for self.now)
            (expr_view subject.now) at numbers.now (stms_of (map stmt_view clause.now.statements))
            (map op_view parts)) }
    {
        let statements = clause.statements.as_slice();
        if self.binds_twice(subject) {
            let owned = owned(self.alloc, numbers)?;
            let mut all = self.makes(at, owned.as_slice())?;
            all.append(parts)?;
            self.scope_with(owned.as_slice(), statements, closing(at.span), all)
        } else {
            self.scope_with(numbers, statements, closing(at.span), parts)
        }
    }

    /// A clause with a guard.
    fn guarded_ops(
        &self,
        subject: &TypedExpr,
        at: At,
        pattern: &TPattern,
        guard: &TypedExpr,
        clause: &TypedClause,
        parts: Items<OpTree>,
    ) -> Result<OpTree, AllocError>
        ensures { IfOk result (λ tree. op_view tree ≡ clause_ops (types_for self.now) (program_for self.now)
            (expr_view subject.now) at clause.now.span (case_where (pattern_view pattern.now) (expr_view guard.now))
            (stms_of (map stmt_view clause.now.statements)) (map op_view parts)) }
    {
        let numbers = pattern_bindings(self.alloc, pattern)?;
        let makes = self.makes(at, numbers.as_slice())?;
        let guard = self.expression_ops(guard, Use::Value)?;
        let body = self.guarded_body(subject, at, numbers.as_slice(), clause, parts)?;
        guarded_clause(self.alloc, makes, guard, body, clause.span)
    }

    /// A clause, with the ops of its statements.
    pub(crate) fn clause_ops(
        &self,
        subject: &TypedExpr,
        at: At,
        clause: &TypedClause,
        parts: Items<OpTree>,
    ) -> Result<OpTree, AllocError>
        ensures { IfOk result (λ tree. op_view tree ≡ clause_ops (types_for self.now) (program_for self.now)
            (expr_view subject.now) at clause.now.span (head_view clause.now.head)
            (stms_of (map stmt_view clause.now.statements)) (map op_view parts)) }
    {
        match &clause.head {
            TypedHead::Case(patterns) => {
                let numbers = patterns_bindings(self.alloc, patterns.as_slice())?;
                self.plain_ops(at, numbers.as_slice(), clause, parts)
            }
            TypedHead::Guarded(pattern, guard) => {
                self.guarded_ops(subject, at, pattern, guard, clause, parts)
            }
            TypedHead::Default => self.plain_ops(at, &[], clause, parts),
        }
    }
}
