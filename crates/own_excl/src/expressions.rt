//! What changes places within expressions. The walk goes as deep as the expression is nested.

ghost use Rattle.std.specs.Prelude.{◌≡◌, ◌++◌, [], ◌∷◌, if◌then◌else◌, OnOk, map};
ghost use Rattle.own_tree.specs.TypedView.{exps_of, expr_view};
ghost use Rattle.own_tree.specs.declared.op.OpKind.TheVariants as kind;
ghost use Rattle.own_paths.specs.Captures.{captures};
ghost use Rattle.own_paths.specs.Ops.{use_by, as_value};
ghost use Rattle.own_shapes.specs.Places.{whole};
ghost use Rattle.own_shapes.specs.Spans.{opening};
ghost use Rattle.own_within.specs.View.{captured_seen};
ghost use Rattle.own_excl.specs.Changes.{changed, captures_changed, path_changes, exp_changes, args_changes};
ghost use Rattle.own_excl.specs.View.{changes_view, types_for, program_for};

use crate::change::{Change, push_path_op};
use crate::places::PlaceRef;
use crate::types::is_copyable;
use crate::walk::Walk;
use own_tree::typed::{At, TypedExpr, TypedPath};
use own_tree::{OpKind, Passing, Span};
use own_within::{Captured, captures, first_passing, other_passings};
use std::alloc::AllocError;

/// The `{` of a literal, its first byte.
pub(crate) fn opening(span: Span) -> Span
    ensures { result ≡ opening span }
{
    let after = span.start.saturating_add(1);
    Span {
        start: span.start,
        end: after.min(span.end),
    }
}

/// Adds a capture that changes what it captures.
fn push_capture(changes: &mut Vec<Change<'_>>, at: At, capture: Captured) -> Result<(), AllocError>
    ensures { OnOk result (changes_view changes.new.items ≡ changes_view changes.old.items
        ++ (if capture.change then changed kind.Capture (whole capture.binding) (opening at.span) ∷ [] else [])) }
{
    if capture.change {
        let place = PlaceRef {
            binding: capture.binding,
            fields: &[],
        };
        changes.push(Change {
            kind: OpKind::Capture,
            place,
            span: opening(at.span),
        })?;
    }
    Ok(())
}

/// Adds those of these that do.
fn push_captures(
    changes: &mut Vec<Change<'_>>,
    at: At,
    captured: &[Captured],
) -> Result<(), AllocError>
    ensures { OnOk result (changes_view changes.new.items
        ≡ changes_view changes.old.items ++ captures_changed at (captured_seen captured.now)) }
{
    for capture in captured {
        push_capture(changes, at, *capture)?;
    }
    Ok(())
}

impl<'t> Walk<'t> {
    /// Adds those of a closure literal, by the number of its body.
    fn push_literal(
        &self,
        changes: &mut Vec<Change<'t>>,
        at: At,
        body: u32,
    ) -> Result<(), AllocError>
        ensures { OnOk result (changes_view changes.new.items
            ≡ changes_view changes.old.items ++ captures_changed at (captures (program_for self.now) body)) }
    {
        let captured = captures(self.alloc, self.typed, body)?;
        push_captures(changes, at, captured.as_slice())
    }

    /// Adds what a path is that is passed so.
    fn push_path(
        &self,
        changes: &mut Vec<Change<'t>>,
        path: &'t TypedPath,
        given: Passing,
    ) -> Result<(), AllocError>
        ensures { OnOk result (changes_view changes.new.items
            ≡ changes_view changes.old.items ++ path_changes (types_for self.now) (program_for self.now)
            (use_by given) path.now) }
    {
        match given {
            Passing::Inout => push_path_op(changes, OpKind::Inout, path),
            Passing::Borrow => Ok(()),
            Passing::ByValue | Passing::Consume | Passing::Closure => {
                if is_copyable(self.table, path.at.ty) {
                    Ok(())
                } else {
                    push_path_op(changes, OpKind::Consume, path)
                }
            }
        }
    }

    /// Adds what changes a place while an expression is evaluated, where a path that it is is passed so.
    #[cycle(expressions)]
    pub(crate) fn push_expression(
        &self,
        changes: &mut Vec<Change<'t>>,
        expr: &'t TypedExpr,
        given: Passing,
    ) -> Result<(), AllocError>
        ensures { OnOk result (changes_view changes.new.items
            ≡ changes_view changes.old.items ++ exp_changes (types_for self.now) (program_for self.now)
            (expr_view expr.now) (use_by given)) }
    {
        match expr {
            TypedExpr::Path(path) => self.push_path(changes, path, given),
            TypedExpr::Consume(_, path) => push_path_op(changes, OpKind::Consume, path),
            TypedExpr::Address(path) => push_path_op(changes, OpKind::Inout, path),
            TypedExpr::Parenthesized(_, inner) => self.push_expression(changes, inner.get(), given),
            TypedExpr::Negate(_, _, inner)
            | TypedExpr::Not(_, inner)
            | TypedExpr::Member(_, inner, _) => {
                self.push_expression(changes, inner.get(), Passing::ByValue)
            }
            TypedExpr::Arithmetic(_, _, _, left, right)
            | TypedExpr::Wrapping(_, _, left, right)
            | TypedExpr::Compare(_, _, left, right)
            | TypedExpr::Logic(_, _, left, right) => {
                self.push_expression(changes, left.get(), Passing::ByValue)?;
                self.push_expression(changes, right.get(), Passing::ByValue)
            }
            TypedExpr::Choice(_, condition, first, second) => {
                self.push_expression(changes, condition.get(), Passing::ByValue)?;
                self.push_expression(changes, first.get(), Passing::ByValue)?;
                self.push_expression(changes, second.get(), Passing::ByValue)
            }
            TypedExpr::Call(_, _, arguments, passings) => {
                self.push_arguments(changes, arguments.as_slice(), passings.as_slice())
            }
            TypedExpr::Closure(at, body) => self.push_literal(changes, *at, *body),
            TypedExpr::Number(..)
            | TypedExpr::Text(..)
            | TypedExpr::Truth(..)
            | TypedExpr::Function(..) => Ok(()),
        }
    }

    /// Adds those of arguments that are passed so.
    #[cycle(expressions)]
    fn push_arguments(
        &self,
        changes: &mut Vec<Change<'t>>,
        arguments: &'t [TypedExpr],
        passings: &[Passing],
    ) -> Result<(), AllocError>
        ensures { OnOk result (changes_view changes.new.items
            ≡ changes_view changes.old.items ++ args_changes (types_for self.now) (program_for self.now)
            (exps_of (map expr_view arguments.now)) passings.now) }
    {
        let mut passings = passings;
        for argument in arguments {
            self.push_expression(changes, argument, first_passing(passings))?;
            passings = other_passings(passings);
        }
        Ok(())
    }
}
