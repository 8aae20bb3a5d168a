//! What the arguments of a call hold until it returns.

ghost use Rattle.std.specs.Prelude.{◌≡◌, ◌++◌, [], ◌∷◌, OnOk};
ghost use Rattle.own_tree.specs.TypedView.{expr_view};
ghost use Rattle.own_paths.specs.Captures.{captures};
ghost use Rattle.own_paths.specs.Fixed as fixed;
ghost use Rattle.own_paths.specs.Fixed.{access, captured_at, held_path};
ghost use Rattle.own_within.specs.View.{captured_seen};
ghost use Rattle.own_excl.specs.View.{accesses_view, types_for, program_for};

use crate::expressions::opening;
use crate::places::PlaceRef;
use crate::types::is_copyable;
use crate::walk::Walk;
use own_tree::typed::{At, TypedExpr, TypedPath};
use own_tree::{Passing, Span};
use own_within::{Captured, captures};
use std::alloc::AllocError;

/// A place that an argument holds, borrowed or to be changed.
#[derive(Clone, Copy)]
pub(crate) struct Access<'t> {
    pub change: bool,
    pub place: PlaceRef<'t>,
    pub span: Span,
}

/// Adds a path.
fn push_held_path<'t>(
    held: &mut Vec<Access<'t>>,
    change: bool,
    path: &'t TypedPath,
) -> Result<(), AllocError>
    ensures { OnOk result (accesses_view held.new.items
        ≡ accesses_view held.old.items ++ access change path.now.place path.now.at.span ∷ []) }
{
    let place = PlaceRef {
        binding: path.place.binding,
        fields: path.place.fields.as_slice(),
    };
    held.push(Access {
        change,
        place,
        span: path.at.span,
    })?;
    Ok(())
}

/// Adds what a closure literal captures.
fn push_captured(
    held: &mut Vec<Access<'_>>,
    at: At,
    captured: &[Captured],
) -> Result<(), AllocError>
    ensures { OnOk result (accesses_view held.new.items
        ≡ accesses_view held.old.items ++ captured_at at (captured_seen captured.now)) }
{
    for capture in captured {
        let place = PlaceRef {
            binding: capture.binding,
            fields: &[],
        };
        held.push(Access {
            change: capture.change,
            place,
            span: opening(at.span),
        })?;
    }
    Ok(())
}

impl<'t> Walk<'t> {
    /// Adds what a path holds that is passed so.
    fn push_held_by_path(
        &self,
        held: &mut Vec<Access<'t>>,
        path: &'t TypedPath,
        given: Passing,
    ) -> Result<(), AllocError>
        ensures { OnOk result (accesses_view held.new.items
            ≡ accesses_view held.old.items ++ held_path (types_for self.now) (program_for self.now) given path.now) }
    {
        match given {
            Passing::Inout => push_held_path(held, true, path),
            Passing::Borrow => {
                if is_copyable(self.table, path.at.ty) {
                    Ok(())
                } else {
                    push_held_path(held, false, path)
                }
            }
            Passing::ByValue | Passing::Consume | Passing::Closure => Ok(()),
        }
    }

    /// Adds what a closure literal holds, by the number of its body.
    fn push_held_by_literal(
        &self,
        held: &mut Vec<Access<'t>>,
        at: At,
        body: u32,
    ) -> Result<(), AllocError>
        ensures { OnOk result (accesses_view held.new.items
            ≡ accesses_view held.old.items ++ captured_at at (captures (program_for self.now) body)) }
    {
        let captured = captures(self.alloc, self.typed, body)?;
        push_captured(held, at, captured.as_slice())
    }

    /// Adds what an argument holds that is passed so.
    #[cycle(held)]
    pub(crate) fn push_held(
        &self,
        held: &mut Vec<Access<'t>>,
        argument: &'t TypedExpr,
        given: Passing,
    ) -> Result<(), AllocError>
        ensures { OnOk result (accesses_view held.new.items
            ≡ accesses_view held.old.items ++ fixed.held (types_for self.now) (program_for self.now) given
            (expr_view argument.now)) }
    {
        match argument {
            TypedExpr::Path(path) => self.push_held_by_path(held, path, given),
            TypedExpr::Parenthesized(_, inner) => self.push_held(held, inner.get(), given),
            TypedExpr::Address(path) => push_held_path(held, true, path),
            TypedExpr::Closure(at, body) => self.push_held_by_literal(held, *at, *body),
            TypedExpr::Number(..)
            | TypedExpr::Text(..)
            | TypedExpr::Truth(..)
            | TypedExpr::Consume(..)
            | TypedExpr::Negate(..)
            | TypedExpr::Not(..)
            | TypedExpr::Arithmetic(..)
            | TypedExpr::Wrapping(..)
            | TypedExpr::Compare(..)
            | TypedExpr::Logic(..)
            | TypedExpr::Choice(..)
            | TypedExpr::Member(..)
            | TypedExpr::Call(..)
            | TypedExpr::Function(..) => Ok(()),
        }
    }
}
