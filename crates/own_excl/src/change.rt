//! What changes a place.

ghost use Rattle.std.specs.Prelude.{◌≡◌, [], ◌∷◌, ◌++◌, OnOk};
ghost use Rattle.own_excl.specs.Changes.{changed};
ghost use Rattle.own_excl.specs.View.{place_view, changes_view};

use crate::places::PlaceRef;
use own_tree::typed::TypedPath;
use own_tree::{OpKind, Place, Span};
use std::alloc::AllocError;

/// An Assign, Inout, Consume or Discard, or a Capture of what the closure changes.
#[derive(Clone, Copy)]
pub(crate) struct Change<'t> {
    pub kind: OpKind,
    pub place: PlaceRef<'t>,
    pub span: Span,
}

/// Adds an op on a place.
pub(crate) fn push_op<'t>(
    changes: &mut Vec<Change<'t>>,
    kind: OpKind,
    place: &'t Place,
    span: Span,
) -> Result<(), AllocError>
    ensures { OnOk result (changes_view changes.new.items
        ≡ changes_view changes.old.items ++ changed kind place.now span ∷ []) }
{
    let place = PlaceRef {
        binding: place.binding,
        fields: place.fields.as_slice(),
    };
    changes.push(Change { kind, place, span })?;
    Ok(())
}

/// Adds an op on a path.
pub(crate) fn push_path_op<'t>(
    changes: &mut Vec<Change<'t>>,
    kind: OpKind,
    path: &'t TypedPath,
) -> Result<(), AllocError>
    ensures { OnOk result (changes_view changes.new.items
        ≡ changes_view changes.old.items ++ changed kind path.now.place path.now.at.span ∷ []) }
{
    push_op(changes, kind, &path.place, path.at.span)
}
