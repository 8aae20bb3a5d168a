//! Laws of the definitions. Each function does nothing; its contract is the law.

ghost use Rattle.own_shapes.specs.Laws.{LeavesAreApart, OpenedLeavesAreApart, PartsAreNoLarger, PlacesAreOrdered, ShapesUnfold};

/// Where no type contains itself, a declared type has the shape of its declaration.
pub fn shapes_unfold()
    ensures { ShapesUnfold }
{}

/// No leaf of a type lies at or below another one, so what is done to a part of a leaf makes and ends none.
pub fn leaves_are_apart()
    ensures { LeavesAreApart }
{}

/// No leaf of `self` in `init` lies at or below another one.
pub fn opened_leaves_are_apart()
    ensures { OpenedLeavesAreApart }
{}

/// A part has no more slots than what it is in.
pub fn parts_are_no_larger()
    ensures { PartsAreNoLarger }
{}

/// The order of places is total.
pub fn places_are_ordered()
    ensures { PlacesAreOrdered }
{}
