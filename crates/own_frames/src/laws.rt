//! Laws of the definitions. Each function does nothing; its contract is the law.

ghost use Rattle.own_frames.specs.Laws.{CallsAreFramed, LendingChangesNothing, RunsEndEmpty};
ghost use Rattle.own_frames.specs.Leaves.{WholeFromLeaves, LeavesAreEmptied};
ghost use Rattle.own_frames.specs.Writes.{WritesAreSeen};

/// A call changes nothing beyond its own activation but the places that it is granted.
pub fn calls_are_framed()
    ensures { CallsAreFramed }
{}

/// A call that captures nothing, and to which places are only lent to be read, changes nothing.
pub fn lending_changes_nothing()
    ensures { LendingChangesNothing }
{}

/// A run of `main` that ends leaves no activation.
pub fn runs_end_empty()
    ensures { RunsEndEmpty }
{}

/// A write where a value is seen succeeds, and is seen.
pub fn writes_are_seen()
    ensures { WritesAreSeen }
{}

/// A part of a value has no hole in it where no leaf that overlaps it has one.
pub fn whole_from_leaves()
    ensures { WholeFromLeaves }
{}

/// A move leaves a hole in each leaf, and each is still a leaf.
pub fn leaves_are_emptied()
    ensures { LeavesAreEmptied }
{}
