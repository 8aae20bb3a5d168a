//! Counts of a part of an op tree.

ghost use Rattle.std.specs.Prelude.{◌≡◌};
ghost use Rattle.own_uses.specs.Tally.{no_tally, both_tallies, loop_tally, switch_tally, scope_tally};

/// What a part of an op tree counts, and how many jumps of each kind leave it. A count stops at its
/// largest value.
#[derive(Clone, Copy, Debug, PartialEq, Eq)]
pub(crate) struct Tally {
    pub sum: u64,
    pub breaks: u64,
    pub continues: u64,
    pub returns: u64,
}

impl Tally {
    /// Of what counts so much, and leaves nothing.
    pub(crate) fn of(sum: u64) -> Tally
        ensures { result ≡ record { sum = sum; breaks = 0; continues = 0; returns = 0 } }
    {
        Tally {
            sum,
            breaks: 0,
            continues: 0,
            returns: 0,
        }
    }

    /// Of one after the other, or one of the two.
    pub(crate) fn and(self, other: Tally) -> Tally
        ensures { result ≡ both_tallies self other }
    {
        Tally {
            sum: self.sum.saturating_add(other.sum),
            breaks: self.breaks.saturating_add(other.breaks),
            continues: self.continues.saturating_add(other.continues),
            returns: self.returns.saturating_add(other.returns),
        }
    }

    /// A loop takes up each `break` and `continue` in it.
    pub(crate) fn in_loop(self) -> Tally
        ensures { result ≡ loop_tally self }
    {
        Tally {
            breaks: 0,
            continues: 0,
            ..self
        }
    }

    /// A `switch` takes up each `break` in it.
    pub(crate) fn in_switch(self) -> Tally
        ensures { result ≡ switch_tally self }
    {
        Tally { breaks: 0, ..self }
    }

    /// A scope has Ends that count so much on each way out: its `}`, and each jump in it.
    pub(crate) fn in_scope(self, ends: u64) -> Tally
        ensures { result ≡ scope_tally ends self }
    {
        let jumps = self
            .breaks
            .saturating_add(self.continues)
            .saturating_add(self.returns);
        let sum = ends.saturating_mul(jumps.saturating_add(1));
        Tally {
            sum: sum.saturating_add(self.sum),
            ..self
        }
    }
}
