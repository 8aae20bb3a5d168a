ghost use Rattle.std.specs.Prelude.{◌≡◌, ◌+◌, ◌≤◌};
ghost use Rattle.own_io.specs.Outside.{cut};
ghost use Rattle.own_io.specs.Plan.{is_listed};

use own_tree::Row;

/// Which calls of a stand-in fail, by their number from 1, and how many calls and faults there were.
#[derive(Debug, Drop)]
pub(crate) struct Plan {
    pub(crate) failing: Row<u64>,
    pub(crate) calls: u64,
    pub(crate) faults: u64,
}

impl Plan {
    pub(crate) fn new(failing: Row<u64>) -> Plan
        ensures { result ≡ record { failing = failing; calls = 0; faults = 0 } }
    {
        Plan {
            failing,
            calls: 0,
            faults: 0,
        }
    }

    /// Counts a call, and answers whether it fails. No call past the largest count fails.
    pub(crate) fn next_fails(&mut self) -> bool
        ensures answer { result ≡ is_listed self.old.failing (self.old.calls + 1) }
        ensures after { self.new ≡ record self.old { calls = cut (self.old.calls + 1) } }
    {
        let number = u128::from(self.calls) + 1;
        self.calls = self.calls.saturating_add(1);
        self.failing
            .as_slice()
            .iter()
            .any(|listed| u128::from(*listed) == number)
    }

    pub(crate) fn note_fault(&mut self)
        ensures after { self.new ≡ record self.old { faults = cut (self.old.faults + 1) } }
        ensures count { self.old.faults ≤ self.new.faults }
    {
        self.faults = self.faults.saturating_add(1);
    }
}
