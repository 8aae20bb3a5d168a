ghost use Rattle.std.specs.Prelude.{◌≡◌, ◌+◌, ◌<◌, ◌≤◌, [], ◌++◌, true, false, length, take, IfOk, MatchResult, OnErr};
ghost use Rattle.own_io.specs.Outside.{told_after, HasRisen, cut, Content};
ghost use Rattle.own_io.specs.MemorySink.{fails_next, room_for};

use crate::plan::Plan;
use crate::sink::{Sink, SinkFailed};
use own_tree::Row;
use std::alloc::{AllocError, Global};
use std::marker::Model;

/// A sink over memory with room for a fixed number of bytes, some of whose calls of `write` fail.
#[derive(Debug, Drop)]
pub struct MemorySink {
    written: Vec<u8>,
    most: usize,
    plan: Plan,
}

impl Model for MemorySink {
    ghost use Rattle.std.specs.Prelude.{◌≤◌, vec_len, vec_capacity};
    ghost use Rattle.own_io.specs.MemorySink.{Recording};

    ghost Value = { Recording };

    ghost view = { λ sink. record {
      written = sink.written.items;
      most = sink.most;
      failing = sink.plan.failing;
      calls = sink.plan.calls;
      faults = sink.plan.faults;
    } };

    ghost invariant = { λ sink. (vec_len sink.written ≤ sink.most) × (sink.most ≤ vec_capacity sink.written) };
}

impl MemorySink {
    /// A sink with room for `most` bytes, all of it reserved. The calls of `write` are counted from 1, and
    /// those in `failing` fail.
    pub fn new(alloc: Global, most: usize, failing: Row<u64>) -> Result<MemorySink, AllocError>
        ensures { IfOk result
            (λ sink. sink ≡ record { written = []; most = most; failing = failing; calls = 0; faults = 0 }) }
    {
        Ok(MemorySink {
            written: Vec::with_capacity(alloc, most)?,
            most,
            plan: Plan::new(failing),
        })
    }

    /// The bytes taken so far.
    pub fn written(&self) -> &[u8]
        ensures { result.now ≡ self.now.written }
    {
        self.written.as_slice()
    }
}

impl Sink for MemorySink {
    ghost use Rattle.std.proofs.Common.{ap, append-nil};
    ghost use Rattle.own_io.specs.Outside.{Content};

    ghost written = { λ sink. Content sink.written };

    ghost faults = { λ sink. sink.faults };

    ghost nothing = { λ sink. ap Content (append-nil sink.written) };

    fn write(&mut self, piece: &[u8]) -> Result<usize, SinkFailed>
        requires { 0 < length piece.now }
        ensures count { self.old.faults ≤ self.new.faults }
        ensures some { IfOk result (λ taken. 0 < taken) }
        ensures within { IfOk result (λ taken. taken ≤ length piece.now) }
        ensures ok { IfOk result (λ taken. Content self.new.written ≡ told_after (Content self.old.written) (take taken piece.now)) }
        ensures unchanged { OnErr result (Content self.new.written ≡ Content self.old.written) }
        ensures failed { OnErr result (HasRisen self.old.faults self.new.faults) }

        // Which calls fail, how much the others take, and all that they leave.
        ensures answer { MatchResult result
            (λ taken. (fails_next self.old ≡ false) × (taken ≡ room_for self.old piece.now))
            (λ _. fails_next self.old ≡ true) }
        ensures after { MatchResult result
            (λ taken. self.new ≡ record self.old {
              written = self.old.written ++ take taken piece.now;
              calls = cut (self.old.calls + 1);
            })
            (λ _. self.new ≡ record self.old { calls = cut (self.old.calls + 1); faults = cut (self.old.faults + 1) }) }
    {
        let free = self.most - self.written.len();
        if self.plan.next_fails() || free == 0 {
            self.plan.note_fault();
            return Err(SinkFailed);
        }
        let taken = piece.len().min(free);
        self.written.extend_from_slice(&piece[..taken]).unwrap();
        Ok(taken)
    }
}
