ghost use Rattle.std.specs.Prelude.{◌≡◌};

use crate::sink::{Sink, SinkFailed};
use std::marker::Model;

/// A sink that keeps nothing but the numbers of bytes and of newlines, each up to 2^64 - 1. It never fails.
#[derive(Clone, Copy, Debug)]
pub struct CountSink {
    bytes: u64,
    lines: u64,
}

impl Model for CountSink {
    ghost use Rattle.own_io.specs.CountSink.{Tally};

    ghost Value = { Tally };

    ghost view = { λ sink. record { bytes = sink.bytes; lines = sink.lines } };

    ghost inverse = { λ tally. record { bytes = tally.bytes; lines = tally.lines } };
}

impl CountSink {
    pub fn new() -> CountSink
        ensures { result ≡ record { bytes = 0; lines = 0 } }
    {
        CountSink { bytes: 0, lines: 0 }
    }

    /// How many bytes were taken.
    pub fn bytes(&self) -> u64
        ensures { result ≡ self.now.bytes }
    {
        self.bytes
    }

    /// How many bytes `\n` were taken.
    pub fn lines(&self) -> u64
        ensures { result ≡ self.now.lines }
    {
        self.lines
    }
}

impl Sink for CountSink {
    ghost use Rattle.own_io.specs.CountSink.{told_of};
    ghost use Rattle.own_io.specs.CountSink.{told_of-nothing};

    ghost written = { told_of };

    ghost faults = { λ _. 0 };

    ghost nothing = { told_of-nothing };

    fn write(&mut self, piece: &[u8]) -> Result<usize, SinkFailed> {
        let lines = piece.iter().filter(|byte| **byte == b'\n').count();
        self.bytes = self.bytes.saturating_add(piece.len() as u64);
        self.lines = self.lines.saturating_add(lines as u64);
        Ok(piece.len())
    }
}
