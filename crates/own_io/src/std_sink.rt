ghost use Rattle.std.specs.Prelude.{◌≡◌, ◌≤◌, length, IfOk, refl};
ghost use Rattle.own_io.specs.Outside.{Nothing};

use crate::sink::{Sink, SinkFailed};
use std::io;
use std::io::{Print, Stderr, Stdout};

/// Standard output or standard error of the process, unbuffered. It tells nothing, and counts each error
/// as a fault.
#[derive(Drop)]
pub struct StdSink {
    stream: Stream,
    faults: u64,
}

#[derive(Clone, Copy)]
enum Stream {
    Out(Stdout),
    Err(Stderr),
}

impl Stream {
    fn write_some(self, piece: &[u8]) -> io::Result<usize>
        ensures { IfOk result (λ taken. taken ≤ length piece.now) }
    {
        match self {
            Stream::Out(out) => out.write_some(piece),
            Stream::Err(err) => err.write_some(piece),
        }
    }
}

impl StdSink {
    /// Standard output.
    pub fn out(rt: &HostRuntime) -> StdSink
        ensures { ⟦<StdSink as Sink>⟧.faults result ≡ 0 }
    {
        StdSink {
            stream: Stream::Out(rt.stdout()),
            faults: 0,
        }
    }

    /// Standard error.
    pub fn err(rt: &HostRuntime) -> StdSink
        ensures { ⟦<StdSink as Sink>⟧.faults result ≡ 0 }
    {
        StdSink {
            stream: Stream::Err(rt.stderr()),
            faults: 0,
        }
    }
}

impl Sink for StdSink {
    ghost written = { λ _. Nothing };

    ghost faults = { λ sink. sink.faults };

    ghost nothing = { λ _. refl };

    fn write(&mut self, piece: &[u8]) -> Result<usize, SinkFailed> {
        match self.stream.write_some(piece) {
            Ok(taken) if taken > 0 => Ok(taken),
            _ => {
                self.faults = self.faults.saturating_add(1);
                Err(SinkFailed)
            }
        }
    }
}
