ghost use Rattle.std.specs.Prelude.{◌≡◌, ◌+◌, ◌≤◌, ◌<◌, length, take, drop, IfErr, OnOk, OnErr};
ghost use Rattle.own_io.specs.Outside.{told_after, HasRisen};
ghost use Rattle.wasm_run.specs.Views.{text_of, LiesWithin};

use crate::state::{State, Written};
use itoa::Buffer;
use own_io::{SendFailed, Sink, send};

impl<'m> State<'m> {
    /// The bytes of memory from a place on.
    fn piece(&self, at: usize, size: usize) -> &[u8]
        requires { at + size ≤ length self.now.memory }
        ensures { result.now ≡ take size (drop at self.now.memory) }
    {
        &self.memory[at..at + size]
    }

    /// Sends what a step wants to be written.
    pub(crate) fn write<K: Sink>(&self, written: Written, sink: &mut K) -> Result<(), SendFailed>
        requires { LiesWithin written self.now.memory }
        ensures count { K.faults sink.old ≤ K.faults sink.new }
        ensures ok { OnOk result (K.written sink.new ≡ told_after (K.written sink.old) (text_of written self.now.memory)) }
        ensures prefix { IfErr result (λ fault. fault.written < length (text_of written self.now.memory)) }
        ensures written { IfErr result
            (λ fault. K.written sink.new ≡ told_after (K.written sink.old) (take fault.written (text_of written self.now.memory))) }
        ensures failed { OnErr result (HasRisen (K.faults sink.old) (K.faults sink.new)) }
    {
        match written {
            Written::Number(number) => {
                let mut buffer = Buffer::new();
                send(sink, buffer.format(number).as_bytes())
            }
            Written::Truth(true) => send(sink, b"true"),
            Written::Truth(false) => send(sink, b"false"),
            Written::Text { at, size } => send(sink, self.piece(at, size)),
            Written::Byte(byte) => send(sink, &[byte]),
        }
    }
}
