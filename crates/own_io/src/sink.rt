ghost use Rattle.std.specs.Prelude.{◌≡◌, ℕ, ◌<◌, ◌≤◌, [], length, take, IfOk, IfErr, OnOk, OnErr};
ghost use Rattle.own_io.specs.Outside.{Told, told_after, HasRisen};

/// A sink took nothing of a piece.
#[derive(Clone, Copy, Debug, PartialEq, Eq)]
pub struct SinkFailed;

/// A sink failed after it had taken the first `written` bytes.
#[derive(Clone, Copy, Debug, PartialEq, Eq)]
pub struct SendFailed {
    pub written: usize,
}

/// What takes bytes in order, some at a time.
pub trait Sink {
    /// What is told of the bytes taken so far.
    ghost written: { Self → Told };

    /// How often the outside failed. The count never falls, and stands still at its end.
    ghost faults: { Self → ℕ };

    /// Takes at least the first byte of a piece, and answers how many of its first bytes it took. A sink
    /// that would take nothing fails. No memory is taken.
    fn write(&mut self, piece: &[u8]) -> Result<usize, SinkFailed>
        requires { 0 < length piece.now }
        ensures count { faults self.old ≤ faults self.new }
        ensures some { IfOk result (λ taken. 0 < taken) }
        ensures within { IfOk result (λ taken. taken ≤ length piece.now) }
        ensures ok { IfOk result (λ taken. written self.new ≡ told_after (written self.old) (take taken piece.now)) }
        ensures unchanged { OnErr result (written self.new ≡ written self.old) }
        ensures failed { OnErr result (HasRisen (faults self.old) (faults self.new)) };

    /// No bytes more change nothing that is told.
    ghost nothing: { (sink : Self) → told_after (written sink) [] ≡ written sink };
}

/// Writes all bytes, or the first `written` of them until the sink fails. No memory is taken.
pub fn send<K: Sink>(sink: &mut K, bytes: &[u8]) -> Result<(), SendFailed>
    ensures count { K.faults sink.old ≤ K.faults sink.new }
    ensures ok { OnOk result (K.written sink.new ≡ told_after (K.written sink.old) bytes.now) }
    ensures prefix { IfErr result (λ fault. fault.written < length bytes.now) }
    ensures written { IfErr result
        (λ fault. K.written sink.new ≡ told_after (K.written sink.old) (take fault.written bytes.now)) }
    ensures failed { OnErr result (HasRisen (K.faults sink.old) (K.faults sink.new)) }
{
    let mut written = 0;
    while written < bytes.len() {
        match sink.write(&bytes[written..]) {
            Ok(taken) => written += taken,
            Err(SinkFailed) => return Err(SendFailed { written }),
        }
    }
    Ok(())
}
