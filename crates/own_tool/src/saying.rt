//! The lines of the error output, as they are written.

ghost use Rattle.std.specs.Prelude.{◌≡◌, ◌≤◌, IfOk, string_bytes};
ghost use Rattle.own_io.specs.Outside.{HasRisen};
ghost use Rattle.own_tool.specs.Saying.{Said};

use own_io::{Sink, send};
use own_tree::{Bytes, Status};
use std::alloc::{AllocError, Global};

pub(crate) const USAGE_LINE: &[u8] = b"usage: swiftown COMMAND ARGUMENTS\n";

pub(crate) const MEMORY_LINE: &[u8] = b"out of memory\n";

/// The bytes of a line.
pub(crate) fn bytes_of(alloc: Global, line: String) -> Result<Bytes, AllocError>
    ensures { IfOk result (λ bytes. bytes ≡ string_bytes line) }
{
    Bytes::from_slice(alloc, line.as_bytes())
}

/// Writes the line of an answer.
pub(crate) fn say<E: Sink>(err: &mut E, line: &[u8], answer: Status) -> Status
    ensures count { E.faults err.old ≤ E.faults err.new }
    ensures said { Said answer line.now result (E.written err.old) (E.written err.new)
        (HasRisen (E.faults err.old) (E.faults err.new)) }
{
    match send(err, line) {
        Ok(()) => answer,
        Err(_) => Status::WriteFault,
    }
}
