//! `exec`: a module that is read from a file, and its run.

ghost use Rattle.std.specs.Prelude.{◌≡◌, ◌≢◌, ℕ, ◌≤◌, List, length, IfOk, OnErr};
ghost use Rattle.own_io.specs.Outside.{HasRisen};
ghost use Rattle.own_tool.specs.Executed as spec;
ghost use Rattle.own_tool.specs.Exec.{ExecAnswers};
ghost use Rattle.own_tool.specs.Headline.{IsAnswered};
ghost use Rattle.wasm_form.specs.Within.{IsWithin};
ghost use Rattle.wasm_form.specs.Steps.{machine_run};
ghost use Rattle.wasm_run.specs.Runs.{RanAs};

use crate::saying::{MEMORY_LINE, bytes_of, say};
use crate::texts::{bad_module_line, exec_trap_line, read_line, steps_line, too_long_module_line};
use own_io::{Folder, LoadError, Sink};
use own_tree::{Bytes, Row, Status};
use std::alloc::{AllocError, Global};
use wasm_form::Module;
use wasm_read::{ReadError, read_module};
use wasm_run::{Machine, Ran};

/// The most bytes of a module that is read.
pub(crate) const MOST_MODULE_BYTES: usize = 268_435_456;

/// What a module came to, before its line is said.
#[derive(Clone, Copy, Debug, PartialEq, Eq)]
pub(crate) enum Executed {
    ReadFault,
    TooLong,
    /// The bytes are no module that is taken, and why. It is no want of memory.
    Bad(ReadError),
    Ran(Ran),
}

/// The status of a run.
pub(crate) fn status_of_run(ran: Ran) -> Status
    ensures { result ≡ spec.status_of_run ran }
{
    match ran {
        Ran::Ended { .. } => Status::Done,
        Ran::Trapped { .. } => Status::Trapped,
        Ran::Running => Status::OutOfSteps,
        Ran::SinkFault => Status::WriteFault,
    }
}

/// The status of what a module came to.
fn status_of(executed: Executed) -> Status
    ensures { result ≡ spec.status_of executed }
{
    match executed {
        Executed::ReadFault => Status::ReadFault,
        Executed::TooLong => Status::BadModule,
        Executed::Bad(_) => Status::BadModule,
        Executed::Ran(ran) => status_of_run(ran),
    }
}

/// The line of a run. After a failed write there is none, and it takes no memory.
fn line_of_run(alloc: Global, file: &str, ran: Ran) -> Result<Bytes, AllocError>
    ensures line { IfOk result (λ line. line ≡ spec.line_of_run file.now ran) }
    ensures whole { OnErr result (spec.status_of_run ran ≢ Status.WriteFault) }
{
    match ran {
        Ran::Ended { .. } => Ok(Row::new(alloc)),
        Ran::Trapped { code, at } => bytes_of(alloc, exec_trap_line(alloc, file, code, at)?),
        Ran::Running => bytes_of(alloc, steps_line(alloc)?),
        Ran::SinkFault => Ok(Row::new(alloc)),
    }
}

/// The line of what a module came to.
fn line_of(alloc: Global, file: &str, executed: Executed) -> Result<Bytes, AllocError>
    ensures line { IfOk result (λ line. line ≡ spec.line_of file.now executed) }
    ensures whole { OnErr result (spec.status_of executed ≢ Status.WriteFault) }
{
    match executed {
        Executed::ReadFault => bytes_of(alloc, read_line(alloc, file)?),
        Executed::TooLong => bytes_of(alloc, too_long_module_line(alloc, file)?),
        Executed::Bad(error) => bytes_of(alloc, bad_module_line(alloc, file, error)?),
        Executed::Ran(ran) => line_of_run(alloc, file, ran),
    }
}

/// Runs a module: at most so many steps, on this input.
fn run_module<K: Sink>(
    alloc: Global,
    code: &Module,
    steps: u64,
    input: &[i64],
    out: &mut K,
) -> Result<Ran, AllocError>
    requires { IsWithin code.now }
    ensures count { K.faults out.old ≤ K.faults out.new }
    ensures ok { IfOk result (λ ran. RanAs ran (K.written out.old) (K.written out.new)
        (K.faults out.old) (K.faults out.new) (machine_run code.now input.now steps)) }
    ensures err { OnErr result (K.written out.new ≡ K.written out.old) }
{
    let machine = Machine::start(alloc, code, input)?;
    Ok(machine.run(steps, out))
}

/// What bytes came to that were not read: they are no module, unless memory was refused.
fn unread(error: ReadError) -> Result<Executed, AllocError>
    ensures { IfOk result (λ came. (came ≡ Executed.Bad error) × (error ≢ ReadError.Memory)) }
{
    match error {
        ReadError::Memory => Err(AllocError),
        _ => Ok(Executed::Bad(error)),
    }
}

/// Reads a module and runs it.
fn execute_bytes<K: Sink>(
    alloc: Global,
    bytes: &[u8],
    steps: u64,
    input: &[i64],
    out: &mut K,
) -> Result<Executed, AllocError>
    requires { length bytes.now ≤ MOST_MODULE_BYTES }
    ensures count { K.faults out.old ≤ K.faults out.new }
    ensures came { spec.BytesComeTo bytes.now steps input.now result
        (K.written out.old) (K.written out.new) (K.faults out.old) (K.faults out.new) }
{
    match read_module(alloc, bytes) {
        Ok(code) => Ok(Executed::Ran(run_module(alloc, &code, steps, input, out)?)),
        Err(error) => unread(error),
    }
}

/// Loads a module, reads it and runs it.
fn execute<F: Folder, K: Sink>(
    alloc: Global,
    file: &str,
    steps: u64,
    input: &[i64],
    folder: &mut F,
    out: &mut K,
) -> Result<Executed, AllocError>
    ensures folder_count { F.faults folder.old ≤ F.faults folder.new }
    ensures count { K.faults out.old ≤ K.faults out.new }
    ensures names { (name : List ℕ) → F.held folder.new name ≡ F.held folder.old name }
    ensures came { spec.ComesTo (record { tells = F.tells folder.old; held = F.held folder.old })
        (HasRisen (F.faults folder.old) (F.faults folder.new)) file.now steps input.now result
        (K.written out.old) (K.written out.new) (K.faults out.old) (K.faults out.new) }
{
    match folder.load(file, MOST_MODULE_BYTES) {
        Ok(bytes) => execute_bytes(alloc, bytes.as_slice(), steps, input, out),
        Err(LoadError::Failed) => Ok(Executed::ReadFault),
        Err(LoadError::TooLong { .. }) => Ok(Executed::TooLong),
        Err(LoadError::Memory) => Err(AllocError),
    }
}

/// Says what a module came to.
fn tell<E: Sink>(alloc: Global, file: &str, executed: Executed, err: &mut E) -> Status
    ensures count { E.faults err.old ≤ E.faults err.new }
    ensures said { spec.IsToldOf file.now executed result (E.written err.old) (E.written err.new)
        (HasRisen (E.faults err.old) (E.faults err.new)) }
{
    match line_of(alloc, file, executed) {
        Ok(line) => say(err, line.as_slice(), status_of(executed)),
        Err(_) => say(err, MEMORY_LINE, Status::Memory),
    }
}

/// Runs the module that the folder holds under FILE, with so many steps and this input, and says what it came to.
pub(crate) fn exec_file<F: Folder, K: Sink, E: Sink>(
    alloc: Global,
    file: &str,
    steps: u64,
    input: &[i64],
    folder: &mut F,
    out: &mut K,
    err: &mut E,
) -> Status
    ensures folder_count { F.faults folder.old ≤ F.faults folder.new }
    ensures out_count { K.faults out.old ≤ K.faults out.new }
    ensures err_count { E.faults err.old ≤ E.faults err.new }
    ensures names { (name : List ℕ) → F.held folder.new name ≡ F.held folder.old name }
    ensures answer { IsAnswered (ExecAnswers (record { tells = F.tells folder.old; held = F.held folder.old })
        (HasRisen (F.faults folder.old) (F.faults folder.new)) file.now steps input.now)
        (HasRisen (K.faults out.old) (K.faults out.new)) (HasRisen (E.faults err.old) (E.faults err.new))
        (K.written out.old) (K.written out.new) (E.written err.old) (E.written err.new) result }
{
    match execute(alloc, file, steps, input, folder, out) {
        Ok(executed) => tell(alloc, file, executed, err),
        Err(_) => say(err, MEMORY_LINE, Status::Memory),
    }
}
