//! `run`: the module of a text, and its run.

ghost use Rattle.std.specs.Prelude.{◌≡◌, ◌≢◌, ℕ, ◌≤◌, List, length, IfOk, OnErr};
ghost use Rattle.own_io.specs.Outside.{HasRisen};
ghost use Rattle.own_tool.specs.Check.{IsText};
ghost use Rattle.own_tool.specs.Executed.{status_of_run};
ghost use Rattle.own_tool.specs.Headline.{IsAnswered, IsOther, IsTextIfAny};
ghost use Rattle.own_tool.specs.Launched as spec;
ghost use Rattle.own_tool.specs.Run.{RunAnswers};
ghost use Rattle.wasm_form.specs.Bytes.{ModuleBytes};
ghost use Rattle.wasm_form.specs.Within.{IsWithin};

use crate::check::{Accepted, accept, decline};
use crate::exec::status_of_run;
use crate::name::name_of;
use crate::saying::{MEMORY_LINE, bytes_of, say};
use crate::texts::{steps_line, trap_line};
use own_build::{Checked, build};
use own_io::{Folder, SaveError, Sink};
use own_tree::{Bytes, Row, Status};
use std::alloc::{AllocError, Global};
use wasm_form::Module;
use wasm_read::read_module;
use wasm_run::{Machine, Ran};

/// What the words of `run` ask for.
#[derive(Clone, Copy)]
pub(crate) struct Asked<'w> {
    pub file: &'w str,
    /// The name that the module is saved under, if any.
    pub saved: &'w Option<Bytes>,
    pub steps: u64,
    pub traced: bool,
    pub input: &'w [i64],
}

/// Why the module of an accepted text was not run.
#[derive(Clone, Copy, Debug, PartialEq, Eq)]
pub(crate) enum Unrun {
    /// It could not be saved.
    SaveFailed,
    /// Memory was refused.
    Memory,
}

impl From<AllocError> for Unrun {
    ghost use Rattle.own_tool.specs.declared.run.Unrun.TheVariants as unrun;

    ghost from_gives = { λ _ e. e ≡ unrun.Memory };

    fn from(_error: AllocError) -> Unrun {
        Unrun::Memory
    }
}

/// The most bytes of a module that is read back. One that was built has no more.
const MOST_BUILT_BYTES: usize = 4_294_967_295;

/// Reads a module back from the bytes that it was written as. No other bytes come here, so that want of memory alone
/// is in the way.
fn read_back(alloc: Global, bytes: &[u8]) -> Result<Module, AllocError>
    ensures spelled { IfOk result (λ code. ModuleBytes bytes.now code) }
    ensures within { IfOk result (λ code. IsWithin code) }
{
    if bytes.len() > MOST_BUILT_BYTES {
        return Err(AllocError);
    }
    match read_module(alloc, bytes) {
        Ok(code) => Ok(code),
        Err(_) => Err(AllocError),
    }
}

/// Saves a module under the name that is asked for, if one is.
fn keep<F: Folder>(folder: &mut F, saved: &Option<Bytes>, bytes: &[u8]) -> Result<(), Unrun>
    requires { IsTextIfAny saved.now }
    ensures count { F.faults folder.old ≤ F.faults folder.new }
    ensures names { (name : List ℕ) → IsOther saved.now name → F.held folder.new name ≡ F.held folder.old name }
    ensures kept { spec.IsKept (record { tells = F.tells folder.old; held = F.held folder.old }) (F.held folder.new)
        (HasRisen (F.faults folder.old) (F.faults folder.new)) saved.now bytes.now result }
{
    let Some(name) = saved else {
        return Ok(());
    };
    match folder.save(name_of(name), bytes) {
        Ok(()) => Ok(()),
        Err(SaveError::Failed) => Err(Unrun::SaveFailed),
        Err(SaveError::Memory) => Err(Unrun::Memory),
    }
}

/// Runs the module that bytes spell, which are saved before its first step.
fn run_bytes<F: Folder, K: Sink>(
    alloc: Global,
    asked: &Asked<'_>,
    bytes: &[u8],
    folder: &mut F,
    out: &mut K,
) -> Result<Ran, Unrun>
    requires { IsTextIfAny asked.now.saved.now }
    ensures folder_count { F.faults folder.old ≤ F.faults folder.new }
    ensures count { K.faults out.old ≤ K.faults out.new }
    ensures names { (name : List ℕ) → IsOther asked.now.saved.now name
        → F.held folder.new name ≡ F.held folder.old name }
    ensures ran { spec.BytesRan (record { tells = F.tells folder.old; held = F.held folder.old }) (F.held folder.new)
        (HasRisen (F.faults folder.old) (F.faults folder.new)) asked.now.saved.now asked.now.steps asked.now.input.now
        bytes.now result (K.written out.old) (K.written out.new) (K.faults out.old) (K.faults out.new) }
{
    let code = read_back(alloc, bytes)?;
    let machine = Machine::start(alloc, &code, asked.input)?;
    keep(folder, asked.saved, bytes)?;
    Ok(machine.run(asked.steps, out))
}

/// Builds the module of an accepted text and runs it.
fn launch<F: Folder, K: Sink>(
    alloc: Global,
    asked: &Asked<'_>,
    checked: Checked,
    folder: &mut F,
    out: &mut K,
) -> Result<Ran, Unrun>
    requires { IsTextIfAny asked.now.saved.now }
    ensures folder_count { F.faults folder.old ≤ F.faults folder.new }
    ensures count { K.faults out.old ≤ K.faults out.new }
    ensures names { (name : List ℕ) → IsOther asked.now.saved.now name
        → F.held folder.new name ≡ F.held folder.old name }
    ensures ran { spec.HasRun (record { tells = F.tells folder.old; held = F.held folder.old }) (F.held folder.new)
        (HasRisen (F.faults folder.old) (F.faults folder.new)) asked.now.saved.now asked.now.steps asked.now.input.now
        result (K.written out.old) (K.written out.new) (K.faults out.old) (K.faults out.new) }
{
    let built = build(alloc, checked, asked.traced)?;
    run_bytes(alloc, asked, built.bytes.as_slice(), folder, out)
}

/// The line of a run. After a failed write there is none, and it takes no memory.
fn line_of_ran(alloc: Global, file: &str, text: &[u8], ran: Ran) -> Result<Bytes, AllocError>
    requires { length text.now ≤ 1048576 }
    ensures line { IfOk result (λ line. line ≡ spec.line_of_ran file.now text.now ran) }
    ensures whole { OnErr result (status_of_run ran ≢ Status.WriteFault) }
{
    match ran {
        Ran::Ended { .. } => Ok(Row::new(alloc)),
        Ran::Trapped { code, at } => bytes_of(alloc, trap_line(alloc, file, text, code, at)?),
        Ran::Running => bytes_of(alloc, steps_line(alloc)?),
        Ran::SinkFault => Ok(Row::new(alloc)),
    }
}

/// Says what a run came to.
fn tell_ran<E: Sink>(alloc: Global, file: &str, text: &[u8], ran: Ran, err: &mut E) -> Status
    requires { length text.now ≤ 1048576 }
    ensures count { E.faults err.old ≤ E.faults err.new }
    ensures said { spec.IsRanSaid file.now text.now ran result (E.written err.old) (E.written err.new)
        (HasRisen (E.faults err.old) (E.faults err.new)) }
{
    match line_of_ran(alloc, file, text, ran) {
        Ok(line) => say(err, line.as_slice(), status_of_run(ran)),
        Err(_) => say(err, MEMORY_LINE, Status::Memory),
    }
}

/// Says what the module of a text came to. After a failed save nothing is said.
fn tell_launch<E: Sink>(
    alloc: Global,
    file: &str,
    text: &[u8],
    launched: Result<Ran, Unrun>,
    err: &mut E,
) -> Status
    requires { length text.now ≤ 1048576 }
    ensures count { E.faults err.old ≤ E.faults err.new }
    ensures said { spec.IsLaunchSaid file.now text.now launched result (E.written err.old) (E.written err.new)
        (HasRisen (E.faults err.old) (E.faults err.new)) }
{
    match launched {
        Ok(ran) => tell_ran(alloc, file, text, ran, err),
        Err(Unrun::Memory) => say(err, MEMORY_LINE, Status::Memory),
        Err(Unrun::SaveFailed) => Status::WriteFault,
    }
}

/// Runs an accepted text, and says what it came to.
fn run_accepted<F: Folder, K: Sink, E: Sink>(
    alloc: Global,
    asked: &Asked<'_>,
    accepted: Accepted,
    folder: &mut F,
    out: &mut K,
    err: &mut E,
) -> Status
    requires name { IsTextIfAny asked.now.saved.now }
    requires content { IsText (record { tells = F.tells folder.old; held = F.held folder.old })
        asked.now.file.now accepted.text }
    ensures folder_count { F.faults folder.old ≤ F.faults folder.new }
    ensures out_count { K.faults out.old ≤ K.faults out.new }
    ensures err_count { E.faults err.old ≤ E.faults err.new }
    ensures names { (name : List ℕ) → IsOther asked.now.saved.now name
        → F.held folder.new name ≡ F.held folder.old name }
    ensures answer { IsAnswered (RunAnswers (record { tells = F.tells folder.old; held = F.held folder.old })
        (F.held folder.new) asked.now.file.now asked.now.saved.now asked.now.steps asked.now.input.now
        (HasRisen (F.faults folder.old) (F.faults folder.new)))
        (HasRisen (K.faults out.old) (K.faults out.new)) (HasRisen (E.faults err.old) (E.faults err.new))
        (K.written out.old) (K.written out.new) (E.written err.old) (E.written err.new) result }
{
    let Accepted { text, checked } = accepted;
    let launched = launch(alloc, asked, checked, folder, out);
    tell_launch(alloc, asked.file, text.as_slice(), launched, err)
}

/// Runs the text that the folder holds under FILE, and says what it came to.
pub(crate) fn run_file<F: Folder, K: Sink, E: Sink>(
    alloc: Global,
    asked: &Asked<'_>,
    folder: &mut F,
    out: &mut K,
    err: &mut E,
) -> Status
    requires { IsTextIfAny asked.now.saved.now }
    ensures folder_count { F.faults folder.old ≤ F.faults folder.new }
    ensures out_count { K.faults out.old ≤ K.faults out.new }
    ensures err_count { E.faults err.old ≤ E.faults err.new }
    ensures names { (name : List ℕ) → IsOther asked.now.saved.now name
        → F.held folder.new name ≡ F.held folder.old name }
    ensures answer { IsAnswered (RunAnswers (record { tells = F.tells folder.old; held = F.held folder.old })
        (F.held folder.new) asked.now.file.now asked.now.saved.now asked.now.steps asked.now.input.now
        (HasRisen (F.faults folder.old) (F.faults folder.new)))
        (HasRisen (K.faults out.old) (K.faults out.new)) (HasRisen (E.faults err.old) (E.faults err.new))
        (K.written out.old) (K.written out.new) (E.written err.old) (E.written err.new) result }
{
    match accept(alloc, asked.file, folder) {
        Ok(accepted) => run_accepted(alloc, asked, accepted, folder, out, err),
        Err(declined) => decline(alloc, asked.file, &declined, err),
    }
}
