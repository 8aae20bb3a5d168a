//! `build`: the module of a text, which is saved.

ghost use Rattle.std.specs.Prelude.{◌≡◌, ◌≢◌, ℕ, ◌≤◌, List, IfOk};
ghost use Rattle.own_io.specs.Outside.{HasRisen};
ghost use Rattle.own_tool.specs.Build.{BuildAnswers};
ghost use Rattle.own_tool.specs.Delivered.{IsMade, AcceptedAnswers};
ghost use Rattle.own_tool.specs.Headline.{IsAnswered};

use crate::check::{accept, decline};
use crate::saying::{MEMORY_LINE, bytes_of, say};
use crate::texts::flags_line;
use own_build::{Checked, build};
use own_io::{Folder, SaveError, Sink};
use own_tree::{Bytes, Status};
use std::alloc::{AllocError, Global};

/// The bytes of a module, and the line that `build` writes of it.
#[derive(Drop)]
struct Made {
    bytes: Bytes,
    line: Bytes,
}

/// Builds the module of an accepted text.
fn make(alloc: Global, checked: Checked, traced: bool) -> Result<Made, AllocError>
    ensures { IfOk result IsMade }
{
    let built = build(alloc, checked, traced)?;
    let line = bytes_of(alloc, flags_line(alloc, built.core.flags().len())?)?;
    Ok(Made {
        bytes: built.bytes,
        line,
    })
}

/// Saves a module and says so. After a failed save nothing is said.
fn deliver<F: Folder, K: Sink, E: Sink>(
    made: &Made,
    saved: &str,
    folder: &mut F,
    out: &mut K,
    err: &mut E,
) -> Status
    requires { IsMade made.now }
    ensures folder_count { F.faults folder.old ≤ F.faults folder.new }
    ensures out_count { K.faults out.old ≤ K.faults out.new }
    ensures err_count { E.faults err.old ≤ E.faults err.new }
    ensures names { (name : List ℕ) → name ≢ saved.now → F.held folder.new name ≡ F.held folder.old name }
    ensures answer { IsAnswered (AcceptedAnswers (record { tells = F.tells folder.old; held = F.held folder.old })
        (F.held folder.new) (HasRisen (F.faults folder.old) (F.faults folder.new)) saved.now)
        (HasRisen (K.faults out.old) (K.faults out.new)) (HasRisen (E.faults err.old) (E.faults err.new))
        (K.written out.old) (K.written out.new) (E.written err.old) (E.written err.new) result }
{
    match folder.save(saved, made.bytes.as_slice()) {
        Ok(()) => say(out, made.line.as_slice(), Status::Done),
        Err(SaveError::Failed) => Status::WriteFault,
        Err(SaveError::Memory) => say(err, MEMORY_LINE, Status::Memory),
    }
}

/// Builds an accepted text and saves its module.
fn build_accepted<F: Folder, K: Sink, E: Sink>(
    alloc: Global,
    checked: Checked,
    saved: &str,
    traced: bool,
    folder: &mut F,
    out: &mut K,
    err: &mut E,
) -> Status
    ensures folder_count { F.faults folder.old ≤ F.faults folder.new }
    ensures out_count { K.faults out.old ≤ K.faults out.new }
    ensures err_count { E.faults err.old ≤ E.faults err.new }
    ensures names { (name : List ℕ) → name ≢ saved.now → F.held folder.new name ≡ F.held folder.old name }
    ensures answer { IsAnswered (AcceptedAnswers (record { tells = F.tells folder.old; held = F.held folder.old })
        (F.held folder.new) (HasRisen (F.faults folder.old) (F.faults folder.new)) saved.now)
        (HasRisen (K.faults out.old) (K.faults out.new)) (HasRisen (E.faults err.old) (E.faults err.new))
        (K.written out.old) (K.written out.new) (E.written err.old) (E.written err.new) result }
{
    match make(alloc, checked, traced) {
        Ok(made) => deliver(&made, saved, folder, out, err),
        Err(_) => say(err, MEMORY_LINE, Status::Memory),
    }
}

/// Builds the text that the folder holds under FILE, saves its module under OUT, and says what it came to.
pub(crate) fn build_file<F: Folder, K: Sink, E: Sink>(
    alloc: Global,
    file: &str,
    saved: &str,
    traced: bool,
    folder: &mut F,
    out: &mut K,
    err: &mut E,
) -> Status
    ensures folder_count { F.faults folder.old ≤ F.faults folder.new }
    ensures out_count { K.faults out.old ≤ K.faults out.new }
    ensures err_count { E.faults err.old ≤ E.faults err.new }
    ensures names { (name : List ℕ) → name ≢ saved.now → F.held folder.new name ≡ F.held folder.old name }
    ensures answer { IsAnswered (BuildAnswers (record { tells = F.tells folder.old; held = F.held folder.old })
        (F.held folder.new) (HasRisen (F.faults folder.old) (F.faults folder.new)) file.now saved.now)
        (HasRisen (K.faults out.old) (K.faults out.new)) (HasRisen (E.faults err.old) (E.faults err.new))
        (K.written out.old) (K.written out.new) (E.written err.old) (E.written err.new) result }
{
    match accept(alloc, file, folder) {
        Ok(accepted) => build_accepted(alloc, accepted.checked, saved, traced, folder, out, err),
        Err(declined) => decline(alloc, file, &declined, err),
    }
}
