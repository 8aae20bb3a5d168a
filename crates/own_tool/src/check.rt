//! `check`: a text that is read from a file, and whether it is accepted.

ghost use Rattle.std.specs.Prelude.{◌≡◌, ℕ, ◌≤◌, List, length, IfOk};
ghost use Rattle.own_io.specs.Outside.{HasRisen};
ghost use Rattle.own_tool.specs.Check.{AreRefusals, CheckAnswers};
ghost use Rattle.own_tool.specs.Declined as spec;
ghost use Rattle.own_tool.specs.Headline.{IsAnswered};

use crate::saying::{MEMORY_LINE, bytes_of, say};
use crate::texts::{read_line, too_long_line};
use own_build::{Checked, Refused, check_text};
use own_io::{Folder, LoadError, Sink};
use own_report::{finding_lines, refusal_text};
use own_tree::limits::MOST_TEXT_BYTES;
use own_tree::{Bytes, Status};
use std::alloc::{AllocError, Global};

/// What `check` writes where a text is accepted.
const ACCEPTED_LINE: &[u8] = b"accepted\n";

/// A text that is accepted, and its program.
#[derive(Drop)]
pub(crate) struct Accepted {
    pub text: Bytes,
    pub checked: Checked,
}

/// Why nothing is done with a file.
#[derive(Debug, Drop)]
pub(crate) enum Declined {
    /// It could not be read.
    ReadFault,
    /// It has more bytes than a text may have.
    TooLong,
    /// Its text is not accepted: the line of a refusal, or those of its findings.
    Refused(Bytes),
    /// Memory was refused.
    Memory,
}

/// What is said of a text that is not accepted. There is nothing for want of memory.
fn refused_lines(
    alloc: Global,
    file: &str,
    text: &[u8],
    refused: &Refused,
) -> Result<Bytes, AllocError>
    requires { length text.now ≤ 1048576 }
    ensures { IfOk result (AreRefusals file.now text.now) }
{
    match refused {
        Refused::Refusal(refusal) => refusal_text(alloc, file, text, refusal),
        Refused::Findings(typed, table, findings) => {
            finding_lines(alloc, file, text, typed, table, findings.as_slice())
        }
        Refused::Memory => Err(AllocError),
    }
}

/// Why a text is not accepted, with what is said of it.
fn declined_text(alloc: Global, file: &str, text: &[u8], refused: &Refused) -> Declined
    requires { length text.now ≤ 1048576 }
    ensures { spec.IsDeclinedText file.now text.now result }
{
    match refused_lines(alloc, file, text, refused) {
        Ok(lines) => Declined::Refused(lines),
        Err(_) => Declined::Memory,
    }
}

/// Checks a text.
fn accept_text(alloc: Global, file: &str, text: Bytes) -> Result<Accepted, Declined>
    requires { length text ≤ 1048576 }
    ensures { spec.TextIsOpened file.now text result }
{
    match check_text(alloc, text.as_slice()) {
        Ok(checked) => Ok(Accepted { text, checked }),
        Err(refused) => Err(declined_text(alloc, file, text.as_slice(), &refused)),
    }
}

/// Loads a text and checks it.
pub(crate) fn accept<F: Folder>(
    alloc: Global,
    file: &str,
    folder: &mut F,
) -> Result<Accepted, Declined>
    ensures folder_count { F.faults folder.old ≤ F.faults folder.new }
    ensures names { (name : List ℕ) → F.held folder.new name ≡ F.held folder.old name }
    ensures tells { F.tells folder.new ≡ F.tells folder.old }
    ensures opened { spec.IsOpened (record { tells = F.tells folder.old; held = F.held folder.old })
        (HasRisen (F.faults folder.old) (F.faults folder.new)) file.now result }
{
    match folder.load(file, MOST_TEXT_BYTES) {
        Ok(text) => accept_text(alloc, file, text),
        Err(LoadError::Failed) => Err(Declined::ReadFault),
        Err(LoadError::TooLong { .. }) => Err(Declined::TooLong),
        Err(LoadError::Memory) => Err(Declined::Memory),
    }
}

/// The status of a file that is declined.
fn status_of(declined: &Declined) -> Status
    ensures { result ≡ spec.status_of declined.now }
{
    match declined {
        Declined::ReadFault => Status::ReadFault,
        Declined::TooLong => Status::Refused,
        Declined::Refused(_) => Status::Refused,
        Declined::Memory => Status::Memory,
    }
}

/// The lines of a file that is declined. None is made for want of memory.
fn line_of(alloc: Global, file: &str, declined: &Declined) -> Result<Bytes, AllocError>
    ensures { IfOk result (λ line. line ≡ spec.line_of file.now declined.now) }
{
    match declined {
        Declined::ReadFault => bytes_of(alloc, read_line(alloc, file)?),
        Declined::TooLong => bytes_of(alloc, too_long_line(alloc, file)?),
        Declined::Refused(lines) => Bytes::from_slice(alloc, lines.as_slice()),
        Declined::Memory => Err(AllocError),
    }
}

/// Says why nothing is done with a file.
pub(crate) fn decline<E: Sink>(
    alloc: Global,
    file: &str,
    declined: &Declined,
    err: &mut E,
) -> Status
    ensures count { E.faults err.old ≤ E.faults err.new }
    ensures said { spec.IsDeclinedSo file.now declined.now result (E.written err.old) (E.written err.new)
        (HasRisen (E.faults err.old) (E.faults err.new)) }
{
    match line_of(alloc, file, declined) {
        Ok(line) => say(err, line.as_slice(), status_of(declined)),
        Err(_) => say(err, MEMORY_LINE, Status::Memory),
    }
}

/// Checks the text that the folder holds under FILE, and says what it came to.
pub(crate) fn check_file<F: Folder, K: Sink, E: Sink>(
    alloc: Global,
    file: &str,
    folder: &mut F,
    out: &mut K,
    err: &mut E,
) -> Status
    ensures folder_count { F.faults folder.old ≤ F.faults folder.new }
    ensures out_count { K.faults out.old ≤ K.faults out.new }
    ensures err_count { E.faults err.old ≤ E.faults err.new }
    ensures names { (name : List ℕ) → F.held folder.new name ≡ F.held folder.old name }
    ensures answer { IsAnswered (CheckAnswers (record { tells = F.tells folder.old; held = F.held folder.old })
        (HasRisen (F.faults folder.old) (F.faults folder.new)) file.now)
        (HasRisen (K.faults out.old) (K.faults out.new)) (HasRisen (E.faults err.old) (E.faults err.new))
        (K.written out.old) (K.written out.new) (E.written err.old) (E.written err.new) result }
{
    match accept(alloc, file, folder) {
        Ok(_) => say(out, ACCEPTED_LINE, Status::Done),
        Err(declined) => decline(alloc, file, &declined, err),
    }
}
