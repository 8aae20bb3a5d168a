//! The top call.

ghost use Rattle.std.specs.Prelude.{◌≡◌, ℕ, ◌≤◌, List, map, string_bytes, false};
ghost use Rattle.own_io.specs.Outside.{HasRisen};
ghost use Rattle.own_tool.specs.Headline.{IsAnswered, IsOther};
ghost use Rattle.own_tool.specs.Commands.{Answers, CommandAnswers, RunsModules, IsNotServed, IsLeft, NamesText};
ghost use Rattle.own_tool.specs.Commands.{is_served, saved_of};

use crate::build::build_file;
use crate::check::check_file;
use crate::exec::exec_file;
use crate::name::name_of;
use crate::run::{Asked, run_file};
use crate::saying::{MEMORY_LINE, USAGE_LINE, say};
use own_io::{Folder, Sink};
use own_tree::{Command, Status};
use own_words::{WordsError, read_words};
use std::alloc::Global;

/// Does what a command says.
fn obey<F: Folder, K: Sink, E: Sink>(
    alloc: Global,
    command: &Command,
    folder: &mut F,
    out: &mut K,
    err: &mut E,
) -> Status
    requires { NamesText command.now }
    ensures folder_count { F.faults folder.old ≤ F.faults folder.new }
    ensures out_count { K.faults out.old ≤ K.faults out.new }
    ensures err_count { E.faults err.old ≤ E.faults err.new }
    ensures names { (name : List ℕ) → IsOther (saved_of command.now) name
        → F.held folder.new name ≡ F.held folder.old name }
    ensures folder_alone { is_served command.now ≡ false → folder.new ≡ folder.old }
    ensures out_alone { is_served command.now ≡ false → out.new ≡ out.old }
    ensures answer { IsAnswered (CommandAnswers (record { tells = F.tells folder.old; held = F.held folder.old })
        (F.held folder.new) (HasRisen (F.faults folder.old) (F.faults folder.new)) command.now)
        (HasRisen (K.faults out.old) (K.faults out.new)) (HasRisen (E.faults err.old) (E.faults err.new))
        (K.written out.old) (K.written out.new) (E.written err.old) (E.written err.new) result }
{
    match command {
        Command::Check(file) => check_file(alloc, name_of(file), folder, out, err),
        Command::Build {
            file,
            out: saved,
            trace,
        } => {
            let (file, saved) = (name_of(file), name_of(saved));
            build_file(alloc, file, saved, *trace, folder, out, err)
        }
        Command::Run {
            file,
            out: saved,
            steps,
            trace,
            input,
        } => {
            let asked = Asked {
                file: name_of(file),
                saved,
                steps: *steps,
                traced: *trace,
                input: input.as_slice(),
            };
            run_file(alloc, &asked, folder, out, err)
        }
        Command::Exec { file, steps, input } => {
            let input = input.as_slice();
            exec_file(alloc, name_of(file), *steps, input, folder, out, err)
        }
        Command::Selftest { .. } => say(err, USAGE_LINE, Status::Usage),
    }
}

/// Does what the words of the command line say.
///
/// `check FILE` checks the text that the folder holds under FILE: it writes `accepted` where the text is accepted, and
/// else says why it is not. `build FILE -o OUT [--trace]` saves the module of an accepted text under OUT, and writes how
/// many flags it keeps. `run FILE [-o OUT] [--steps N] [--trace] [INT..]` makes at most N steps of that module, with these
/// numbers as its input, and saves it first where the words say so. `exec FILE [--steps N] [INT..]` makes at most N steps
/// of the module that the folder holds under FILE. Output goes to `out`, and what is said of the call to `err`. The
/// command `selftest` is not served yet, and is answered as words that are none.
pub fn swiftown<F: Folder, K: Sink, E: Sink>(
    alloc: Global,
    words: &[String],
    folder: &mut F,
    out: &mut K,
    err: &mut E,
) -> Status
    // What is answered, and what the two sinks gained.
    ensures answer { IsAnswered (Answers (record { tells = F.tells folder.old; held = F.held folder.old })
        (F.held folder.new) (HasRisen (F.faults folder.old) (F.faults folder.new)) (map string_bytes words.now))
        (HasRisen (K.faults out.old) (K.faults out.new)) (HasRisen (E.faults err.old) (E.faults err.new))
        (K.written out.old) (K.written out.new) (E.written err.old) (E.written err.new) result }
    // Every name of the folder is as before, but for the one that the words save a module under.
    ensures names { (name : List ℕ) → IsLeft (map string_bytes words.now) name
        → F.held folder.new name ≡ F.held folder.old name }
    // Where nothing outside failed, `exec` of a file that holds a module runs it, unless memory is refused.
    ensures runs_modules { (HasRisen (F.faults folder.old) (F.faults folder.new) → ⊥)
        → (HasRisen (K.faults out.old) (K.faults out.new) → ⊥) → (HasRisen (E.faults err.old) (E.faults err.new) → ⊥)
        → RunsModules (record { tells = F.tells folder.old; held = F.held folder.old })
        (map string_bytes words.now) result }
    // Words that are no command that is served leave the folder and the output alone.
    ensures folder_alone { IsNotServed (map string_bytes words.now) → folder.new ≡ folder.old }
    ensures out_alone { IsNotServed (map string_bytes words.now) → out.new ≡ out.old }

    ensures folder_count { F.faults folder.old ≤ F.faults folder.new }
    ensures out_count { K.faults out.old ≤ K.faults out.new }
    ensures err_count { E.faults err.old ≤ E.faults err.new }
{
    match read_words(alloc, words) {
        Ok(command) => obey(alloc, &command, folder, out, err),
        Err(WordsError::Usage) => say(err, USAGE_LINE, Status::Usage),
        Err(WordsError::Memory) => say(err, MEMORY_LINE, Status::Memory),
    }
}
