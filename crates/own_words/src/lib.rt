//! The command line: the words behind the program's name, read as a command by `clap`.
//!
//! | Command | Words |
//! |---|---|
//! | `check` | FILE |
//! | `build` | FILE, `-o` OUT, `--trace` or not |
//! | `run` | FILE and INTs, with any of `-o` OUT, `--steps` N, `--trace` |
//! | `exec` | FILE and INTs, `--steps` N or not |
//! | `selftest` | NUMBER SIZE |
//!
//! Options stand in any order, each once at most. A value in the next word does not begin with `-`,
//! unless it is `-` alone, and behind the first `--` every word is a plain one. There is no help
//! and no version, and no option is abbreviated.
#![tactic(auto)]

ghost use Rattle.std.specs.Prelude.{◌≡◌, IfOk, IfErr, map, string_bytes};
ghost use Rattle.own_tree.specs.declared.command.Command.{Command};
ghost use Rattle.own_words.specs.Words.{Words};
ghost use Rattle.own_words.specs.declared.error.WordsError.TheVariants as words_error;

mod error;
mod given;
mod laws;
mod read;
#[cfg(test)]
mod tests;
mod told;

pub use error::WordsError;
use given::given_by;
pub use laws::words_law;
use own_tree::Command;
use std::alloc::Global;

/// The command that the words after the program's name are. `Usage` where they are none: an unknown
/// command or option, an option twice or without its value, a number of words that does not fit, an
/// empty file name, or a number that is none or out of its range. `Memory` where memory was refused.
pub fn read_words(alloc: Global, words: &[String]) -> Result<Command, WordsError>
    ensures ok { IfOk result (λ c. Words (map string_bytes words.now) c) }
    ensures usage { IfErr result (λ e. e ≡ words_error.Usage
        → (c : Command) → Words (map string_bytes words.now) c → ⊥) }
{
    let matches = told::line(alloc)?.try_get_matches_from(words)?;
    match matches.subcommand() {
        Some((name, line)) => read::command(alloc, name, &given_by(line)),
        None => Err(WordsError::Usage),
    }
}
