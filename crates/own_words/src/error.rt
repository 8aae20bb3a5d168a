ghost use Rattle.std.specs.Prelude.{◌≡◌, ◌↔◌};
ghost use Rattle.clap.specs.Values.{kind_of};
ghost use Rattle.clap.specs.declared.error.kind.ErrorKind.TheVariants as kind;
ghost use Rattle.own_words.specs.declared.error.WordsError.TheVariants as words_error;

use clap::error::ErrorKind;
use std::alloc::{AllocError, AllocFailed};
use thiserror::Error;

/// Why words are no command.
#[derive(Clone, Copy, Debug, PartialEq, Eq, Error)]
pub enum WordsError {
    /// The words are no command's.
    #[error("no command")]
    Usage,
    /// Memory was refused.
    #[error("out of memory")]
    Memory,
}

impl From<AllocError> for WordsError {
    ghost from_gives = { λ _ e. e ≡ words_error.Memory };

    fn from(_error: AllocError) -> WordsError {
        WordsError::Memory
    }
}

impl<T: Drop> From<AllocFailed<T>> for WordsError {
    ghost from_gives = { λ _ e. e ≡ words_error.Memory };

    fn from(_error: AllocFailed<T>) -> WordsError {
        WordsError::Memory
    }
}

impl From<clap::Error> for WordsError {
    ghost from_gives = { λ error e. (e ≡ words_error.Memory) ↔ (kind_of error ≡ kind.OutOfMemory) };

    fn from(error: clap::Error) -> WordsError {
        if matches!(error.kind(), ErrorKind::OutOfMemory) {
            WordsError::Memory
        } else {
            WordsError::Usage
        }
    }
}
