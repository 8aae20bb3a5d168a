ghost use Rattle.std.specs.Prelude.{◌≡◌};
ghost use Rattle.own_calls.specs.declared.error.TypeError.TheVariants as type_error;

use own_tree::{Bytes, Span};
use std::alloc::{AllocError, AllocFailed};
use thiserror::Error;

/// Why the bodies of a text have no typing.
#[derive(Debug, Drop, Error)]
pub enum TypeError {
    /// A judgement of bodies, T10 to T32 by its number, that is false at a place of the text. T20 comes
    /// as `Uncovered`.
    #[error("error T{code:02}")]
    BadType { code: u8, at: Span },
    /// T20: the patterns of the `switch` at that place leave out a value of this form, printed in UTF-8.
    #[error("error T20")]
    Uncovered { at: Span, form: Bytes },
    /// Memory was refused.
    #[error("out of memory")]
    Memory,
}

impl From<AllocError> for TypeError {
    ghost from_gives = { λ _ e. e ≡ type_error.Memory };

    fn from(_error: AllocError) -> TypeError {
        TypeError::Memory
    }
}

impl<T: Drop> From<AllocFailed<T>> for TypeError {
    ghost from_gives = { λ _ e. e ≡ type_error.Memory };

    fn from(_error: AllocFailed<T>) -> TypeError {
        TypeError::Memory
    }
}
