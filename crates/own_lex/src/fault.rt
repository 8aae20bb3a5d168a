ghost use Rattle.std.specs.Prelude.{◌≡◌, ◌-◌};
ghost use Rattle.own_lex.specs.declared.fault.Fault.TheVariants.{Memory};

use own_tree::LexError;
use std::alloc::{AllocError, AllocFailed};

/// Why no token could be read. A place is the number of bytes that were left there.
#[derive(Debug, Drop)]
pub(crate) enum Fault {
    Memory,
    BadChar(u32),
    OpenComment(u32),
    OpenText(u32),
    WideNumber(u32),
    TooManyTokens(u32),
}

impl From<AllocError> for Fault {
    ghost from_gives = { λ _ e. e ≡ Memory };

    fn from(_error: AllocError) -> Fault {
        Fault::Memory
    }
}

impl<T: Drop> From<AllocFailed<T>> for Fault {
    ghost from_gives = { λ _ e. e ≡ Memory };

    fn from(_error: AllocFailed<T>) -> Fault {
        Fault::Memory
    }
}

/// The place, in bytes from 0, at which so many bytes are left. They are never more than all.
fn place(total: u32, left: u32) -> u32
    ensures { result ≡ total - left }
{
    total.saturating_sub(left)
}

impl Fault {
    ghost use Rattle.own_lex.specs.Lexed.{placed};

    /// The same as an error of a text that has so many bytes.
    pub(crate) fn placed(self, total: u32) -> LexError
        ensures { result ≡ placed total self }
    {
        match self {
            Fault::Memory => LexError::Memory,
            Fault::BadChar(left) => LexError::BadChar {
                at: place(total, left),
            },
            Fault::OpenComment(left) => LexError::OpenComment {
                at: place(total, left),
            },
            Fault::OpenText(left) => LexError::OpenText {
                at: place(total, left),
            },
            Fault::WideNumber(left) => LexError::WideNumber {
                at: place(total, left),
            },
            Fault::TooManyTokens(left) => LexError::TooManyTokens {
                at: place(total, left),
            },
        }
    }
}
