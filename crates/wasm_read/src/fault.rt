//! Why bytes are refused.

ghost use Rattle.std.specs.Prelude.{◌≡◌, Option, Some};
ghost use Rattle.wasm_read.specs.Fault.{kind_of};
ghost use Rattle.wasm_read.specs.declared.fault.Stop.TheVariants.{Memory};

use std::alloc::{AllocError, AllocFailed};
use wasm_form::limits::{ModuleLimit, Outside};

/// Why bytes are refused: the first fault from left to right. An offset is at most their number.
#[derive(Clone, Copy, Debug, PartialEq, Eq)]
pub enum ReadError {
    /// The bytes spell no module of Core 1.0.
    NotModule { at: u32 },
    /// They use what the profile has not.
    OutsideProfile { at: u32, what: Outside },
    /// A limit of a module is passed.
    Limit { which: ModuleLimit },
    /// No export `main` is a defined function without parameters and results.
    NoMain,
    /// Memory was refused.
    Memory,
}

/// The kind of a fault.
#[derive(Clone, Copy, Debug, PartialEq, Eq)]
pub enum Fault {
    NotModule,
    OutsideProfile(Outside),
    Limit(ModuleLimit),
    NoMain,
}

/// Why reading stopped: a fault, and how many bytes are left behind its place.
#[derive(Clone, Copy, Debug, PartialEq, Eq)]
pub(crate) enum Stop {
    Memory,
    Fault(Fault, usize),
}

impl Stop {
    /// A fault at the front of these bytes.
    pub(crate) fn at(kind: Fault, bytes: &[u8]) -> Stop
        ensures { kind_of result ≡ Some kind }
    {
        Stop::Fault(kind, bytes.len())
    }

    /// The same, where so many bytes follow those that were read.
    pub(crate) fn before(self, more: usize) -> Stop
        ensures { kind_of result ≡ kind_of self }
    {
        match self {
            Stop::Memory => Stop::Memory,
            Stop::Fault(kind, left) => Stop::Fault(kind, left.saturating_add(more)),
        }
    }
}

impl From<AllocError> for Stop {
    ghost from_gives = { λ _ e. e ≡ Memory };

    fn from(_e: AllocError) -> Stop {
        Stop::Memory
    }
}

impl<T: Drop> From<AllocFailed<T>> for Stop {
    ghost from_gives = { λ _ e. e ≡ Memory };

    fn from(_e: AllocFailed<T>) -> Stop {
        Stop::Memory
    }
}
