ghost use Rattle.std.specs.Prelude.{◌≡◌};
ghost use Rattle.own_table.specs.declared.error.TableError.TheVariants as table_error;

use crate::extent::Over;
use own_tree::{LimitKind, Span};
use std::alloc::{AllocError, AllocFailed};
use thiserror::Error;

/// Why a text has no table of types.
#[derive(Clone, Copy, Debug, PartialEq, Eq, Error)]
pub enum TableError {
    /// One of M4 to M8, with the count that passes it.
    #[error("limit passed with {count}")]
    Limit {
        which: LimitKind,
        count: u64,
        at: Span,
    },
    /// A judgement of the type table, T01 to T08 by its number, that is false at a place of the text.
    #[error("error T{code:02}")]
    BadType {
        code: u8,
        at: Span,
    },
    /// Memory was refused.
    #[error("out of memory")]
    Memory,
}

impl From<AllocError> for TableError {
    ghost from_gives = { λ _ e. e ≡ table_error.Memory };

    fn from(_error: AllocError) -> TableError {
        TableError::Memory
    }
}

impl<T: Drop> From<AllocFailed<T>> for TableError {
    ghost from_gives = { λ _ e. e ≡ table_error.Memory };

    fn from(_error: AllocFailed<T>) -> TableError {
        TableError::Memory
    }
}

/// Why types whose names are resolved have no table.
#[derive(Clone, Copy, Debug, PartialEq, Eq)]
pub enum Unfit {
    /// They are not within M4, M5 and M7, T01, T04 or T05 is false of one, or one has parts of another
    /// kind.
    Parts,
    /// T03, at the type with this number.
    ContainsItself(u32),
    /// M8.
    Over(Over),
    /// Memory was refused.
    Memory,
}
