ghost use Rattle.std.specs.Prelude.{◌≡◌};
ghost use Rattle.own_uses.specs.declared.error.UsesError.TheVariants as uses_error;

use own_tree::{LimitKind, Span};
use std::alloc::{AllocError, AllocFailed};
use thiserror::Error;

/// Why a body has no op tree.
#[derive(Clone, Copy, Debug, PartialEq, Eq, Error)]
pub enum UsesError {
    /// One of M9 to M12, with the count that passes it, at the place by which the body is named. A count
    /// that is larger than a `u64` holds is given as the largest.
    #[error("limit passed with {count}")]
    Limit {
        which: LimitKind,
        count: u64,
        at: Span,
    },
    /// Memory was refused.
    #[error("out of memory")]
    Memory,
}

impl From<AllocError> for UsesError {
    ghost from_gives = { λ _ e. e ≡ uses_error.Memory };

    fn from(_error: AllocError) -> UsesError {
        UsesError::Memory
    }
}

impl<T: Drop> From<AllocFailed<T>> for UsesError {
    ghost from_gives = { λ _ e. e ≡ uses_error.Memory };

    fn from(_error: AllocFailed<T>) -> UsesError {
        UsesError::Memory
    }
}
