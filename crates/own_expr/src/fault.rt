ghost use Rattle.std.specs.Prelude.{◌≡◌};
ghost use Rattle.own_expr.specs.declared.fault.ReadError.TheVariants.{Memory};

use std::alloc::{AllocError, AllocFailed};

/// Why tokens could not be read. A place is the number of tokens that are left there.
#[derive(Debug, Drop)]
pub enum ReadError {
    Memory,
    Syntax(usize),
    Depth(usize),
}

impl From<AllocError> for ReadError {
    ghost from_gives = { λ _ e. e ≡ Memory };

    fn from(_error: AllocError) -> ReadError {
        ReadError::Memory
    }
}

impl<T: Drop> From<AllocFailed<T>> for ReadError {
    ghost from_gives = { λ _ e. e ≡ Memory };

    fn from(_error: AllocFailed<T>) -> ReadError {
        ReadError::Memory
    }
}

/// A fault that came after `part` was read, which is let go.
pub(crate) fn without<T: Drop>(_part: T, fault: ReadError) -> ReadError
    ensures { result ≡ fault }
{
    fault
}
