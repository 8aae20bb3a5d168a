//! How far each type is while the types are put in order.

ghost use Rattle.std.specs.Prelude.{◌≡◌};
ghost use Rattle.own_table.specs.declared.mark.Unordered.TheVariants as unordered;

use std::alloc::{AllocError, AllocFailed};

#[derive(Clone, Copy, Debug)]
pub enum Mark {
    New,
    /// It is looked at, and so is a type that contains it.
    Open,
    /// It and all that it contains are in the order.
    Settled,
}

/// Why the types of a text have no order in which each comes after what it contains.
#[derive(Clone, Copy, Debug)]
pub enum Unordered {
    /// T03, at the type with this number.
    ContainsItself(u32),
    Memory,
}

impl From<AllocError> for Unordered {
    ghost from_gives = { λ _ e. e ≡ unordered.Memory };

    fn from(_error: AllocError) -> Unordered {
        Unordered::Memory
    }
}

impl<T: Drop> From<AllocFailed<T>> for Unordered {
    ghost from_gives = { λ _ e. e ≡ unordered.Memory };

    fn from(_error: AllocFailed<T>) -> Unordered {
        Unordered::Memory
    }
}
