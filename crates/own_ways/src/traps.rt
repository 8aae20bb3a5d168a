//! The codes of the traps of a run.

/// The exact result of an operation is no `Int`.
pub const OVERFLOW: u32 = 1;
/// A divisor is 0.
pub const ZERO_DIVISOR: u32 = 2;
/// A step to one level more than `MOST_LEVELS`.
pub const TOO_MANY_LEVELS: u32 = 3;
/// A range ends before it begins.
pub const EMPTY_RANGE: u32 = 4;
