//! What the instructions rely on in the function and the module that they stand in.

/// The local of type i64 that holds the first operand while it is tested. The one before it, local 0, is
/// never used here.
pub const FIRST: u32 = 1;

/// The local of type i64 that holds the second operand.
pub const SECOND: u32 = 2;

/// The function that is the import `trap`: the last of the six imports, where all stand in the order of
/// `HostCall`.
pub const TRAP: u32 = 5;

/// No operation takes more steps.
pub const MOST_STEPS: u32 = 26;

/// No operation needs room for more values, beyond those that stand below its operands.
pub const MOST_PUSHED: u32 = 4;
