//! The codes of the traps that the machine itself makes, all with the offset 0.

ghost use Rattle.wasm_form.specs.Limits.{TrapCodesAreThese};

/// A call would make one frame too many.
pub const TOO_MANY_FRAMES: u32 = 3;
/// `unreachable` was executed.
pub const UNREACHABLE: u32 = 10;
/// An access reaches past the memory.
pub const PAST_MEMORY: u32 = 11;
/// An integer is divided by zero.
pub const DIVISION_BY_ZERO: u32 = 12;
/// A quotient does not fit its type.
pub const DIVISION_OVERFLOW: u32 = 13;
/// `call_indirect` names a place past the table.
pub const PAST_TABLE: u32 = 14;
/// `call_indirect` names an empty element.
pub const EMPTY_ELEMENT: u32 = 15;
/// `call_indirect` names a function of another type.
pub const OTHER_TYPE: u32 = 16;
/// A push would make one operand too many.
pub const TOO_MANY_OPERANDS: u32 = 17;
/// The machine is stuck: an operand is missing or of another type, an index names nothing, or a
/// function's end is reached with other values than its result.
pub const STUCK: u32 = 18;

/// The constants are the numbers that the definitions name.
pub fn trap_codes_are_these()
    ensures { TrapCodesAreThese }
{}
