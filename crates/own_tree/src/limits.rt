ghost use Rattle.own_tree.specs.Limits.{LimitsAreThese};

/// M1: the most bytes of a text.
pub const MOST_TEXT_BYTES: usize = 1_048_576;
/// M2: the most tokens of a text.
pub const MOST_TOKENS: usize = 200_000;
/// M3: the deepest nesting of a tree.
pub const MOST_NESTING: u32 = 100;
/// M4: the most types of a text.
pub const MOST_TYPES: usize = 1_000;
/// M5: the most fields or cases of a type.
pub const MOST_FIELDS: usize = 256;
/// M6: the most bodies of a text: functions, methods, `init`, `deinit` and closures.
pub const MOST_BODIES: usize = 4_000;
/// M7: the most parameters of a body, and payloads of a case.
pub const MOST_PARAMETERS: usize = 32;
/// M8: the most slots of a type.
pub const MOST_TYPE_SLOTS: u32 = 64;
/// M9: the most slots of a body.
pub const MOST_BODY_SLOTS: u32 = 2_000;
/// M10: the most ops of a body.
pub const MOST_BODY_OPS: u64 = 20_000;
/// M11: the most leaves of a body.
pub const MOST_BODY_LEAVES: u32 = 2_000;
/// M12: the most makers of a body.
pub const MOST_BODY_MAKERS: u32 = 4_096;
/// M13: the most ops of all bodies.
pub const MOST_OPS: u64 = 1_000_000;
/// The most levels of calls and destructions of a run: a step to one more traps with code 3.
pub const MOST_LEVELS: u32 = 1_000;
/// The constants are the numbers that the definitions name.
pub fn limits_are_these()
    ensures { LimitsAreThese }
{}
