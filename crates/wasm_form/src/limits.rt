ghost use Rattle.wasm_form.specs.Limits.{LimitsAreThese};

/// The most types of a module.
pub const MOST_TYPES: u32 = 10_000;
/// The most functions that a module defines.
pub const MOST_FUNCTIONS: u32 = 10_000;
/// The most globals of a module.
pub const MOST_GLOBALS: u32 = 100;
/// The most exports of a module.
pub const MOST_EXPORTS: u32 = 10_000;
/// The most parameters of a type.
pub const MOST_PARAMETERS: u32 = 64;
/// The most locals of a function, its parameters counted.
pub const MOST_LOCALS: u32 = 4_400;
/// The most blocks, loops and ifs that stand in one another.
pub const MOST_LABELS: u32 = 1_024;
/// The most labels of a `br_table`, its default not counted.
pub const MOST_TARGETS: u32 = 4_096;
/// The largest least size of a table, in elements.
pub const MOST_TABLE: u32 = 16_384;
/// The largest least size of a memory, in pages of `PAGE` bytes.
pub const MOST_PAGES: u32 = 272;
/// The bytes of a page (Core 1.0, 4.2.8).
pub const PAGE: u32 = 65_536;
/// The most frames of a run: a call that would make one more traps with code 3.
pub const MOST_FRAMES: u32 = 1_001;
/// The most operands of a run, of all frames: a push that would make one more traps with code 17.
pub const MOST_OPERANDS: u32 = 1_048_576;

/// The constants are the numbers that the definitions name.
pub fn limits_are_these()
    ensures { LimitsAreThese }
{}

/// A limit of a module that is passed.
#[derive(Clone, Copy, Debug, PartialEq, Eq)]
pub enum ModuleLimit {
    Types,
    Functions,
    Globals,
    Exports,
    Parameters,
    Locals,
    Labels,
    Targets,
    Table,
    Pages,
}

/// What Core 1.0 has and the profile has not.
#[derive(Clone, Copy, Debug, PartialEq, Eq)]
pub enum Outside {
    /// A type or an instruction of floating point.
    Float,
    /// A start function.
    Start,
    /// An import other than the six, or one of them again.
    Import,
    /// A global that an initial or offset expression reads.
    Global,
}
