//! Where a lowered function finds things: its locals, and the functions of its module. Local 0 has the first
//! byte of its frame, as an i32, and then come the two locals of checked arithmetic.

/// The local of the byte that a copy reads from, an i32.
pub const FROM: u32 = 3;
/// The local of the byte that a copy writes to, an i32.
pub const TO: u32 = 4;
/// The local of how many words a copy still has to do, an i32.
pub const LEFT: u32 = 5;
/// The most words that a copy moves one after another. More are moved by a loop.
pub const MOST_PLAIN_WORDS: u32 = 4;
/// The first of the locals that keep the words of a print.
pub const KEPT: u32 = 6;
/// The first of the locals that are the local words of the core.
pub const LOCALS: u32 = 38;

/// The import that writes an `Int`.
pub const WRITE_INT: u32 = 0;
/// The import that writes a truth.
pub const WRITE_BOOL: u32 = 1;
/// The import that writes bytes of memory.
pub const WRITE_TEXT: u32 = 2;
/// The import that reads a number.
pub const READ_INT: u32 = 4;
/// The function that the first function of the core is.
pub const OWN: u32 = 6;

/// The type of a function of the core, among the types of the module.
pub const FUNCTION: u32 = 1;
/// The type of main.
pub const MAIN: u32 = 4;

/// The pages of the memory, which hold all words and the texts.
pub const PAGES: u32 = 270;
