//! The numbers of a core and of its runs. What they come to is stated in `laws.rt`.

/// The most forms that a run of a core counts for each token of its text and each of its turns, where one
/// turn more stands for the start.
pub const FORMS: u32 = 31_250;
/// The most steps of a machine for each form.
pub const STEPS: u32 = 32;

/// The words of a frame. Each call has one.
pub const FRAME: u32 = 2_066;
/// The word of a frame that says which activation made the closure that runs in it.
pub const MAKER: u32 = 0;
/// The word of a frame with the address of what is destroyed.
pub const DROPPED: u32 = 1;
/// The first of the words of a frame in which one value stands that is on its way.
pub const ROOM: u32 = 2;
/// The first of the words of a frame that the values of its body stand in.
pub const SLOTS: u32 = 66;
/// The words of all frames. The arguments of a call stand in the next frame before the call takes its
/// level, so there is one frame more than there are levels.
pub const FRAMES: u32 = 2_068_066;
/// The words of all frames and the common words behind them.
pub const AREA: u32 = 2_068_067;

/// The most words that one print evaluates.
pub const MOST_PRINTED: u32 = 32;
/// The most functions of a core.
pub const MOST_FUNCTIONS: u32 = 9_999;
/// The most local words of a function.
pub const MOST_LOCAL_WORDS: u32 = 4_362;
/// The largest displacement of a place, in words.
pub const MOST_DISPLACEMENT: u32 = 533_999_999;
/// The largest number of a block or loop that a jump leaves, counted from the innermost.
pub const MOST_JUMPED: u32 = 2_147_483_647;
/// The most labels of the machine that stand in one another in the code of a function.
pub const MOST_DEPTH: u32 = 1_024;
/// The most operands of the machine that the code of a function needs at once.
pub const MOST_HEIGHT: u32 = 1_000;
/// The most bytes of the texts of a core.
pub const MOST_CORE_TEXTS: u32 = 1_114_112;
/// The most bytes that the code of all functions has.
pub const MOST_CODE_BYTES: u32 = 4_200_000_000;
