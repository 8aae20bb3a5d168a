//! Places of words that can be named again and again.

use core_form::CoreAt;
use core_form::limits::MAKER;
use sqlite_items::Boxed;
use std::alloc::{AllocError, Global};

/// Where a word stands. Words are counted from 0.
#[derive(Clone, Copy, Debug, PartialEq, Eq)]
pub enum Spot {
    /// In the frame that runs.
    Mine(u32),
    /// In the frame of the next level.
    Next(u32),
    /// Behind all frames.
    Common(u32),
    /// In the frame of the activation so many makers out.
    Outer {
        makers: u32,
        word: u32,
    },
    /// So many words behind the address in a word, which stands in this frame or so many makers out.
    Behind {
        makers: u32,
        pointer: u32,
        word: u32,
    },
}

impl Spot {
    /// So many words on. What is past the largest number stays there, where no word of a frame is.
    pub fn on(self, words: u32) -> Spot {
        match self {
            Spot::Mine(word) => Spot::Mine(word.saturating_add(words)),
            Spot::Next(word) => Spot::Next(word.saturating_add(words)),
            Spot::Common(word) => Spot::Common(word.saturating_add(words)),
            Spot::Outer { makers, word } => Spot::Outer {
                makers,
                word: word.saturating_add(words),
            },
            Spot::Behind {
                makers,
                pointer,
                word,
            } => Spot::Behind {
                makers,
                pointer,
                word: word.saturating_add(words),
            },
        }
    }

    /// Behind the address that stands here, so many words on. Only a word of a binding holds an address,
    /// and other places stay as they are.
    pub fn behind(self, words: u32) -> Spot {
        match self {
            Spot::Mine(pointer) => Spot::Behind {
                makers: 0,
                pointer,
                word: words,
            },
            Spot::Outer { makers, word } => Spot::Behind {
                makers,
                pointer: word,
                word: words,
            },
            Spot::Next(_) | Spot::Common(_) | Spot::Behind { .. } => self,
        }
    }

    /// The place as the core names it.
    pub fn at(self, alloc: Global) -> Result<CoreAt, AllocError> {
        match self {
            Spot::Mine(word) => Ok(CoreAt::Mine(word)),
            Spot::Next(word) => Ok(CoreAt::Next(word)),
            Spot::Common(word) => Ok(CoreAt::Common(word)),
            Spot::Outer { makers, word } => outer(alloc, makers, word),
            Spot::Behind {
                makers,
                pointer,
                word,
            } => behind(alloc, outer(alloc, makers, pointer)?, word),
        }
    }
}

/// So many words behind the address that stands there.
fn behind(alloc: Global, pointer: CoreAt, word: u32) -> Result<CoreAt, AllocError> {
    Ok(CoreAt::Far(Boxed::new(alloc, pointer)?, word))
}

/// The word with the address of the activation that is so many makers out, and one more.
fn maker(alloc: Global, makers: u32) -> Result<CoreAt, AllocError> {
    let mut at = CoreAt::Mine(MAKER);
    for _ in 0..makers {
        at = behind(alloc, at, MAKER)?;
    }
    Ok(at)
}

/// A word of the frame that is so many makers out, by the address of its maker that each frame has.
fn outer(alloc: Global, makers: u32, word: u32) -> Result<CoreAt, AllocError> {
    match makers.checked_sub(1) {
        None => Ok(CoreAt::Mine(word)),
        Some(more) => behind(alloc, maker(alloc, more)?, word),
    }
}
