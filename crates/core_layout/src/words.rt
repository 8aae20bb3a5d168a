//! Which words the bindings and nodes of a program have.

use own_tree::Row;

/// Which words of its frame each binding has, and each node whose value waits there. The parameters of a
/// body come first, in order, so that they stand alike in all bodies of one signature. Words are counted
/// from the first one of the frame.
#[derive(Drop)]
pub struct Layout {
    /// Of each binding its first word.
    pub(crate) offsets: Row<u32>,
    /// Of each node its first word, or 0 where it has none.
    pub(crate) nodes: Row<u32>,
    /// Of each body its slots and the word of the maker.
    pub(crate) frames: Row<u32>,
}

impl Layout {
    /// The first word of a binding in the frame of its body, and 0 for a number that no binding has.
    pub fn offset(&self, binding: u32) -> u32 {
        match self.offsets.get(binding as usize) {
            Some(offset) => *offset,
            None => 0,
        }
    }

    /// The first word of a node, by its number, if its value has words to wait in.
    pub fn node(&self, number: u32) -> Option<u32> {
        match self.nodes.get(number as usize) {
            Some(0) | None => None,
            Some(offset) => Some(*offset),
        }
    }

    /// The slots of a body and the word of the maker, and 0 for a number that no body has.
    pub fn frame(&self, body: u32) -> u32 {
        match self.frames.get(body as usize) {
            Some(words) => *words,
            None => 0,
        }
    }
}
