//! Words that are given out, body by body.

use core_form::limits::SLOTS;
use std::alloc::{AllocError, Global};

/// The words that the bodies of a program have been given so far.
#[derive(Drop)]
pub(crate) struct Frames {
    /// Of each body the first word that is free.
    free: Vec<u32>,
    /// Of each binding its first word, or 0 as long as it has none.
    bindings: Vec<u32>,
    /// Of each node its first word, or 0 where it has none.
    nodes: Vec<u32>,
}

impl Frames {
    /// Frames of which no word of a value is taken.
    pub(crate) fn new(alloc: Global, bodies: usize, bindings: usize) -> Result<Frames, AllocError> {
        Ok(Frames {
            free: vec![in alloc; SLOTS; bodies]?,
            bindings: vec![in alloc; 0; bindings]?,
            nodes: Vec::new(alloc),
        })
    }

    /// The first of so many words of the frame of a body.
    fn take(&mut self, body: usize, words: u32) -> Result<u32, AllocError> {
        if body >= self.free.len() {
            return Ok(0);
        }
        let first = self.free[body];
        match first.checked_add(words) {
            Some(next) => {
                self.free[body] = next;
                Ok(first)
            }
            None => Err(AllocError),
        }
    }

    /// Gives a binding of a body its words, unless it has some.
    pub(crate) fn give_binding(
        &mut self,
        body: usize,
        number: usize,
        words: u32,
    ) -> Result<(), AllocError> {
        if number < self.bindings.len() && self.bindings[number] == 0 {
            let first = self.take(body, words)?;
            if number < self.bindings.len() {
                self.bindings[number] = first;
            }
        }
        Ok(())
    }

    /// Makes room for a node of that number.
    fn reach_node(&mut self, number: usize) -> Result<(), AllocError> {
        let known = self.nodes.len();
        if number >= known {
            self.nodes.resize(number.saturating_add(1), 0)?;
        }
        Ok(())
    }

    /// Gives a node in a body its words, unless it has some or needs none.
    pub(crate) fn give_node(
        &mut self,
        body: usize,
        number: usize,
        words: u32,
    ) -> Result<(), AllocError> {
        if words == 0 {
            return Ok(());
        }
        self.reach_node(number)?;
        if number < self.nodes.len() && self.nodes[number] == 0 {
            let first = self.take(body, words)?;
            if number < self.nodes.len() {
                self.nodes[number] = first;
            }
        }
        Ok(())
    }

    /// The words of each frame that are taken, with the one of the maker.
    pub(crate) fn sizes(&self, alloc: Global) -> Result<Vec<u32>, AllocError> {
        let mut sizes = Vec::new(alloc);
        for free in self.free.iter() {
            sizes.push(free.saturating_sub(SLOTS).saturating_add(1))?;
        }
        Ok(sizes)
    }

    /// The words of the bindings, and those of the nodes.
    pub(crate) fn into_words(self) -> (Vec<u32>, Vec<u32>) {
        let Frames {
            free: _free,
            bindings,
            nodes,
        } = self;
        (bindings, nodes)
    }
}
