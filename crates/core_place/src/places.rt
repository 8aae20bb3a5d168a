//! The places of a body: bindings, paths and values that wait.

use crate::spot::Spot;
use crate::values::{field_offset, field_type};
use core_form::CoreWord;
use core_form::limits::ROOM;
use core_layout::{Layout, holder, is_alias};
use own_table::TypeTable;
use own_tree::typed::{BodyKind, TypedExpr};
use own_tree::{Place, Ty, Typed};
use own_within::node_of;
use std::alloc::{AllocError, Global};

/// A typed program with its types and its frames, as the body of that number sees them, and where memory is
/// taken.
#[derive(Clone, Copy)]
pub struct Places<'t> {
    pub alloc: Global,
    pub typed: &'t Typed,
    pub table: &'t TypeTable,
    pub layout: &'t Layout,
    pub body: u32,
}

impl Places<'_> {
    /// The body that a closure stands in.
    fn outer_of(&self, body: u32) -> Option<u32> {
        match self.typed.bodies.get(body as usize) {
            Some(body) => match body.kind {
                BodyKind::Closure(outer) => Some(outer),
                _ => None,
            },
            None => None,
        }
    }

    /// How many makers out the activation of a body is. A closure comes after the body that it stands in.
    fn makers_to(&self, body: u32) -> u32 {
        let mut at = self.body;
        let mut makers: u32 = 0;
        while at != body {
            match self.outer_of(at) {
                Some(outer) if outer < at => {
                    at = outer;
                    makers = makers.saturating_add(1);
                }
                _ => return makers,
            }
        }
        makers
    }

    /// How many makers out the activation is whose frame has a binding.
    fn makers_of(&self, number: u32) -> u32 {
        match self.typed.bindings.get(number as usize) {
            Some(binding) => self.makers_to(binding.body),
            None => 0,
        }
    }

    /// The first word of a binding.
    pub fn binding_at(&self, number: u32) -> Spot {
        let word = self.layout.offset(number);
        let makers = self.makers_of(number);
        if makers == 0 {
            Spot::Mine(word)
        } else {
            Spot::Outer { makers, word }
        }
    }

    /// The place that a binding stands for, from which so many words are counted.
    fn within_binding(&self, number: u32, words: u32) -> Spot {
        let at = self.binding_at(number);
        match self.typed.bindings.get(number as usize) {
            Some(binding) if is_alias(binding.mode) => at.behind(words),
            _ => at.on(words),
        }
    }

    /// The type of a binding, and `Unit` for a number that none has.
    pub fn type_of_binding(&self, number: u32) -> Ty {
        match self.typed.bindings.get(number as usize) {
            Some(binding) => binding.ty,
            None => Ty::Unit,
        }
    }

    /// Where a place stands.
    pub fn place_at(&self, place: &Place) -> Spot {
        let mut words: u32 = 0;
        let mut ty = self.type_of_binding(place.binding);
        for field in place.fields.as_slice() {
            words = words.saturating_add(field_offset(self.table, ty, *field));
            ty = field_type(self.table, ty, *field);
        }
        self.within_binding(place.binding, words)
    }

    /// The words in which the value of an expression waits, if there are some.
    pub fn waiting_at(&self, expr: &TypedExpr) -> Option<Spot> {
        match self.layout.node(node_of(holder(expr)).id) {
            Some(word) => Some(Spot::Mine(word)),
            None => None,
        }
    }

    /// Where a value waits while something is destroyed: at its node, or in the room of the frame.
    pub fn held_at(&self, expr: &TypedExpr) -> Spot {
        match self.waiting_at(expr) {
            Some(spot) => spot,
            None => Spot::Mine(ROOM),
        }
    }

    /// The word that stands there.
    pub fn load(&self, from: Spot) -> Result<CoreWord, AllocError> {
        Ok(CoreWord::Load(from.at(self.alloc)?))
    }

    /// The address of a place.
    pub fn address(&self, of: Spot) -> Result<CoreWord, AllocError> {
        Ok(CoreWord::Address(of.at(self.alloc)?))
    }
}
