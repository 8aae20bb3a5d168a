//! Expressions and statements, by the code of what stands in them.

use crate::coder::{Coder, ON_ITS_WAY, is_word};
use core_form::{CoreForm, CoreWord};
use core_layout::types;
use core_place::{Spot, push_when};
use own_tree::typed::{TypedExpr, TypedPath};
use own_tree::{Arith, Place, Span};
use own_within::node_of;
use std::alloc::AllocError;

impl Coder<'_> {
    /// The word that stands at a place after some forms.
    pub(crate) fn loaded_after(
        &self,
        code: Vec<CoreForm>,
        at: Spot,
    ) -> Result<CoreWord, AllocError> {
        let word = self.places.load(at)?;
        self.following(code, word)
    }

    /// Adds what leaves the value of an expression without parts in the room of the next frame.
    pub(crate) fn push_plain(
        &self,
        code: &mut Vec<CoreForm>,
        expr: &TypedExpr,
    ) -> Result<(), AllocError> {
        match expr {
            TypedExpr::Number(..) | TypedExpr::Truth(..) => {
                let word = self.plain_word(expr)?;
                self.push_store(code, ON_ITS_WAY, word)
            }
            TypedExpr::Path(path) => self.push_path(code, path, false),
            TypedExpr::Consume(_, path) => self.push_path(code, path, true),
            _ => Ok(()),
        }
    }

    /// Adds what leaves the value of a path in the room of the next frame. It moves where it is consumed, and
    /// else where it cannot be copied (SE-0390).
    fn push_path(
        &self,
        code: &mut Vec<CoreForm>,
        path: &TypedPath,
        is_consumed: bool,
    ) -> Result<(), AllocError> {
        let from = self.places.place_at(&path.place);
        let ty = path.at.ty;
        if is_word(ty) {
            let word = self.places.load(from)?;
            return self.push_store(code, ON_ITS_WAY, word);
        }
        if is_consumed {
            self.places.push_moved(code, ty, from, ON_ITS_WAY)
        } else {
            self.places.push_taken(code, ty, from, ON_ITS_WAY)
        }
    }

    /// Adds what leaves the value of an expression where it waits, and tells where that is.
    pub(crate) fn push_held(
        &self,
        code: &mut Vec<CoreForm>,
        expr: &TypedExpr,
    ) -> Result<Spot, AllocError> {
        let to = self.places.held_at(expr);
        self.push_value(code, expr, to)?;
        Ok(to)
    }

    /// Adds the evaluation of an expression whose value is destroyed at once.
    pub(crate) fn push_ignored(
        &self,
        code: &mut Vec<CoreForm>,
        value: &TypedExpr,
    ) -> Result<(), AllocError> {
        let ty = node_of(value).ty;
        if !types::holds_tracked(self.places.table, ty) {
            return self.push_code(code, value);
        }
        let held = self.push_held(code, value)?;
        self.places.push_end(code, ty, held)
    }

    /// Adds an assignment: what the place still holds is destroyed after the new value was evaluated.
    pub(crate) fn push_assigned(
        &self,
        code: &mut Vec<CoreForm>,
        path: &TypedPath,
        value: &TypedExpr,
    ) -> Result<(), AllocError> {
        let to = self.places.place_at(&path.place);
        let ty = path.at.ty;
        if !types::holds_tracked(self.places.table, ty) {
            return self.push_value(code, value, to);
        }
        let held = self.push_held(code, value)?;
        self.places.push_end(code, ty, to)?;
        self.places.push_moved(code, ty, held, to)
    }

    /// Adds an assignment with arithmetic.
    pub(crate) fn push_updated(
        &self,
        code: &mut Vec<CoreForm>,
        path: &TypedPath,
        op: Arith,
        mark: Span,
        value: &TypedExpr,
    ) -> Result<(), AllocError> {
        let to = self.places.place_at(&path.place);
        let word = self.word_of(value)?;
        self.push_store(code, ON_ITS_WAY, word)?;
        let old = self.places.load(to)?;
        let operand = self.places.load(ON_ITS_WAY)?;
        let new = self.arithmetic(op, mark.start, old, operand)?;
        self.push_store(code, to, new)
    }

    /// Adds the declaration of a binding without a value.
    pub(crate) fn push_declared(
        &self,
        code: &mut Vec<CoreForm>,
        number: u32,
    ) -> Result<(), AllocError> {
        let ty = self.places.type_of_binding(number);
        let at = self.places.binding_at(number);
        self.places.push_clear(code, ty, at)
    }

    /// Adds `discard self` (SE-0390).
    pub(crate) fn push_discarded(
        &self,
        code: &mut Vec<CoreForm>,
        place: &Place,
    ) -> Result<(), AllocError> {
        let ty = self.places.type_of_binding(place.binding);
        let at = self.places.place_at(place);
        self.push_ended_by_discard(code, ty, at)?;
        self.places.push_clear(code, ty, at)
    }

    /// Adds a choice by the value of an expression.
    pub(crate) fn push_choice(
        &self,
        code: &mut Vec<CoreForm>,
        test: &TypedExpr,
        first: Vec<CoreForm>,
        second: Vec<CoreForm>,
    ) -> Result<(), AllocError> {
        let test: CoreWord = self.word_of(test)?;
        push_when(code, test, first, second)
    }
}
