//! Expressions. A number or a truth is a word; any value can be left in the room of the next frame. The walk
//! goes as deep as the expression is nested.

use crate::coder::{Coder, ON_ITS_WAY, is_word};
use crate::events::text_piece;
use crate::items::value_piece;
use crate::texts::SPACE;
use core_form::{CoreForm, CorePiece, CoreWord};
use core_place::{Spot, push_when};
use own_tree::Passing;
use own_tree::typed::{At, Target, TypedExpr};
use own_within::{first_passing, node_of, other_passings};
use std::alloc::AllocError;

impl Coder<'_> {
    /// The word of a number or a truth.
    #[cycle(expressions)]
    pub(crate) fn word_of(&self, expr: &TypedExpr) -> Result<CoreWord, AllocError> {
        match expr {
            TypedExpr::Parenthesized(_, inner) => self.word_of(inner.get()),
            TypedExpr::Negate(_, _, inner) | TypedExpr::Not(_, inner) => {
                let operand = self.word_of(inner.get())?;
                self.prefixed(expr, operand)
            }
            TypedExpr::Arithmetic(_, _, _, left, right)
            | TypedExpr::Wrapping(_, _, left, right)
            | TypedExpr::Compare(_, _, left, right)
            | TypedExpr::Logic(_, _, left, right) => {
                let left = self.word_of(left.get())?;
                let right = self.word_of(right.get())?;
                self.operation(expr, left, right)
            }
            TypedExpr::Choice(_, test, first, second) => {
                let test = self.word_of(test.get())?;
                let first = self.word_of(first.get())?;
                let second = self.word_of(second.get())?;
                self.pick(test, first, second)
            }
            TypedExpr::Member(_, inner, field) => {
                let mut code = self.no_code();
                let at = self.push_member(&mut code, inner.get(), *field)?;
                self.loaded_after(code, at)
            }
            TypedExpr::Call(_, Target::ReadInt, _, _) => Ok(CoreWord::ReadInt),
            TypedExpr::Call(at, target, arguments, passings) => {
                let mut code = self.no_code();
                self.push_call(
                    &mut code,
                    *at,
                    *target,
                    arguments.as_slice(),
                    passings.as_slice(),
                )?;
                self.loaded_after(code, ON_ITS_WAY)
            }
            _ => self.plain_word(expr),
        }
    }

    /// Adds what leaves the value of an expression in the room of the next frame.
    #[cycle(expressions)]
    pub(crate) fn push_code(
        &self,
        code: &mut Vec<CoreForm>,
        expr: &TypedExpr,
    ) -> Result<(), AllocError> {
        match expr {
            TypedExpr::Parenthesized(_, inner) => self.push_code(code, inner.get()),
            TypedExpr::Member(at, inner, field) => {
                let from = self.push_member(code, inner.get(), *field)?;
                self.places.push_copied(code, at.ty, from, ON_ITS_WAY)
            }
            TypedExpr::Call(at, target, arguments, passings) => {
                self.push_call(
                    code,
                    *at,
                    *target,
                    arguments.as_slice(),
                    passings.as_slice(),
                )
            }
            TypedExpr::Choice(at, test, first, second) if !is_word(at.ty) => {
                let test = self.word_of(test.get())?;
                let mut chosen = self.no_code();
                self.push_code(&mut chosen, first.get())?;
                let mut other = self.no_code();
                self.push_code(&mut other, second.get())?;
                push_when(code, test, chosen, other)
            }
            TypedExpr::Negate(..)
            | TypedExpr::Not(..)
            | TypedExpr::Arithmetic(..)
            | TypedExpr::Wrapping(..)
            | TypedExpr::Compare(..)
            | TypedExpr::Logic(..)
            | TypedExpr::Choice(..) => {
                let word = self.word_of(expr)?;
                self.push_store(code, ON_ITS_WAY, word)
            }
            _ => self.push_plain(code, expr),
        }
    }

    /// Adds what reads a stored property of a value that is no place, and tells where it then stands.
    #[cycle(expressions)]
    fn push_member(
        &self,
        code: &mut Vec<CoreForm>,
        inner: &TypedExpr,
        field: u32,
    ) -> Result<Spot, AllocError> {
        if self.copies(inner) {
            self.push_code(code, inner)?;
            return Ok(self.member_on_its_way(inner, field));
        }
        let held = self.places.held_at(inner);
        self.push_value(code, inner, held)?;
        self.push_kept(code, inner, field, held)
    }

    /// Adds what evaluates an expression and then leaves its value at a place of words.
    #[cycle(expressions)]
    pub(crate) fn push_value(
        &self,
        code: &mut Vec<CoreForm>,
        expr: &TypedExpr,
        to: Spot,
    ) -> Result<(), AllocError> {
        let ty = node_of(expr).ty;
        if is_word(ty) {
            let word = self.word_of(expr)?;
            return self.push_store(code, to, word);
        }
        self.push_code(code, expr)?;
        self.places.push_copied(code, ty, ON_ITS_WAY, to)
    }

    /// Adds the call or the construction that stands at a node.
    #[cycle(expressions)]
    fn push_call(
        &self,
        code: &mut Vec<CoreForm>,
        at: At,
        target: Target,
        arguments: &[TypedExpr],
        passings: &[Passing],
    ) -> Result<(), AllocError> {
        match target {
            Target::Print => {
                let mut pieces = Vec::new(self.alloc);
                self.push_items(&mut pieces, arguments)?;
                self.push_line(code, pieces)
            }
            Target::ReadInt => self.push_store(code, ON_ITS_WAY, CoreWord::ReadInt),
            _ => {
                self.push_arguments(code, arguments, passings)?;
                self.push_applied(code, at, target, arguments, passings)
            }
        }
    }

    /// Adds what evaluates arguments, each of which then waits.
    #[cycle(expressions)]
    fn push_arguments(
        &self,
        code: &mut Vec<CoreForm>,
        arguments: &[TypedExpr],
        passings: &[Passing],
    ) -> Result<(), AllocError> {
        let mut passings = passings;
        for argument in arguments {
            if self.is_evaluated(argument, first_passing(passings)) {
                match self.places.waiting_at(argument) {
                    Some(to) => self.push_value(code, argument, to)?,
                    None => self.push_code(code, argument)?,
                }
            }
            passings = other_passings(passings);
        }
        Ok(())
    }

    /// Adds the items of a `print`, with a space between two.
    #[cycle(expressions)]
    fn push_items(
        &self,
        pieces: &mut Vec<CorePiece>,
        items: &[TypedExpr],
    ) -> Result<(), AllocError> {
        for (number, item) in items.iter().enumerate() {
            if number > 0 {
                pieces.push(text_piece(SPACE))?;
            }
            match self.text_of(item) {
                Some(text) => pieces.push(text_piece(text))?,
                None => {
                    let word = self.word_of(item)?;
                    pieces.push(value_piece(node_of(item).ty, word))?;
                }
            }
        }
        Ok(())
    }
}
