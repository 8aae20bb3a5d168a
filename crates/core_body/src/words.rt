//! Words of numbers and truths, by the words of their parts.

use crate::coder::Coder;
use core_form::CoreWord;
use core_place::constant;
use own_tree::typed::{Comparison, Logic, TypedExpr};
use std::alloc::AllocError;

impl Coder<'_> {
    /// The word of an expression without parts. One that is neither a number nor a truth has none, and nobody
    /// asks for it.
    pub(crate) fn plain_word(&self, expr: &TypedExpr) -> Result<CoreWord, AllocError> {
        match expr {
            TypedExpr::Number(_, number) => Ok(CoreWord::Constant(*number)),
            TypedExpr::Truth(_, truth) => Ok(constant(u32::from(*truth))),
            TypedExpr::Path(path) | TypedExpr::Consume(_, path) => {
                self.places.load(self.places.place_at(&path.place))
            }
            _ => Ok(constant(0)),
        }
    }

    /// The word of a `-` or a `!`, by its operand.
    pub(crate) fn prefixed(
        &self,
        expr: &TypedExpr,
        operand: CoreWord,
    ) -> Result<CoreWord, AllocError> {
        match expr {
            TypedExpr::Negate(_, mark, _) => {
                Ok(CoreWord::Negate(mark.start, self.boxed(operand)?))
            }
            _ => self.compare(Comparison::Equal, operand, constant(0)),
        }
    }

    /// The second part of `&&` and `||` is evaluated only where the first one leaves it open.
    fn connected(
        &self,
        op: Logic,
        first: CoreWord,
        second: CoreWord,
    ) -> Result<CoreWord, AllocError> {
        match op {
            Logic::And => self.pick(first, second, constant(0)),
            Logic::Or => self.pick(first, constant(1), second),
        }
    }

    /// The word of an operation, by its operands.
    pub(crate) fn operation(
        &self,
        expr: &TypedExpr,
        left: CoreWord,
        right: CoreWord,
    ) -> Result<CoreWord, AllocError> {
        match expr {
            TypedExpr::Arithmetic(_, op, mark, _, _) => {
                self.arithmetic(*op, mark.start, left, right)
            }
            TypedExpr::Wrapping(_, op, _, _) => self.wrapped(*op, left, right),
            TypedExpr::Compare(_, op, _, _) => self.compare(*op, left, right),
            TypedExpr::Logic(_, op, _, _) => self.connected(*op, left, right),
            _ => Ok(constant(0)),
        }
    }
}
