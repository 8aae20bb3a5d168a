//! Loops, by the code of their bodies. A loop of the core takes a turn before its forms.

use crate::coder::Coder;
use core_form::{CoreForm, CoreWord};
use core_place::{Spot, constant, push_when};
use own_tree::tree::RangeOperator;
use own_tree::typed::{At, Comparison, TypedExpr};
use own_tree::{Arith, Span};
use own_ways::traps::EMPTY_RANGE;
use sqlite_items::Items;
use std::alloc::AllocError;

/// The variable of a `for`, its operator, and where that stands.
#[derive(Clone, Copy)]
pub(crate) struct ForHead {
    pub(crate) turn: Option<u32>,
    pub(crate) range: RangeOperator,
    pub(crate) mark: Span,
}

impl Coder<'_> {
    /// Adds a block with a loop in it.
    fn push_loop(&self, code: &mut Vec<CoreForm>, body: Vec<CoreForm>) -> Result<(), AllocError> {
        let forms = self.one(CoreForm::Loop(Items::from_vec(body)))?;
        self.push_block(code, forms)
    }

    /// Adds what does a body where a test holds, and else leaves the loop and the block round it.
    fn push_leaving_if_not(
        &self,
        code: &mut Vec<CoreForm>,
        test: &TypedExpr,
        body: Vec<CoreForm>,
    ) -> Result<(), AllocError> {
        let leaving = self.one(CoreForm::Jump(1))?;
        self.push_choice(code, test, body, leaving)
    }

    /// Adds a `while`.
    pub(crate) fn push_while(
        &self,
        code: &mut Vec<CoreForm>,
        test: &TypedExpr,
        body: Vec<CoreForm>,
    ) -> Result<(), AllocError> {
        let mut turn = self.no_code();
        self.push_leaving_if_not(&mut turn, test, body)?;
        self.push_loop(code, turn)
    }

    /// Adds a `repeat`. A `continue` in its body leaves the block of that.
    pub(crate) fn push_repeat(
        &self,
        code: &mut Vec<CoreForm>,
        body: Vec<CoreForm>,
        test: &TypedExpr,
    ) -> Result<(), AllocError> {
        let mut turn = self.no_code();
        self.push_block(&mut turn, body)?;
        self.push_leaving_if_not(&mut turn, test, self.no_code())?;
        self.push_loop(code, turn)
    }

    /// Adds a `for`. Two words of the frame hold the number of the turn and the last number.
    pub(crate) fn push_for(
        &self,
        code: &mut Vec<CoreForm>,
        at: At,
        head: ForHead,
        low: &TypedExpr,
        high: &TypedExpr,
        body: Vec<CoreForm>,
    ) -> Result<(), AllocError> {
        let now = Spot::Mine(self.places.layout.node(at.id).unwrap_or(0));
        let last = now.on(1);
        self.push_value(code, low, now)?;
        self.push_value(code, high, last)?;
        self.push_range_test(code, now, last, head.mark)?;
        let turns = self.turns(head.turn, now, last, body)?;
        match head.range {
            RangeOperator::Closed => self.push_block(code, turns),
            RangeOperator::HalfOpen => self.push_half_open(code, now, last, turns),
        }
    }

    /// Adds the trap of a range that ends before it begins.
    fn push_range_test(
        &self,
        code: &mut Vec<CoreForm>,
        now: Spot,
        last: Spot,
        mark: Span,
    ) -> Result<(), AllocError> {
        let is_wrong = self.is_less(last, now)?;
        let trap = self.one(CoreForm::Trap(EMPTY_RANGE, mark.start))?;
        push_when(code, is_wrong, trap, self.no_code())
    }

    /// Adds the turns of a half-open range, if there are some. The last of them has the number before the end.
    fn push_half_open(
        &self,
        code: &mut Vec<CoreForm>,
        now: Spot,
        last: Spot,
        turns: Vec<CoreForm>,
    ) -> Result<(), AllocError> {
        let is_some = self.is_less(now, last)?;
        let mut some = self.no_code();
        self.push_step(&mut some, last, Arith::Sub)?;
        self.push_block(&mut some, turns)?;
        push_when(code, is_some, some, self.no_code())
    }

    /// The loop of a `for`, from the number of the turn to the last one, both included.
    fn turns(
        &self,
        turn: Option<u32>,
        now: Spot,
        last: Spot,
        body: Vec<CoreForm>,
    ) -> Result<Vec<CoreForm>, AllocError> {
        let mut forms = self.no_code();
        if let Some(number) = turn {
            let word = self.places.load(now)?;
            self.push_store(&mut forms, self.places.binding_at(number), word)?;
        }
        self.push_block(&mut forms, body)?;
        self.push_turn_end(&mut forms, now, last)?;
        self.one(CoreForm::Loop(Items::from_vec(forms)))
    }

    /// Adds the end of a turn: the last one leaves the loop, and another is followed by the next number.
    fn push_turn_end(
        &self,
        code: &mut Vec<CoreForm>,
        now: Spot,
        last: Spot,
    ) -> Result<(), AllocError> {
        let is_last = self.compare_at(Comparison::Equal, now, last)?;
        let leaving = self.one(CoreForm::Jump(1))?;
        push_when(code, is_last, leaving, self.no_code())?;
        self.push_step(code, now, Arith::Add)
    }

    /// Adds a step of a number by one.
    fn push_step(&self, code: &mut Vec<CoreForm>, at: Spot, op: Arith) -> Result<(), AllocError> {
        let old = self.places.load(at)?;
        let next = self.wrapped(op, old, constant(1))?;
        self.push_store(code, at, next)
    }

    fn is_less(&self, first: Spot, second: Spot) -> Result<CoreWord, AllocError> {
        self.compare_at(Comparison::Less, first, second)
    }

    /// The comparison of the words at two places.
    fn compare_at(
        &self,
        op: Comparison,
        first: Spot,
        second: Spot,
    ) -> Result<CoreWord, AllocError> {
        let first = self.places.load(first)?;
        let second = self.places.load(second)?;
        self.compare(op, first, second)
    }
}
