//! Patterns: what they test, what they bind, and what they leave of a consumed subject. The walk goes as deep
//! as the pattern is nested.

use crate::coder::Coder;
use core_form::{CoreForm, CoreWord};
use core_layout::types;
use core_place::{Spot, constant, payload_types};
use own_table::TypeTable;
use own_tree::typed::Comparison;
use own_tree::{Mode, TPattern, Ty};
use std::alloc::AllocError;

/// A part of a subject: its type, and where it stands.
#[derive(Clone, Copy)]
pub(crate) struct Part {
    pub(crate) ty: Ty,
    pub(crate) at: Spot,
}

/// The payloads of a case that are left, and where the first of them stands.
#[derive(Clone, Copy)]
struct Payloads<'t> {
    types: &'t [Ty],
    at: Spot,
}

impl<'t> Payloads<'t> {
    /// Those of a case of a part. They stand behind the number of the case.
    fn of_case(table: &'t TypeTable, part: Part, case: u32) -> Payloads<'t> {
        Payloads {
            types: payload_types(table, part.ty, case),
            at: part.at.on(1),
        }
    }

    /// The first of them. Where there is none it has no words.
    fn first(&self) -> Part {
        let ty = match self.types {
            [ty, ..] => *ty,
            [] => Ty::Unit,
        };
        Part { ty, at: self.at }
    }

    /// Those behind the first.
    fn others(&self, table: &TypeTable) -> Payloads<'t> {
        match self.types.split_first() {
            Some((ty, types)) => Payloads {
                types,
                at: self.at.on(types::slots(table, *ty)),
            },
            None => *self,
        }
    }
}

/// Which of the two bindings of a name is bound: the one of the pattern, or the owned one behind it.
#[derive(Clone, Copy, PartialEq, Eq)]
pub(crate) enum Bound {
    First,
    Late,
}

impl Bound {
    /// The number of a binding.
    fn number(self, first: u32) -> u32 {
        match self {
            Bound::First => first,
            Bound::Late => first.saturating_add(1),
        }
    }
}

/// Adds the bindings of a pattern, from left to right, or the owned ones behind them.
pub(crate) fn push_names(
    numbers: &mut Vec<u32>,
    pattern: &TPattern,
    bound: Bound,
) -> Result<(), AllocError> {
    match pattern {
        TPattern::Any | TPattern::Number(_) | TPattern::Truth(_) => {}
        TPattern::Bind(number) => numbers.push(bound.number(*number))?,
        TPattern::Case(_, patterns) => {
            for inner in patterns.as_slice() {
                push_names(numbers, inner, bound)?;
            }
        }
    }
    Ok(())
}

impl Coder<'_> {
    /// Adds the test of a part.
    fn push_test(
        &self,
        tests: &mut Vec<CoreWord>,
        part: Part,
        wanted: CoreWord,
    ) -> Result<(), AllocError> {
        let found = self.places.load(part.at)?;
        let test = self.compare(Comparison::Equal, found, wanted)?;
        tests.push(test)?;
        Ok(())
    }

    /// Adds the tests of a pattern, from the outside in and from the left to the right.
    fn push_tests(
        &self,
        tests: &mut Vec<CoreWord>,
        pattern: &TPattern,
        part: Part,
    ) -> Result<(), AllocError> {
        match pattern {
            TPattern::Any | TPattern::Bind(_) => Ok(()),
            TPattern::Number(number) => self.push_test(tests, part, CoreWord::Constant(*number)),
            TPattern::Truth(truth) => self.push_test(tests, part, constant(u32::from(*truth))),
            TPattern::Case(case, patterns) => {
                self.push_test(tests, part, constant(case.saturating_add(1)))?;
                let mut payloads = Payloads::of_case(self.places.table, part, *case);
                for inner in patterns.as_slice() {
                    self.push_tests(tests, inner, payloads.first())?;
                    payloads = payloads.others(self.places.table);
                }
                Ok(())
            }
        }
    }

    /// Whether a pattern matches, as a word, or None where it matches always.
    pub(crate) fn test_of(
        &self,
        pattern: &TPattern,
        part: Part,
    ) -> Result<Option<CoreWord>, AllocError> {
        let mut tests = Vec::new(self.alloc);
        self.push_tests(&mut tests, pattern, part)?;
        self.all_of(tests)
    }

    /// Whether all of these hold, each asked only where those before it do.
    fn all_of(&self, mut tests: Vec<CoreWord>) -> Result<Option<CoreWord>, AllocError> {
        let Some(mut word) = tests.pop() else {
            return Ok(None);
        };
        for _ in 0..tests.len() {
            if let Some(test) = tests.pop() {
                word = self.pick(test, word, constant(0))?;
            }
        }
        Ok(Some(word))
    }

    /// Adds what binds the names of a pattern, in order.
    pub(crate) fn push_bound(
        &self,
        code: &mut Vec<CoreForm>,
        pattern: &TPattern,
        part: Part,
        bound: Bound,
    ) -> Result<(), AllocError> {
        match pattern {
            TPattern::Any | TPattern::Number(_) | TPattern::Truth(_) => Ok(()),
            TPattern::Bind(number) => self.push_binding(code, bound.number(*number), part),
            TPattern::Case(case, patterns) => {
                let mut payloads = Payloads::of_case(self.places.table, part, *case);
                for inner in patterns.as_slice() {
                    self.push_bound(code, inner, payloads.first(), bound)?;
                    payloads = payloads.others(self.places.table);
                }
                Ok(())
            }
        }
    }

    /// Adds what binds a name: a borrowed one stands for its part, and an owned one takes it.
    fn push_binding(
        &self,
        code: &mut Vec<CoreForm>,
        number: u32,
        part: Part,
    ) -> Result<(), AllocError> {
        let to = self.places.binding_at(number);
        match self.places.typed.bindings.get(number as usize) {
            Some(binding) if binding.mode == Mode::PatternBorrowed => {
                self.push_address(code, to, part.at)
            }
            _ => self.places.push_taken(code, part.ty, part.at, to),
        }
    }

    /// Adds the ends of the parts of a consumed subject that no name takes, in order of declaration: a part
    /// under a `_` as a whole.
    pub(crate) fn push_rest(
        &self,
        code: &mut Vec<CoreForm>,
        pattern: &TPattern,
        part: Part,
    ) -> Result<(), AllocError> {
        match pattern {
            TPattern::Any => self.places.push_end(code, part.ty, part.at),
            TPattern::Bind(_) | TPattern::Number(_) | TPattern::Truth(_) => Ok(()),
            TPattern::Case(case, patterns) => {
                let mut payloads = Payloads::of_case(self.places.table, part, *case);
                for inner in patterns.as_slice() {
                    self.push_rest(code, inner, payloads.first())?;
                    payloads = payloads.others(self.places.table);
                }
                Ok(())
            }
        }
    }
}
