//! A `switch`, by the code of the bodies of its clauses.

use crate::coder::Coder;
use crate::patterns::{Bound, Part, push_names};
use core_form::{CoreForm, CoreWord};
use core_place::push_when;
use own_tree::TPattern;
use own_tree::typed::{TypedExpr, TypedHead};
use own_within::{node_of, path_of};
use std::alloc::AllocError;

/// The subject of a `switch`, and whether it is consumed.
#[derive(Clone, Copy)]
pub(crate) struct Subject {
    part: Part,
    is_consumed: bool,
}

impl Subject {
    /// Which bindings of a pattern the body of a clause with a guard sees.
    fn bound_by_guarded(self) -> Bound {
        if self.is_consumed {
            Bound::Late
        } else {
            Bound::First
        }
    }
}

/// How many blocks of a clause its body stands in.
pub(crate) fn labels_of(head: &TypedHead) -> u32 {
    match head {
        TypedHead::Case(patterns) => if patterns.len() == 1 { 0 } else { 1 },
        TypedHead::Guarded(..) | TypedHead::Default => 0,
    }
}

impl Coder<'_> {
    /// Adds what finds the subject: a noncopyable place is borrowed, and any other value waits at its node
    /// (SE-0432).
    pub(crate) fn push_subject(
        &self,
        code: &mut Vec<CoreForm>,
        subject: &TypedExpr,
    ) -> Result<Subject, AllocError> {
        let ty = node_of(subject).ty;
        let copies = self.copies(subject);
        match path_of(subject) {
            Some(path) if !copies => {
                let at = self.places.place_at(&path.place);
                Ok(Subject {
                    part: Part { ty, at },
                    is_consumed: false,
                })
            }
            _ => {
                let at = self.push_held(code, subject)?;
                Ok(Subject {
                    part: Part { ty, at },
                    is_consumed: !copies,
                })
            }
        }
    }

    /// The bindings of a pattern that the body of its clause sees. Several patterns bind none.
    pub(crate) fn names_of(
        &self,
        subject: Subject,
        head: &TypedHead,
    ) -> Result<Vec<u32>, AllocError> {
        let mut numbers = Vec::new(self.alloc);
        match head {
            TypedHead::Case(patterns) => {
                if let [pattern] = patterns.as_slice() {
                    push_names(&mut numbers, pattern, Bound::First)?;
                }
            }
            TypedHead::Guarded(pattern, _) => {
                push_names(&mut numbers, pattern, subject.bound_by_guarded())?;
            }
            TypedHead::Default => {}
        }
        Ok(numbers)
    }

    /// Adds a clause, by the code of its body.
    pub(crate) fn push_clause(
        &self,
        code: &mut Vec<CoreForm>,
        subject: Subject,
        head: &TypedHead,
        body: Vec<CoreForm>,
    ) -> Result<(), AllocError> {
        match head {
            TypedHead::Case(patterns) => match patterns.as_slice() {
                [pattern] => self.push_matched(code, subject, pattern, body),
                patterns => self.push_several(code, subject, patterns, body),
            },
            TypedHead::Guarded(pattern, guard) => {
                self.push_guarded(code, subject, pattern, guard, body)
            }
            // it matches as a `_` does
            TypedHead::Default => self.push_matched(code, subject, &TPattern::Any, body),
        }
    }

    /// Adds a clause with one pattern.
    fn push_matched(
        &self,
        code: &mut Vec<CoreForm>,
        subject: Subject,
        pattern: &TPattern,
        mut body: Vec<CoreForm>,
    ) -> Result<(), AllocError> {
        let mut taken = self.no_code();
        self.push_bound(&mut taken, pattern, subject.part, Bound::First)?;
        self.push_opened(&mut taken, subject, pattern)?;
        taken.append(&mut body)?;
        let test = self.test_of(pattern, subject.part)?;
        self.push_if(code, test, taken)
    }

    /// The code of a body whose guard holds. What the guard saw of a consumed subject is taken first.
    fn guarded_code(
        &self,
        subject: Subject,
        pattern: &TPattern,
        mut body: Vec<CoreForm>,
    ) -> Result<Vec<CoreForm>, AllocError> {
        if !subject.is_consumed {
            return Ok(body);
        }
        let mut code = self.no_code();
        self.push_bound(&mut code, pattern, subject.part, Bound::Late)?;
        self.push_opened(&mut code, subject, pattern)?;
        code.append(&mut body)?;
        Ok(code)
    }

    /// Adds a clause with a guard.
    fn push_guarded(
        &self,
        code: &mut Vec<CoreForm>,
        subject: Subject,
        pattern: &TPattern,
        guard: &TypedExpr,
        body: Vec<CoreForm>,
    ) -> Result<(), AllocError> {
        let body = self.guarded_code(subject, pattern, body)?;
        let mut taken = self.no_code();
        self.push_bound(&mut taken, pattern, subject.part, Bound::First)?;
        self.push_choice(&mut taken, guard, body, self.no_code())?;
        let test = self.test_of(pattern, subject.part)?;
        self.push_if(code, test, taken)
    }

    /// Adds one of several patterns, which bind no names.
    fn push_one_of_several(
        &self,
        code: &mut Vec<CoreForm>,
        subject: Subject,
        pattern: &TPattern,
    ) -> Result<(), AllocError> {
        let mut taken = self.no_code();
        self.push_opened(&mut taken, subject, pattern)?;
        taken.push(CoreForm::Jump(0))?;
        let test = self.test_of(pattern, subject.part)?;
        self.push_if(code, test, taken)
    }

    /// Adds a clause with several patterns. They stand in two blocks: the inner one is left where a pattern
    /// matches, and the outer one where none does.
    fn push_several(
        &self,
        code: &mut Vec<CoreForm>,
        subject: Subject,
        patterns: &[TPattern],
        mut body: Vec<CoreForm>,
    ) -> Result<(), AllocError> {
        let mut tests = self.no_code();
        for pattern in patterns {
            self.push_one_of_several(&mut tests, subject, pattern)?;
        }
        tests.push(CoreForm::Jump(1))?;
        let mut forms = self.no_code();
        self.push_block(&mut forms, tests)?;
        forms.append(&mut body)?;
        self.push_block(code, forms)
    }

    /// Adds what is done where a test holds, or always.
    fn push_if(
        &self,
        code: &mut Vec<CoreForm>,
        test: Option<CoreWord>,
        mut taken: Vec<CoreForm>,
    ) -> Result<(), AllocError> {
        match test {
            Some(test) => push_when(code, test, taken, self.no_code()),
            None => code.append(&mut taken),
        }
    }

    /// Adds what takes a consumed subject apart: what no name took is destroyed before the body runs.
    fn push_opened(
        &self,
        code: &mut Vec<CoreForm>,
        subject: Subject,
        pattern: &TPattern,
    ) -> Result<(), AllocError> {
        if subject.is_consumed {
            self.push_rest(code, pattern, subject.part)?;
            self.places
                .push_clear(code, subject.part.ty, subject.part.at)?;
        }
        Ok(())
    }
}
