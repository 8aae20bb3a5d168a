//! How arguments come to their callee.

use crate::coder::{Coder, ON_ITS_WAY};
use core_form::CoreForm;
use core_layout::is_given;
use core_place::Spot;
use own_tree::typed::TypedExpr;
use own_tree::{Passing, Ty};
use own_within::{first_passing, node_of, other_passings, path_of};
use std::alloc::AllocError;

/// Whether an argument is a temporary that is lent for the call alone.
fn is_lent_value(argument: &TypedExpr, passing: Passing) -> bool {
    matches!(passing, Passing::Borrow) && path_of(argument).is_none()
}

/// How the argument of that number is passed.
fn passing_at(passings: &[Passing], number: usize) -> Passing {
    match passings.get(number) {
        Some(passing) => *passing,
        None => Passing::ByValue,
    }
}

/// Whether one of the arguments is a temporary that is lent.
pub(crate) fn lends_values(arguments: &[TypedExpr], passings: &[Passing]) -> bool {
    let mut passings = passings;
    for argument in arguments {
        if is_lent_value(argument, first_passing(passings)) {
            return true;
        }
        passings = other_passings(passings);
    }
    false
}

impl Coder<'_> {
    /// Whether an argument has a value that is evaluated before the call. What is lent or `inout` is a place,
    /// unless it is a temporary.
    pub(crate) fn is_evaluated(&self, argument: &TypedExpr, passing: Passing) -> bool {
        is_given(passing) || is_lent_value(argument, passing)
    }

    /// The place that is lent, or the words of a temporary.
    fn lent_at(&self, argument: &TypedExpr) -> Spot {
        if let TypedExpr::Address(path) = argument {
            return self.places.place_at(&path.place);
        }
        match path_of(argument) {
            Some(path) => self.places.place_at(&path.place),
            None => self.places.held_at(argument),
        }
    }

    /// Adds the uses of tracked values that are lent, in order of the arguments.
    pub(crate) fn push_uses(
        &self,
        code: &mut Vec<CoreForm>,
        arguments: &[TypedExpr],
        passings: &[Passing],
    ) -> Result<(), AllocError> {
        let mut passings = passings;
        for argument in arguments {
            if matches!(first_passing(passings), Passing::Borrow | Passing::Inout) {
                self.push_use(code, node_of(argument).ty, self.lent_at(argument))?;
            }
            passings = other_passings(passings);
        }
        Ok(())
    }

    /// Adds what hands an argument over: it moves from where it waits, or its address is given.
    pub(crate) fn push_handed(
        &self,
        code: &mut Vec<CoreForm>,
        argument: &TypedExpr,
        passing: Passing,
        to: Spot,
    ) -> Result<(), AllocError> {
        match passing {
            Passing::ByValue | Passing::Consume => {
                self.push_given(code, argument, node_of(argument).ty, to)
            }
            Passing::Borrow | Passing::Inout => {
                self.push_address(code, to, self.lent_at(argument))
            }
            Passing::Closure => self.push_closure(code, argument, to),
        }
    }

    /// Adds what moves a given argument on. The last one may stand in the room still.
    pub(crate) fn push_given(
        &self,
        code: &mut Vec<CoreForm>,
        argument: &TypedExpr,
        ty: Ty,
        to: Spot,
    ) -> Result<(), AllocError> {
        match self.places.waiting_at(argument) {
            Some(from) => self.places.push_moved(code, ty, from, to),
            None => self.places.push_copied(code, ty, ON_ITS_WAY, to),
        }
    }

    /// Adds the ends of temporaries that were lent, the last one first.
    pub(crate) fn push_lent_ends(
        &self,
        code: &mut Vec<CoreForm>,
        arguments: &[TypedExpr],
        passings: &[Passing],
    ) -> Result<(), AllocError> {
        for at in (0..arguments.len()).rev() {
            let argument = &arguments[at];
            if is_lent_value(argument, passing_at(passings, at)) {
                let held = self.places.held_at(argument);
                self.places.push_end(code, node_of(argument).ty, held)?;
            }
        }
        Ok(())
    }
}
