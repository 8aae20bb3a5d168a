//! Calls of functions, methods, an `init` and closures.

use crate::arguments::lends_values;
use crate::coder::{Coder, ON_ITS_WAY};
use core_form::CoreForm;
use core_place::Spot;
use own_tree::Passing;
use own_tree::typed::{At, Target, TypedExpr};
use own_within::{first_passing, other_passings};
use std::alloc::AllocError;

impl Coder<'_> {
    /// Where the parameters of a body stand in its frame, without the `self` of an `init`.
    fn body_params(&self, body: u32, is_init: bool) -> Result<Vec<Spot>, AllocError> {
        let mut spots = Vec::new(self.alloc);
        if let Some(body) = self.places.typed.bodies.get(body as usize) {
            for (number, binding) in body.params.as_slice().iter().enumerate() {
                if number > 0 || !is_init {
                    spots.push(Spot::Next(self.places.layout.offset(*binding)))?;
                }
            }
        }
        Ok(spots)
    }

    fn params_of(&self, target: Target) -> Result<Vec<Spot>, AllocError> {
        match target {
            Target::Function(body) | Target::Method(body) => self.body_params(body, false),
            Target::Init(body) => self.body_params(body, true),
            Target::Closure(binding) => self.closure_params(binding),
            Target::Memberwise(_) | Target::Case(..) | Target::Print | Target::ReadInt => {
                Ok(Vec::new(self.alloc))
            }
        }
    }

    fn push_all_handed(
        &self,
        code: &mut Vec<CoreForm>,
        arguments: &[TypedExpr],
        passings: &[Passing],
        params: &[Spot],
    ) -> Result<(), AllocError> {
        let mut passings = passings;
        for (argument, to) in arguments.iter().zip(params.iter()) {
            self.push_handed(code, argument, first_passing(passings), *to)?;
            passings = other_passings(passings);
        }
        Ok(())
    }

    fn push_target(&self, code: &mut Vec<CoreForm>, target: Target) -> Result<(), AllocError> {
        match target {
            Target::Function(body) | Target::Method(body) | Target::Init(body) => {
                code.push(CoreForm::Call(body))?;
                Ok(())
            }
            Target::Closure(binding) => self.push_closure_call(code, binding),
            Target::Memberwise(_) | Target::Case(..) | Target::Print | Target::ReadInt => Ok(()),
        }
    }

    /// Adds the ends of temporaries that were lent for a call. Its result waits at its node while they end.
    fn push_after_call(
        &self,
        code: &mut Vec<CoreForm>,
        at: At,
        arguments: &[TypedExpr],
        passings: &[Passing],
    ) -> Result<(), AllocError> {
        let node = self.places.layout.node(at.id);
        if let Some(word) = node {
            self.places
                .push_copied(code, at.ty, ON_ITS_WAY, Spot::Mine(word))?;
        }
        self.push_lent_ends(code, arguments, passings)?;
        if let Some(word) = node {
            self.places
                .push_moved(code, at.ty, Spot::Mine(word), ON_ITS_WAY)?;
        }
        Ok(())
    }

    /// Adds a call whose arguments wait. Its result is left in the room.
    fn push_called(
        &self,
        code: &mut Vec<CoreForm>,
        at: At,
        target: Target,
        arguments: &[TypedExpr],
        passings: &[Passing],
    ) -> Result<(), AllocError> {
        let params = self.params_of(target)?;
        self.push_uses(code, arguments, passings)?;
        self.push_all_handed(code, arguments, passings, params.as_slice())?;
        self.push_target(code, target)?;
        if lends_values(arguments, passings) {
            self.push_after_call(code, at, arguments, passings)?;
        }
        Ok(())
    }

    /// Adds a call or a construction whose arguments wait.
    pub(crate) fn push_applied(
        &self,
        code: &mut Vec<CoreForm>,
        at: At,
        target: Target,
        arguments: &[TypedExpr],
        passings: &[Passing],
    ) -> Result<(), AllocError> {
        match target {
            Target::Memberwise(_) | Target::Case(..) => {
                self.push_construction(code, at, target, arguments)
            }
            _ => self.push_called(code, at, target, arguments, passings),
        }
    }
}
