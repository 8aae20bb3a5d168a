//! Closures: the number of a function and the address of the frame that made it.

use crate::coder::Coder;
use core_form::CoreForm;
use core_form::limits::{MAKER, SLOTS};
use core_layout::{holder, words_of_mode};
use core_place::{Spot, constant, push_copy};
use own_tree::Ty;
use own_tree::typed::TypedExpr;
use std::alloc::AllocError;

impl Coder<'_> {
    /// Adds what passes a closure: a literal with this frame, or a parameter as it is.
    pub(crate) fn push_closure(
        &self,
        code: &mut Vec<CoreForm>,
        argument: &TypedExpr,
        to: Spot,
    ) -> Result<(), AllocError> {
        match holder(argument) {
            TypedExpr::Closure(_, body) => {
                self.push_store(code, to, constant(*body))?;
                self.push_address(code, to.on(1), Spot::Mine(0))
            }
            TypedExpr::Function(_, binding) => {
                let from = self.places.binding_at(*binding);
                push_copy(self.alloc, code, 2, from, to)
            }
            _ => Ok(()),
        }
    }

    /// Adds the call of a parameter of function type, whose arguments are handed over.
    pub(crate) fn push_closure_call(
        &self,
        code: &mut Vec<CoreForm>,
        binding: u32,
    ) -> Result<(), AllocError> {
        let at = self.places.binding_at(binding);
        let maker = self.places.load(at.on(1))?;
        self.push_store(code, Spot::Next(MAKER), maker)?;
        let function = self.places.load(at)?;
        code.push(CoreForm::CallWord(function))?;
        Ok(())
    }

    /// Where the parameters of a function type stand in the frame of its closure.
    pub(crate) fn closure_params(&self, binding: u32) -> Result<Vec<Spot>, AllocError> {
        let mut spots = Vec::new(self.alloc);
        let Ty::Fun(number) = self.places.type_of_binding(binding) else {
            return Ok(spots);
        };
        let Some(signature) = self.places.typed.signatures.get(number as usize) else {
            return Ok(spots);
        };
        let mut word = SLOTS;
        for param in signature.params.as_slice() {
            spots.push(Spot::Next(word))?;
            let words = words_of_mode(self.places.table, param.mode, param.ty);
            word = word.saturating_add(words);
        }
        Ok(spots)
    }
}
