//! What stands round a statement, and the ways out of it.

use crate::coder::Coder;
use core_form::CoreForm;
use core_layout::is_alias;
use core_place::Spot;
use own_tree::Mode;
use std::alloc::AllocError;

/// What stands round a statement, the innermost first.
#[derive(Clone, Copy)]
pub(crate) enum Round<'r> {
    /// The block of the body, which a return leaves.
    Body,
    /// The bindings of a scope, in order.
    Scope(&'r [u32], &'r Round<'r>),
    /// The block that a `break` leaves.
    Breaks(&'r Round<'r>),
    /// The loop that a `continue` begins again, or the block that it leaves.
    Continues(&'r Round<'r>),
    /// Another block or loop.
    Label(&'r Round<'r>),
}

/// A way out.
#[derive(Clone, Copy, PartialEq, Eq)]
pub(crate) enum Way {
    Break,
    Continue,
    Return,
}

impl Coder<'_> {
    /// Adds the end of what a binding holds. What is borrowed or `inout` is its owner's, and `self` is given
    /// out by `init`.
    fn push_binding_end(&self, code: &mut Vec<CoreForm>, number: u32) -> Result<(), AllocError> {
        match self.places.typed.bindings.get(number as usize) {
            Some(binding) if !is_alias(binding.mode) && binding.mode != Mode::SelfInit => {
                let at = Spot::Mine(self.places.layout.offset(number));
                self.places.push_end(code, binding.ty, at)
            }
            _ => Ok(()),
        }
    }

    /// Adds the ends of the bindings of a scope, the last one first.
    pub(crate) fn push_ends(
        &self,
        code: &mut Vec<CoreForm>,
        numbers: &[u32],
    ) -> Result<(), AllocError> {
        for number in numbers.iter().rev() {
            self.push_binding_end(code, *number)?;
        }
        Ok(())
    }

    /// Adds a jump, which ends the bindings of each scope that it leaves. So many labels are left already.
    pub(crate) fn push_jump(
        &self,
        code: &mut Vec<CoreForm>,
        round: &Round<'_>,
        way: Way,
        labels: u32,
    ) -> Result<(), AllocError> {
        match round {
            Round::Scope(numbers, outer) => {
                self.push_ends(code, numbers)?;
                self.push_jump(code, outer, way, labels)
            }
            Round::Breaks(outer) if way != Way::Break => {
                self.push_jump(code, outer, way, labels.saturating_add(1))
            }
            Round::Continues(outer) if way != Way::Continue => {
                self.push_jump(code, outer, way, labels.saturating_add(1))
            }
            Round::Label(outer) => self.push_jump(code, outer, way, labels.saturating_add(1)),
            Round::Body | Round::Breaks(_) | Round::Continues(_) => {
                code.push(CoreForm::Jump(labels))?;
                Ok(())
            }
        }
    }
}
