//! Memberwise constructions and cases.

use crate::coder::{Coder, ON_ITS_WAY};
use core_form::CoreForm;
use core_layout::types;
use core_place::{Spot, constant, payload_types, start_of};
use own_tree::Ty;
use own_tree::typed::{At, Target, TypedExpr};
use std::alloc::AllocError;

impl Coder<'_> {
    /// The types of the parts of what is constructed.
    fn parts_of(&self, target: Target) -> Result<Vec<Ty>, AllocError> {
        let mut parts = Vec::new(self.alloc);
        let table = self.places.table;
        match target {
            Target::Memberwise(number) => {
                for field in types::properties(table, Ty::Named(number)) {
                    parts.push(field.ty)?;
                }
            }
            Target::Case(number, case) => {
                parts.extend_from_slice(payload_types(table, Ty::Named(number), case))?;
            }
            _ => {}
        }
        Ok(parts)
    }

    /// The words before the first part of what is constructed.
    fn start_of_parts(&self, target: Target) -> u32 {
        match target {
            Target::Memberwise(number) => start_of(self.places.table, Ty::Named(number)),
            Target::Case(..) => 1,
            _ => 0,
        }
    }

    /// Adds what moves arguments into a value, from the place of the first part on: those that stand in the
    /// room, or those that wait at their nodes.
    fn push_parts(
        &self,
        code: &mut Vec<CoreForm>,
        arguments: &[TypedExpr],
        parts: &[Ty],
        in_room: bool,
        first: Spot,
    ) -> Result<(), AllocError> {
        let mut to = first;
        for (argument, ty) in arguments.iter().zip(parts.iter()) {
            if self.places.waiting_at(argument).is_none() == in_room {
                self.push_given(code, argument, *ty, to)?;
            }
            to = to.on(types::slots(self.places.table, *ty));
        }
        Ok(())
    }

    /// Adds the number of a case, or the birth of a tracked value.
    fn push_completed(
        &self,
        code: &mut Vec<CoreForm>,
        ty: Ty,
        target: Target,
        to: Spot,
    ) -> Result<(), AllocError> {
        match target {
            Target::Case(_, case) => self.push_store(code, to, constant(case.saturating_add(1))),
            _ => self.push_birth(code, ty, to),
        }
    }

    /// Adds what makes a value: first the last argument moves into it, if it stands in the room, and then
    /// those that wait at their nodes.
    fn push_made(
        &self,
        code: &mut Vec<CoreForm>,
        ty: Ty,
        target: Target,
        arguments: &[TypedExpr],
        to: Spot,
    ) -> Result<(), AllocError> {
        let parts = self.parts_of(target)?;
        let first = to.on(self.start_of_parts(target));
        self.push_parts(code, arguments, parts.as_slice(), true, first)?;
        self.push_parts(code, arguments, parts.as_slice(), false, first)?;
        self.push_completed(code, ty, target, to)
    }

    /// Adds a construction whose arguments wait. Its value is made at its node, and left in the room.
    pub(crate) fn push_construction(
        &self,
        code: &mut Vec<CoreForm>,
        at: At,
        target: Target,
        arguments: &[TypedExpr],
    ) -> Result<(), AllocError> {
        let Some(word) = self.places.layout.node(at.id) else {
            return self.push_made(code, at.ty, target, arguments, ON_ITS_WAY);
        };
        let to = Spot::Mine(word);
        self.push_made(code, at.ty, target, arguments, to)?;
        self.places.push_moved(code, at.ty, to, ON_ITS_WAY)
    }
}
