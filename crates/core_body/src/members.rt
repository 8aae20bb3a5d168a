//! Stored properties of values that are no places.

use crate::coder::{Coder, ON_ITS_WAY, OWN_ROOM};
use core_form::CoreForm;
use core_layout::types;
use core_place::{Spot, field_offset, field_type};
use own_tree::typed::TypedExpr;
use own_within::node_of;
use std::alloc::AllocError;

impl Coder<'_> {
    /// Where the property of a copyable value stands that is on its way.
    pub(crate) fn member_on_its_way(&self, whole: &TypedExpr, field: u32) -> Spot {
        ON_ITS_WAY.on(field_offset(self.places.table, node_of(whole).ty, field))
    }

    /// Whether the value of an expression is copyable.
    pub(crate) fn copies(&self, expr: &TypedExpr) -> bool {
        types::copyable(self.places.table, node_of(expr).ty)
    }

    /// Adds what keeps a property of a waiting value in the room of this frame, while the value ends.
    pub(crate) fn push_kept(
        &self,
        code: &mut Vec<CoreForm>,
        whole: &TypedExpr,
        field: u32,
        held: Spot,
    ) -> Result<Spot, AllocError> {
        let ty = node_of(whole).ty;
        let part = field_type(self.places.table, ty, field);
        let from = held.on(field_offset(self.places.table, ty, field));
        self.places.push_copied(code, part, from, OWN_ROOM)?;
        self.places.push_end(code, ty, held)?;
        Ok(OWN_ROOM)
    }
}
