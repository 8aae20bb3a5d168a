//! How a value moves, is destroyed and leaves a place without one.

use crate::forms::{constant, push_copy, push_store, push_when};
use crate::places::Places;
use crate::spot::Spot;
use crate::values::start_of;
use core_form::limits::DROPPED;
use core_form::{CoreForm, CoreWord};
use core_layout::types::{copyable, holds_tracked, is_enum, properties, slots, tracked};
use own_table::TypeTable;
use own_tree::Ty;
use std::alloc::{AllocError, Global};

/// Whether the first word of a value is a mark, which is 0 where there is none.
fn is_marked(table: &TypeTable, ty: Ty) -> bool {
    tracked(table, ty) || (is_enum(table, ty) && holds_tracked(table, ty))
}

/// Adds what takes back the mark in the first word of a value, if it has one.
fn push_unmarked(
    alloc: Global,
    table: &TypeTable,
    code: &mut Vec<CoreForm>,
    ty: Ty,
    at: Spot,
) -> Result<(), AllocError> {
    if is_marked(table, ty) {
        push_store(alloc, code, at, constant(0))?;
    }
    Ok(())
}

/// Adds what takes back all marks of a place. Types contain each other to that depth at most.
fn push_cleared(
    alloc: Global,
    table: &TypeTable,
    depth: u32,
    code: &mut Vec<CoreForm>,
    ty: Ty,
    at: Spot,
) -> Result<(), AllocError> {
    if depth == 0 || !holds_tracked(table, ty) {
        return Ok(());
    }
    push_unmarked(alloc, table, code, ty, at)?;
    let mut words = start_of(table, ty);
    for info in properties(table, ty) {
        push_cleared(alloc, table, depth - 1, code, info.ty, at.on(words))?;
        words = words.saturating_add(slots(table, info.ty));
    }
    Ok(())
}

/// Adds what puts the address back that a function which ends a value works on.
pub(crate) fn push_back(alloc: Global, code: &mut Vec<CoreForm>) -> Result<(), AllocError> {
    push_store(alloc, code, Spot::Mine(DROPPED), CoreWord::Local(0))
}

/// Adds what ends the leaves of a place. `back` tells whether the address of what is destroyed is put back
/// after each. Types contain each other to that depth at most.
fn push_dropped(
    places: &Places<'_>,
    depth: u32,
    code: &mut Vec<CoreForm>,
    ty: Ty,
    at: Spot,
    back: bool,
) -> Result<(), AllocError> {
    if depth == 0 || !holds_tracked(places.table, ty) {
        return Ok(());
    }
    if is_marked(places.table, ty) {
        return places.push_leaf(code, ty, at, back);
    }
    let mut words = start_of(places.table, ty);
    for info in properties(places.table, ty) {
        push_dropped(places, depth - 1, code, info.ty, at.on(words), back)?;
        words = words.saturating_add(slots(places.table, info.ty));
    }
    Ok(())
}

impl Places<'_> {
    /// The number of the function that ends a value of a declared type. They come after the bodies.
    pub fn dropper(&self, ty: Ty) -> u32 {
        match ty {
            Ty::Named(number) => match u32::try_from(self.typed.bodies.len()) {
                Ok(bodies) => bodies.saturating_add(number),
                Err(_) => u32::MAX,
            },
            _ => 0,
        }
    }

    /// The forms that end a leaf: its function finds its address in a fixed word.
    fn leaf_ends(&self, ty: Ty, at: Spot, back: bool) -> Result<Vec<CoreForm>, AllocError> {
        let mut ends = Vec::new(self.alloc);
        let address = self.address(at)?;
        push_store(self.alloc, &mut ends, Spot::Mine(DROPPED), address)?;
        ends.push(CoreForm::CallHere(self.dropper(ty)))?;
        if back {
            push_back(self.alloc, &mut ends)?;
        }
        Ok(ends)
    }

    /// Adds the end of a leaf, if it has its mark.
    fn push_leaf(
        &self,
        code: &mut Vec<CoreForm>,
        ty: Ty,
        at: Spot,
        back: bool,
    ) -> Result<(), AllocError> {
        let mark = self.load(at)?;
        let ends = self.leaf_ends(ty, at, back)?;
        push_when(code, mark, ends, Vec::new(self.alloc))
    }

    /// How deep types contain each other at most: none contains itself.
    fn depth(&self) -> u32 {
        self.table.count().saturating_add(1)
    }

    /// Adds the end of each leaf of a place that holds a tracked value, in order. What the frame has of the
    /// address of what is destroyed is put back after each, if that is wanted.
    pub fn push_drop(
        &self,
        code: &mut Vec<CoreForm>,
        ty: Ty,
        at: Spot,
        back: bool,
    ) -> Result<(), AllocError> {
        push_dropped(self, self.depth(), code, ty, at, back)
    }

    /// Adds what leaves a place without a value: its marks are taken back.
    pub fn push_clear(&self, code: &mut Vec<CoreForm>, ty: Ty, at: Spot) -> Result<(), AllocError> {
        push_cleared(self.alloc, self.table, self.depth(), code, ty, at)
    }

    /// Adds the end of what stands at a place.
    pub fn push_end(&self, code: &mut Vec<CoreForm>, ty: Ty, at: Spot) -> Result<(), AllocError> {
        self.push_drop(code, ty, at, false)?;
        self.push_clear(code, ty, at)
    }

    /// Adds a copy of all words of a value.
    pub fn push_copied(
        &self,
        code: &mut Vec<CoreForm>,
        ty: Ty,
        from: Spot,
        to: Spot,
    ) -> Result<(), AllocError> {
        push_copy(self.alloc, code, slots(self.table, ty), from, to)
    }

    /// Adds a move, which leaves a place without a value.
    pub fn push_moved(
        &self,
        code: &mut Vec<CoreForm>,
        ty: Ty,
        from: Spot,
        to: Spot,
    ) -> Result<(), AllocError> {
        self.push_copied(code, ty, from, to)?;
        self.push_clear(code, ty, from)
    }

    /// Adds a copy of what is copyable, and a move of what is not (SE-0390).
    pub fn push_taken(
        &self,
        code: &mut Vec<CoreForm>,
        ty: Ty,
        from: Spot,
        to: Spot,
    ) -> Result<(), AllocError> {
        if copyable(self.table, ty) {
            self.push_copied(code, ty, from, to)
        } else {
            self.push_moved(code, ty, from, to)
        }
    }
}
