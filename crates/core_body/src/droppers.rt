//! The functions that end a value of each type. They run in the frame that destroys it, and find its address in
//! a fixed word of that frame, which they keep in their local word.

use crate::coder::Coder;
use core_form::limits::DROPPED;
use core_form::{CoreForm, CoreFunction, CoreWord};
use core_layout::types;
use core_place::{Spot, constant, payload_types, push_when, start_of};
use own_tree::typed::{BodyKind, Comparison};
use own_tree::{Ty, Typed};
use sqlite_items::Items;
use std::alloc::{AllocError, Global};

/// A word of what is destroyed.
fn inner(words: u32) -> Spot {
    Spot::Mine(DROPPED).behind(words)
}

/// Notes the body of the `deinit` of a type, unless one is noted.
fn note(found: &mut Vec<Option<u32>>, owner: u32, body: u32) {
    let owner = owner as usize;
    if owner < found.len() && found[owner].is_none() {
        found[owner] = Some(body);
    }
}

/// The body of the `deinit` of each of so many types.
pub(crate) fn deinits(
    alloc: Global,
    typed: &Typed,
    types: u32,
) -> Result<Vec<Option<u32>>, AllocError> {
    let mut found = vec![in alloc; None; types as usize]?;
    for (number, body) in typed.bodies.as_slice().iter().enumerate() {
        if let (BodyKind::Deinitializer, Some(owner)) = (body.kind, body.owner) {
            let Ok(number) = u32::try_from(number) else {
                return Err(AllocError);
            };
            note(&mut found, owner, number);
        }
    }
    Ok(found)
}

impl Coder<'_> {
    /// Adds the ends of parts that stand one after another, from a word on.
    fn push_part_ends(
        &self,
        code: &mut Vec<CoreForm>,
        parts: &[Ty],
        start: u32,
    ) -> Result<(), AllocError> {
        let mut words = start;
        for ty in parts {
            self.places.push_drop(code, *ty, inner(words), true)?;
            words = words.saturating_add(types::slots(self.places.table, *ty));
        }
        Ok(())
    }

    /// Adds the call of a `deinit`, which borrows `self` where it stands.
    fn push_deinit(&self, code: &mut Vec<CoreForm>, ty: Ty, body: u32) -> Result<(), AllocError> {
        let Some(deinit) = self.places.typed.bodies.get(body as usize) else {
            return Ok(());
        };
        if let Some(own) = deinit.params.get(0) {
            let to = Spot::Next(self.places.layout.offset(*own));
            self.push_store(code, to, CoreWord::Local(0))?;
        }
        code.push(CoreForm::Call(body))?;
        self.push_store(code, Spot::Mine(DROPPED), CoreWord::Local(0))?;
        self.push_ended_by_deinit(code, ty, inner(0))
    }

    /// Adds the choice between the cases below one and those from there on, unless nothing ends in any.
    fn push_halves(
        &self,
        code: &mut Vec<CoreForm>,
        middle: u32,
        first: Vec<CoreForm>,
        second: Vec<CoreForm>,
    ) -> Result<(), AllocError> {
        if first.is_empty() && second.is_empty() {
            return Ok(());
        }
        let case = self.places.load(inner(0))?;
        let is_first = self.compare(Comparison::LessEqual, case, constant(middle))?;
        push_when(code, is_first, first, second)
    }

    /// Adds the ends of the payloads of a case from number `low` on and below number `high`, whichever is
    /// present: half of them are left out at each test.
    fn push_cases(
        &self,
        code: &mut Vec<CoreForm>,
        ty: Ty,
        low: u32,
        high: u32,
    ) -> Result<(), AllocError> {
        if high <= low {
            return Ok(());
        }
        if high - low == 1 {
            return self.push_part_ends(code, payload_types(self.places.table, ty, low), 1);
        }
        let middle = low + (high - low) / 2;
        let mut first = self.no_code();
        self.push_cases(&mut first, ty, low, middle)?;
        let mut second = self.no_code();
        self.push_cases(&mut second, ty, middle, high)?;
        self.push_halves(code, middle, first, second)
    }

    /// Adds the ends of the payloads of an enum.
    fn push_enum_ends(&self, code: &mut Vec<CoreForm>, ty: Ty) -> Result<(), AllocError> {
        let Ok(cases) = u32::try_from(types::cases(self.places.table, ty).len()) else {
            return Err(AllocError);
        };
        self.push_cases(code, ty, 0, cases)
    }

    /// Adds the `deinit` of a struct, and the ends of its stored properties.
    fn push_struct_ends(
        &self,
        code: &mut Vec<CoreForm>,
        ty: Ty,
        deinit: Option<u32>,
    ) -> Result<(), AllocError> {
        let table = self.places.table;
        if let Some(body) = deinit {
            self.push_deinit(code, ty, body)?;
        }
        let mut parts = Vec::new(self.alloc);
        for field in types::properties(table, ty) {
            parts.push(field.ty)?;
        }
        self.push_part_ends(code, parts.as_slice(), start_of(table, ty))
    }

    /// The forms that end a value of a type that is tracked, or of an enum that holds a tracked value.
    fn drop_forms(&self, ty: Ty, deinit: Option<u32>) -> Result<Vec<CoreForm>, AllocError> {
        let mut code = self.no_code();
        let address = self.places.load(Spot::Mine(DROPPED))?;
        code.push(CoreForm::StoreLocal(0, address))?;
        if types::is_enum(self.places.table, ty) {
            self.push_enum_ends(&mut code, ty)?;
        } else {
            self.push_struct_ends(&mut code, ty, deinit)?;
        }
        self.push_store(&mut code, inner(0), constant(0))?;
        Ok(code)
    }

    /// Whether the first word of a value is a mark, which is 0 where there is no value.
    fn is_marked(&self, ty: Ty) -> bool {
        let table = self.places.table;
        types::tracked(table, ty) || (types::is_enum(table, ty) && types::holds_tracked(table, ty))
    }

    /// The function that ends a value of a declared type. What has no mark is ended by its owner, and its
    /// function has no forms.
    pub(crate) fn dropper(&self, ty: Ty, deinit: Option<u32>) -> Result<CoreFunction, AllocError> {
        let code = if self.is_marked(ty) {
            self.drop_forms(ty, deinit)?
        } else {
            self.no_code()
        };
        Ok(CoreFunction {
            locals: 1,
            code: Items::from_vec(code),
        })
    }
}
