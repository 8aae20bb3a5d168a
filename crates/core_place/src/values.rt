//! Where the parts of a value stand from its first word on. The first word of a struct with a `deinit` is its
//! mark, and that of an enum the number of its case, from 1 on.

ghost use Rattle.std.specs.Prelude.{◌≡◌};
ghost use Rattle.own_shapes.specs.Types.{one_if, tracked};
ghost use Rattle.own_table.specs.Table.{shape_in_table};

use core_layout::types::{cases, properties, slots, tracked};
use own_shapes::FieldInfo;
use own_table::TypeTable;
use own_tree::Ty;

/// The words before the stored properties.
pub fn start_of(table: &TypeTable, ty: Ty) -> u32
    ensures { result ≡ one_if (tracked (shape_in_table table.now ty)) }
{
    if tracked(table, ty) { 1 } else { 0 }
}

/// The words of stored properties from a first one on.
fn words_before(table: &TypeTable, fields: &[FieldInfo], first: u32) -> u32 {
    let mut words = first;
    for info in fields {
        words = words.saturating_add(slots(table, info.ty));
    }
    words
}

/// The first word of a stored property. Behind the last one it is the word behind all of them.
pub fn field_offset(table: &TypeTable, ty: Ty, field: u32) -> u32 {
    let fields = properties(table, ty);
    let before = fields.get(..field as usize).unwrap_or(fields);
    words_before(table, before, start_of(table, ty))
}

/// The type of a stored property, and `Unit` for a number that none has.
pub fn field_type(table: &TypeTable, ty: Ty, field: u32) -> Ty {
    match properties(table, ty).get(field as usize) {
        Some(info) => info.ty,
        None => Ty::Unit,
    }
}

/// The types of the payloads of a case, and none for a number that no case has.
pub fn payload_types(table: &TypeTable, ty: Ty, case: u32) -> &[Ty] {
    match cases(table, ty).get(case as usize) {
        Some(info) => info.payloads.as_slice(),
        None => &[],
    }
}

/// The words of values of these types from a first one on.
fn words_of_types(table: &TypeTable, types: &[Ty], first: u32) -> u32 {
    let mut words = first;
    for ty in types {
        words = words.saturating_add(slots(table, *ty));
    }
    words
}

/// The first word of a payload, of the payloads of its case. Behind the last one it is the word behind all
/// of them.
pub fn payload_offset(table: &TypeTable, payloads: &[Ty], payload: u32) -> u32 {
    let before = payloads.get(..payload as usize).unwrap_or(payloads);
    words_of_types(table, before, 1)
}
