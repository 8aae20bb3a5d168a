//! Whether a part of a binding lies within one of its leaves, which are made and consumed by themselves
//! (SE-0429).

ghost use Rattle.std.specs.Prelude.{◌≡◌, ◌<◌, true, false, length, slice_get, Some};
ghost use Rattle.own_shapes.specs.Types.{leaves, leaves_from, opened_leaves, shapes_of, field_types};
ghost use Rattle.own_table.specs.Table.{IsTypeIn, shape_in_table, types_in};
ghost use Rattle.own_paths.specs.Fixed.{binding_leaves, is_self_in_init, lies_in_leaf};
ghost use Rattle.own_uses.specs.Leaves.{is_above, one_above};
ghost use Rattle.own_excl.specs.View.{place_view};

use crate::places::{PlaceRef, is_prefix};
use crate::types::is_type;
use own_table::{FieldInfo, TypeTable};
use own_tree::{Binding, Mode, Ty};

/// Whether a leaf lies strictly above these fields.
fn is_above(leaf: &[u32], fields: &[u32]) -> bool
    ensures { result ≡ is_above leaf.now fields.now }
{
    is_prefix(leaf, fields) && !is_prefix(fields, leaf)
}

/// How many leaves a type has.
fn leaf_count(table: &TypeTable, ty: Ty) -> u32
    ensures { result ≡ length (leaves (shape_in_table table.now ty)) }
{
    if is_type(table, ty) {
        table.leaf_count(ty)
    } else {
        1
    }
}

/// One of them, as the fields that lead to it.
fn leaf(table: &TypeTable, ty: Ty, number: u32) -> &[u32]
    requires { number < length (leaves (shape_in_table table.now ty)) }
    ensures { slice_get (leaves (shape_in_table table.now ty)) number ≡ Some result.now }
{
    if is_type(table, ty) {
        table.leaf(ty, number)
    } else {
        &[]
    }
}

/// Whether a leaf of a type lies strictly above these fields.
fn leaf_above(table: &TypeTable, ty: Ty, fields: &[u32]) -> bool
    ensures { result ≡ one_above fields.now (leaves (shape_in_table table.now ty)) }
{
    for number in 0..leaf_count(table, ty) {
        if is_above(leaf(table, ty, number), fields) {
            return true;
        }
    }
    false
}

/// Whether a type is a struct, whose properties an `init` opens.
fn is_struct(table: &TypeTable, ty: Ty) -> bool
    ensures declared { result ≡ true → IsTypeIn table.now ty }
    ensures opened { result ≡ true
        → opened_leaves (shape_in_table table.now ty)
        ≡ leaves_from 0 (shapes_of (shape_in_table table.now) (field_types ((types_in table.now).properties ty))) }
    ensures whole { result ≡ false → opened_leaves (shape_in_table table.now ty)
        ≡ leaves (shape_in_table table.now ty) }
{
    match ty {
        Ty::Named(number) => number < table.count() && !table.is_enum(ty),
        _ => false,
    }
}

/// Whether a leaf of one of these stored properties lies strictly above these fields of their struct.
fn property_leaf_above(table: &TypeTable, properties: &[FieldInfo], fields: &[u32]) -> bool
    ensures { result ≡ one_above fields.now
        (leaves_from 0 (shapes_of (shape_in_table table.now) (field_types properties.now))) }
{
    match fields.split_first() {
        None => false,
        Some((number, inner)) => match properties.get(*number as usize) {
            Some(property) => leaf_above(table, property.ty, inner),
            None => false,
        },
    }
}

/// Whether a binding is `self` in an `init`.
pub(crate) fn is_self_in_init(mode: Mode) -> bool
    ensures { result ≡ is_self_in_init mode }
{
    matches!(mode, Mode::SelfInit)
}

/// Whether a leaf of a binding lies strictly above these fields. `self` in an `init` is opened, whatever
/// its type.
fn binding_leaf_above(table: &TypeTable, binding: &Binding, fields: &[u32]) -> bool
    ensures { result ≡ one_above fields.now (binding_leaves (types_in table.now) binding.now) }
{
    if is_self_in_init(binding.mode) && is_struct(table, binding.ty) {
        property_leaf_above(table, table.fields(binding.ty), fields)
    } else {
        leaf_above(table, binding.ty, fields)
    }
}

/// Whether a place lies strictly below a leaf of its binding.
pub(crate) fn lies_in_leaf(table: &TypeTable, binding: &Binding, place: PlaceRef<'_>) -> bool
    ensures { result ≡ lies_in_leaf (place_view place.entry) (binding_leaves (types_in table.now) binding.now) }
{
    binding_leaf_above(table, binding, place.fields)
}
