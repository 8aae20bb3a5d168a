//! The leaves of a binding: the parts that are made and consumed by themselves (SE-0429).

ghost use Rattle.std.specs.Prelude.{◌≡◌, ◌<◌, true, false, length, slice_get, Some};
ghost use Rattle.own_shapes.specs.Places.{is_prefix};
ghost use Rattle.own_shapes.specs.Types.{leaves, leaves_from, opened_leaves, shapes_of, field_types};
ghost use Rattle.own_table.specs.Table.{shape_in_table, types_in, IsTypeIn};
ghost use Rattle.own_paths.specs.Fixed.{is_self_in_init, binding_leaves};
ghost use Rattle.own_uses.specs.Leaves.{count_below, is_above, one_above, part_below, part_above};
ghost use Rattle.own_table.specs.declared.table.TypeTable.{TypeTable};
ghost use Rattle.own_uses.specs.Saturating.{held};

use crate::types::is_type;
use own_table::{FieldInfo, TypeTable};
use own_tree::{Binding, Mode, Ty};

/// Where the leaves of a binding are found that lie at a place or below it, or strictly above it.
#[derive(Clone, Copy)]
pub(crate) enum Part<'t> {
    /// All of `self` in `init`, whose properties are opened.
    Opened(&'t [FieldInfo]),
    /// Those of a type, at or above these fields of it.
    Of(Ty, &'t [u32]),
    /// There are none.
    Nothing,
}

/// Whether one list of fields is the front of another.
fn is_prefix(front: &[u32], fields: &[u32]) -> bool
    ensures { result ≡ is_prefix front.now fields.now }
{
    let mut front = front;
    let mut fields = fields;
    while let Some((field, inner)) = front.split_first() {
        let Some((there, rest)) = fields.split_first() else {
            return false;
        };
        if *field != *there {
            return false;
        }
        front = inner;
        fields = rest;
    }
    true
}

/// Whether a leaf lies strictly above these fields.
fn is_above(leaf: &[u32], fields: &[u32]) -> bool
    ensures { result ≡ is_above leaf.now fields.now }
{
    is_prefix(leaf, fields) && !is_prefix(fields, leaf)
}

/// How many leaves a type has.
fn leaf_count(table: &TypeTable, ty: Ty) -> u32
    ensures { result ≡ length (leaves (shape_in_table table.now ty)) }
{
    if is_type(table, ty) {
        table.leaf_count(ty)
    } else {
        1
    }
}

/// One of them, as the fields that lead to it.
fn leaf(table: &TypeTable, ty: Ty, number: u32) -> &[u32]
    requires { number < length (leaves (shape_in_table table.now ty)) }
    ensures { slice_get (leaves (shape_in_table table.now ty)) number ≡ Some result.now }
{
    if is_type(table, ty) {
        table.leaf(ty, number)
    } else {
        &[]
    }
}

/// How many leaves of a type lie at these fields or below them.
fn leaves_below(table: &TypeTable, ty: Ty, fields: &[u32]) -> u32
    ensures { result ≡ count_below fields.now (leaves (shape_in_table table.now ty)) }
{
    let mut count = 0u32;
    for number in 0..leaf_count(table, ty) {
        if is_prefix(fields, leaf(table, ty, number)) {
            count += 1;
        }
    }
    count
}

/// Whether a leaf of a type lies strictly above these fields.
fn leaf_above(table: &TypeTable, ty: Ty, fields: &[u32]) -> bool
    ensures { result ≡ one_above fields.now (leaves (shape_in_table table.now ty)) }
{
    for number in 0..leaf_count(table, ty) {
        if is_above(leaf(table, ty, number), fields) {
            return true;
        }
    }
    false
}

/// How many leaves stored properties have together.
fn property_leaves(table: &TypeTable, properties: &[FieldInfo]) -> u64
    ensures { result ≡ held
        (length (leaves_from 0 (shapes_of (shape_in_table table.now) (field_types properties.now)))) }
{
    let mut sum = 0u64;
    for property in properties {
        sum = sum.saturating_add(leaf_count(table, property.ty) as u64);
    }
    sum
}

/// Whether a type is a struct, whose properties an `init` opens.
fn is_struct(table: &TypeTable, ty: Ty) -> bool
    ensures declared { result ≡ true → IsTypeIn table.now ty }
    ensures opened { result ≡ true
        → opened_leaves (shape_in_table table.now ty)
        ≡ leaves_from 0 (shapes_of (shape_in_table table.now) (field_types ((types_in table.now).properties ty))) }
    ensures whole { result ≡ false → opened_leaves (shape_in_table table.now ty)
        ≡ leaves (shape_in_table table.now ty) }
{
    match ty {
        Ty::Named(number) => number < table.count() && !table.is_enum(ty),
        _ => false,
    }
}

/// Where the leaves at, below or above these fields of `self` in `init` are found, by its properties.
fn opened<'t>(properties: &'t [FieldInfo], fields: &'t [u32]) -> Part<'t>
    ensures below { (table : TypeTable) → part_below table result
        ≡ count_below fields.now (leaves_from 0 (shapes_of (shape_in_table table) (field_types properties.now))) }
    ensures above { (table : TypeTable) → part_above table result
        ≡ one_above fields.now (leaves_from 0 (shapes_of (shape_in_table table) (field_types properties.now))) }
{
    match fields.split_first() {
        None => Part::Opened(properties),
        Some((number, inner)) => match properties.get(*number as usize) {
            Some(property) => Part::Of(property.ty, inner),
            None => Part::Nothing,
        },
    }
}

fn is_self_in_init(mode: Mode) -> bool
    ensures { result ≡ is_self_in_init mode }
{
    matches!(mode, Mode::SelfInit)
}

/// Where the leaves at, below or above these fields of a binding are found.
fn part_of<'t>(table: &'t TypeTable, binding: &Binding, fields: &'t [u32]) -> Part<'t>
    ensures below { part_below table.now result
        ≡ count_below fields.now (binding_leaves (types_in table.now) binding.now) }
    ensures above { part_above table.now result
        ≡ one_above fields.now (binding_leaves (types_in table.now) binding.now) }
{
    if is_self_in_init(binding.mode) && is_struct(table, binding.ty) {
        opened(table.fields(binding.ty), fields)
    } else {
        Part::Of(binding.ty, fields)
    }
}

/// How many leaves of a binding lie at these fields or below them.
pub(crate) fn binding_leaves_below(table: &TypeTable, binding: &Binding, fields: &[u32]) -> u64
    ensures { result ≡ held (count_below fields.now (binding_leaves (types_in table.now) binding.now)) }
{
    match part_of(table, binding, fields) {
        Part::Opened(properties) => property_leaves(table, properties),
        Part::Of(ty, inner) => leaves_below(table, ty, inner) as u64,
        Part::Nothing => 0,
    }
}

/// Whether a leaf of a binding lies strictly above these fields.
pub(crate) fn binding_leaf_above(table: &TypeTable, binding: &Binding, fields: &[u32]) -> bool
    ensures { result ≡ one_above fields.now (binding_leaves (types_in table.now) binding.now) }
{
    match part_of(table, binding, fields) {
        Part::Opened(_) | Part::Nothing => false,
        Part::Of(ty, inner) => leaf_above(table, ty, inner),
    }
}
