//! What the table says of any type. Of a number that is not in it these functions say what the definitions
//! do: it has no parts and no words, is one leaf, and is copied.

ghost use Rattle.std.specs.Prelude.{◌≡◌, ◌<◌, Some, true, false, length, slice_get};
ghost use Rattle.own_shapes.specs.Types.{copyable, holds_tracked, leaves, no_value, slots, tracked};
ghost use Rattle.own_table.specs.Table.{types_in, IsTypeIn, shape_in_table};

use own_shapes::{CaseInfo, FieldInfo};
use own_table::TypeTable;
use own_tree::Ty;

/// Whether it is a type of the table.
#[tactic(auto, using(crate::proofs::Undeclared::undeclared))]
pub fn is_type(table: &TypeTable, ty: Ty) -> bool
    ensures here { result ≡ true → IsTypeIn table.now ty }
    ensures absent { result ≡ false → IsTypeIn table.now ty → ⊥ }
    ensures shape { result ≡ false → shape_in_table table.now ty ≡ no_value }
{
    match ty {
        Ty::Named(number) => number < table.count(),
        Ty::Int | Ty::Bool | Ty::Unit | Ty::Fun(_) => true,
    }
}

/// The stored properties of a type, in order of declaration.
#[tactic(auto, using(crate::proofs::Undeclared::without_properties))]
pub fn properties<'t>(table: &'t TypeTable, ty: Ty) -> &'t [FieldInfo]
    ensures { result.now ≡ (types_in table.now).properties ty }
{
    if is_type(table, ty) {
        table.fields(ty)
    } else {
        &[]
    }
}

/// The cases of a type, in order of declaration.
#[tactic(auto, using(crate::proofs::Undeclared::without_cases))]
pub fn cases<'t>(table: &'t TypeTable, ty: Ty) -> &'t [CaseInfo]
    ensures { result.now ≡ (types_in table.now).cases ty }
{
    if is_type(table, ty) {
        table.cases(ty)
    } else {
        &[]
    }
}

/// The declared name of a declared type, and no bytes of any other.
#[tactic(auto, using(crate::proofs::Undeclared::without_name))]
pub fn name<'t>(table: &'t TypeTable, ty: Ty) -> &'t [u8]
    ensures { result.now ≡ (types_in table.now).name ty }
{
    if is_type(table, ty) {
        table.name(ty)
    } else {
        &[]
    }
}

/// Whether it is a declared enum.
#[tactic(auto, using(crate::proofs::Undeclared::no_enum))]
pub fn is_enum(table: &TypeTable, ty: Ty) -> bool
    ensures { result ≡ (types_in table.now).is_enum ty }
{
    is_type(table, ty) && table.is_enum(ty)
}

/// Whether a value of the type may be copied (SE-0390).
pub fn copyable(table: &TypeTable, ty: Ty) -> bool
    ensures { result ≡ copyable (shape_in_table table.now ty) }
{
    if is_type(table, ty) {
        table.copyable(ty)
    } else {
        true
    }
}

/// Whether it is a struct with a `deinit` (SE-0390).
pub fn tracked(table: &TypeTable, ty: Ty) -> bool
    ensures { result ≡ tracked (shape_in_table table.now ty) }
{
    if is_type(table, ty) {
        table.tracked(ty)
    } else {
        false
    }
}

/// Whether it is tracked or contains what is.
pub fn holds_tracked(table: &TypeTable, ty: Ty) -> bool
    ensures { result ≡ holds_tracked (shape_in_table table.now ty) }
{
    if is_type(table, ty) {
        table.holds_tracked(ty)
    } else {
        false
    }
}

/// The words that a value takes in a frame.
pub fn slots(table: &TypeTable, ty: Ty) -> u32
    ensures { result ≡ slots (shape_in_table table.now ty) }
{
    if is_type(table, ty) {
        table.slots(ty)
    } else {
        0
    }
}

/// How many leaves a type has: the parts that are made and consumed by themselves (SE-0429).
pub fn leaf_count(table: &TypeTable, ty: Ty) -> u32
    ensures { result ≡ length (leaves (shape_in_table table.now ty)) }
{
    if is_type(table, ty) {
        table.leaf_count(ty)
    } else {
        1
    }
}

/// A leaf, as the numbers of the stored properties that lead to it. Behind the last there is none, which is
/// answered as no properties.
pub fn leaf<'t>(table: &'t TypeTable, ty: Ty, number: u32) -> &'t [u32]
    ensures { number < length (leaves (shape_in_table table.now ty))
        → slice_get (leaves (shape_in_table table.now ty)) number ≡ Some result.now }
{
    if number < leaf_count(table, ty) && is_type(table, ty) {
        table.leaf(ty, number)
    } else {
        &[]
    }
}
