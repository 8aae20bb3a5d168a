//! What the table says of any type.

ghost use Rattle.std.specs.Prelude.{◌≡◌, true, false, slice_get};
ghost use Rattle.std.specs.Option.{option_copied};
ghost use Rattle.own_table.specs.Table.{types_in, IsTypeIn};

use own_shapes::FieldInfo;
use own_table::TypeTable;
use own_tree::Ty;

/// Whether it is a type of the table.
fn is_type(table: &TypeTable, ty: Ty) -> bool
    ensures here { result ≡ true → IsTypeIn table.now ty }
    ensures absent { result ≡ false → IsTypeIn table.now ty → ⊥ }
{
    match ty {
        Ty::Named(number) => number < table.count(),
        Ty::Int | Ty::Bool | Ty::Unit | Ty::Fun(_) => true,
    }
}

/// The stored properties of a type, in order of declaration; none of one that is not in the table.
#[tactic(auto, using(crate::proofs::Undeclared::without_properties))]
fn properties<'t>(table: &'t TypeTable, ty: Ty) -> &'t [FieldInfo]
    ensures { result.now ≡ (types_in table.now).properties ty }
{
    if is_type(table, ty) {
        table.fields(ty)
    } else {
        &[]
    }
}

/// The stored property of that number.
pub(crate) fn property<'t>(table: &'t TypeTable, ty: Ty, number: u32) -> Option<&'t FieldInfo>
    ensures { option_copied result ≡ slice_get ((types_in table.now).properties ty) number }
{
    properties(table, ty).get(number as usize)
}
