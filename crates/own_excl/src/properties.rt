//! The stored properties on the way to a part of a value.

ghost use Rattle.std.specs.Prelude.{◌≡◌, slice_get};
ghost use Rattle.std.specs.Option.{option_copied};
ghost use Rattle.own_shapes.specs.Types.{passes_let};
ghost use Rattle.own_table.specs.Table.{shape_in_table, types_in};

use crate::types::is_type;
use own_table::{FieldInfo, TypeTable};
use own_tree::Ty;

/// A stored property of a type, by its number.
fn property(table: &TypeTable, ty: Ty, number: u32) -> Option<&FieldInfo>
    ensures { option_copied result ≡ slice_get ((types_in table.now).properties ty) number }
{
    if is_type(table, ty) {
        table.fields(ty).get(number as usize)
    } else {
        None
    }
}

/// Whether one of the properties on the way is a `let`.
pub(crate) fn passes_let(table: &TypeTable, ty: Ty, fields: &[u32]) -> bool
    ensures { result ≡ passes_let (shape_in_table table.now ty) fields.now }
{
    let mut ty = ty;
    for number in fields {
        match property(table, ty, *number) {
            Some(property) => {
                if !property.changes {
                    return true;
                }
                ty = property.ty;
            }
            None => return false,
        }
    }
    false
}
