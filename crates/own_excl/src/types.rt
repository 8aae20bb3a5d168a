//! What the table says of a type. One that is not declared, which typing refuses, has no part.

ghost use Rattle.std.specs.Prelude.{◌≡◌, true, false};
ghost use Rattle.own_shapes.specs.Types.{is_copyable, no_value};
ghost use Rattle.own_table.specs.Table.{types_in, shape_in_table, IsTypeIn};

use own_table::TypeTable;
use own_tree::Ty;

/// Whether a type is one of the table.
pub(crate) fn is_type(table: &TypeTable, ty: Ty) -> bool
    ensures here { result ≡ true → IsTypeIn table.now ty }
    ensures absent { result ≡ false → shape_in_table table.now ty ≡ no_value }
{
    match ty {
        Ty::Named(number) => number < table.count(),
        _ => true,
    }
}

/// Whether a value may be copied.
pub(crate) fn is_copyable(table: &TypeTable, ty: Ty) -> bool
    ensures { result ≡ is_copyable (types_in table.now) ty }
{
    if is_type(table, ty) {
        table.copyable(ty)
    } else {
        true
    }
}
