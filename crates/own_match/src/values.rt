//! Which types have a value.

ghost use Rattle.std.specs.Prelude.{◌≡◌};
ghost use Rattle.own_table.specs.HasValue.{all_have_values};
ghost use Rattle.own_table.specs.Table.{shape_in_table};
ghost use Rattle.own_shapes.specs.Types.{shapes_of};
ghost use Rattle.own_match.specs.View.{AreTypes};

use own_table::TypeTable;
use own_tree::Ty;

/// Whether each of these types has a value.
pub fn all_have_values(table: &TypeTable, types: &[Ty]) -> bool
    requires { AreTypes table.now types.now }
    ensures { result ≡ all_have_values (shapes_of (shape_in_table table.now) types.now) }
{
    for ty in types {
        if !table.has_value(*ty) {
            return false;
        }
    }
    true
}
