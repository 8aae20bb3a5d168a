//! What the declarations of a text say to its bodies, from its tree.

ghost use Rattle.std.specs.Prelude.{◌≡◌, IfOk};
ghost use Rattle.own_tree.specs.View.{tree_view};
ghost use Rattle.own_shapes.specs.Types.{types_of};
ghost use Rattle.own_table.specs.Table.{types_in};
ghost use Rattle.own_judged.specs.Text.{text_of};
ghost use Rattle.own_scope.specs.Known.{text_in};

use crate::declared::declared_types;
use crate::entries::entries_of;
use crate::known::Known;
use crate::signatures::signatures_of;
use own_table::TypeTable;
use own_tree::tree::Tree;
use std::alloc::{AllocError, Global};

/// What the declarations of a text say to its bodies. The table is that of its types.
#[tactic(auto, using(crate::proofs::Texts::text_is))]
pub fn known_of<'t>(
    alloc: Global,
    tree: &Tree,
    table: &'t TypeTable,
) -> Result<Known<'t>, AllocError>
    requires { types_in table.now ≡ types_of (tree_view tree.now) }
    ensures { IfOk result (λ known. text_in known ≡ text_of (tree_view tree.now)) }
{
    let declarations = tree.declarations.as_slice();
    let types = declared_types(alloc, declarations)?;
    let signatures = signatures_of(alloc, &types, declarations)?;
    let entries = entries_of(alloc, &types, signatures.as_slice(), declarations)?;
    Ok(Known {
        table,
        types,
        entries,
        signatures,
    })
}
