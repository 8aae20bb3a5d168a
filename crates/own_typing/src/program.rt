//! The program that the bodies of a text become.

ghost use Rattle.std.specs.Prelude.{◌≡◌};
ghost use Rattle.own_tree.specs.View.{tree_view};
ghost use Rattle.own_shapes.specs.Types.{types_of};
ghost use Rattle.own_table.specs.Table.{types_in};

use crate::bodies::type_bodies;
use own_calls::TypeError;
use own_scope::signatures::signatures_of;
use own_scope::{Builder, Known, known_of};
use own_table::TypeTable;
use own_tree::tree::{Declaration, Tree};
use own_tree::{Row, Signature, Typed};
use std::alloc::Global;

/// The body of `func main`.
fn main_of(known: &Known<'_>) -> u32 {
    match known.function(b"main".as_slice()) {
        Some(callable) => callable.body,
        None => 0,
    }
}

/// What the bodies of declarations become.
fn built(
    alloc: Global,
    known: &Known<'_>,
    declarations: &[Declaration],
) -> Result<Builder, TypeError> {
    let mut builder = Builder::new(alloc);
    type_bodies(alloc, known, &mut builder, declarations)?;
    Ok(builder)
}

/// The program that a builder has made.
fn program_of(builder: Builder, signatures: Row<Signature>, main: u32, tokens: u32) -> Typed {
    let Builder {
        bindings,
        bodies,
        ..
    } = builder;
    Typed {
        bodies: Row::from_vec(bodies),
        bindings: Row::from_vec(bindings),
        signatures,
        main,
        tokens,
    }
}

/// The program that the bodies of a text become, over the table of its types. `BadType` names the judgement
/// that is false, by its number (T10 to T32), at its node; where the patterns of a `switch` leave out a value it
/// is `Uncovered` (T20), with the first form that they leave out. Of several judgements that are false it names
/// one. `Memory` comes where memory is refused.
pub fn type_program(alloc: Global, tree: &Tree, table: &TypeTable) -> Result<Typed, TypeError>
    requires { types_in table.now ≡ types_of (tree_view tree.now) }
{
    let known = known_of(alloc, tree, table)?;
    let declarations = tree.declarations.as_slice();
    let builder = built(alloc, &known, declarations)?;
    let signatures = signatures_of(alloc, &known.types, declarations)?;
    Ok(program_of(builder, signatures, main_of(&known), tree.tokens))
}
