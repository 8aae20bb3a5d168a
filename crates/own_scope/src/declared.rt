//! The declared types of a text by their names.

ghost use Rattle.std.specs.Prelude.{◌≡◌, ◌≤◌, ◌+◌, ◌^◌, ◌∷◌, ◌++◌, [], length, map, IfOk, OnOk};
ghost use Rattle.own_tree.specs.View.{declaration_view};
ghost use Rattle.own_scope.specs.TypeNames.{number_in, type_texts, written_in};

use own_tree::tree::{Declaration, Name};
use own_tree::{Bytes, Ty};
use std::alloc::{AllocError, Global};

/// The names of the declared types, in order of declaration. Of two of one name, which T02 refuses, the
/// first one counts.
#[derive(Drop)]
pub struct DeclaredTypes {
    pub names: Vec<Bytes>,
    /// Each has a number.
    pub ghost few: { length names.items + 1 ≤ 2 ^ 32 },
}

/// Adds the name of a type. A number that is too large counts as memory that is refused.
fn add_name(types: &mut DeclaredTypes, alloc: Global, name: &Name) -> Result<(), AllocError>
    ensures { OnOk result (types.new.names.items ≡ types.old.names.items ++ name.now.text ∷ []) }
{
    if types.names.len() + 1 >= u32::MAX as usize {
        return Err(AllocError);
    }
    let name = Bytes::from_slice(alloc, name.text.as_slice())?;
    types.names.push(name)?;
    Ok(())
}

fn add_declaration(
    types: &mut DeclaredTypes,
    alloc: Global,
    declaration: &Declaration,
) -> Result<(), AllocError>
    ensures { OnOk result (types.new.names.items
        ≡ types.old.names.items ++ type_texts (declaration_view declaration.now ∷ [])) }
{
    match declaration {
        Declaration::Struct(declared) => add_name(types, alloc, &declared.name),
        Declaration::Enum(declared) => add_name(types, alloc, &declared.name),
        Declaration::Function(_) => Ok(()),
    }
}

/// The declared types of a text.
#[tactic(auto, using(crate::proofs::Texts::next_texts))]
pub fn declared_types(
    alloc: Global,
    declarations: &[Declaration],
) -> Result<DeclaredTypes, AllocError>
    ensures { IfOk result (λ types. types.names.items ≡ type_texts (map declaration_view declarations.now)) }
{
    let mut types = DeclaredTypes {
        names: Vec::new(alloc),
    };
    for declaration in declarations {
        add_declaration(&mut types, alloc, declaration)?;
    }
    Ok(types)
}

/// The number of the first type of that name.
pub fn type_number(types: &DeclaredTypes, name: &[u8]) -> Option<u32>
    ensures { result ≡ number_in 0 types.now.names.items name.now }
{
    for number in 0..types.names.len() {
        if types.names[number].as_slice() == name {
            return Some(number as u32);
        }
    }
    None
}

/// What a written name stands for: a name that names no type counts as `Unit`.
pub fn written_type(types: &DeclaredTypes, name: &[u8]) -> Ty
    ensures { result ≡ written_in types.now.names.items name.now }
{
    if name == b"Int".as_slice() {
        return Ty::Int;
    }
    if name == b"Bool".as_slice() {
        return Ty::Bool;
    }
    match type_number(types, name) {
        Some(number) => Ty::Named(number),
        None => Ty::Unit,
    }
}
