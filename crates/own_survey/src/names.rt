//! The declared types by their names.

ghost use Rattle.std.specs.Prelude.{◌≡◌, ◌≤◌, ◌<◌, ◌+◌, ◌^◌, ◌∷◌, [], length, IfOk, OnOk, map};
ghost use Rattle.own_tree.specs.declared.limits.TheConstants.{MOST_TYPES};
ghost use Rattle.own_tree.specs.View.{declaration_view};
ghost use Rattle.own_survey.specs.Names.{Adds, AddsName, Knows, type_in, written_in};
ghost use Rattle.own_shapes.specs.Types.{declared_types};

use crate::survey::Written;
use indexmap::IndexMap;
use own_tree::Ty;
use own_tree::tree::Declaration;
use std::alloc::{AllocError, Global};

/// A declared type, as it is found by its name.
#[derive(Clone, Copy, Debug)]
struct NamedType {
    /// How many types are declared before it.
    number: u32,
    /// Whether it is declared `: ~Copyable` (SE-0390).
    noncopyable: bool,
}

/// The declared types of a text by their names. Of two of one name, which T02 refuses, the first one
/// counts.
#[derive(Drop)]
pub struct TypeNames<'t> {
    types: IndexMap<&'t [u8], NamedType>,
}

/// Adds a name with its type, unless an equal one is there.
fn add_name<'t>(
    types: &mut IndexMap<&'t [u8], NamedType>,
    name: &'t [u8],
    named: NamedType,
) -> Result<(), AllocError>
    ensures { OnOk result (AddsName types.old.entries types.new.entries name.now named) }
{
    if !types.contains_key(name) {
        types.insert(name, named)?;
    }
    Ok(())
}

/// Adds the name of a struct or an enum, before which so many types are declared; how many are declared
/// with it.
fn add_type<'t>(
    types: &mut IndexMap<&'t [u8], NamedType>,
    declaration: &'t Declaration,
    number: u32,
) -> Result<u32, AllocError>
    requires { number + 1 < 2 ^ 32 }
    ensures adds { OnOk result (Adds types.old.entries types.new.entries number
        (declared_types (declaration_view declaration.now ∷ []))) }
    ensures next { IfOk result (λ next.
        next ≡ number + length (declared_types (declaration_view declaration.now ∷ []))) }
{
    let (name, noncopyable) = match declaration {
        Declaration::Struct(declared) => (&declared.name, declared.noncopyable),
        Declaration::Enum(declared) => (&declared.name, declared.noncopyable),
        Declaration::Function(_) => return Ok(number),
    };
    add_name(
        types,
        name.text.as_slice(),
        NamedType {
            number,
            noncopyable,
        },
    )?;
    Ok(number + 1)
}

impl<'t> TypeNames<'t> {
    /// The types of a text.
    pub fn new(alloc: Global, declarations: &'t [Declaration]) -> Result<TypeNames<'t>, AllocError>
        requires { length (declared_types (map declaration_view declarations.now)) ≤ MOST_TYPES }
        ensures { IfOk result (λ names.
            Knows names.types.entries (declared_types (map declaration_view declarations.now))) }
    {
        let mut types = IndexMap::new(alloc);
        let mut count = 0u32;
        for declaration in declarations {
            count = add_type(&mut types, declaration, count)?;
        }
        Ok(TypeNames { types })
    }

    /// What a written name names.
    pub(crate) fn written(&self, name: &[u8]) -> Written
        ensures { result ≡ written_in self.now name.now }
    {
        if name == b"Int".as_slice() || name == b"Bool".as_slice() {
            return Written::Copyable;
        }
        match self.types.get(name) {
            Some(named) if named.noncopyable => Written::Noncopyable,
            Some(_) => Written::Copyable,
            None => Written::Unknown,
        }
    }

    /// What a written name stands for: a name that names no type counts as `Unit`.
    pub fn written_type(&self, name: &[u8]) -> Ty
        ensures { result ≡ type_in self.now name.now }
    {
        if name == b"Int".as_slice() {
            return Ty::Int;
        }
        if name == b"Bool".as_slice() {
            return Ty::Bool;
        }
        match self.types.get(name) {
            Some(named) => Ty::Named(named.number),
            None => Ty::Unit,
        }
    }
}
