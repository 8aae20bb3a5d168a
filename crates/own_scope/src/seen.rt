//! What a name stands for at a place.

ghost use Rattle.std.specs.Prelude.{◌≡◌};
ghost use Rattle.own_judged.specs.Names.{built_in as built_in_name, of_owner as of_owner_named, on_found, seen as seen_name};
ghost use Rattle.own_scope.specs.Scopes.{scope_of};
ghost use Rattle.own_scope.specs.SeenNames.{seen_held, top};
ghost use Rattle.own_scope.specs.Known.{text_in};

use crate::callable::{Callable, Method};
use crate::known::Known;
use crate::local::Local;
use crate::scope::Scope;
use crate::types::property;
use own_shapes::FieldInfo;
use own_tree::Ty;

/// What a name stands for.
#[derive(Debug, Drop)]
pub enum Seen<'k> {
    Local(Local<'k>),
    /// Of the enclosing type, as if `self.` stood before it.
    Property(u32, &'k FieldInfo),
    Method(&'k Method),
    Function(&'k Callable),
    Print,
    ReadInt,
    Type(u32),
}

/// What stands at the top of each text.
fn built_in<'k>(name: &[u8]) -> Option<Seen<'k>>
    ensures { on_found seen_held result ≡ built_in_name name.now }
{
    if name == b"print".as_slice() {
        return Some(Seen::Print);
    }
    if name == b"readInt".as_slice() {
        return Some(Seen::ReadInt);
    }
    None
}

/// A stored property or a method of the enclosing type.
fn of_owner<'k>(known: &'k Known<'_>, owner: Option<u32>, name: &[u8]) -> Option<Seen<'k>>
    ensures { on_found seen_held result ≡ of_owner_named (text_in known.now) owner name.now }
{
    let number = owner?;
    if let Some((place, field)) = property(known.table, Ty::Named(number), name) {
        return Some(Seen::Property(place, field));
    }
    match known.method(number, name) {
        Some(method) => Some(Seen::Method(method)),
        None => None,
    }
}

/// What stands at the top of the text.
fn at_top<'k>(known: &'k Known<'_>, name: &[u8]) -> Option<Seen<'k>>
    ensures { on_found seen_held result ≡ top (text_in known.now) name.now }
{
    if let Some(function) = known.function(name) {
        return Some(Seen::Function(function));
    }
    if let Some(built) = built_in(name) {
        return Some(built);
    }
    match known.declared(name) {
        Some(number) => Some(Seen::Type(number)),
        None => None,
    }
}

/// What a name stands for: the innermost local, then a stored property or a method of the enclosing type,
/// then what stands at the top.
pub fn seen_at<'k>(known: &'k Known<'_>, scope: &Scope<'_>, name: &'k [u8]) -> Option<Seen<'k>>
    ensures { on_found seen_held result ≡ seen_name (text_in known.now) (scope_of scope.now) name.now }
{
    if let Some(local) = scope.find(name) {
        return Some(Seen::Local(local));
    }
    if let Some(seen) = of_owner(known, scope.context.owner, name) {
        return Some(seen);
    }
    at_top(known, name)
}
