//! What the declarations of a text say to its bodies. A contract sees it as `Text`, by `text_in`.

ghost use Rattle.std.specs.Prelude.{◌≡◌};
ghost use Rattle.std.specs.Option.{option_copied};
ghost use Rattle.std.specs.Prelude.{slice_get};
ghost use Rattle.own_judged.specs.Names.{on_found, method_of as method_of_type};
ghost use Rattle.own_scope.specs.Known.{callable_held, method_held, text_in};

use crate::callable::{Callable, Entry, Method};
use crate::declared::{DeclaredTypes, type_number, written_type};
use own_table::TypeTable;
use own_tree::{Row, Signature, Ty};

/// What the declarations of a text say to its bodies: its types, what is called, and the function types.
#[derive(Drop)]
pub struct Known<'t> {
    pub table: &'t TypeTable,
    pub types: DeclaredTypes,
    /// The declarations with bodies, in order.
    pub entries: Vec<Entry>,
    /// The function types, each by its number.
    pub signatures: Row<Signature>,
}

impl<'t> Known<'t> {
    /// The type that a written name stands for: a name that names no type counts as `Unit`.
    pub fn written(&self, name: &[u8]) -> Ty
        ensures { result ≡ (text_in self.now).written name.now }
    {
        written_type(&self.types, name)
    }

    /// The number of the declared type of that name.
    pub fn declared(&self, name: &[u8]) -> Option<u32>
        ensures { result ≡ (text_in self.now).declared name.now }
    {
        type_number(&self.types, name)
    }

    /// The function of that name.
    pub fn function(&self, name: &[u8]) -> Option<&Callable>
        ensures { on_found callable_held result ≡ (text_in self.now).function name.now }
    {
        for entry in &self.entries {
            if let Entry::Function(declared, callable) = entry {
                if declared.as_slice() == name {
                    return Some(callable);
                }
            }
        }
        None
    }

    /// The method of that name of the declared type of that number.
    pub fn method(&self, number: u32, name: &[u8]) -> Option<&Method>
        ensures { on_found method_held result ≡ (text_in self.now).method number name.now }
    {
        for entry in &self.entries {
            if let Entry::Method(owner, declared, method) = entry {
                if *owner == number && declared.as_slice() == name {
                    return Some(method);
                }
            }
        }
        None
    }

    /// The method of that name of any type.
    pub fn method_of(&self, ty: Ty, name: &[u8]) -> Option<&Method>
        ensures { on_found method_held result ≡ method_of_type (text_in self.now) ty name.now }
    {
        match ty {
            Ty::Named(number) => self.method(number, name),
            Ty::Int | Ty::Bool | Ty::Unit | Ty::Fun(_) => None,
        }
    }

    /// The `init` of the declared type of that number.
    pub fn initializer(&self, number: u32) -> Option<&Callable>
        ensures { on_found callable_held result ≡ (text_in self.now).initializer number }
    {
        for entry in &self.entries {
            if let Entry::Initializer(owner, callable) = entry {
                if *owner == number {
                    return Some(callable);
                }
            }
        }
        None
    }

    /// The function type of that number.
    pub fn signature(&self, number: u32) -> Option<&Signature>
        ensures { option_copied result ≡ slice_get (text_in self.now).signatures number }
    {
        self.signatures.get(number as usize)
    }
}
