//! The names of one scope.

ghost use Rattle.std.specs.Prelude.{◌≡◌, map};
ghost use Rattle.own_scope.specs.Held.{held_local};
ghost use Rattle.own_scope.specs.Locals.{HasLast};

use crate::held::Held;
use crate::local::{Bound, Local};
use indexmap::IndexMap;
use own_tree::Bytes;
use std::alloc::{AllocError, Global};

/// The names that one scope declares, in order of declaration.
#[derive(Drop)]
pub struct Frame {
    locals: Vec<Held>,
    last: IndexMap<Vec<u8>, Bound>,
    /// Each name is found as it was declared last.
    pub ghost found: { HasLast last.entries (map held_local locals.items) },
}

impl Frame {
    ghost use Rattle.std.specs.Prelude.{◌∷◌, ◌++◌, [], OnOk};
    ghost use Rattle.own_judged.specs.Names.{local_in, on_found};
    ghost use Rattle.own_scope.specs.Locals.{local_of};

    /// No names, which take no memory yet.
    pub fn new(alloc: Global) -> Frame
        ensures { result.locals.items ≡ [] }
    {
        Frame {
            locals: Vec::new(alloc),
            last: IndexMap::new(alloc),
        }
    }

    /// Adds a name.
    pub fn declare(&mut self, alloc: Global, local: Local<'_>) -> Result<(), AllocError>
        ensures { OnOk result (map held_local self.new.locals.items
            ≡ map held_local self.old.locals.items ++ local_of local.entry ∷ []) }
    {
        let bound = Bound {
            binding: local.binding,
            ty: local.ty,
        };
        let key = Vec::from_slice(alloc, local.name)?;
        let held = Held {
            name: Bytes::from_slice(alloc, local.name)?,
            bound,
        };
        self.locals.push(held)?;
        match self.last.insert(key, bound) {
            Ok(_) => Ok(()),
            Err(_) => {
                self.locals.pop();
                Err(AllocError)
            }
        }
    }

    /// What was declared last of that name.
    pub fn find<'n>(&self, name: &'n [u8]) -> Option<Local<'n>>
        ensures { on_found local_of result ≡ local_in (map held_local self.now.locals.items) name.now }
    {
        match self.last.get(name) {
            Some(bound) => Some(Local {
                name,
                binding: bound.binding,
                ty: bound.ty,
            }),
            None => None,
        }
    }
}
