//! Names that bindings have in a body.

use own_tree::Ty;

/// A name of a body, with its binding.
#[derive(Clone, Copy, Debug)]
pub struct Local<'t> {
    pub name: &'t [u8],
    pub binding: u32,
    pub ty: Ty,
}

/// What a name is bound to.
#[derive(Clone, Copy, Debug, PartialEq, Eq)]
pub struct Bound {
    pub binding: u32,
    pub ty: Ty,
}
