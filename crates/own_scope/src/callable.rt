//! What the declarations of a text say of what is called.

use own_tree::tree::MethodMode;
use own_tree::{Bytes, ParamInfo, Row, Ty};

/// A body that is called by a name, with its number.
#[derive(Debug, Drop)]
pub struct Callable {
    pub body: u32,
    pub params: Row<ParamInfo>,
    pub result: Ty,
}

/// A function of a type, and the modifier of its `self` where one is written.
#[derive(Debug, Drop)]
pub struct Method {
    pub mode: Option<MethodMode>,
    pub callable: Callable,
}

/// A declaration with a body.
#[derive(Debug, Drop)]
pub enum Entry {
    Function(Bytes, Callable),
    /// Of the type of that number.
    Method(u32, Bytes, Method),
    /// Of the type of that number.
    Initializer(u32, Callable),
}
