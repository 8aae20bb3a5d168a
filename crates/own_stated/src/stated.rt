//! What a statement becomes.

use own_scope::Local;
use own_tree::typed::TypedStmt;

/// A typed statement, and the local that it declares for those behind it, where it declares one.
#[derive(Drop)]
pub struct Stated<'t> {
    pub statement: TypedStmt,
    pub local: Option<Local<'t>>,
}
