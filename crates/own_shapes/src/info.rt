//! What the declarations of a text say of its types, with each name resolved.

use own_tree::{Bytes, Row, Ty};

/// A stored property.
#[derive(Debug, Drop)]
pub struct FieldInfo {
    pub name: Bytes,
    pub ty: Ty,
    /// Whether it is a `var`.
    pub changes: bool,
}

/// A case of an enum, and the types of its payloads.
#[derive(Debug, Drop)]
pub struct CaseInfo {
    pub name: Bytes,
    pub payloads: Row<Ty>,
}

/// The declaration of a struct or an enum. A name that names no type counts as `Unit`.
#[derive(Debug, Drop)]
pub struct TypeInfo {
    pub name: Bytes,
    pub is_enum: bool,
    /// Whether it is declared `: ~Copyable` (SE-0390).
    pub noncopyable: bool,
    pub has_deinit: bool,
    pub fields: Row<FieldInfo>,
    pub cases: Row<CaseInfo>,
}
