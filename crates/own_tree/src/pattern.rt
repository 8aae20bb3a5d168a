use crate::row::Row;
use sqlite_items::Items;

/// A pattern of a typed program.
#[derive(Drop)]
pub enum TPattern {
    /// `_`
    Any,
    /// A name. Where a guard sees a borrowed binding and the body an owned one, this is the borrowed
    /// one, and the owned one has the next number.
    Bind(u32),
    /// A case by its number in its enum, in order of declaration from 0, with a pattern for each
    /// payload.
    Case(u32, Items<TPattern>),
    Number(i64),
    Truth(bool),
}

/// Whether a list of patterns matches every value of a type.
#[derive(Drop)]
pub enum Cover {
    All,
    /// The first form of a value that none of them matches.
    Missing(TPattern),
}
