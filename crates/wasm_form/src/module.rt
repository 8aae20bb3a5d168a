use crate::instr::Instr;
use crate::types::{FunctionType, Limits, Value, ValueType};
use own_tree::{Bytes, Row};
use sqlite_items::Items;

/// A module (Core 1.0, 2.5): the lists of its sections, in their order.
///
/// Functions are counted with the imports first, as all imports of the profile are functions.
#[derive(Drop)]
pub struct Module {
    /// Section 1.
    pub types: Row<FunctionType>,
    /// Section 2.
    pub imports: Row<Import>,
    /// Section 3: the type of each defined function, as an index into `types`.
    pub functions: Row<u32>,
    /// Section 4: at most one table, of functions.
    pub tables: Row<Limits>,
    /// Section 5: at most one memory.
    pub memories: Row<Limits>,
    /// Section 6.
    pub globals: Row<GlobalEntry>,
    /// Section 7.
    pub exports: Row<Export>,
    /// Section 9.
    pub elements: Row<ElementSegment>,
    /// Section 10: the code of each defined function.
    pub codes: Row<CodeEntry>,
    /// Section 11: what memory holds at the start.
    pub segments: Row<DataSegment>,
}

/// One of the functions that the host gives, all of the module `swiftown`. Its name is its own in
/// small letters with `_` between the words, as `write_int`.
#[derive(Clone, Copy, Debug, PartialEq, Eq)]
pub enum HostCall {
    /// Of an i64: writes it in decimal.
    WriteInt,
    /// Of an i32: writes `false` for 0, else `true`.
    WriteBool,
    /// Of two i32: writes the bytes of memory at the first, as many as the second.
    WriteText,
    /// Of an i32: writes its low 8 bits as one byte.
    WriteByte,
    /// To an i64: the next number of the input, or 0 past its end.
    ReadInt,
    /// Of two i32: traps with the first as the code and the second as the offset.
    Trap,
}

/// An import, which is a function (Core 1.0, 2.5.11).
#[derive(Clone, Copy, Debug, PartialEq, Eq)]
pub struct Import {
    pub call: HostCall,
    /// Its type, as an index into the types: any entry that is the type of `call`.
    pub type_index: u32,
}

/// A global (Core 1.0, 2.5.6).
#[derive(Clone, Copy, Debug, PartialEq, Eq)]
pub struct GlobalEntry {
    pub value_type: ValueType,
    pub is_mutable: bool,
    /// The constant of the initial expression, of any type.
    pub initial: Value,
}

/// An export (Core 1.0, 2.5.10).
#[derive(Debug, Drop)]
pub struct Export {
    /// UTF-8.
    pub name: Bytes,
    pub kind: ExportKind,
    /// Counted among the functions, tables, memories or globals, by `kind`.
    pub index: u32,
}

#[derive(Clone, Copy, Debug, PartialEq, Eq)]
pub enum ExportKind {
    Function,
    Table,
    Memory,
    Global,
}

/// What the table holds at the start from `offset` on, as indices of functions (Core 1.0, 2.5.7).
#[derive(Debug, Drop)]
pub struct ElementSegment {
    pub offset: u32,
    pub functions: Row<u32>,
}

/// The code of a function (Core 1.0, 5.5.13).
#[derive(Drop)]
pub struct CodeEntry {
    /// The groups as they are written, which may be empty or of the type of the one before.
    pub locals: Row<LocalGroup>,
    pub body: Items<Instr>,
}

/// So many locals of a type (Core 1.0, 5.5.13).
#[derive(Clone, Copy, Debug, PartialEq, Eq)]
pub struct LocalGroup {
    pub count: u32,
    pub value_type: ValueType,
}

/// What memory holds at the start from `offset` on (Core 1.0, 2.5.8).
#[derive(Debug, Drop)]
pub struct DataSegment {
    pub offset: u32,
    pub bytes: Bytes,
}
