use own_tree::Row;

/// The type of a value (Core 1.0, 2.3.1): a number of 32 or of 64 bits.
#[derive(Clone, Copy, Debug, PartialEq, Eq)]
pub enum ValueType {
    I32,
    I64,
}

/// What a block, a loop or an if hands on: nothing, or one value (Core 1.0, 5.3.2).
pub type BlockType = Option<ValueType>;

/// A value (Core 1.0, 4.2.1), as its unsigned bits. It is what a constant names, too.
#[derive(Clone, Copy, Debug, PartialEq, Eq)]
pub enum Value {
    I32(u32),
    I64(u64),
}

/// The type of a function (Core 1.0, 2.3.3), which has at most one result.
#[derive(Debug, Drop)]
pub struct FunctionType {
    pub parameters: Row<ValueType>,
    pub result: Option<ValueType>,
}

/// The size of a table in elements, or of a memory in pages (Core 1.0, 2.3.4).
#[derive(Clone, Copy, Debug, PartialEq, Eq)]
pub struct Limits {
    pub min: u32,
    pub max: Option<u32>,
}
