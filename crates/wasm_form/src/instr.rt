use crate::types::BlockType;
use sqlite_items::{Boxed, Items};

/// The alignment, as the power of two that it is, and the offset of an access, in bytes
/// (Core 1.0, 2.4.4). The alignment changes nothing.
#[derive(Clone, Copy, Debug, PartialEq, Eq)]
pub struct MemArg {
    pub align: u32,
    pub offset: u32,
}

/// An instruction: one variant for each opcode, in their order (Core 1.0, 2.4 and 5.4).
///
/// A long code is millions of these, so what makes one larger than 32 bytes stands in a box.
#[derive(Drop)]
pub enum Instr {
    // Controls (Core 1.0, 2.4.5).
    Unreachable,
    Nop,
    Block(BlockType, Items<Instr>),
    Loop(BlockType, Items<Instr>),
    /// The side for a number that is not 0, and then that for 0.
    If(BlockType, Boxed<Items<Instr>>, Boxed<Items<Instr>>),
    Br(u32),
    BrIf(u32),
    /// The labels of 0 and on, and then the default.
    BrTable(Boxed<Items<u32>>, u32),
    Return,
    Call(u32),
    /// The index of a type.
    CallIndirect(u32),
    // Any value (2.4.2).
    Drop,
    Select,
    // Variables (2.4.3).
    LocalGet(u32),
    LocalSet(u32),
    LocalTee(u32),
    GlobalGet(u32),
    GlobalSet(u32),
    // Memory (2.4.4).
    I32Load(MemArg),
    I64Load(MemArg),
    I32Load8S(MemArg),
    I32Load8U(MemArg),
    I32Load16S(MemArg),
    I32Load16U(MemArg),
    I64Load8S(MemArg),
    I64Load8U(MemArg),
    I64Load16S(MemArg),
    I64Load16U(MemArg),
    I64Load32S(MemArg),
    I64Load32U(MemArg),
    I32Store(MemArg),
    I64Store(MemArg),
    I32Store8(MemArg),
    I32Store16(MemArg),
    I64Store8(MemArg),
    I64Store16(MemArg),
    I64Store32(MemArg),
    MemorySize,
    MemoryGrow,
    // Constants: the bits (2.4.1).
    I32Const(u32),
    I64Const(u64),
    // Tests of i32, which give an i32.
    I32Eqz,
    I32Eq,
    I32Ne,
    I32LtS,
    I32LtU,
    I32GtS,
    I32GtU,
    I32LeS,
    I32LeU,
    I32GeS,
    I32GeU,
    // Tests of i64, which give an i32.
    I64Eqz,
    I64Eq,
    I64Ne,
    I64LtS,
    I64LtU,
    I64GtS,
    I64GtU,
    I64LeS,
    I64LeU,
    I64GeS,
    I64GeU,
    // Arithmetic of i32.
    I32Clz,
    I32Ctz,
    I32Popcnt,
    I32Add,
    I32Sub,
    I32Mul,
    I32DivS,
    I32DivU,
    I32RemS,
    I32RemU,
    I32And,
    I32Or,
    I32Xor,
    I32Shl,
    I32ShrS,
    I32ShrU,
    I32Rotl,
    I32Rotr,
    // Arithmetic of i64.
    I64Clz,
    I64Ctz,
    I64Popcnt,
    I64Add,
    I64Sub,
    I64Mul,
    I64DivS,
    I64DivU,
    I64RemS,
    I64RemU,
    I64And,
    I64Or,
    I64Xor,
    I64Shl,
    I64ShrS,
    I64ShrU,
    I64Rotl,
    I64Rotr,
    // Conversions.
    I32WrapI64,
    I64ExtendI32S,
    I64ExtendI32U,
}

const _: () = prove!(size_of::<Instr>() <= 32);
