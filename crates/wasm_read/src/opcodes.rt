//! The instruction of an opcode (Core 1.0, 5.4), for those that hold no others.

ghost use Rattle.std.specs.Prelude.{◌≡◌};
ghost use Rattle.wasm_form.specs.Tables.{is_float, numeric_of, i32_test_of, i64_test_of, i32_arithmetic_of, i64_arithmetic_of, conversion_of, access_of};

use wasm_form::{Instr, MemArg};

/// Whether it is an opcode of floating point, which the profile has not.
#[tactic(auto, unfolding(wasm_form::specs::Tables::is_float))]
pub(crate) fn is_floating(opcode: u8) -> bool
    ensures { result ≡ is_float opcode }
{
    matches!(
        opcode,
        0x2a..=0x2b | 0x38..=0x39 | 0x43..=0x44 | 0x5b..=0x66 | 0x8b..=0xa6 | 0xa8..=0xab | 0xae..=0xbf
    )
}

/// An instruction that is its opcode alone, from `0x45` on.
#[tactic(auto, unfolding(wasm_form::specs::Tables::numeric_of))]
pub(crate) fn numeric(opcode: u8) -> Option<Instr>
    ensures { result ≡ numeric_of opcode }
{
    if opcode < 0x50 {
        i32_test(opcode)
    } else if opcode < 0x5b {
        i64_test(opcode)
    } else if opcode < 0x79 {
        i32_arithmetic(opcode)
    } else if opcode < 0x8b {
        i64_arithmetic(opcode)
    } else {
        conversion(opcode)
    }
}

/// The tests of i32.
#[tactic(auto, unfolding(wasm_form::specs::Tables::i32_test_of))]
fn i32_test(opcode: u8) -> Option<Instr>
    ensures { result ≡ i32_test_of opcode }
{
    match opcode {
        0x45 => Some(Instr::I32Eqz),
        0x46 => Some(Instr::I32Eq),
        0x47 => Some(Instr::I32Ne),
        0x48 => Some(Instr::I32LtS),
        0x49 => Some(Instr::I32LtU),
        0x4a => Some(Instr::I32GtS),
        0x4b => Some(Instr::I32GtU),
        0x4c => Some(Instr::I32LeS),
        0x4d => Some(Instr::I32LeU),
        0x4e => Some(Instr::I32GeS),
        0x4f => Some(Instr::I32GeU),
        _ => None,
    }
}

/// The tests of i64.
#[tactic(auto, unfolding(wasm_form::specs::Tables::i64_test_of))]
fn i64_test(opcode: u8) -> Option<Instr>
    ensures { result ≡ i64_test_of opcode }
{
    match opcode {
        0x50 => Some(Instr::I64Eqz),
        0x51 => Some(Instr::I64Eq),
        0x52 => Some(Instr::I64Ne),
        0x53 => Some(Instr::I64LtS),
        0x54 => Some(Instr::I64LtU),
        0x55 => Some(Instr::I64GtS),
        0x56 => Some(Instr::I64GtU),
        0x57 => Some(Instr::I64LeS),
        0x58 => Some(Instr::I64LeU),
        0x59 => Some(Instr::I64GeS),
        0x5a => Some(Instr::I64GeU),
        _ => None,
    }
}

/// The arithmetic of i32.
#[tactic(auto, unfolding(wasm_form::specs::Tables::i32_arithmetic_of))]
fn i32_arithmetic(opcode: u8) -> Option<Instr>
    ensures { result ≡ i32_arithmetic_of opcode }
{
    match opcode {
        0x67 => Some(Instr::I32Clz),
        0x68 => Some(Instr::I32Ctz),
        0x69 => Some(Instr::I32Popcnt),
        0x6a => Some(Instr::I32Add),
        0x6b => Some(Instr::I32Sub),
        0x6c => Some(Instr::I32Mul),
        0x6d => Some(Instr::I32DivS),
        0x6e => Some(Instr::I32DivU),
        0x6f => Some(Instr::I32RemS),
        0x70 => Some(Instr::I32RemU),
        0x71 => Some(Instr::I32And),
        0x72 => Some(Instr::I32Or),
        0x73 => Some(Instr::I32Xor),
        0x74 => Some(Instr::I32Shl),
        0x75 => Some(Instr::I32ShrS),
        0x76 => Some(Instr::I32ShrU),
        0x77 => Some(Instr::I32Rotl),
        0x78 => Some(Instr::I32Rotr),
        _ => None,
    }
}

/// The arithmetic of i64.
#[tactic(auto, unfolding(wasm_form::specs::Tables::i64_arithmetic_of))]
fn i64_arithmetic(opcode: u8) -> Option<Instr>
    ensures { result ≡ i64_arithmetic_of opcode }
{
    match opcode {
        0x79 => Some(Instr::I64Clz),
        0x7a => Some(Instr::I64Ctz),
        0x7b => Some(Instr::I64Popcnt),
        0x7c => Some(Instr::I64Add),
        0x7d => Some(Instr::I64Sub),
        0x7e => Some(Instr::I64Mul),
        0x7f => Some(Instr::I64DivS),
        0x80 => Some(Instr::I64DivU),
        0x81 => Some(Instr::I64RemS),
        0x82 => Some(Instr::I64RemU),
        0x83 => Some(Instr::I64And),
        0x84 => Some(Instr::I64Or),
        0x85 => Some(Instr::I64Xor),
        0x86 => Some(Instr::I64Shl),
        0x87 => Some(Instr::I64ShrS),
        0x88 => Some(Instr::I64ShrU),
        0x89 => Some(Instr::I64Rotl),
        0x8a => Some(Instr::I64Rotr),
        _ => None,
    }
}

/// The conversions.
#[tactic(auto, unfolding(wasm_form::specs::Tables::conversion_of))]
fn conversion(opcode: u8) -> Option<Instr>
    ensures { result ≡ conversion_of opcode }
{
    match opcode {
        0xa7 => Some(Instr::I32WrapI64),
        0xac => Some(Instr::I64ExtendI32S),
        0xad => Some(Instr::I64ExtendI32U),
        _ => None,
    }
}

/// A load or a store, of an opcode from `0x28` to `0x3e` that is none of floating point.
#[tactic(auto, unfolding(wasm_form::specs::Tables::access_of))]
pub(crate) fn load_or_store(opcode: u8, access: MemArg) -> Instr
    ensures { result ≡ access_of opcode access }
{
    match opcode {
        0x28 => Instr::I32Load(access),
        0x29 => Instr::I64Load(access),
        0x2c => Instr::I32Load8S(access),
        0x2d => Instr::I32Load8U(access),
        0x2e => Instr::I32Load16S(access),
        0x2f => Instr::I32Load16U(access),
        0x30 => Instr::I64Load8S(access),
        0x31 => Instr::I64Load8U(access),
        0x32 => Instr::I64Load16S(access),
        0x33 => Instr::I64Load16U(access),
        0x34 => Instr::I64Load32S(access),
        0x35 => Instr::I64Load32U(access),
        0x36 => Instr::I32Store(access),
        0x37 => Instr::I64Store(access),
        0x3a => Instr::I32Store8(access),
        0x3b => Instr::I32Store16(access),
        0x3c => Instr::I64Store8(access),
        0x3d => Instr::I64Store16(access),
        _ => Instr::I64Store32(access),
    }
}
