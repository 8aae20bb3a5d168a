//! Instructions (Core 1.0, 5.4).

ghost use Rattle.std.specs.Prelude.{◌≡◌, List, [], ◌∷◌, ◌++◌, map, OnOk};
ghost use Rattle.std.specs.List.{flat_map};
ghost use Rattle.wasm_form.specs.Shortest.{instr_shortest, immediates_of, access_shortest, block_type_byte, code_shortest, body_shortest, second_shortest};

use crate::encode::{Encode, push_list, push_sized};
use crate::entries::value_type;
use crate::number::{push_i32, push_i64, push_unsigned};
use std::alloc::{AllocError, Global};
use wasm_form::opcode::opcode;
use wasm_form::{BlockType, CodeEntry, Instr, MemArg};

/// Writes an instruction.
#[cycle(code)]
#[tactic(auto, using(wasm_form::proofs::Codes::instr_is))]
pub(crate) fn push_instr(alloc: Global, out: &mut Vec<u8>, instr: &Instr) -> Result<(), AllocError>
    ensures { OnOk result (out.new.items ≡ out.old.items ++ instr_shortest instr.now) }
{
    out.push(opcode(instr))?;
    push_immediates(alloc, out, instr)
}

/// Writes what follows the opcode of an instruction.
#[cycle(code)]
#[tactic(auto, using(wasm_form::proofs::Codes::concat_map))]
fn push_immediates(alloc: Global, out: &mut Vec<u8>, instr: &Instr) -> Result<(), AllocError>
    ensures { OnOk result (out.new.items ≡ out.old.items ++ immediates_of instr.now) }
{
    match instr {
        Instr::Block(block_type, body) => push_block(alloc, out, *block_type, body.as_slice()),
        Instr::Loop(block_type, body) => push_block(alloc, out, *block_type, body.as_slice()),
        Instr::If(block_type, first, second) => {
            out.push(block_byte(*block_type))?;
            push_code(alloc, out, first.get().as_slice())?;
            push_second(alloc, out, second.get().as_slice())
        }
        Instr::BrTable(labels, default) => {
            push_list(alloc, out, labels.get().as_slice())?;
            push_unsigned(out, u64::from(*default))
        }
        Instr::CallIndirect(index) => {
            push_unsigned(out, u64::from(*index))?;
            push_zero(out)
        }
        Instr::MemorySize | Instr::MemoryGrow => push_zero(out),
        Instr::I32Const(bits) => push_i32(out, *bits),
        Instr::I64Const(bits) => push_i64(out, *bits),
        Instr::Br(index)
        | Instr::BrIf(index)
        | Instr::Call(index)
        | Instr::LocalGet(index)
        | Instr::LocalSet(index)
        | Instr::LocalTee(index)
        | Instr::GlobalGet(index)
        | Instr::GlobalSet(index) => push_unsigned(out, u64::from(*index)),
        Instr::I32Load(access)
        | Instr::I64Load(access)
        | Instr::I32Load8S(access)
        | Instr::I32Load8U(access)
        | Instr::I32Load16S(access)
        | Instr::I32Load16U(access)
        | Instr::I64Load8S(access)
        | Instr::I64Load8U(access)
        | Instr::I64Load16S(access)
        | Instr::I64Load16U(access)
        | Instr::I64Load32S(access)
        | Instr::I64Load32U(access)
        | Instr::I32Store(access)
        | Instr::I64Store(access)
        | Instr::I32Store8(access)
        | Instr::I32Store16(access)
        | Instr::I64Store8(access)
        | Instr::I64Store16(access)
        | Instr::I64Store32(access) => push_access(out, *access),
        Instr::Unreachable
        | Instr::Nop
        | Instr::Return
        | Instr::Drop
        | Instr::Select
        | Instr::I32Eqz
        | Instr::I32Eq
        | Instr::I32Ne
        | Instr::I32LtS
        | Instr::I32LtU
        | Instr::I32GtS
        | Instr::I32GtU
        | Instr::I32LeS
        | Instr::I32LeU
        | Instr::I32GeS
        | Instr::I32GeU
        | Instr::I64Eqz
        | Instr::I64Eq
        | Instr::I64Ne
        | Instr::I64LtS
        | Instr::I64LtU
        | Instr::I64GtS
        | Instr::I64GtU
        | Instr::I64LeS
        | Instr::I64LeU
        | Instr::I64GeS
        | Instr::I64GeU
        | Instr::I32Clz
        | Instr::I32Ctz
        | Instr::I32Popcnt
        | Instr::I32Add
        | Instr::I32Sub
        | Instr::I32Mul
        | Instr::I32DivS
        | Instr::I32DivU
        | Instr::I32RemS
        | Instr::I32RemU
        | Instr::I32And
        | Instr::I32Or
        | Instr::I32Xor
        | Instr::I32Shl
        | Instr::I32ShrS
        | Instr::I32ShrU
        | Instr::I32Rotl
        | Instr::I32Rotr
        | Instr::I64Clz
        | Instr::I64Ctz
        | Instr::I64Popcnt
        | Instr::I64Add
        | Instr::I64Sub
        | Instr::I64Mul
        | Instr::I64DivS
        | Instr::I64DivU
        | Instr::I64RemS
        | Instr::I64RemU
        | Instr::I64And
        | Instr::I64Or
        | Instr::I64Xor
        | Instr::I64Shl
        | Instr::I64ShrS
        | Instr::I64ShrU
        | Instr::I64Rotl
        | Instr::I64Rotr
        | Instr::I32WrapI64
        | Instr::I64ExtendI32S
        | Instr::I64ExtendI32U => Ok(()),
    }
}

/// Writes a block from its type to its end.
#[cycle(code)]
fn push_block(
    alloc: Global,
    out: &mut Vec<u8>,
    block_type: BlockType,
    body: &[Instr],
) -> Result<(), AllocError>
    ensures { OnOk result (out.new.items ≡ out.old.items ++ (block_type_byte block_type ∷ (flat_map instr_shortest body.now ++ 0x0b ∷ []))) }
{
    out.push(block_byte(block_type))?;
    push_code(alloc, out, body)?;
    out.push(0x0b)?;
    Ok(())
}

/// Writes the second side of an if, with its else where it is not empty, and the end.
#[cycle(code)]
fn push_second(alloc: Global, out: &mut Vec<u8>, second: &[Instr]) -> Result<(), AllocError>
    ensures { OnOk result (out.new.items ≡ out.old.items ++ second_shortest (map instr_shortest second.now)) }
{
    match second {
        [] => {
            out.push(0x0b)?;
            Ok(())
        }
        [_, ..] => {
            out.push(0x05)?;
            push_code(alloc, out, second)?;
            out.push(0x0b)?;
            Ok(())
        }
    }
}

/// Writes instructions, one after the other.
#[cycle(code)]
fn push_code(alloc: Global, out: &mut Vec<u8>, code: &[Instr]) -> Result<(), AllocError>
    ensures { OnOk result (out.new.items ≡ out.old.items ++ flat_map instr_shortest code.now) }
{
    for instr in code {
        push_instr(alloc, out, instr)?;
    }
    Ok(())
}

/// The byte of what a block hands on (Core 1.0, 5.3.2).
fn block_byte(block_type: BlockType) -> u8
    ensures { result ≡ block_type_byte block_type }
{
    match block_type {
        None => 0x40,
        Some(handed) => value_type(handed),
    }
}

/// Writes the alignment and the offset of an access.
fn push_access(out: &mut Vec<u8>, access: MemArg) -> Result<(), AllocError>
    ensures { OnOk result (out.new.items ≡ out.old.items ++ access_shortest access) }
{
    push_unsigned(out, u64::from(access.align))?;
    push_unsigned(out, u64::from(access.offset))
}

/// Writes the one byte that names the memory or the table.
fn push_zero(out: &mut Vec<u8>) -> Result<(), AllocError>
    ensures { OnOk result (out.new.items ≡ out.old.items ++ 0 ∷ []) }
{
    out.push(0)?;
    Ok(())
}

impl Encode for CodeEntry {
    ghost spelling = { code_shortest };

    #[tactic(auto, unfolding(wasm_form::specs::Shortest::code_shortest, wasm_form::specs::Shortest::body_shortest))]
    fn encode(&self, alloc: Global, out: &mut Vec<u8>) -> Result<(), AllocError> {
        let mut content = Vec::new(alloc);
        push_list(alloc, &mut content, self.locals.as_slice())?;
        push_code(alloc, &mut content, self.body.as_slice())?;
        content.push(0x0b)?;
        push_sized(out, &content)
    }
}
