//! Instructions that hold no others (Core 1.0, 5.4).

ghost use Rattle.std.specs.Prelude.{◌≡◌, []};
ghost use Rattle.wasm_read.specs.Reading.{Gives, list_at, u32_at};
ghost use Rattle.wasm_read.specs.Codes.{plain_by, control_by, variable_by, variable_of, constant_by, access_at, br_table_at, call_indirect_at, labels_at};

use crate::fault::{Fault, Stop};
use crate::input::zero_of;
use crate::number::{i32_of, i64_of, u32_of};
use crate::opcodes::{is_floating, load_or_store, numeric};
use crate::types::count_of;
use sqlite_items::{Boxed, Items};
use std::alloc::Global;
use wasm_form::limits::{MOST_TARGETS, ModuleLimit, Outside};
use wasm_form::{Instr, MemArg};

/// The instruction of an opcode, which stands at `start`, with what follows it.
#[tactic(auto, unfolding(crate::specs::Codes::plain_by))]
pub(crate) fn plain<'a>(
    alloc: Global,
    opcode: u8,
    rest: &'a [u8],
    start: &[u8],
) -> Result<(Instr, &'a [u8]), Stop>
    ensures { Gives (λ x. (x.0, x.1.now)) result (plain_by opcode rest.now) }
{
    if is_floating(opcode) {
        return Err(Stop::at(Fault::OutsideProfile(Outside::Float), start));
    }
    if opcode < 0x20 {
        return control(alloc, opcode, rest, start);
    }
    if opcode < 0x28 {
        return variable(opcode, rest, start);
    }
    if opcode < 0x3f {
        let (access, rest) = access_of(rest)?;
        return Ok((load_or_store(opcode, access), rest));
    }
    if opcode < 0x43 {
        return constant(opcode, rest);
    }
    match numeric(opcode) {
        None => Err(Stop::at(Fault::NotModule, start)),
        Some(instr) => Ok((instr, rest)),
    }
}

/// An instruction of an opcode below `0x20`.
#[tactic(auto, unfolding(crate::specs::Codes::control_by))]
fn control<'a>(
    alloc: Global,
    opcode: u8,
    rest: &'a [u8],
    start: &[u8],
) -> Result<(Instr, &'a [u8]), Stop>
    ensures { Gives (λ x. (x.0, x.1.now)) result (control_by opcode rest.now) }
{
    match opcode {
        0x00 => Ok((Instr::Unreachable, rest)),
        0x01 => Ok((Instr::Nop, rest)),
        0x0c => {
            let (label, rest) = u32_of(rest)?;
            Ok((Instr::Br(label), rest))
        }
        0x0d => {
            let (label, rest) = u32_of(rest)?;
            Ok((Instr::BrIf(label), rest))
        }
        0x0e => br_table_of(alloc, rest),
        0x0f => Ok((Instr::Return, rest)),
        0x10 => {
            let (function, rest) = u32_of(rest)?;
            Ok((Instr::Call(function), rest))
        }
        0x11 => call_indirect_of(rest),
        0x1a => Ok((Instr::Drop, rest)),
        0x1b => Ok((Instr::Select, rest)),
        _ => Err(Stop::at(Fault::NotModule, start)),
    }
}

#[tactic(auto, unfolding(crate::specs::Codes::br_table_at))]
fn br_table_of(alloc: Global, bytes: &[u8]) -> Result<(Instr, &[u8]), Stop>
    ensures { Gives (λ x. (x.0, x.1.now)) result (br_table_at bytes.now) }
{
    let (labels, rest) = labels_of(alloc, bytes)?;
    let (default, rest) = u32_of(rest)?;
    let labels = Boxed::new(alloc, labels)?;
    Ok((Instr::BrTable(labels, default), rest))
}

#[tactic(auto, unfolding(crate::specs::Codes::labels_at))]
fn labels_of(alloc: Global, bytes: &[u8]) -> Result<(Items<u32>, &[u8]), Stop>
    ensures { Gives (λ x. (x.0, x.1.now)) result (labels_at bytes.now) }
{
    let (count, rest) = count_of(bytes, MOST_TARGETS, ModuleLimit::Targets)?;
    label_list_of(alloc, rest, count)
}

fn label_list_of(alloc: Global, bytes: &[u8], count: u32) -> Result<(Items<u32>, &[u8]), Stop>
    ensures { Gives (λ x. (x.0, x.1.now)) result (list_at (λ _. u32_at) [] count bytes.now) }
{
    let mut labels = Vec::with_capacity(alloc, (count as usize).min(bytes.len()))?;
    let mut rest = bytes;
    for _ in 0..count {
        let (label, after) = u32_of(rest)?;
        labels.push(label)?;
        rest = after;
    }
    Ok((Items::from_vec(labels), rest))
}

#[tactic(auto, unfolding(crate::specs::Codes::call_indirect_at))]
fn call_indirect_of(bytes: &[u8]) -> Result<(Instr, &[u8]), Stop>
    ensures { Gives (λ x. (x.0, x.1.now)) result (call_indirect_at bytes.now) }
{
    let (index, rest) = u32_of(bytes)?;
    let rest = zero_of(rest)?;
    Ok((Instr::CallIndirect(index), rest))
}

/// An instruction of an opcode from `0x20` to `0x27`.
#[tactic(auto, unfolding(crate::specs::Codes::variable_by))]
fn variable<'a>(opcode: u8, rest: &'a [u8], start: &[u8]) -> Result<(Instr, &'a [u8]), Stop>
    ensures { Gives (λ x. (x.0, x.1.now)) result (variable_by opcode rest.now) }
{
    if opcode > 0x24 {
        return Err(Stop::at(Fault::NotModule, start));
    }
    let (index, rest) = u32_of(rest)?;
    Ok((get_or_set(opcode, index), rest))
}

/// The use of a variable, of an opcode from `0x20` to `0x24`.
#[tactic(auto, unfolding(crate::specs::Codes::variable_of))]
fn get_or_set(opcode: u8, index: u32) -> Instr
    ensures { result ≡ variable_of opcode index }
{
    match opcode {
        0x20 => Instr::LocalGet(index),
        0x21 => Instr::LocalSet(index),
        0x22 => Instr::LocalTee(index),
        0x23 => Instr::GlobalGet(index),
        _ => Instr::GlobalSet(index),
    }
}

/// The alignment and the offset of an access (Core 1.0, 5.4.4).
#[tactic(auto, unfolding(crate::specs::Codes::access_at))]
fn access_of(bytes: &[u8]) -> Result<(MemArg, &[u8]), Stop>
    ensures { Gives (λ x. (x.0, x.1.now)) result (access_at bytes.now) }
{
    let (align, rest) = u32_of(bytes)?;
    let (offset, rest) = u32_of(rest)?;
    Ok((MemArg { align, offset }, rest))
}

/// An instruction of an opcode from `0x3f` to `0x42`.
#[tactic(auto, unfolding(crate::specs::Codes::constant_by))]
fn constant(opcode: u8, rest: &[u8]) -> Result<(Instr, &[u8]), Stop>
    ensures { Gives (λ x. (x.0, x.1.now)) result (constant_by opcode rest.now) }
{
    match opcode {
        0x3f => Ok((Instr::MemorySize, zero_of(rest)?)),
        0x40 => Ok((Instr::MemoryGrow, zero_of(rest)?)),
        0x41 => {
            let (bits, rest) = i32_of(rest)?;
            Ok((Instr::I32Const(bits), rest))
        }
        _ => {
            let (bits, rest) = i64_of(rest)?;
            Ok((Instr::I64Const(bits), rest))
        }
    }
}
