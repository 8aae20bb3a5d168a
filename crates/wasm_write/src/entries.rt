//! The entries of the sections (Core 1.0, 5.3 and 5.5).

ghost use Rattle.std.specs.Prelude.{◌≡◌, List, [], ◌∷◌, ◌++◌, length, map, OnOk};
ghost use Rattle.wasm_form.specs.Leb.{unsigned_shortest};
ghost use Rattle.wasm_form.specs.Shortest.{list_shortest, value_type_byte, value_type_shortest, type_shortest, result_list, swiftown, host_name, import_shortest, limits_shortest, constant_shortest, global_shortest, mutable_byte, kind_byte, export_shortest, element_shortest, group_shortest, segment_shortest};

use crate::encode::{Encode, push_list, push_sized};
use crate::number::{push_i32, push_i64, push_unsigned};
use std::alloc::{AllocError, Global};
use wasm_form::{
    DataSegment, ElementSegment, Export, ExportKind, FunctionType, GlobalEntry, HostCall, Import,
    Limits, LocalGroup, Value, ValueType,
};

impl Encode for u32 {
    ghost spelling = { unsigned_shortest };

    fn encode(&self, _alloc: Global, out: &mut Vec<u8>) -> Result<(), AllocError> {
        push_unsigned(out, u64::from(*self))
    }
}

impl Encode for ValueType {
    ghost spelling = { value_type_shortest };

    fn encode(&self, _alloc: Global, out: &mut Vec<u8>) -> Result<(), AllocError> {
        out.push(value_type(*self))?;
        Ok(())
    }
}

/// The byte of a type (Core 1.0, 5.3.1).
pub(crate) fn value_type(value_type: ValueType) -> u8
    ensures { result ≡ value_type_byte value_type }
{
    match value_type {
        ValueType::I32 => 0x7f,
        ValueType::I64 => 0x7e,
    }
}

impl Encode for FunctionType {
    ghost spelling = { type_shortest };

    #[tactic(auto, unfolding(wasm_form::specs::Shortest::type_shortest))]
    fn encode(&self, alloc: Global, out: &mut Vec<u8>) -> Result<(), AllocError> {
        out.push(0x60)?;
        push_list(alloc, out, self.parameters.as_slice())?;
        push_result(alloc, out, self.result)
    }
}

/// Writes the list of the results, of which there is at most one.
fn push_result(
    alloc: Global,
    out: &mut Vec<u8>,
    handed: Option<ValueType>,
) -> Result<(), AllocError>
    ensures { OnOk result (out.new.items ≡ out.old.items ++ list_shortest value_type_shortest (result_list handed)) }
{
    match handed {
        None => push_list::<ValueType>(alloc, out, &[]),
        Some(handed) => push_list(alloc, out, &[handed]),
    }
}

impl Encode for Import {
    ghost spelling = { import_shortest };

    #[tactic(auto, unfolding(wasm_form::specs::Shortest::import_shortest))]
    fn encode(&self, _alloc: Global, out: &mut Vec<u8>) -> Result<(), AllocError> {
        push_sized(out, b"swiftown")?;
        push_sized(out, name_of(self.call))?;
        out.push(0)?;
        push_unsigned(out, u64::from(self.type_index))
    }
}

/// The name of an import.
fn name_of(call: HostCall) -> &'static [u8]
    ensures { result.now ≡ host_name call }
{
    match call {
        HostCall::WriteInt => b"write_int",
        HostCall::WriteBool => b"write_bool",
        HostCall::WriteText => b"write_text",
        HostCall::WriteByte => b"write_byte",
        HostCall::ReadInt => b"read_int",
        HostCall::Trap => b"trap",
    }
}

impl Encode for Limits {
    ghost spelling = { limits_shortest };

    #[tactic(auto, unfolding(wasm_form::specs::Shortest::limits_shortest))]
    fn encode(&self, _alloc: Global, out: &mut Vec<u8>) -> Result<(), AllocError> {
        match self.max {
            None => {
                out.push(0)?;
                push_unsigned(out, u64::from(self.min))
            }
            Some(max) => {
                out.push(1)?;
                push_unsigned(out, u64::from(self.min))?;
                push_unsigned(out, u64::from(max))
            }
        }
    }
}

/// Writes a constant and its end.
#[tactic(auto, unfolding(wasm_form::specs::Shortest::constant_shortest))]
fn push_constant(out: &mut Vec<u8>, constant: Value) -> Result<(), AllocError>
    ensures { OnOk result (out.new.items ≡ out.old.items ++ constant_shortest constant) }
{
    match constant {
        Value::I32(bits) => {
            out.push(0x41)?;
            push_i32(out, bits)?;
        }
        Value::I64(bits) => {
            out.push(0x42)?;
            push_i64(out, bits)?;
        }
    }
    out.push(0x0b)?;
    Ok(())
}

impl Encode for GlobalEntry {
    ghost spelling = { global_shortest };

    #[tactic(auto, unfolding(wasm_form::specs::Shortest::global_shortest))]
    fn encode(&self, _alloc: Global, out: &mut Vec<u8>) -> Result<(), AllocError> {
        out.push(value_type(self.value_type))?;
        out.push(mutability(self.is_mutable))?;
        push_constant(out, self.initial)
    }
}

/// The byte that says whether a global may be set (Core 1.0, 5.3.6).
fn mutability(is_mutable: bool) -> u8
    ensures { result ≡ mutable_byte is_mutable }
{
    if is_mutable { 1 } else { 0 }
}

impl Encode for Export {
    ghost spelling = { export_shortest };

    #[tactic(auto, unfolding(wasm_form::specs::Shortest::export_shortest))]
    fn encode(&self, _alloc: Global, out: &mut Vec<u8>) -> Result<(), AllocError> {
        push_sized(out, self.name.as_slice())?;
        out.push(kind(self.kind))?;
        push_unsigned(out, u64::from(self.index))
    }
}

/// The byte of what is exported (Core 1.0, 5.5.10).
fn kind(kind: ExportKind) -> u8
    ensures { result ≡ kind_byte kind }
{
    match kind {
        ExportKind::Function => 0,
        ExportKind::Table => 1,
        ExportKind::Memory => 2,
        ExportKind::Global => 3,
    }
}

impl Encode for ElementSegment {
    ghost spelling = { element_shortest };

    #[tactic(auto, unfolding(wasm_form::specs::Shortest::element_shortest))]
    fn encode(&self, alloc: Global, out: &mut Vec<u8>) -> Result<(), AllocError> {
        out.push(0)?;
        push_constant(out, Value::I32(self.offset))?;
        push_list(alloc, out, self.functions.as_slice())
    }
}

impl Encode for LocalGroup {
    ghost spelling = { group_shortest };

    #[tactic(auto, unfolding(wasm_form::specs::Shortest::group_shortest))]
    fn encode(&self, alloc: Global, out: &mut Vec<u8>) -> Result<(), AllocError> {
        push_unsigned(out, u64::from(self.count))?;
        self.value_type.encode(alloc, out)
    }
}

impl Encode for DataSegment {
    ghost spelling = { segment_shortest };

    #[tactic(auto, unfolding(wasm_form::specs::Shortest::segment_shortest))]
    fn encode(&self, _alloc: Global, out: &mut Vec<u8>) -> Result<(), AllocError> {
        out.push(0)?;
        push_constant(out, Value::I32(self.offset))?;
        push_sized(out, self.bytes.as_slice())
    }
}
