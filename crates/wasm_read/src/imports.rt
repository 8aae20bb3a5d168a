//! Imports (Core 1.0, 5.5.5): the six of the profile, each at most once.

ghost use Rattle.std.specs.Prelude.{◌≡◌, []};
ghost use Rattle.std.specs.List.{list_any};
ghost use Rattle.std.specs.Str.{bytes_eq};
ghost use Rattle.wasm_form.specs.Shortest.{host_name};
ghost use Rattle.wasm_read.specs.Reading.{Gives, list_at};
ghost use Rattle.wasm_read.specs.Entries.{imports_at, import_at, import_type_at, call_of, is_word, is_long, are_words, is_some_long, host_takes, host_gives, is_host_type};

use crate::fault::{Fault, Stop};
use crate::input::name_of;
use crate::number::u32_of;
use own_tree::Row;
use std::alloc::Global;
use wasm_form::limits::Outside;
use wasm_form::{FunctionType, HostCall, Import, ValueType};

/// The content of section 2.
#[tactic(auto, unfolding(crate::specs::Entries::imports_at))]
pub(crate) fn imports_of<'a>(
    alloc: Global,
    types: &[FunctionType],
    bytes: &'a [u8],
) -> Result<(Row<Import>, &'a [u8]), Stop>
    ensures { Gives (λ x. (x.0, x.1.now)) result (imports_at types.now bytes.now) }
{
    let (count, rest) = u32_of(bytes)?;
    import_list_of(alloc, types, rest, count)
}

fn import_list_of<'a>(
    alloc: Global,
    types: &[FunctionType],
    bytes: &'a [u8],
    count: u32,
) -> Result<(Row<Import>, &'a [u8]), Stop>
    ensures { Gives (λ x. (x.0, x.1.now)) result (list_at (import_at types.now) [] count bytes.now) }
{
    let mut imports = Vec::with_capacity(alloc, (count as usize).min(bytes.len()))?;
    let mut rest = bytes;
    for _ in 0..count {
        let (import, after) = import_of(types, imports.as_slice(), rest)?;
        imports.push(import)?;
        rest = after;
    }
    Ok((Row::from_vec(imports), rest))
}

/// An import behind those before it.
#[tactic(auto, unfolding(crate::specs::Entries::import_at))]
fn import_of<'a>(
    types: &[FunctionType],
    before: &[Import],
    bytes: &'a [u8],
) -> Result<(Import, &'a [u8]), Stop>
    ensures { Gives (λ x. (x.0, x.1.now)) result (import_at types.now before.now bytes.now) }
{
    let (from, rest) = name_of(bytes)?;
    if from != b"swiftown".as_slice() {
        return Err(Stop::at(Fault::OutsideProfile(Outside::Import), bytes));
    }
    let (name, rest) = name_of(rest)?;
    match call_named(name) {
        None => Err(Stop::at(Fault::OutsideProfile(Outside::Import), bytes)),
        Some(call) => {
            if is_imported(before, name) {
                return Err(Stop::at(Fault::OutsideProfile(Outside::Import), bytes));
            }
            import_type_of(types, call, rest, bytes)
        }
    }
}

/// Whether one of the imports has this name.
fn is_imported(imports: &[Import], name: &[u8]) -> bool
    ensures { result ≡ list_any (λ i. bytes_eq (host_name i.call) name.now) imports.now }
{
    imports.iter().any(|import| name_bytes(import.call) == name)
}

/// The name of an import.
fn name_bytes(call: HostCall) -> &'static [u8]
    ensures { result.now ≡ host_name call }
{
    match call {
        HostCall::WriteInt => b"write_int",
        HostCall::WriteBool => b"write_bool",
        HostCall::WriteText => b"write_text",
        HostCall::WriteByte => b"write_byte",
        HostCall::ReadInt => b"read_int",
        HostCall::Trap => b"trap",
    }
}

/// The import of this name.
#[tactic(auto, unfolding(crate::specs::Entries::call_of))]
fn call_named(name: &[u8]) -> Option<HostCall>
    ensures { result ≡ call_of name.now }
{
    if name == name_bytes(HostCall::WriteInt) {
        Some(HostCall::WriteInt)
    } else if name == name_bytes(HostCall::WriteBool) {
        Some(HostCall::WriteBool)
    } else if name == name_bytes(HostCall::WriteText) {
        Some(HostCall::WriteText)
    } else if name == name_bytes(HostCall::WriteByte) {
        Some(HostCall::WriteByte)
    } else if name == name_bytes(HostCall::ReadInt) {
        Some(HostCall::ReadInt)
    } else if name == name_bytes(HostCall::Trap) {
        Some(HostCall::Trap)
    } else {
        None
    }
}

/// The kind and the type of an import, which begins at `start`.
#[tactic(auto, unfolding(crate::specs::Entries::import_type_at))]
fn import_type_of<'a>(
    types: &[FunctionType],
    call: HostCall,
    bytes: &'a [u8],
    start: &[u8],
) -> Result<(Import, &'a [u8]), Stop>
    ensures { Gives (λ x. (x.0, x.1.now)) result (import_type_at types.now call bytes.now) }
{
    match bytes {
        [0x00, rest @ ..] => {
            let (type_index, after) = u32_of(rest)?;
            match types.get(type_index as usize) {
                None => Err(Stop::at(Fault::NotModule, rest)),
                Some(function_type) => {
                    if !is_type_of(call, function_type) {
                        return Err(Stop::at(Fault::OutsideProfile(Outside::Import), start));
                    }
                    Ok((Import { call, type_index }, after))
                }
            }
        }
        [0x01..=0x03, ..] => Err(Stop::at(Fault::OutsideProfile(Outside::Import), start)),
        _ => Err(Stop::at(Fault::NotModule, bytes)),
    }
}

fn is_type_of(call: HostCall, function_type: &FunctionType) -> bool
    ensures { result ≡ is_host_type call function_type.now }
{
    takes(call, function_type.parameters.as_slice()) && hands_on(call, function_type.result)
}

fn takes(call: HostCall, parameters: &[ValueType]) -> bool
    ensures { result ≡ host_takes call parameters.now }
{
    match call {
        HostCall::WriteInt => is_one_long(parameters),
        HostCall::WriteBool => is_one_word(parameters),
        HostCall::WriteText => is_two_words(parameters),
        HostCall::WriteByte => is_one_word(parameters),
        HostCall::ReadInt => parameters.is_empty(),
        HostCall::Trap => is_two_words(parameters),
    }
}

fn is_one_word(parameters: &[ValueType]) -> bool
    ensures { result ≡ is_word parameters.now }
{
    matches!(parameters, [ValueType::I32])
}

fn is_one_long(parameters: &[ValueType]) -> bool
    ensures { result ≡ is_long parameters.now }
{
    matches!(parameters, [ValueType::I64])
}

fn is_two_words(parameters: &[ValueType]) -> bool
    ensures { result ≡ are_words parameters.now }
{
    matches!(parameters, [ValueType::I32, ValueType::I32])
}

fn hands_on(call: HostCall, handed: Option<ValueType>) -> bool
    ensures { result ≡ host_gives call handed }
{
    match call {
        HostCall::ReadInt => matches!(handed, Some(ValueType::I64)),
        HostCall::WriteInt => handed.is_none(),
        HostCall::WriteBool => handed.is_none(),
        HostCall::WriteText => handed.is_none(),
        HostCall::WriteByte => handed.is_none(),
        HostCall::Trap => handed.is_none(),
    }
}
