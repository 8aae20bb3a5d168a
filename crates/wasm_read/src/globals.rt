//! Functions, globals and exports (Core 1.0, 5.5.6, 5.5.9 and 5.5.10).

ghost use Rattle.std.specs.Prelude.{◌≡◌, List, [], ◌∷◌, ◌++◌, length, IfOk};
ghost use Rattle.wasm_form.specs.declared.module.Export.{Export};
ghost use Rattle.wasm_read.specs.Names.{AreNames};
ghost use Rattle.wasm_read.specs.Reading.{Gives, list_at, index_at};
ghost use Rattle.wasm_read.specs.Entries.{functions_at, strange_of, expression_end_at, offset_at, initial_at, mutable_at, global_at, globals_at, kind_at, count_of, exported_at, export_at, exports_at};

use crate::counts::Counts;
use crate::fault::{Fault, Stop};
use crate::input::{index_of, name_of};
use crate::number::{i32_of, i64_of};
use crate::opcodes::is_floating;
use crate::types::{self, value_type_of};
use own_tree::{Bytes, Row};
use std::alloc::Global;
use std::collections::BTreeSet;
use wasm_form::limits::{MOST_EXPORTS, MOST_FUNCTIONS, MOST_GLOBALS, ModuleLimit, Outside};
use wasm_form::{Export, ExportKind, GlobalEntry, Value};

/// The content of section 3, where there are so many types.
#[tactic(auto, unfolding(crate::specs::Entries::functions_at))]
pub(crate) fn functions_of(
    alloc: Global,
    types: usize,
    bytes: &[u8],
) -> Result<(Row<u32>, &[u8]), Stop>
    ensures { Gives (λ x. (x.0, x.1.now)) result (functions_at types bytes.now) }
{
    let (count, rest) = types::count_of(bytes, MOST_FUNCTIONS, ModuleLimit::Functions)?;
    index_list_of(alloc, types, rest, count)
}

/// So many indices, each below `limit`.
pub(crate) fn index_list_of(
    alloc: Global,
    limit: usize,
    bytes: &[u8],
    count: u32,
) -> Result<(Row<u32>, &[u8]), Stop>
    ensures { Gives (λ x. (x.0, x.1.now)) result (list_at (λ _. index_at limit) [] count bytes.now) }
{
    let mut indices = Vec::with_capacity(alloc, (count as usize).min(bytes.len()))?;
    let mut rest = bytes;
    for _ in 0..count {
        let (index, after) = index_of(rest, limit)?;
        indices.push(index)?;
        rest = after;
    }
    Ok((Row::from_vec(indices), rest))
}

/// What stands in an initial or offset expression in place of a constant or its end.
fn strange(opcode: u8) -> Fault
    ensures { result ≡ strange_of opcode }
{
    if is_floating(opcode) {
        Fault::OutsideProfile(Outside::Float)
    } else if opcode == 0x23 {
        Fault::OutsideProfile(Outside::Global)
    } else {
        Fault::NotModule
    }
}

/// The end of an initial or offset expression (Core 1.0, 5.4.6).
fn expression_end_of(bytes: &[u8]) -> Result<&[u8], Stop>
    ensures { Gives (λ x. x.now) result (expression_end_at bytes.now) }
{
    match bytes {
        [] => Err(Stop::at(Fault::NotModule, bytes)),
        [0x0b, rest @ ..] => Ok(rest),
        [opcode, ..] => Err(Stop::at(strange(*opcode), bytes)),
    }
}

/// The i32 of an offset expression.
#[tactic(auto, unfolding(crate::specs::Entries::offset_at))]
pub(crate) fn offset_of(bytes: &[u8]) -> Result<(u32, &[u8]), Stop>
    ensures { Gives (λ x. (x.0, x.1.now)) result (offset_at bytes.now) }
{
    match bytes {
        [] => Err(Stop::at(Fault::NotModule, bytes)),
        [0x41, rest @ ..] => {
            let (offset, rest) = i32_of(rest)?;
            let rest = expression_end_of(rest)?;
            Ok((offset, rest))
        }
        [opcode, ..] => Err(Stop::at(strange(*opcode), bytes)),
    }
}

/// The constant of an initial expression.
#[tactic(auto, unfolding(crate::specs::Entries::initial_at))]
fn initial_of(bytes: &[u8]) -> Result<(Value, &[u8]), Stop>
    ensures { Gives (λ x. (x.0, x.1.now)) result (initial_at bytes.now) }
{
    match bytes {
        [] => Err(Stop::at(Fault::NotModule, bytes)),
        [0x41, rest @ ..] => {
            let (bits, rest) = i32_of(rest)?;
            let rest = expression_end_of(rest)?;
            Ok((Value::I32(bits), rest))
        }
        [0x42, rest @ ..] => {
            let (bits, rest) = i64_of(rest)?;
            let rest = expression_end_of(rest)?;
            Ok((Value::I64(bits), rest))
        }
        [opcode, ..] => Err(Stop::at(strange(*opcode), bytes)),
    }
}

/// Whether a global may be set (Core 1.0, 5.3.6).
fn mutability_of(bytes: &[u8]) -> Result<(bool, &[u8]), Stop>
    ensures { Gives (λ x. (x.0, x.1.now)) result (mutable_at bytes.now) }
{
    match bytes {
        [0x00, rest @ ..] => Ok((false, rest)),
        [0x01, rest @ ..] => Ok((true, rest)),
        _ => Err(Stop::at(Fault::NotModule, bytes)),
    }
}

#[tactic(auto, unfolding(crate::specs::Entries::global_at))]
fn global_of(bytes: &[u8]) -> Result<(GlobalEntry, &[u8]), Stop>
    ensures { Gives (λ x. (x.0, x.1.now)) result (global_at bytes.now) }
{
    let (value_type, rest) = value_type_of(bytes)?;
    let (is_mutable, rest) = mutability_of(rest)?;
    let (initial, rest) = initial_of(rest)?;
    let global = GlobalEntry {
        value_type,
        is_mutable,
        initial,
    };
    Ok((global, rest))
}

fn global_list_of(
    alloc: Global,
    bytes: &[u8],
    count: u32,
) -> Result<(Row<GlobalEntry>, &[u8]), Stop>
    ensures { Gives (λ x. (x.0, x.1.now)) result (list_at (λ _. global_at) [] count bytes.now) }
{
    let mut globals = Vec::with_capacity(alloc, (count as usize).min(bytes.len()))?;
    let mut rest = bytes;
    for _ in 0..count {
        let (global, after) = global_of(rest)?;
        globals.push(global)?;
        rest = after;
    }
    Ok((Row::from_vec(globals), rest))
}

/// The content of section 6.
#[tactic(auto, unfolding(crate::specs::Entries::globals_at))]
pub(crate) fn globals_of(alloc: Global, bytes: &[u8]) -> Result<(Row<GlobalEntry>, &[u8]), Stop>
    ensures { Gives (λ x. (x.0, x.1.now)) result (globals_at bytes.now) }
{
    let (count, rest) = types::count_of(bytes, MOST_GLOBALS, ModuleLimit::Globals)?;
    global_list_of(alloc, rest, count)
}

/// What is exported (Core 1.0, 5.5.10).
fn kind_of(bytes: &[u8]) -> Result<(ExportKind, &[u8]), Stop>
    ensures { Gives (λ x. (x.0, x.1.now)) result (kind_at bytes.now) }
{
    match bytes {
        [0x00, rest @ ..] => Ok((ExportKind::Function, rest)),
        [0x01, rest @ ..] => Ok((ExportKind::Table, rest)),
        [0x02, rest @ ..] => Ok((ExportKind::Memory, rest)),
        [0x03, rest @ ..] => Ok((ExportKind::Global, rest)),
        _ => Err(Stop::at(Fault::NotModule, bytes)),
    }
}

impl Counts {
    /// How many there are of a kind.
    fn of(self, kind: ExportKind) -> usize
        ensures { result ≡ count_of self kind }
    {
        match kind {
            ExportKind::Function => self.functions,
            ExportKind::Table => self.tables,
            ExportKind::Memory => self.memories,
            ExportKind::Global => self.globals,
        }
    }
}

/// What follows the name of an export.
#[tactic(auto, unfolding(crate::specs::Entries::exported_at))]
fn exported_of<'a>(
    alloc: Global,
    counts: Counts,
    name: &[u8],
    bytes: &'a [u8],
) -> Result<(Export, &'a [u8]), Stop>
    ensures gives { Gives (λ x. (x.0, x.1.now)) result (exported_at counts name.now bytes.now) }
    ensures named { IfOk result (λ x. x.0.name ≡ name.now) }
{
    let (kind, rest) = kind_of(bytes)?;
    let (index, rest) = index_of(rest, counts.of(kind))?;
    let name = Bytes::from_slice(alloc, name)?;
    Ok((Export { name, kind, index }, rest))
}

/// An export, of another name than those before it, which it joins.
#[tactic(auto, unfolding(crate::specs::Entries::export_at))]
fn export_of<'a>(
    alloc: Global,
    counts: Counts,
    names: &mut BTreeSet<&'a [u8]>,
    bytes: &'a [u8],
) -> Result<(Export, &'a [u8]), Stop>
    ensures gives { (before : List Export) → AreNames names.old.keys before →
        Gives (λ x. (x.0, x.1.now)) result (export_at counts before bytes.now) }
    ensures joins { IfOk result (λ x. (before : List Export) → AreNames names.old.keys before →
        AreNames names.new.keys (before ++ x.0 ∷ [])) }
{
    let (name, rest) = name_of(bytes)?;
    if !names.insert(name)? {
        return Err(Stop::at(Fault::NotModule, bytes));
    }
    exported_of(alloc, counts, name, rest)
}

fn export_list_of(
    alloc: Global,
    counts: Counts,
    bytes: &[u8],
    count: u32,
) -> Result<(Row<Export>, &[u8]), Stop>
    ensures { Gives (λ x. (x.0, x.1.now)) result (list_at (export_at counts) [] count bytes.now) }
{
    let mut exports = Vec::with_capacity(alloc, (count as usize).min(bytes.len()))?;
    let mut names = BTreeSet::new(alloc);
    let mut rest = bytes;
    for _ in 0..count {
        let (export, after) = export_of(alloc, counts, &mut names, rest)?;
        exports.push(export)?;
        rest = after;
    }
    Ok((Row::from_vec(exports), rest))
}

/// The content of section 7.
#[tactic(auto, unfolding(crate::specs::Entries::exports_at))]
pub(crate) fn exports_of(
    alloc: Global,
    counts: Counts,
    bytes: &[u8],
) -> Result<(Row<Export>, &[u8]), Stop>
    ensures { Gives (λ x. (x.0, x.1.now)) result (exports_at counts bytes.now) }
{
    let (count, rest) = types::count_of(bytes, MOST_EXPORTS, ModuleLimit::Exports)?;
    export_list_of(alloc, counts, rest, count)
}
