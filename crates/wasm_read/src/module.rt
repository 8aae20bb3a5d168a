//! A module (Core 1.0, 5.5.15).

ghost use Rattle.std.specs.Prelude.{◌≡◌, ◌^◌, ◌<◌, length, IfOk};
ghost use Rattle.wasm_form.specs.Bytes.{ModuleBytes};
ghost use Rattle.wasm_form.specs.Within.{IsWithin};
ghost use Rattle.wasm_read.specs.Reading.{Gives};
ghost use Rattle.wasm_read.specs.Sections.{header_at, first_at, last_at, function_count, is_nothing, is_start, is_main, has_main, module_at};
ghost use Rattle.wasm_read.specs.Entries.{type_named};
ghost use Rattle.wasm_read.specs.Answers.{Answers, ReadsEach, error_at};

use crate::counts::Counts;
use crate::fault::{Fault, ReadError, Stop};
use crate::sections::{
    codes_section, elements_section, exports_section, finish_of, functions_section,
    globals_section, imports_section, memories_section, segments_section, tables_section,
    types_section,
};
use own_tree::Row;
use std::alloc::Global;
use wasm_form::{Export, ExportKind, FunctionType, Module};

/// The magic number and the version.
const HEADER: [u8; 8] = [0x00, 0x61, 0x73, 0x6d, 0x01, 0x00, 0x00, 0x00];

/// What follows the magic number and the version.
#[tactic(auto, unfolding(crate::specs::Sections::header_at))]
fn header_of(bytes: &[u8]) -> Result<&[u8], Stop>
    ensures { Gives (λ x. x.now) result (header_at bytes.now) }
{
    if bytes.len() < 8 {
        return Err(Stop::at(Fault::NotModule, &[]));
    }
    let (front, rest) = bytes.split_at(8);
    if front != HEADER.as_slice() {
        return Err(Stop::at(Fault::NotModule, bytes));
    }
    Ok(rest)
}

/// Sections 1 to 5, in a module that has no others yet.
#[tactic(auto, unfolding(crate::specs::Sections::first_at))]
fn first_of(alloc: Global, bytes: &[u8]) -> Result<(Module, &[u8]), Stop>
    ensures { Gives (λ x. (x.0, x.1.now)) result (first_at bytes.now) }
{
    let (types, rest) = types_section(alloc, bytes)?;
    let (imports, rest) = imports_section(alloc, types.as_slice(), rest)?;
    let (functions, rest) = functions_section(alloc, types.len(), rest)?;
    let (tables, rest) = tables_section(alloc, rest)?;
    let (memories, rest) = memories_section(alloc, rest)?;
    let module = Module {
        types,
        imports,
        functions,
        tables,
        memories,
        globals: Row::new(alloc),
        exports: Row::new(alloc),
        elements: Row::new(alloc),
        codes: Row::new(alloc),
        segments: Row::new(alloc),
    };
    Ok((module, rest))
}

/// How many functions there are to be named, imports first.
fn function_count_of(module: &Module) -> usize
    ensures { result ≡ function_count «module».now }
{
    module.imports.as_slice().len() + module.functions.as_slice().len()
}

/// Sections 6 to 11, to a module that has the others.
#[tactic(auto, unfolding(crate::specs::Sections::last_at))]
fn last_of(alloc: Global, module: Module, bytes: &[u8]) -> Result<Module, Stop>
    ensures { Gives (λ x. x) result (last_at «module» bytes.now) }
{
    let functions = function_count_of(&module);
    let (globals, rest) = globals_section(alloc, bytes)?;
    let counts = Counts {
        functions,
        tables: module.tables.len(),
        memories: module.memories.len(),
        globals: globals.len(),
    };
    let (exports, rest) = exports_section(alloc, counts, rest)?;
    let (elements, rest) = elements_section(alloc, module.tables.as_slice(), functions, rest)?;
    let types = module.types.as_slice();
    let (codes, rest) = codes_section(alloc, types, module.functions.as_slice(), rest)?;
    let (segments, rest) = segments_section(alloc, module.memories.as_slice(), rest)?;
    finish_of(rest)?;
    Ok(Module {
        globals,
        exports,
        elements,
        codes,
        segments,
        ..module
    })
}

/// Whether the type is of no parameters and no result.
fn is_of_nothing(types: &[FunctionType], index: Option<u32>) -> bool
    ensures { result ≡ is_nothing (type_named types.now index) }
{
    match index {
        None => false,
        Some(index) => match types.get(index as usize) {
            None => false,
            Some(function_type) => {
                function_type.parameters.as_slice().is_empty() && function_type.result.is_none()
            }
        },
    }
}

/// Whether the function of this index is defined, and of no parameters and no result.
fn starts(module: &Module, index: u32) -> bool
    ensures { result ≡ is_start «module».now index }
{
    let index = index as usize;
    let imports = module.imports.len();
    if index < imports {
        return false;
    }
    is_of_nothing(
        module.types.as_slice(),
        module.functions.as_slice().get(index - imports).copied(),
    )
}

/// Whether the export starts the program.
fn is_main_of(module: &Module, export: &Export) -> bool
    ensures { result ≡ is_main «module».now export.now }
{
    export.name.as_slice() == b"main".as_slice()
        && matches!(export.kind, ExportKind::Function)
        && starts(module, export.index)
}

fn has_main_of(module: &Module) -> bool
    ensures { result ≡ has_main «module».now }
{
    module
        .exports
        .as_slice()
        .iter()
        .any(|export| is_main_of(module, export))
}

#[tactic(auto, unfolding(crate::specs::Sections::module_at))]
fn module_of(alloc: Global, bytes: &[u8]) -> Result<Module, Stop>
    ensures { Gives (λ x. x) result (module_at bytes.now) }
{
    let rest = header_of(bytes)?;
    let (module, rest) = first_of(alloc, rest)?;
    let module = last_of(alloc, module, rest)?;
    if !has_main_of(&module) {
        return Err(Stop::at(Fault::NoMain, &[]));
    }
    Ok(module)
}

/// The module that the bytes spell, which is within the limits and has a main, or their first
/// fault from left to right. `NotModule`, `OutsideProfile` and `Limit` come at the first fault,
/// and `NoMain` where the bytes have no other fault (Core 1.0, 5).
pub fn read_module(alloc: Global, bytes: &[u8]) -> Result<Module, ReadError>
    requires { length bytes.now < 2 ^ 32 }
    ensures found { IfOk result (λ m. ModuleBytes bytes.now m) }
    ensures only { ReadsEach bytes.now result }
    ensures within { IfOk result (λ m. IsWithin m) }
    ensures first_fault { Answers bytes.now result (module_at bytes.now) }
{
    answer_of(alloc, bytes)
}

/// The answer, by the function on lists of bytes.
fn answer_of(alloc: Global, bytes: &[u8]) -> Result<Module, ReadError>
    requires { length bytes.now < 2 ^ 32 }
    ensures { Answers bytes.now result (module_at bytes.now) }
{
    match module_of(alloc, bytes) {
        Ok(module) => Ok(module),
        Err(Stop::Memory) => Err(ReadError::Memory),
        Err(Stop::Fault(kind, left)) => {
            let at = bytes.len().saturating_sub(left) as u32;
            Err(error_of(kind, at))
        }
    }
}

/// The error of a fault.
fn error_of(kind: Fault, at: u32) -> ReadError
    ensures { result ≡ error_at kind at }
{
    match kind {
        Fault::NotModule => ReadError::NotModule { at },
        Fault::OutsideProfile(what) => ReadError::OutsideProfile { at, what },
        Fault::Limit(which) => ReadError::Limit { which },
        Fault::NoMain => ReadError::NoMain,
    }
}
