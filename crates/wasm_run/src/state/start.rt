ghost use Rattle.std.specs.Prelude.{◌≡◌, ◌++◌, ◌+◌, ◌*◌, ◌≤◌, length, take, drop, map, Some, IsSome, IfOk, All};
ghost use Rattle.std.specs.Option.{option_copied};
ghost use Rattle.wasm_form.specs.Steps.{started, main_in, main_code, is_main, least, laid, with_elements, table_of, with_segments, memory_of};
ghost use Rattle.wasm_form.specs.Within.{IsWithin, count_locals, ElementIsWithin, SegmentIsWithin};

use crate::state::calls::add_zeros;
use crate::state::memory::overwrite;
use crate::state::{Layer, MOST_LAYERS, MOST_LOCALS_HELD, MOST_VALUES, State};
use std::alloc::{AllocError, Global};
use wasm_form::limits::{MOST_LOCALS, PAGE};
use wasm_form::{
    CodeEntry, DataSegment, ElementSegment, Export, ExportKind, GlobalEntry, Limits, Module, Value,
};

impl<'m> State<'m> {
    /// Before the first step, with all memory that a run takes.
    #[tactic(auto, unfolding(wasm_form::specs::Steps::started))]
    pub(crate) fn start(
        alloc: Global,
        module: &'m Module,
        main: &'m CodeEntry,
        input: &'m [i64],
    ) -> Result<State<'m>, AllocError>
        requires within { IsWithin «module».now }
        requires locals { count_locals main.now.locals ≤ MOST_LOCALS }
        ensures { IfOk result (λ state. state ≡ started «module».now main.now input.now) }
    {
        let mut layers = Vec::with_capacity(alloc, MOST_LAYERS)?;
        layers.push_reserved(Layer {
            after: &[],
            target: &[],
            base: 0,
            result: None,
            is_frame: true,
            locals: 0,
            depth: 0,
        });
        let mut locals = Vec::with_capacity(alloc, MOST_LOCALS_HELD)?;
        add_zeros(&mut locals, main.locals.as_slice());
        let values = Vec::with_capacity(alloc, MOST_VALUES)?;
        let globals = first_globals(alloc, module.globals.as_slice())?;
        let table = first_table(alloc, module)?;
        let memory = first_memory(alloc, module)?;
        Ok(State {
            code: main.body.as_slice(),
            values,
            base: 0,
            layers,
            locals,
            locals_base: 0,
            depth: 1,
            globals,
            table,
            memory,
            input,
        })
    }
}

fn first_globals(alloc: Global, globals: &[GlobalEntry]) -> Result<Vec<Value>, AllocError>
    ensures { IfOk result (λ values. values.items ≡ map (λ global. global.initial) globals.now) }
{
    globals.iter().map(|global| global.initial).collect(alloc)
}

/// The least size of the one table or memory, or 0.
fn least_size(limits: &[Limits]) -> u32
    ensures { result ≡ least limits.now }
{
    match limits {
        [] => 0,
        [first, ..] => first.min,
    }
}

fn first_table(alloc: Global, module: &Module) -> Result<Vec<Option<u32>>, AllocError>
    requires { IsWithin «module».now }
    ensures { IfOk result (λ table. table.items ≡ table_of «module».now) }
{
    let mut table = vec![in alloc; None; least_size(module.tables.as_slice()) as usize]?;
    for segment in module.elements.as_slice() {
        lay_functions(
            &mut table,
            segment.offset as usize,
            segment.functions.as_slice(),
        );
    }
    Ok(table)
}

/// Puts functions into the table from a place on.
fn lay_functions(table: &mut [Option<u32>], at: usize, functions: &[u32])
    requires { at + length functions.now ≤ length table.old }
    ensures { table.new ≡ laid at (map Some functions.now) table.old }
{
    for (k, function) in functions.iter().enumerate() {
        table[at + k] = Some(*function);
    }
}

fn first_memory(alloc: Global, module: &Module) -> Result<Vec<u8>, AllocError>
    requires { IsWithin «module».now }
    ensures { IfOk result (λ memory. memory.items ≡ memory_of «module».now) }
{
    let pages = least_size(module.memories.as_slice()) as usize;
    let mut memory = vec![in alloc; 0; pages * PAGE as usize]?;
    for segment in module.segments.as_slice() {
        overwrite(
            &mut memory,
            segment.offset as usize,
            segment.bytes.as_slice(),
        );
    }
    Ok(memory)
}

/// Whether it is a function that is exported as main.
fn is_main(export: &Export) -> bool
    ensures { result ≡ is_main export.now }
{
    match export.kind {
        ExportKind::Function => export.name.as_slice() == b"main".as_slice(),
        _ => false,
    }
}

/// The number of the function that is exported as main.
fn main_index(exports: &[Export]) -> Option<u32>
    ensures { result ≡ main_in exports.now }
{
    for export in exports {
        if is_main(export) {
            return Some(export.index);
        }
    }
    None
}

/// The code of main, which is a defined function.
pub(crate) fn code_of_main(module: &Module) -> Option<&CodeEntry>
    ensures { option_copied result ≡ main_code «module».now }
{
    let index = main_index(module.exports.as_slice())? as usize;
    if index < module.imports.len() {
        return None;
    }
    module.codes.get(index - module.imports.len())
}
