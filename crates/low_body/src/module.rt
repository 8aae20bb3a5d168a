//! The module of a core.

ghost use Rattle.std.specs.Prelude.{◌≡◌, ◌++◌, ◌∷◌, [], ◌≤◌, ◌*◌, IfOk, codes, map, replicate};
ghost use Rattle.core_form.specs.declared.limits.TheConstants.{MOST_FUNCTIONS};
ghost use Rattle.core_form.specs.CoreView.{core_view, function_view};
ghost use Rattle.core_form.specs.Sizes.{FunctionFits, FunctionsFit, IsFitting};
ghost use Rattle.low_laws.specs.Follows.{Follows};
ghost use Rattle.low_laws.specs.Laws.{IsShort};
ghost use Rattle.low_laws.specs.Lower.{function_entry, groups, hosts, lowered, main_entry, numbers_from, types};
ghost use Rattle.low_laws.specs.declared.places.TheConstants.{FUNCTION, MAIN, OWN};

use crate::code::push_forms;
use crate::round::Round;
use core_form::limits::{AREA, MOST_PRINTED};
use core_form::{Core, CoreFunction};
use core_sizes::fits;
use low_laws::places::{FUNCTION, MAIN, OWN, PAGES};
use own_tree::row::{Bytes, Row};
use sqlite_items::Items;
use std::alloc::{AllocError, Global};
use wasm_form::{
    CodeEntry, DataSegment, ElementSegment, Export, ExportKind, FunctionType, HostCall, Import,
    Instr, Limits, LocalGroup, Module, ValueType,
};

/// The locals of a function, by how many local words it has.
fn groups(alloc: Global, words: u32) -> Result<Row<LocalGroup>, AllocError>
    ensures { IfOk result (λ locals. locals ≡ groups words) }
{
    let locals = vec![in alloc;
        group(2, ValueType::I64),
        group(3, ValueType::I32),
        group(MOST_PRINTED, ValueType::I64),
        group(words, ValueType::I64),
    ]?;
    Ok(Row::from_vec(locals))
}

fn group(count: u32, value_type: ValueType) -> LocalGroup
    ensures { result ≡ record { count = count; value_type = value_type } }
{
    LocalGroup { count, value_type }
}

/// The code of a function.
fn function_entry(alloc: Global, function: &CoreFunction) -> Result<CodeEntry, AllocError>
    requires { FunctionFits (function_view function.now) }
    ensures { IfOk result (λ entry. entry ≡ function_entry (function_view function.now)) }
{
    let mut code = Vec::new(alloc);
    push_forms(alloc, &mut code, &Round::Bare, function.code.as_slice())?;
    Ok(CodeEntry {
        locals: groups(alloc, function.locals)?,
        body: Items::from_vec(code),
    })
}

/// The code of main, which calls a function in the first frame.
fn main_entry(alloc: Global, main: u32) -> Result<CodeEntry, AllocError>
    requires { main ≤ MOST_FUNCTIONS }
    ensures { IfOk result (λ entry. entry ≡ main_entry main) }
{
    let code = vec![in alloc; Instr::I32Const(0), Instr::Call(OWN + main)]?;
    Ok(CodeEntry {
        locals: Row::new(alloc),
        body: Items::from_vec(code),
    })
}

/// The code of all functions, and then that of main.
fn codes(alloc: Global, functions: &[CoreFunction], main: u32) -> Result<Row<CodeEntry>, AllocError>
    requires fits { FunctionsFit (map function_view functions.now) }
    requires main { main ≤ MOST_FUNCTIONS }
    ensures { IfOk result (λ codes. codes
        ≡ map function_entry (map function_view functions.now) ++ main_entry main ∷ []) }
{
    let mut codes = Vec::new(alloc);
    for function in functions {
        codes.push(function_entry(alloc, function)?)?;
    }
    codes.push(main_entry(alloc, main)?)?;
    Ok(Row::from_vec(codes))
}

fn function_type(parameters: Vec<ValueType>, result_type: Option<ValueType>) -> FunctionType
    ensures { result ≡ record { parameters = parameters.items; result = result_type } }
{
    FunctionType {
        parameters: Row::from_vec(parameters),
        result: result_type,
    }
}

/// The types of the imports, of the functions and of main.
fn types(alloc: Global) -> Result<Row<FunctionType>, AllocError>
    ensures { IfOk result (λ found. found ≡ types) }
{
    let of_int = vec![in alloc; ValueType::I64]?;
    let of_word = vec![in alloc; ValueType::I32]?;
    let of_two = vec![in alloc; ValueType::I32, ValueType::I32]?;
    let types = vec![in alloc;
        function_type(of_int, None),
        function_type(of_word, None),
        function_type(of_two, None),
        function_type(Vec::new(alloc), Some(ValueType::I64)),
        function_type(Vec::new(alloc), None),
    ]?;
    Ok(Row::from_vec(types))
}

fn import(call: HostCall, type_index: u32) -> Import
    ensures { result ≡ record { call = call; type_index = type_index } }
{
    Import { call, type_index }
}

/// All imports, in the order of `HostCall`.
fn hosts(alloc: Global) -> Result<Row<Import>, AllocError>
    ensures { IfOk result (λ imports. imports ≡ hosts) }
{
    let imports = vec![in alloc;
        import(HostCall::WriteInt, 0),
        import(HostCall::WriteBool, 1),
        import(HostCall::WriteText, 2),
        import(HostCall::WriteByte, 1),
        import(HostCall::ReadInt, 3),
        import(HostCall::Trap, 2),
    ]?;
    Ok(Row::from_vec(imports))
}

/// The types of so many functions, and then that of main.
fn function_types(alloc: Global, count: u32) -> Result<Row<u32>, AllocError>
    ensures { IfOk result (λ functions. functions ≡ replicate count FUNCTION ++ MAIN ∷ []) }
{
    let mut functions = vec![in alloc; FUNCTION; count as usize]?;
    functions.push(MAIN)?;
    Ok(Row::from_vec(functions))
}

/// The table: so many functions, by their numbers.
fn elements(alloc: Global, count: u32) -> Result<Row<ElementSegment>, AllocError>
    requires { count ≤ MOST_FUNCTIONS }
    ensures { IfOk result (λ elements. elements ≡ record { offset = 0; functions = numbers_from OWN count } ∷ []) }
{
    let mut functions = Vec::new(alloc);
    for number in OWN..OWN + count {
        functions.push(number)?;
    }
    let segment = ElementSegment {
        offset: 0,
        functions: Row::from_vec(functions),
    };
    Ok(Row::from_vec(vec![in alloc; segment]?))
}

fn one_size(alloc: Global, min: u32) -> Result<Row<Limits>, AllocError>
    ensures { IfOk result (λ sizes. sizes ≡ record { min = min; max = None } ∷ []) }
{
    Ok(Row::from_vec(vec![in alloc; Limits { min, max: None }]?))
}

/// Main under its name.
fn exports(alloc: Global, index: u32) -> Result<Row<Export>, AllocError>
    ensures { IfOk result (λ exports. exports
        ≡ record { name = codes "main"; kind = ExportKind.Function; index = index } ∷ []) }
{
    let main = Export {
        name: Bytes::from_slice(alloc, b"main")?,
        kind: ExportKind::Function,
        index,
    };
    Ok(Row::from_vec(vec![in alloc; main]?))
}

/// The texts, which follow the words in memory.
fn segments(alloc: Global, texts: &[u8]) -> Result<Row<DataSegment>, AllocError>
    ensures { IfOk result (λ segments. segments ≡ record { offset = 8 * AREA; bytes = texts.now } ∷ []) }
{
    let segment = DataSegment {
        offset: 8 * AREA,
        bytes: Bytes::from_slice(alloc, texts)?,
    };
    Ok(Row::from_vec(vec![in alloc; segment]?))
}

/// The parts of the module of a core.
#[tactic(auto, unfolding(low_laws::specs::Lower::lowered))]
fn module_of(alloc: Global, core: &Core) -> Result<Module, AllocError>
    requires { IsFitting (core_view core.now) }
    ensures { IfOk result (λ built. built ≡ lowered (core_view core.now)) }
{
    let count = core.functions.len() as u32;
    Ok(Module {
        types: types(alloc)?,
        imports: hosts(alloc)?,
        functions: function_types(alloc, count)?,
        tables: one_size(alloc, count)?,
        memories: one_size(alloc, PAGES)?,
        globals: Row::new(alloc),
        exports: exports(alloc, OWN + count)?,
        elements: elements(alloc, count)?,
        codes: codes(alloc, core.functions.as_slice(), core.main)?,
        segments: segments(alloc, core.texts.as_slice())?,
    })
}

/// The module of a core that fits.
fn fitting_module(alloc: Global, core: &Core) -> Result<Module, AllocError>
    requires { IsFitting (core_view core.now) }
    ensures value { IfOk result (λ built. built ≡ lowered (core_view core.now)) }
    ensures follows { IfOk result (λ built. Follows built (core_view core.now)) }
    ensures short { IfOk result IsShort }
{
    module_of(alloc, core)
}

/// The module of a core (WebAssembly Core 1.0, 2.5). It does what the core does, in both directions, within `STEPS`
/// steps for each form that a run counts, and its shortest spelling spells it. It is an error where memory is
/// refused, and where the core is larger than a module has room for (`core_sizes::fits`).
pub fn to_wasm(alloc: Global, core: &Core) -> Result<Module, AllocError>
    ensures value { IfOk result (λ built. built ≡ lowered (core_view core.now)) }
    ensures follows { IfOk result (λ built. Follows built (core_view core.now)) }
    ensures short { IfOk result IsShort }
{
    if !fits(core) {
        return Err(AllocError);
    }
    fitting_module(alloc, core)
}
