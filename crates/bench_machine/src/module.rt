ghost use Rattle.std.specs.Prelude.{◌≡◌, IfOk};
ghost use Rattle.wasm_form.specs.Within.{IsWithin};
ghost use Rattle.bench_machine.specs.Bench.{turn, main_body, sum_body, benchmark};

use own_tree::Row;
use sqlite_items::Items;
use std::alloc::{AllocError, Global};
use wasm_form::{
    CodeEntry, Export, ExportKind, FunctionType, HostCall, Import, Instr, Limits, LocalGroup,
    MemArg, Module, ValueType,
};

const ACCESS: MemArg = MemArg {
    align: 3,
    offset: 0,
};

/// One turn of the loop: the counter goes down, and names a place in the memory. The sum takes the place of
/// what is stored there, a call adds the counter to it, and what was stored is put to that.
fn turn(alloc: Global) -> Result<Vec<Instr>, AllocError>
    ensures { IfOk result (λ code. code.items ≡ turn) }
{
    let code = vec![in alloc;
        Instr::LocalGet(0),
        Instr::I64Eqz,
        Instr::BrIf(1),
        Instr::LocalGet(0),
        Instr::I64Const(1),
        Instr::I64Sub,
        Instr::LocalTee(0),
        Instr::I32WrapI64,
        Instr::I32Const(1023),
        Instr::I32And,
        Instr::I32Const(3),
        Instr::I32Shl,
        Instr::LocalTee(2),
        Instr::I64Load(ACCESS),
        Instr::LocalGet(2),
        Instr::LocalGet(1),
        Instr::I64Store(ACCESS),
        Instr::LocalGet(1),
        Instr::LocalGet(0),
        Instr::Call(2),
        Instr::I64Xor,
        Instr::LocalSet(1),
        Instr::Br(0),
    ]?;
    Ok(code)
}

fn main_body(alloc: Global, turns: u64) -> Result<Vec<Instr>, AllocError>
    ensures { IfOk result (λ code. code.items ≡ main_body turns) }
{
    let around = vec![in alloc; Instr::Loop(None, Items::from_vec(turn(alloc)?))]?;
    let code = vec![in alloc;
        Instr::I64Const(turns),
        Instr::LocalSet(0),
        Instr::Block(None, Items::from_vec(around)),
        Instr::LocalGet(1),
        Instr::Call(0),
    ]?;
    Ok(code)
}

fn sum_body(alloc: Global) -> Result<Vec<Instr>, AllocError>
    ensures { IfOk result (λ code. code.items ≡ sum_body) }
{
    let code = vec![in alloc; Instr::LocalGet(0), Instr::LocalGet(1), Instr::I64Add]?;
    Ok(code)
}

/// The types of main, of `write_int` and of the function that is called in each turn.
fn types(alloc: Global) -> Result<Row<FunctionType>, AllocError>
    ensures { IfOk result (λ types. types ≡ (benchmark 0).types) }
{
    let one = Row::from_slice(alloc, [ValueType::I64].as_slice())?;
    let two = Row::from_slice(alloc, [ValueType::I64, ValueType::I64].as_slice())?;
    let types = vec![in alloc;
        FunctionType {
            parameters: Row::new(alloc),
            result: None
        },
        FunctionType {
            parameters: one,
            result: None
        },
        FunctionType {
            parameters: two,
            result: Some(ValueType::I64)
        },
    ]?;
    Ok(Row::from_vec(types))
}

/// The code of main and of the function that is called in each turn.
fn codes(alloc: Global, turns: u64) -> Result<Row<CodeEntry>, AllocError>
    ensures { IfOk result (λ codes. codes ≡ (benchmark turns).codes) }
{
    let numbers = LocalGroup {
        count: 2,
        value_type: ValueType::I64,
    };
    let place = LocalGroup {
        count: 1,
        value_type: ValueType::I32,
    };
    let main = CodeEntry {
        locals: Row::from_slice(alloc, [numbers, place].as_slice())?,
        body: Items::from_vec(main_body(alloc, turns)?),
    };
    let sum = CodeEntry {
        locals: Row::new(alloc),
        body: Items::from_vec(sum_body(alloc)?),
    };
    Ok(Row::from_vec(vec![in alloc; main, sum]?))
}

/// Main as an export.
fn exports(alloc: Global) -> Result<Row<Export>, AllocError>
    ensures { IfOk result (λ exports. exports ≡ (benchmark 0).exports) }
{
    let main = Export {
        name: Row::from_slice(alloc, b"main".as_slice())?,
        kind: ExportKind::Function,
        index: 1,
    };
    Ok(Row::from_vec(vec![in alloc; main]?))
}

/// The module, whose main goes round its loop so many times.
pub fn benchmark(alloc: Global, turns: u64) -> Result<Module, AllocError>
    ensures { IfOk result (λ m. IsWithin m) }
{
    let module = built(alloc, turns)?;
    Ok(module)
}

fn built(alloc: Global, turns: u64) -> Result<Module, AllocError>
    ensures { IfOk result (λ m. m ≡ benchmark turns) }
{
    let write = Import {
        call: HostCall::WriteInt,
        type_index: 1,
    };
    let page = Limits { min: 1, max: None };
    Ok(Module {
        types: types(alloc)?,
        imports: Row::from_slice(alloc, [write].as_slice())?,
        functions: Row::from_slice(alloc, [0u32, 2].as_slice())?,
        tables: Row::new(alloc),
        memories: Row::from_slice(alloc, [page].as_slice())?,
        globals: Row::new(alloc),
        exports: exports(alloc)?,
        elements: Row::new(alloc),
        codes: codes(alloc, turns)?,
        segments: Row::new(alloc),
    })
}
