ghost use Rattle.std.specs.Prelude.{◌≡◌, ◌∷◌, [], ◌≤◌, None, IsTrue, IfOk, IfSome};
ghost use Rattle.wasm_form.specs.Within.{IsWithin, nest};
ghost use Rattle.wasm_form.specs.declared.instr.Instr.{out-Instr};
ghost use Rattle.wasm_form.specs.declared.types.ValueType.TheVariants as type;
ghost use Rattle.wasm_form.proofs.Nests.{nest_of};

use own_io::MemorySink;
use own_tree::Row;
use sqlite_items::Items;
use std::alloc::{AllocError, Global};
use std::test::Fail;
use wasm_form::{
    CodeEntry, Export, ExportKind, FunctionType, HostCall, Import, Instr, Module, ValueType,
};
use wasm_run::{Machine, Ran};

fn is_flat(instr: &Instr) -> bool
    ensures { IsTrue result → nest_of (out-Instr instr.now) ≤ 0 }
{
    match instr {
        Instr::Block(_, _) => false,
        Instr::Loop(_, _) => false,
        Instr::If(_, _, _) => false,
        _ => true,
    }
}

fn are_flat(code: &[Instr]) -> bool
    ensures { IsTrue result → nest code.now ≤ 0 }
{
    for instr in code {
        if !is_flat(instr) {
            return false;
        }
    }
    true
}

/// The types of main and of `write_int`.
fn two_types(alloc: Global) -> Result<Row<FunctionType>, AllocError>
    ensures { IfOk result (λ types. types ≡ record { parameters = []; result = None } ∷ record { parameters = type.I64 ∷ []; result = None } ∷ []) }
{
    let parameters = Row::from_slice(alloc, [ValueType::I64].as_slice())?;
    let types = vec![in alloc;
        FunctionType {
            parameters: Row::new(alloc),
            result: None
        },
        FunctionType {
            parameters,
            result: None
        },
    ]?;
    Ok(Row::from_vec(types))
}

/// A module that imports `write_int` as the function 0, and whose main has this code; none where labels nest.
fn program(alloc: Global, code: Vec<Instr>) -> Result<Option<Module>, AllocError>
    ensures { IfOk result (λ found. IfSome found (λ m. IsWithin m)) }
{
    if !are_flat(code.as_slice()) {
        return Ok(None);
    }
    let write = Import {
        call: HostCall::WriteInt,
        type_index: 1,
    };
    let export = Export {
        name: Row::from_slice(alloc, b"main".as_slice())?,
        kind: ExportKind::Function,
        index: 1,
    };
    let main = CodeEntry {
        locals: Row::new(alloc),
        body: Items::from_vec(code),
    };
    Ok(Some(Module {
        types: two_types(alloc)?,
        imports: Row::from_slice(alloc, [write].as_slice())?,
        functions: Row::from_slice(alloc, [0u32].as_slice())?,
        tables: Row::new(alloc),
        memories: Row::new(alloc),
        globals: Row::new(alloc),
        exports: Row::from_vec(vec![in alloc; export]?),
        elements: Row::new(alloc),
        codes: Row::from_vec(vec![in alloc; main]?),
        segments: Row::new(alloc),
    }))
}

/// How a run went that writes -70 and then 5, and what the sink got, one of whose writes fails.
fn ran(alloc: Global, fault: u64) -> Result<(Ran, Row<u8>), Fail> {
    let code = vec![in alloc;
        Instr::I64Const(u64::MAX - 69),
        Instr::Call(0),
        Instr::I64Const(5),
        Instr::Call(0),
    ]?;
    let module = program(alloc, code)?.ok_or("labels nest")?;
    let mut sink = MemorySink::new(alloc, 64, Row::from_slice(alloc, [fault].as_slice())?)?;
    let machine = Machine::start(alloc, &module, &[])?;
    let answer = machine.run(9, &mut sink);
    Ok((answer, Row::from_slice(alloc, sink.written())?))
}

#[test]
fn writes_until_a_write_fails(rt: HostRuntime) -> Result<(), Fail> {
    for (fault, text, answer) in [
        (1, "", Ran::SinkFault),
        (2, "-70", Ran::SinkFault),
        (3, "-705", Ran::Ended { steps: 5 }),
    ] {
        let (got, written) = ran(rt.alloc(), fault)?;
        assert_eq!(rt; got, answer);
        assert_eq!(rt; written.as_slice(), text.as_bytes());
    }
    Ok(())
}

/// How a main runs for so many steps that pushes so many operands and then calls itself.
fn dived(alloc: Global, pushes: u32, steps: u64) -> Result<Ran, Fail> {
    let mut code = Vec::new(alloc);
    for _ in 0..pushes {
        code.push(Instr::I64Const(0))?;
    }
    code.push(Instr::Call(1))?;
    let module = program(alloc, code)?.ok_or("labels nest")?;
    let mut sink = MemorySink::new(alloc, 0, Row::new(alloc))?;
    let machine = Machine::start(alloc, &module, &[])?;
    Ok(machine.run(steps, &mut sink))
}

#[test]
fn frames_and_operands_have_their_limits(rt: HostRuntime) -> Result<(), Fail> {
    for (pushes, steps, answer) in [
        (0, 1_000, Ran::Running),
        (0, 1_001, Ran::Trapped { code: 3, at: 0 }),
        (1_047, 2_000_000, Ran::Trapped { code: 3, at: 0 }),
        (1_048, 2_000_000, Ran::Trapped { code: 17, at: 0 }),
    ] {
        assert_eq!(rt; dived(rt.alloc(), pushes, steps)?, answer);
    }
    Ok(())
}
