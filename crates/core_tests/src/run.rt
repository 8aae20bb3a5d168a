use core_form::limits::MOST_DISPLACEMENT;
use core_form::{Core, CoreAt, CoreForm, CoreFunction, CorePiece, CoreWord};
use core_sizes::fits;
use low_body::to_wasm;
use own_io::MemorySink;
use own_tree::{Bytes, Row};
use sqlite_items::Items;
use std::alloc::{AllocError, Global};
use std::test::Fail;
use wasm_read::read_module;
use wasm_run::{Machine, Ran};
use wasm_write::write_module;

/// A core that prints a word as a line.
fn printing(alloc: Global, word: CoreWord) -> Result<Core, AllocError> {
    let pieces = vec![in alloc; CorePiece::Int(word), CorePiece::Text(0, 1)]?;
    let code = vec![in alloc; CoreForm::Print(Items::from_vec(pieces))]?;
    let main = CoreFunction {
        locals: 0,
        code: Items::from_vec(code),
    };
    Ok(Core {
        functions: Row::from_vec(vec![in alloc; main]?),
        main: 0,
        texts: Bytes::from_slice(alloc, b"\n")?,
        flags: Row::new(alloc),
    })
}

#[test]
fn a_core_runs_as_the_module_that_its_bytes_spell(rt: HostRuntime) -> Result<(), Fail> {
    let alloc = rt.alloc();
    let bytes = write_module(
        alloc,
        &to_wasm(alloc, &printing(alloc, CoreWord::Constant(42))?)?,
    )?;
    if bytes.len() >= 1 << 32 {
        return Err("too long")?;
    }
    let module = match read_module(alloc, bytes.as_slice()) {
        Ok(module) => module,
        Err(_) => return Err("no module")?,
    };
    let mut sink = MemorySink::new(alloc, 64, Row::new(alloc))?;
    let machine = Machine::start(alloc, &module, &[])?;
    let ran = machine.run(1_000, &mut sink);
    assert_eq!(rt; matches!(ran, Ran::Ended { .. }), true);
    assert_eq!(rt; sink.written(), b"42\n".as_slice());
    Ok(())
}

#[test]
fn a_core_is_refused_where_it_is_larger_than_its_module(rt: HostRuntime) -> Result<(), Fail> {
    let alloc = rt.alloc();
    let places = [(MOST_DISPLACEMENT, true), (MOST_DISPLACEMENT + 1, false)];
    for (words, fitting) in places {
        let core = printing(alloc, CoreWord::Load(CoreAt::Mine(words)))?;
        assert_eq!(rt; fits(&core), fitting);
        assert_eq!(rt; to_wasm(alloc, &core).is_ok(), fitting);
    }
    Ok(())
}
