use own_tree::{Bytes, Row};
use sqlite_items::Items;
use std::alloc::{AllocError, Global};
use std::test::*;
use wasm_form::{CodeEntry, Export, ExportKind, FunctionType, Module};
use wasm_write::write_module;

/// A `main` of no parameters and no results that does nothing.
fn nothing_done(alloc: Global) -> Result<Module, AllocError> {
    let main = FunctionType {
        parameters: Row::new(alloc),
        result: None,
    };
    let export = Export {
        name: Bytes::from_slice(alloc, b"main")?,
        kind: ExportKind::Function,
        index: 0,
    };
    let code = CodeEntry {
        locals: Row::new(alloc),
        body: Items::new(alloc),
    };
    Ok(Module {
        types: Row::from_vec(vec![in alloc; main]?),
        imports: Row::new(alloc),
        functions: Row::from_vec(vec![in alloc; 0]?),
        tables: Row::new(alloc),
        memories: Row::new(alloc),
        globals: Row::new(alloc),
        exports: Row::from_vec(vec![in alloc; export]?),
        elements: Row::new(alloc),
        codes: Row::from_vec(vec![in alloc; code]?),
        segments: Row::new(alloc),
    })
}

#[test]
fn smallest_program(rt: HostRuntime) -> Result<(), Fail> {
    let module = nothing_done(rt.alloc()).ok().ok_or("memory")?;
    let bytes = write_module(rt.alloc(), &module).ok().ok_or("memory")?;
    assert_eq!(rt;
        bytes.as_slice(),
        [
            0x00, 0x61, 0x73, 0x6d, 0x01, 0x00, 0x00, 0x00, 0x01, 0x04, 0x01, 0x60, 0x00, 0x00,
            0x03, 0x02, 0x01, 0x00, 0x07, 0x08, 0x01, 0x04, 0x6d, 0x61, 0x69, 0x6e, 0x00, 0x00,
            0x0a, 0x04, 0x01, 0x02, 0x00, 0x0b,
        ]
        .as_slice()
    );
    Ok(())
}
