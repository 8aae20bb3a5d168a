//! The module of an accepted text.

ghost use Rattle.std.specs.Prelude.{◌≡◌, IfOk};
ghost use Rattle.core_form.specs.CoreView.{core_view};
ghost use Rattle.low_laws.specs.Follows.{Follows};
ghost use Rattle.wasm_form.specs.Shortest.{Shortest};

use crate::text::Checked;
use core_body::to_core;
use core_form::Core;
use core_layout::layout;
use core_place::place;
use low_body::to_wasm;
use own_tree::{Bytes, LeafFacts, Row, Typed};
use std::alloc::{AllocError, Global};
use wasm_form::Module;
use wasm_write::write_module;

/// What an accepted text becomes.
#[derive(Drop)]
pub struct Built {
    /// The typing of the text.
    pub typed: Typed,
    /// What its module does, in words and places.
    pub core: Core,
    /// Its module (WebAssembly Core 1.0, 2.5).
    pub module: Module,
    /// The bytes of the module, with each number in its shortest form.
    pub bytes: Bytes,
}

/// Builds the module of an accepted text; a traced one also writes a line for each event. Want of memory gives
/// the text up, and comes too where the module would be larger than one may be.
pub fn build(alloc: Global, checked: Checked, traced: bool) -> Result<Built, AllocError>
    ensures follows { IfOk result (λ built. Follows built.module (core_view built.core)) }
    ensures bytes { IfOk result (λ built. built.bytes ≡ Shortest built.module) }
{
    let facts = LeafFacts {
        bodies: Row::new(alloc),
    };
    let (typed, table) = checked.into_parts();
    let frames = layout(alloc, &typed, &table)?;
    let placement = place(alloc, &typed, &table, &facts)?;
    let core = to_core(alloc, &typed, &table, &placement, &frames, traced)?;
    let module = to_wasm(alloc, &core)?;
    let bytes = write_module(alloc, &module)?;
    Ok(Built {
        typed,
        core,
        module,
        bytes,
    })
}
