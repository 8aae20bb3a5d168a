//! A module (Core 1.0, 5.5.15).

ghost use Rattle.std.specs.Prelude.{◌≡◌, ◌++◌, IfOk, OnOk};
ghost use Rattle.wasm_form.specs.Leb.{unsigned_shortest};
ghost use Rattle.wasm_form.specs.Shortest.{Shortest, first_sections, last_sections, list_shortest, section_shortest, table_shortest, type_shortest, import_shortest, limits_shortest, global_shortest, export_shortest, element_shortest, code_shortest, segment_shortest};

use crate::encode::{Encode, push_list, push_section, push_sized};
use crate::number::push_unsigned;
use own_tree::Bytes;
use std::alloc::{AllocError, Global};
use wasm_form::{Limits, Module};

/// The magic number and the version (Core 1.0, 5.5.15).
const HEADER: [u8; 8] = [0x00, 0x61, 0x73, 0x6d, 0x01, 0x00, 0x00, 0x00];

/// The shortest spelling of a module: each number in the fewest bytes, no custom section, no
/// section whose list is empty, and no else before an empty side.
///
/// It stands for any module, also one that no bytes spell, as with an index past the end. Where
/// some bytes spell the module, these do, if they are fewer than 2 ^ 32.
#[tactic(auto, unfolding(wasm_form::specs::Shortest::Shortest))]
pub fn write_module(alloc: Global, module: &Module) -> Result<Bytes, AllocError>
    ensures { IfOk result (λ bytes. bytes ≡ Shortest «module».now) }
{
    let mut out = Vec::new(alloc);
    out.extend_from_slice(&HEADER)?;
    push_first(alloc, &mut out, module)?;
    push_last(alloc, &mut out, module)?;
    Ok(Bytes::from_vec(out))
}

/// Writes sections 1 to 5.
#[tactic(auto, unfolding(wasm_form::specs::Shortest::first_sections))]
fn push_first(alloc: Global, out: &mut Vec<u8>, module: &Module) -> Result<(), AllocError>
    ensures { OnOk result (out.new.items ≡ out.old.items ++ first_sections «module».now) }
{
    push_section(alloc, out, 1, module.types.as_slice())?;
    push_section(alloc, out, 2, module.imports.as_slice())?;
    push_section(alloc, out, 3, module.functions.as_slice())?;
    push_tables(alloc, out, module.tables.as_slice())?;
    push_section(alloc, out, 5, module.memories.as_slice())
}

/// Writes sections 6 to 11.
#[tactic(auto, unfolding(wasm_form::specs::Shortest::last_sections))]
fn push_last(alloc: Global, out: &mut Vec<u8>, module: &Module) -> Result<(), AllocError>
    ensures { OnOk result (out.new.items ≡ out.old.items ++ last_sections «module».now) }
{
    push_section(alloc, out, 6, module.globals.as_slice())?;
    push_section(alloc, out, 7, module.exports.as_slice())?;
    push_section(alloc, out, 9, module.elements.as_slice())?;
    push_section(alloc, out, 10, module.codes.as_slice())?;
    push_section(alloc, out, 11, module.segments.as_slice())
}

/// Writes the section of the tables, or nothing where there are none.
#[tactic(auto, unfolding(wasm_form::specs::Shortest::section_shortest))]
fn push_tables(alloc: Global, out: &mut Vec<u8>, tables: &[Limits]) -> Result<(), AllocError>
    ensures { OnOk result (out.new.items ≡ out.old.items ++ section_shortest 4 table_shortest tables.now) }
{
    if tables.is_empty() {
        return Ok(());
    }
    let content = tables_content(alloc, tables)?;
    out.push(4)?;
    push_sized(out, &content)
}

/// The number of the tables, and they, each of functions (Core 1.0, 5.3.7).
#[tactic(auto, unfolding(wasm_form::specs::Shortest::table_shortest))]
fn tables_content(alloc: Global, tables: &[Limits]) -> Result<Vec<u8>, AllocError>
    ensures { IfOk result (λ content. content.items ≡ list_shortest table_shortest tables.now) }
{
    let mut content = Vec::new(alloc);
    push_unsigned(&mut content, tables.len() as u64)?;
    for table in tables {
        content.push(0x70)?;
        table.encode(alloc, &mut content)?;
    }
    Ok(content)
}
