//! Sections (Core 1.0, 5.5.2): custom ones anywhere, the others at most once and in rising order.

ghost use Rattle.std.specs.Prelude.{◌≡◌, ◌<◌, length, IfOk};
ghost use Rattle.wasm_read.specs.Reading.{Gives};
ghost use Rattle.wasm_read.specs.Types.{types_at, at_most_one, table_at, memory_at};
ghost use Rattle.wasm_read.specs.Entries.{imports_at, functions_at, globals_at, exports_at, elements_at, segments_at};
ghost use Rattle.wasm_read.specs.Sections.{custom_at, is_custom_at, numbered_custom_at, customs_at, section_at, codes_section_at, without_codes, finish_at};

use crate::counts::Counts;
use crate::fault::{Fault, Stop};
use crate::globals::{exports_of, functions_of, globals_of};
use crate::imports::imports_of;
use crate::input::{behind, closed, front_of, name_of};
use crate::number::u32_of;
use crate::segments::{codes_of, elements_of, segments_of};
use crate::types::{memories_of, tables_of, types_of};
use own_tree::Row;
use std::alloc::Global;
use wasm_form::limits::Outside;
use wasm_form::{
    CodeEntry, DataSegment, ElementSegment, Export, FunctionType, GlobalEntry, Import, Limits,
};

/// What follows a custom section, of which the number is read.
#[tactic(auto, unfolding(crate::specs::Sections::custom_at))]
fn custom_of(bytes: &[u8]) -> Result<&[u8], Stop>
    ensures gives { Gives (λ x. x.now) result (custom_at bytes.now) }
    ensures shorter { IfOk result (λ x. length x.now < length bytes.now) }
{
    let (size, after) = u32_of(bytes)?;
    match name_of(front_of(after, size)) {
        Err(stop) => Err(stop.before(behind(after, size))),
        Ok(_) => {
            let size = size as usize;
            if after.len() < size {
                return Err(Stop::at(Fault::NotModule, &[]));
            }
            Ok(&after[size..])
        }
    }
}

/// What follows the custom sections at the front.
fn customs_of(bytes: &[u8]) -> Result<&[u8], Stop>
    ensures { Gives (λ x. x.now) result (customs_at bytes.now) }
{
    let mut rest = bytes;
    while is_custom(rest) {
        rest = numbered_custom_of(rest)?;
    }
    Ok(rest)
}

/// Whether a custom section comes next.
fn is_custom(bytes: &[u8]) -> bool
    ensures { result ≡ is_custom_at bytes.now }
{
    matches!(bytes, [0, ..])
}

/// What follows a custom section.
fn numbered_custom_of(bytes: &[u8]) -> Result<&[u8], Stop>
    ensures gives { Gives (λ x. x.now) result (numbered_custom_at bytes.now) }
    ensures shorter { IfOk result (λ x. length x.now < length bytes.now) }
{
    match bytes {
        [0, rest @ ..] => custom_of(rest),
        _ => Err(Stop::at(Fault::NotModule, bytes)),
    }
}

/// Section 1: the types.
#[tactic(auto, unfolding(crate::specs::Sections::section_at, crate::specs::Reading::framed))]
pub(crate) fn types_section(alloc: Global, bytes: &[u8]) -> Result<(Row<FunctionType>, &[u8]), Stop>
    ensures { Gives (λ x. (x.0, x.1.now)) result (section_at 1 types_at bytes.now) }
{
    let rest = customs_of(bytes)?;
    match rest {
        [1, rest @ ..] => {
            let (size, after) = u32_of(rest)?;
            match types_of(alloc, front_of(after, size)) {
                Err(stop) => Err(stop.before(behind(after, size))),
                Ok((items, left)) => {
                    let rest = closed(after, size, left)?;
                    Ok((items, rest))
                }
            }
        }
        _ => Ok((Row::new(alloc), rest)),
    }
}

/// Section 2: the imports.
#[tactic(auto, unfolding(crate::specs::Sections::section_at, crate::specs::Reading::framed))]
pub(crate) fn imports_section<'a>(
    alloc: Global,
    types: &[FunctionType],
    bytes: &'a [u8],
) -> Result<(Row<Import>, &'a [u8]), Stop>
    ensures { Gives (λ x. (x.0, x.1.now)) result (section_at 2 (imports_at types.now) bytes.now) }
{
    let rest = customs_of(bytes)?;
    match rest {
        [2, rest @ ..] => {
            let (size, after) = u32_of(rest)?;
            match imports_of(alloc, types, front_of(after, size)) {
                Err(stop) => Err(stop.before(behind(after, size))),
                Ok((items, left)) => {
                    let rest = closed(after, size, left)?;
                    Ok((items, rest))
                }
            }
        }
        _ => Ok((Row::new(alloc), rest)),
    }
}

/// Section 3: the types of the functions, as indices of so many types.
#[tactic(auto, unfolding(crate::specs::Sections::section_at, crate::specs::Reading::framed))]
pub(crate) fn functions_section(
    alloc: Global,
    types: usize,
    bytes: &[u8],
) -> Result<(Row<u32>, &[u8]), Stop>
    ensures { Gives (λ x. (x.0, x.1.now)) result (section_at 3 (functions_at types) bytes.now) }
{
    let rest = customs_of(bytes)?;
    match rest {
        [3, rest @ ..] => {
            let (size, after) = u32_of(rest)?;
            match functions_of(alloc, types, front_of(after, size)) {
                Err(stop) => Err(stop.before(behind(after, size))),
                Ok((items, left)) => {
                    let rest = closed(after, size, left)?;
                    Ok((items, rest))
                }
            }
        }
        _ => Ok((Row::new(alloc), rest)),
    }
}

/// Section 4: the table.
#[tactic(auto, unfolding(crate::specs::Sections::section_at, crate::specs::Reading::framed))]
pub(crate) fn tables_section(alloc: Global, bytes: &[u8]) -> Result<(Row<Limits>, &[u8]), Stop>
    ensures { Gives (λ x. (x.0, x.1.now)) result (section_at 4 (at_most_one table_at) bytes.now) }
{
    let rest = customs_of(bytes)?;
    match rest {
        [4, rest @ ..] => {
            let (size, after) = u32_of(rest)?;
            match tables_of(alloc, front_of(after, size)) {
                Err(stop) => Err(stop.before(behind(after, size))),
                Ok((items, left)) => {
                    let rest = closed(after, size, left)?;
                    Ok((items, rest))
                }
            }
        }
        _ => Ok((Row::new(alloc), rest)),
    }
}

/// Section 5: the memory.
#[tactic(auto, unfolding(crate::specs::Sections::section_at, crate::specs::Reading::framed))]
pub(crate) fn memories_section(alloc: Global, bytes: &[u8]) -> Result<(Row<Limits>, &[u8]), Stop>
    ensures { Gives (λ x. (x.0, x.1.now)) result (section_at 5 (at_most_one memory_at) bytes.now) }
{
    let rest = customs_of(bytes)?;
    match rest {
        [5, rest @ ..] => {
            let (size, after) = u32_of(rest)?;
            match memories_of(alloc, front_of(after, size)) {
                Err(stop) => Err(stop.before(behind(after, size))),
                Ok((items, left)) => {
                    let rest = closed(after, size, left)?;
                    Ok((items, rest))
                }
            }
        }
        _ => Ok((Row::new(alloc), rest)),
    }
}

/// Section 6: the globals.
#[tactic(auto, unfolding(crate::specs::Sections::section_at, crate::specs::Reading::framed))]
pub(crate) fn globals_section(
    alloc: Global,
    bytes: &[u8],
) -> Result<(Row<GlobalEntry>, &[u8]), Stop>
    ensures { Gives (λ x. (x.0, x.1.now)) result (section_at 6 globals_at bytes.now) }
{
    let rest = customs_of(bytes)?;
    match rest {
        [6, rest @ ..] => {
            let (size, after) = u32_of(rest)?;
            match globals_of(alloc, front_of(after, size)) {
                Err(stop) => Err(stop.before(behind(after, size))),
                Ok((items, left)) => {
                    let rest = closed(after, size, left)?;
                    Ok((items, rest))
                }
            }
        }
        _ => Ok((Row::new(alloc), rest)),
    }
}

/// Section 7: the exports.
#[tactic(auto, unfolding(crate::specs::Sections::section_at, crate::specs::Reading::framed))]
pub(crate) fn exports_section(
    alloc: Global,
    counts: Counts,
    bytes: &[u8],
) -> Result<(Row<Export>, &[u8]), Stop>
    ensures { Gives (λ x. (x.0, x.1.now)) result (section_at 7 (exports_at counts) bytes.now) }
{
    let rest = customs_of(bytes)?;
    match rest {
        [7, rest @ ..] => {
            let (size, after) = u32_of(rest)?;
            match exports_of(alloc, counts, front_of(after, size)) {
                Err(stop) => Err(stop.before(behind(after, size))),
                Ok((items, left)) => {
                    let rest = closed(after, size, left)?;
                    Ok((items, rest))
                }
            }
        }
        _ => Ok((Row::new(alloc), rest)),
    }
}

/// Section 9: what the table holds at the start.
#[tactic(auto, unfolding(crate::specs::Sections::section_at, crate::specs::Reading::framed))]
pub(crate) fn elements_section<'a>(
    alloc: Global,
    tables: &[Limits],
    functions: usize,
    bytes: &'a [u8],
) -> Result<(Row<ElementSegment>, &'a [u8]), Stop>
    ensures { Gives (λ x. (x.0, x.1.now)) result (section_at 9 (elements_at tables.now functions) bytes.now) }
{
    let rest = customs_of(bytes)?;
    match rest {
        [9, rest @ ..] => {
            let (size, after) = u32_of(rest)?;
            match elements_of(alloc, tables, functions, front_of(after, size)) {
                Err(stop) => Err(stop.before(behind(after, size))),
                Ok((items, left)) => {
                    let rest = closed(after, size, left)?;
                    Ok((items, rest))
                }
            }
        }
        _ => Ok((Row::new(alloc), rest)),
    }
}

/// Section 11: what memory holds at the start.
#[tactic(auto, unfolding(crate::specs::Sections::section_at, crate::specs::Reading::framed))]
pub(crate) fn segments_section<'a>(
    alloc: Global,
    memories: &[Limits],
    bytes: &'a [u8],
) -> Result<(Row<DataSegment>, &'a [u8]), Stop>
    ensures { Gives (λ x. (x.0, x.1.now)) result (section_at 11 (segments_at memories.now) bytes.now) }
{
    let rest = customs_of(bytes)?;
    match rest {
        [11, rest @ ..] => {
            let (size, after) = u32_of(rest)?;
            match segments_of(alloc, memories, front_of(after, size)) {
                Err(stop) => Err(stop.before(behind(after, size))),
                Ok((items, left)) => {
                    let rest = closed(after, size, left)?;
                    Ok((items, rest))
                }
            }
        }
        _ => Ok((Row::new(alloc), rest)),
    }
}

/// Section 10: the code of the functions.
#[tactic(auto, unfolding(crate::specs::Sections::codes_section_at, crate::specs::Reading::framed))]
pub(crate) fn codes_section<'a>(
    alloc: Global,
    types: &[FunctionType],
    functions: &[u32],
    bytes: &'a [u8],
) -> Result<(Row<CodeEntry>, &'a [u8]), Stop>
    ensures { Gives (λ x. (x.0, x.1.now)) result (codes_section_at types.now functions.now bytes.now) }
{
    let rest = customs_of(bytes)?;
    match rest {
        [10, rest @ ..] => {
            let (size, after) = u32_of(rest)?;
            match codes_of(alloc, types, functions, front_of(after, size)) {
                Err(stop) => Err(stop.before(behind(after, size))),
                Ok((codes, left)) => {
                    let rest = closed(after, size, left)?;
                    Ok((codes, rest))
                }
            }
        }
        [8, ..] => Ok((Row::new(alloc), rest)),
        _ => no_codes(alloc, functions.len(), rest),
    }
}

/// No code section, which only a module without functions has.
fn no_codes(alloc: Global, functions: usize, rest: &[u8]) -> Result<(Row<CodeEntry>, &[u8]), Stop>
    ensures { Gives (λ x. (x.0, x.1.now)) result (without_codes functions rest.now) }
{
    if functions == 0 {
        Ok((Row::new(alloc), rest))
    } else {
        Err(Stop::at(Fault::NotModule, rest))
    }
}

/// The end of the module, behind its last section.
#[tactic(auto, unfolding(crate::specs::Sections::finish_at))]
pub(crate) fn finish_of(bytes: &[u8]) -> Result<&[u8], Stop>
    ensures { Gives (λ x. x.now) result (finish_at bytes.now) }
{
    let rest = customs_of(bytes)?;
    match rest {
        [] => Ok(rest),
        [8, ..] => Err(Stop::at(Fault::OutsideProfile(Outside::Start), rest)),
        _ => Err(Stop::at(Fault::NotModule, rest)),
    }
}
