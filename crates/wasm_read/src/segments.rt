//! Segments and code entries (Core 1.0, 5.5.12 to 5.5.14).

ghost use Rattle.std.specs.Prelude.{◌≡◌, [], ◌+◌, ◌≤◌, nat_lt, slice_get, IfOk};
ghost use Rattle.wasm_read.specs.Reading.{Gives, list_at};
ghost use Rattle.wasm_read.specs.Entries.{least_of, span_at, element_at, elements_at, bytes_at, segment_at, segments_at, group_at, group_behind, groups_at, content_at, parameters_of, parameter_count, code_entry_at, codes_at};

use crate::code::body_of;
use crate::fault::{Fault, Stop};
use crate::globals::{index_list_of, offset_of};
use crate::input::{behind, closed, front_of, index_of};
use crate::number::u32_of;
use crate::types::value_type_of;
use own_tree::{Bytes, Row};
use std::alloc::Global;
use wasm_form::limits::{MOST_LOCALS, ModuleLimit, PAGE};
use wasm_form::{CodeEntry, DataSegment, ElementSegment, FunctionType, Limits, LocalGroup};

/// The least size of a table or a memory, if there is one.
fn least(limits: &[Limits]) -> u32
    ensures { result ≡ least_of limits.now }
{
    match limits {
        [] => 0,
        [first, ..] => first.min,
    }
}

/// A number that stays within the size behind this offset.
fn span_of(size: u64, offset: u32, bytes: &[u8]) -> Result<(u32, &[u8]), Stop>
    ensures { Gives (λ x. (x.0, x.1.now)) result (span_at size offset bytes.now) }
{
    let (count, rest) = u32_of(bytes)?;
    if u64::from(offset) + u64::from(count) > size {
        return Err(Stop::at(Fault::NotModule, bytes));
    }
    Ok((count, rest))
}

#[tactic(auto, unfolding(crate::specs::Entries::element_at))]
fn element_of<'a>(
    alloc: Global,
    tables: &[Limits],
    functions: usize,
    bytes: &'a [u8],
) -> Result<(ElementSegment, &'a [u8]), Stop>
    ensures { Gives (λ x. (x.0, x.1.now)) result (element_at tables.now functions bytes.now) }
{
    let (_, rest) = index_of(bytes, tables.len())?;
    let (offset, rest) = offset_of(rest)?;
    let (count, rest) = span_of(u64::from(least(tables)), offset, rest)?;
    let (functions, rest) = index_list_of(alloc, functions, rest, count)?;
    Ok((ElementSegment { offset, functions }, rest))
}

fn element_list_of<'a>(
    alloc: Global,
    tables: &[Limits],
    functions: usize,
    bytes: &'a [u8],
    count: u32,
) -> Result<(Row<ElementSegment>, &'a [u8]), Stop>
    ensures { Gives (λ x. (x.0, x.1.now)) result (list_at (λ _. element_at tables.now functions) [] count bytes.now) }
{
    let mut elements = Vec::with_capacity(alloc, (count as usize).min(bytes.len()))?;
    let mut rest = bytes;
    for _ in 0..count {
        let (element, after) = element_of(alloc, tables, functions, rest)?;
        elements.push(element)?;
        rest = after;
    }
    Ok((Row::from_vec(elements), rest))
}

/// The content of section 9.
#[tactic(auto, unfolding(crate::specs::Entries::elements_at))]
pub(crate) fn elements_of<'a>(
    alloc: Global,
    tables: &[Limits],
    functions: usize,
    bytes: &'a [u8],
) -> Result<(Row<ElementSegment>, &'a [u8]), Stop>
    ensures { Gives (λ x. (x.0, x.1.now)) result (elements_at tables.now functions bytes.now) }
{
    let (count, rest) = u32_of(bytes)?;
    element_list_of(alloc, tables, functions, rest, count)
}

/// So many bytes.
fn bytes_of(alloc: Global, bytes: &[u8], size: u32) -> Result<(Bytes, &[u8]), Stop>
    ensures { Gives (λ x. (x.0, x.1.now)) result (bytes_at size bytes.now) }
{
    let size = size as usize;
    if bytes.len() < size {
        return Err(Stop::at(Fault::NotModule, &[]));
    }
    let (front, rest) = bytes.split_at(size);
    Ok((Bytes::from_slice(alloc, front)?, rest))
}

#[tactic(auto, unfolding(crate::specs::Entries::segment_at))]
fn segment_of<'a>(
    alloc: Global,
    memories: &[Limits],
    bytes: &'a [u8],
) -> Result<(DataSegment, &'a [u8]), Stop>
    ensures { Gives (λ x. (x.0, x.1.now)) result (segment_at memories.now bytes.now) }
{
    let (_, rest) = index_of(bytes, memories.len())?;
    let (offset, rest) = offset_of(rest)?;
    let size = u64::from(least(memories)) * u64::from(PAGE);
    let (count, rest) = span_of(size, offset, rest)?;
    let (bytes, rest) = bytes_of(alloc, rest, count)?;
    Ok((DataSegment { offset, bytes }, rest))
}

fn segment_list_of<'a>(
    alloc: Global,
    memories: &[Limits],
    bytes: &'a [u8],
    count: u32,
) -> Result<(Row<DataSegment>, &'a [u8]), Stop>
    ensures { Gives (λ x. (x.0, x.1.now)) result (list_at (λ _. segment_at memories.now) [] count bytes.now) }
{
    let mut segments = Vec::with_capacity(alloc, (count as usize).min(bytes.len()))?;
    let mut rest = bytes;
    for _ in 0..count {
        let (segment, after) = segment_of(alloc, memories, rest)?;
        segments.push(segment)?;
        rest = after;
    }
    Ok((Row::from_vec(segments), rest))
}

/// The content of section 11.
#[tactic(auto, unfolding(crate::specs::Entries::segments_at))]
pub(crate) fn segments_of<'a>(
    alloc: Global,
    memories: &[Limits],
    bytes: &'a [u8],
) -> Result<(Row<DataSegment>, &'a [u8]), Stop>
    ensures { Gives (λ x. (x.0, x.1.now)) result (segments_at memories.now bytes.now) }
{
    let (count, rest) = u32_of(bytes)?;
    segment_list_of(alloc, memories, rest, count)
}

/// Whether so many more locals pass the limit.
fn is_past(total: usize, count: u32) -> bool
    ensures { result ≡ nat_lt MOST_LOCALS (total + count) }
{
    let most = MOST_LOCALS as usize;
    if total > most {
        return true;
    }
    count as usize > most - total
}

/// A group of locals, behind so many.
#[tactic(auto, unfolding(crate::specs::Entries::group_at))]
fn group_of(total: usize, bytes: &[u8]) -> Result<(LocalGroup, &[u8]), Stop>
    ensures gives { Gives (λ x. (x.0, x.1.now)) result (group_at total bytes.now) }
    ensures few { IfOk result (λ x. total + x.0.count ≤ MOST_LOCALS) }
{
    let (count, rest) = u32_of(bytes)?;
    if is_past(total, count) {
        return Err(Stop::at(Fault::Limit(ModuleLimit::Locals), bytes));
    }
    let (value_type, rest) = value_type_of(rest)?;
    Ok((LocalGroup { count, value_type }, rest))
}

/// So many groups of locals of a function with so many parameters.
fn group_list_of(
    alloc: Global,
    parameters: usize,
    bytes: &[u8],
    count: u32,
) -> Result<(Row<LocalGroup>, &[u8]), Stop>
    ensures { Gives (λ x. (x.0, x.1.now)) result (list_at (group_behind parameters) [] count bytes.now) }
{
    let mut groups = Vec::with_capacity(alloc, (count as usize).min(bytes.len()))?;
    let mut total = parameters;
    let mut rest = bytes;
    for _ in 0..count {
        let (group, after) = group_of(total, rest)?;
        total += group.count as usize;
        groups.push(group)?;
        rest = after;
    }
    Ok((Row::from_vec(groups), rest))
}

#[tactic(auto, unfolding(crate::specs::Entries::groups_at))]
fn groups_of(
    alloc: Global,
    parameters: usize,
    bytes: &[u8],
) -> Result<(Row<LocalGroup>, &[u8]), Stop>
    ensures { Gives (λ x. (x.0, x.1.now)) result (groups_at parameters bytes.now) }
{
    let (count, rest) = u32_of(bytes)?;
    group_list_of(alloc, parameters, rest, count)
}

/// The locals and the instructions of a function with so many parameters.
#[tactic(auto, unfolding(crate::specs::Entries::content_at))]
fn content_of(alloc: Global, parameters: usize, bytes: &[u8]) -> Result<(CodeEntry, &[u8]), Stop>
    ensures { Gives (λ x. (x.0, x.1.now)) result (content_at parameters bytes.now) }
{
    let (locals, rest) = groups_of(alloc, parameters, bytes)?;
    let (body, rest) = body_of(alloc, rest)?;
    Ok((CodeEntry { locals, body }, rest))
}

/// How many parameters the defined function of this number has.
fn parameters_of_function(types: &[FunctionType], functions: &[u32], number: usize) -> usize
    ensures { result ≡ parameters_of types.now functions.now number }
{
    match functions.get(number) {
        None => 0,
        Some(index) => parameters_of_type(types, *index),
    }
}

fn parameters_of_type(types: &[FunctionType], index: u32) -> usize
    ensures { result ≡ parameter_count (slice_get types.now index) }
{
    match types.get(index as usize) {
        None => 0,
        Some(function_type) => function_type.parameters.len(),
    }
}

/// The code of a function, behind the codes of those before it.
#[tactic(auto, unfolding(crate::specs::Entries::code_entry_at, crate::specs::Reading::framed))]
fn code_entry_of<'a>(
    alloc: Global,
    types: &[FunctionType],
    functions: &[u32],
    before: &[CodeEntry],
    bytes: &'a [u8],
) -> Result<(CodeEntry, &'a [u8]), Stop>
    ensures { Gives (λ x. (x.0, x.1.now)) result (code_entry_at types.now functions.now before.now bytes.now) }
{
    let parameters = parameters_of_function(types, functions, before.len());
    let (size, after) = u32_of(bytes)?;
    match content_of(alloc, parameters, front_of(after, size)) {
        Err(stop) => Err(stop.before(behind(after, size))),
        Ok((code, left)) => {
            let rest = closed(after, size, left)?;
            Ok((code, rest))
        }
    }
}

fn code_list_of<'a>(
    alloc: Global,
    types: &[FunctionType],
    functions: &[u32],
    bytes: &'a [u8],
    count: u32,
) -> Result<(Row<CodeEntry>, &'a [u8]), Stop>
    ensures { Gives (λ x. (x.0, x.1.now)) result (list_at (code_entry_at types.now functions.now) [] count bytes.now) }
{
    let mut codes = Vec::with_capacity(alloc, (count as usize).min(bytes.len()))?;
    let mut rest = bytes;
    for _ in 0..count {
        let (code, after) = code_entry_of(alloc, types, functions, codes.as_slice(), rest)?;
        codes.push(code)?;
        rest = after;
    }
    Ok((Row::from_vec(codes), rest))
}

/// The content of section 10, of as many entries as there are functions.
#[tactic(auto, unfolding(crate::specs::Entries::codes_at))]
pub(crate) fn codes_of<'a>(
    alloc: Global,
    types: &[FunctionType],
    functions: &[u32],
    bytes: &'a [u8],
) -> Result<(Row<CodeEntry>, &'a [u8]), Stop>
    ensures { Gives (λ x. (x.0, x.1.now)) result (codes_at types.now functions.now bytes.now) }
{
    let (count, rest) = u32_of(bytes)?;
    if count as usize != functions.len() {
        return Err(Stop::at(Fault::NotModule, bytes));
    }
    code_list_of(alloc, types, functions, rest, count)
}
