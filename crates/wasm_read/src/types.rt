//! Types (Core 1.0, 5.3).

ghost use Rattle.std.specs.Prelude.{◌≡◌, ◌<◌, [], length, IfOk};
ghost use Rattle.wasm_read.specs.Reading.{Gives, count_at, list_at};
ghost use Rattle.wasm_read.specs.Types.{value_type_at, block_type_at, parameters_at, result_at, type_at, types_at, limits_at, max_at, table_at, memory_at, at_most_one};

use crate::fault::{Fault, Stop};
use crate::number::u32_of;
use own_tree::Row;
use std::alloc::Global;
use wasm_form::limits::{
    MOST_PAGES, MOST_PARAMETERS, MOST_TABLE, MOST_TYPES, ModuleLimit, Outside,
};
use wasm_form::{BlockType, FunctionType, Limits, ValueType};

/// A type of a value (Core 1.0, 5.3.1).
pub(crate) fn value_type_of(bytes: &[u8]) -> Result<(ValueType, &[u8]), Stop>
    ensures { Gives (λ x. (x.0, x.1.now)) result (value_type_at bytes.now) }
{
    match bytes {
        [0x7f, rest @ ..] => Ok((ValueType::I32, rest)),
        [0x7e, rest @ ..] => Ok((ValueType::I64, rest)),
        [0x7c..=0x7d, ..] => Err(Stop::at(Fault::OutsideProfile(Outside::Float), bytes)),
        _ => Err(Stop::at(Fault::NotModule, bytes)),
    }
}

/// What a block hands on (Core 1.0, 5.3.2).
pub(crate) fn block_type_of(bytes: &[u8]) -> Result<(BlockType, &[u8]), Stop>
    ensures gives { Gives (λ x. (x.0, x.1.now)) result (block_type_at bytes.now) }
    ensures shorter { IfOk result (λ x. length x.1.now < length bytes.now) }
{
    match bytes {
        [0x40, rest @ ..] => Ok((None, rest)),
        [0x7f, rest @ ..] => Ok((Some(ValueType::I32), rest)),
        [0x7e, rest @ ..] => Ok((Some(ValueType::I64), rest)),
        [0x7c..=0x7d, ..] => Err(Stop::at(Fault::OutsideProfile(Outside::Float), bytes)),
        _ => Err(Stop::at(Fault::NotModule, bytes)),
    }
}

/// The number of a list, up to `limit`.
pub(crate) fn count_of(bytes: &[u8], limit: u32, which: ModuleLimit) -> Result<(u32, &[u8]), Stop>
    ensures { Gives (λ x. (x.0, x.1.now)) result (count_at limit (Fault.Limit which) bytes.now) }
{
    let (count, rest) = u32_of(bytes)?;
    if count > limit {
        return Err(Stop::at(Fault::Limit(which), bytes));
    }
    Ok((count, rest))
}

/// The types of the parameters, of which there are so many.
fn value_types_of(alloc: Global, bytes: &[u8], count: u32) -> Result<(Row<ValueType>, &[u8]), Stop>
    ensures { Gives (λ x. (x.0, x.1.now)) result (list_at (λ _. value_type_at) [] count bytes.now) }
{
    let mut types = Vec::with_capacity(alloc, (count as usize).min(bytes.len()))?;
    let mut rest = bytes;
    for _ in 0..count {
        let (value_type, after) = value_type_of(rest)?;
        types.push(value_type)?;
        rest = after;
    }
    Ok((Row::from_vec(types), rest))
}

fn parameters_of(alloc: Global, bytes: &[u8]) -> Result<(Row<ValueType>, &[u8]), Stop>
    ensures { Gives (λ x. (x.0, x.1.now)) result (parameters_at bytes.now) }
{
    let (count, rest) = count_of(bytes, MOST_PARAMETERS, ModuleLimit::Parameters)?;
    value_types_of(alloc, rest, count)
}

/// The list of the results, of which there is at most one.
#[tactic(auto, unfolding(crate::specs::Types::result_at))]
fn handed_of(bytes: &[u8]) -> Result<(Option<ValueType>, &[u8]), Stop>
    ensures { Gives (λ x. (x.0, x.1.now)) result (result_at bytes.now) }
{
    let (count, rest) = u32_of(bytes)?;
    if count == 0 {
        return Ok((None, rest));
    }
    if count > 1 {
        return Err(Stop::at(Fault::NotModule, bytes));
    }
    let (value_type, rest) = value_type_of(rest)?;
    Ok((Some(value_type), rest))
}

/// A type of a function (Core 1.0, 5.3.3).
#[tactic(auto, unfolding(crate::specs::Types::type_at))]
fn type_of(alloc: Global, bytes: &[u8]) -> Result<(FunctionType, &[u8]), Stop>
    ensures { Gives (λ x. (x.0, x.1.now)) result (type_at bytes.now) }
{
    match bytes {
        [0x60, rest @ ..] => {
            let (parameters, rest) = parameters_of(alloc, rest)?;
            let (handed, rest) = handed_of(rest)?;
            let function_type = FunctionType {
                parameters,
                result: handed,
            };
            Ok((function_type, rest))
        }
        _ => Err(Stop::at(Fault::NotModule, bytes)),
    }
}

fn type_list_of(alloc: Global, bytes: &[u8], count: u32) -> Result<(Row<FunctionType>, &[u8]), Stop>
    ensures { Gives (λ x. (x.0, x.1.now)) result (list_at (λ _. type_at) [] count bytes.now) }
{
    let mut types = Vec::with_capacity(alloc, (count as usize).min(bytes.len()))?;
    let mut rest = bytes;
    for _ in 0..count {
        let (function_type, after) = type_of(alloc, rest)?;
        types.push(function_type)?;
        rest = after;
    }
    Ok((Row::from_vec(types), rest))
}

/// The content of section 1.
#[tactic(auto, unfolding(crate::specs::Types::types_at))]
pub(crate) fn types_of(alloc: Global, bytes: &[u8]) -> Result<(Row<FunctionType>, &[u8]), Stop>
    ensures { Gives (λ x. (x.0, x.1.now)) result (types_at bytes.now) }
{
    let (count, rest) = count_of(bytes, MOST_TYPES, ModuleLimit::Types)?;
    type_list_of(alloc, rest, count)
}

/// A least size up to `most`, and maybe a largest one (Core 1.0, 5.3.4).
#[tactic(auto, unfolding(crate::specs::Types::limits_at))]
fn limits_of(bytes: &[u8], most: u32, which: ModuleLimit) -> Result<(Limits, &[u8]), Stop>
    ensures { Gives (λ x. (x.0, x.1.now)) result (limits_at most (Fault.Limit which) bytes.now) }
{
    match bytes {
        [0x00, rest @ ..] => {
            let (min, rest) = count_of(rest, most, which)?;
            Ok((Limits { min, max: None }, rest))
        }
        [0x01, rest @ ..] => {
            let (min, rest) = count_of(rest, most, which)?;
            max_of(rest, min)
        }
        _ => Err(Stop::at(Fault::NotModule, bytes)),
    }
}

/// The largest size, which is not below the least.
fn max_of(bytes: &[u8], min: u32) -> Result<(Limits, &[u8]), Stop>
    ensures { Gives (λ x. (x.0, x.1.now)) result (max_at min bytes.now) }
{
    let (max, rest) = u32_of(bytes)?;
    if max < min {
        return Err(Stop::at(Fault::NotModule, bytes));
    }
    Ok((
        Limits {
            min,
            max: Some(max),
        },
        rest,
    ))
}

/// A table, which is of functions (Core 1.0, 5.3.7).
#[tactic(auto, unfolding(crate::specs::Types::table_at))]
fn table_of(bytes: &[u8]) -> Result<(Limits, &[u8]), Stop>
    ensures { Gives (λ x. (x.0, x.1.now)) result (table_at bytes.now) }
{
    match bytes {
        [0x70, rest @ ..] => limits_of(rest, MOST_TABLE, ModuleLimit::Table),
        _ => Err(Stop::at(Fault::NotModule, bytes)),
    }
}

/// The content of section 4, of at most one table.
#[tactic(auto, unfolding(crate::specs::Types::at_most_one))]
pub(crate) fn tables_of(alloc: Global, bytes: &[u8]) -> Result<(Row<Limits>, &[u8]), Stop>
    ensures { Gives (λ x. (x.0, x.1.now)) result (at_most_one table_at bytes.now) }
{
    let (count, rest) = u32_of(bytes)?;
    let mut tables = Row::new(alloc);
    if count == 0 {
        return Ok((tables, rest));
    }
    if count > 1 {
        return Err(Stop::at(Fault::NotModule, bytes));
    }
    let (table, rest) = table_of(rest)?;
    tables.push(table)?;
    Ok((tables, rest))
}

/// The content of section 5, of at most one memory (Core 1.0, 5.3.5).
#[tactic(auto, unfolding(crate::specs::Types::at_most_one))]
pub(crate) fn memories_of(alloc: Global, bytes: &[u8]) -> Result<(Row<Limits>, &[u8]), Stop>
    ensures { Gives (λ x. (x.0, x.1.now)) result (at_most_one memory_at bytes.now) }
{
    let (count, rest) = u32_of(bytes)?;
    let mut memories = Row::new(alloc);
    if count == 0 {
        return Ok((memories, rest));
    }
    if count > 1 {
        return Err(Stop::at(Fault::NotModule, bytes));
    }
    let (memory, rest) = limits_of(rest, MOST_PAGES, ModuleLimit::Pages)?;
    memories.push(memory)?;
    Ok((memories, rest))
}
