//! Lists of instructions (Core 1.0, 5.4.1 and 5.4.6).

ghost use Rattle.std.specs.Prelude.{◌≡◌, ◌+◌, ◌<◌, ◌≤◌, length, IfOk};
ghost use Rattle.wasm_read.specs.Reading.{Gives};
ghost use Rattle.wasm_read.specs.Codes.{plain_by, nested_with, sides_with, instr_with, second_with, code_all, body_at, stops_at};

use crate::fault::{Fault, Stop};
use crate::input::end_of;
use crate::plain::plain;
use crate::types::block_type_of;
use sqlite_items::{Boxed, Items};
use std::alloc::Global;
use wasm_form::limits::{MOST_LABELS, ModuleLimit};
use wasm_form::{BlockType, Instr};

/// One instruction, within so many labels.
#[cycle(code)]
#[tactic(auto, unfolding(crate::specs::Codes::instr_with))]
fn instr_of(alloc: Global, bytes: &[u8], labels: u32) -> Result<(Instr, &[u8]), Stop>
    requires { labels ≤ MOST_LABELS }
    ensures gives { Gives (λ x. (x.0, x.1.now)) result (instr_with code_all labels bytes.now) }
    ensures shorter { IfOk result (λ x. length x.1.now < length bytes.now) }
{
    match bytes {
        [] => Err(Stop::at(Fault::NotModule, bytes)),
        [0x02, rest @ ..] => {
            let ((handed, body), rest) = nested_of(alloc, rest, labels, bytes)?;
            Ok((Instr::Block(handed, body), rest))
        }
        [0x03, rest @ ..] => {
            let ((handed, body), rest) = nested_of(alloc, rest, labels, bytes)?;
            Ok((Instr::Loop(handed, body), rest))
        }
        [0x04, rest @ ..] => {
            let ((handed, first, second), rest) = sides_of(alloc, rest, labels, bytes)?;
            let first = Boxed::new(alloc, first)?;
            let second = Boxed::new(alloc, second)?;
            Ok((Instr::If(handed, first, second), rest))
        }
        [opcode, rest @ ..] => plain_of(alloc, *opcode, rest, bytes),
    }
}

/// A block or a loop behind its opcode, which stands at `start`: what it hands on, and its list.
#[cycle(code)]
#[tactic(auto, unfolding(crate::specs::Codes::nested_with))]
fn nested_of<'a>(
    alloc: Global,
    bytes: &'a [u8],
    labels: u32,
    start: &[u8],
) -> Result<((BlockType, Items<Instr>), &'a [u8]), Stop>
    requires { labels ≤ MOST_LABELS }
    ensures gives { Gives (λ x. (x.0, x.1.now)) result (nested_with code_all labels bytes.now) }
    ensures shorter { IfOk result (λ x. length x.1.now < length bytes.now) }
{
    if labels == MOST_LABELS {
        return Err(Stop::at(Fault::Limit(ModuleLimit::Labels), start));
    }
    let (handed, rest) = block_type_of(bytes)?;
    let (body, rest) = code_of(alloc, rest, labels + 1)?;
    let rest = end_of(rest)?;
    Ok(((handed, body), rest))
}

/// An if behind its opcode, which stands at `start`: what it hands on, and its two sides.
#[cycle(code)]
#[tactic(auto, unfolding(crate::specs::Codes::sides_with))]
fn sides_of<'a>(
    alloc: Global,
    bytes: &'a [u8],
    labels: u32,
    start: &[u8],
) -> Result<((BlockType, Items<Instr>, Items<Instr>), &'a [u8]), Stop>
    requires { labels ≤ MOST_LABELS }
    ensures gives { Gives (λ x. (x.0, x.1.now)) result (sides_with code_all labels bytes.now) }
    ensures shorter { IfOk result (λ x. length x.1.now < length bytes.now) }
{
    if labels == MOST_LABELS {
        return Err(Stop::at(Fault::Limit(ModuleLimit::Labels), start));
    }
    let (handed, rest) = block_type_of(bytes)?;
    let (first, rest) = code_of(alloc, rest, labels + 1)?;
    let (second, rest) = second_of(alloc, rest, labels + 1)?;
    Ok(((handed, first, second), rest))
}

/// An instruction that holds no others, behind its opcode, which stands at `start`.
fn plain_of<'a>(
    alloc: Global,
    opcode: u8,
    rest: &'a [u8],
    start: &[u8],
) -> Result<(Instr, &'a [u8]), Stop>
    ensures gives { Gives (λ x. (x.0, x.1.now)) result (plain_by opcode rest.now) }
    ensures within { IfOk result (λ x. length x.1.now < length rest.now + 1) }
{
    plain(alloc, opcode, rest, start)
}

/// The second side of an if, with its end, or the end alone.
#[cycle(code)]
#[tactic(auto, unfolding(crate::specs::Codes::second_with))]
fn second_of(alloc: Global, bytes: &[u8], labels: u32) -> Result<(Items<Instr>, &[u8]), Stop>
    requires { labels ≤ MOST_LABELS }
    ensures gives { Gives (λ x. (x.0, x.1.now)) result (second_with code_all labels bytes.now) }
    ensures shorter { IfOk result (λ x. length x.1.now < length bytes.now) }
{
    match bytes {
        [0x05, rest @ ..] => {
            let (code, rest) = code_of(alloc, rest, labels)?;
            let rest = end_of(rest)?;
            Ok((code, rest))
        }
        _ => {
            let rest = end_of(bytes)?;
            Ok((Items::new(alloc), rest))
        }
    }
}

/// The instructions up to an end or an else, which is left.
#[cycle(code)]
fn code_of(alloc: Global, bytes: &[u8], labels: u32) -> Result<(Items<Instr>, &[u8]), Stop>
    requires { labels ≤ MOST_LABELS }
    ensures gives { Gives (λ x. (x.0, x.1.now)) result (code_all labels bytes.now) }
    ensures within { IfOk result (λ x. length x.1.now ≤ length bytes.now) }
{
    let mut code = Items::new(alloc);
    let mut rest = bytes;
    while !stops(rest) {
        let (instr, after) = instr_of(alloc, rest, labels)?;
        code.push(instr)?;
        rest = after;
    }
    Ok((code, rest))
}

/// Whether an end or an else comes next.
fn stops(bytes: &[u8]) -> bool
    ensures { result ≡ stops_at bytes.now }
{
    matches!(bytes, [0x0b, ..] | [0x05, ..])
}

/// The instructions of a function, up to their end.
#[tactic(auto, unfolding(crate::specs::Codes::body_at))]
pub(crate) fn body_of(alloc: Global, bytes: &[u8]) -> Result<(Items<Instr>, &[u8]), Stop>
    ensures { Gives (λ x. (x.0, x.1.now)) result (body_at bytes.now) }
{
    let (code, rest) = code_of(alloc, bytes, 0)?;
    let rest = end_of(rest)?;
    Ok((code, rest))
}
