ghost use Rattle.std.specs.Prelude.{◌≡◌, ◌++◌, ◌+◌, ◌<◌, ◌≤◌, ◌^◌, length, take, drop, IfSome};
ghost use Rattle.std.specs.Int.{w8, w16, w32, w64};
ghost use Rattle.wasm_form.specs.Steps.{operands, address, number_at, stored, memory_size, memory_grow, first_limits};
ghost use Rattle.wasm_run.specs.Views.{Took, Shows};

use crate::state::{MOST_VALUES, State, Went};
use wasm_form::traps::PAST_MEMORY;
use wasm_form::{Limits, Module, Value};

/// The first of at most one.
pub(crate) fn first_of(limits: &[Limits]) -> Option<Limits>
    ensures { result ≡ first_limits limits.now }
{
    match limits {
        [] => None,
        [first, ..] => Some(*first),
    }
}

impl<'m> State<'m> {
    /// Where an access begins.
    #[tactic(auto, unfolding(wasm_form::specs::Steps::address))]
    pub(crate) fn address(&mut self, module: &Module, offset: u32) -> Option<usize>
        ensures took { Took result self.new (address «module».now offset self.old) }
        ensures room { IfSome result (λ _. operands self.new < MOST_VALUES) }
        ensures within { IfSome result (λ at. at < 2 ^ 33) }
    {
        let _ = first_of(module.memories.as_slice())?;
        let base = self.pop32()?;
        Some(base as usize + offset as usize)
    }

    #[tactic(auto, unfolding(wasm_form::specs::Steps::stored))]
    pub(crate) fn store8(&mut self, at: usize, bits: u64) -> Went
        requires { at < 2 ^ 33 }
        ensures { Shows result self.new (stored w8 at bits self.old) }
    {
        if at + 1 > self.memory.len() {
            return Went::Trapped(PAST_MEMORY, 0);
        }
        overwrite(&mut self.memory, at, &[(bits % 256) as u8]);
        Went::On
    }

    #[tactic(auto, unfolding(wasm_form::specs::Steps::stored))]
    pub(crate) fn store16(&mut self, at: usize, bits: u64) -> Went
        requires { at < 2 ^ 33 }
        ensures { Shows result self.new (stored w16 at bits self.old) }
    {
        if at + 2 > self.memory.len() {
            return Went::Trapped(PAST_MEMORY, 0);
        }
        overwrite(
            &mut self.memory,
            at,
            &((bits % 65_536) as u16).to_le_bytes(),
        );
        Went::On
    }

    #[tactic(auto, unfolding(wasm_form::specs::Steps::stored))]
    pub(crate) fn store32(&mut self, at: usize, bits: u64) -> Went
        requires { at < 2 ^ 33 }
        ensures { Shows result self.new (stored w32 at bits self.old) }
    {
        if at + 4 > self.memory.len() {
            return Went::Trapped(PAST_MEMORY, 0);
        }
        overwrite(
            &mut self.memory,
            at,
            &((bits % 4_294_967_296) as u32).to_le_bytes(),
        );
        Went::On
    }

    #[tactic(auto, unfolding(wasm_form::specs::Steps::stored))]
    pub(crate) fn store64(&mut self, at: usize, bits: u64) -> Went
        requires { at < 2 ^ 33 }
        ensures { Shows result self.new (stored w64 at bits self.old) }
    {
        if at + 8 > self.memory.len() {
            return Went::Trapped(PAST_MEMORY, 0);
        }
        overwrite(&mut self.memory, at, &bits.to_le_bytes());
        Went::On
    }

    #[tactic(auto, unfolding(wasm_form::specs::Steps::memory_size))]
    pub(crate) fn memory_size(&mut self, module: &Module) -> Went
        ensures { Shows result self.new (memory_size «module».now self.old) }
    {
        match first_of(module.memories.as_slice()) {
            Some(size) => self.push(Value::I32(size.min)),
            None => Went::Stuck,
        }
    }

    #[tactic(auto, unfolding(wasm_form::specs::Steps::memory_grow))]
    pub(crate) fn memory_grow(&mut self, module: &Module) -> Went
        ensures { Shows result self.new (memory_grow «module».now self.old) }
    {
        let Some(size) = first_of(module.memories.as_slice()) else {
            return Went::Stuck;
        };
        let Some(pages) = self.pop32() else {
            return Went::Stuck;
        };
        if pages == 0 {
            self.give(Value::I32(size.min))
        } else {
            self.give(Value::I32(u32::MAX))
        }
    }
}

pub(crate) fn read8(memory: &[u8], at: usize) -> Option<u8>
    requires { at < 2 ^ 33 }
    ensures { result ≡ number_at w8 memory.now at }
{
    if at + 1 > memory.len() {
        return None;
    }
    let part = &memory[at..at + 1];
    Some(part[0])
}

pub(crate) fn read16(memory: &[u8], at: usize) -> Option<u16>
    requires { at < 2 ^ 33 }
    ensures { result ≡ number_at w16 memory.now at }
{
    if at + 2 > memory.len() {
        return None;
    }
    let part = &memory[at..at + 2];
    Some(u16::from_le_bytes([part[0], part[1]]))
}

pub(crate) fn read32(memory: &[u8], at: usize) -> Option<u32>
    requires { at < 2 ^ 33 }
    ensures { result ≡ number_at w32 memory.now at }
{
    if at + 4 > memory.len() {
        return None;
    }
    let part = &memory[at..at + 4];
    Some(u32::from_le_bytes([part[0], part[1], part[2], part[3]]))
}

pub(crate) fn read64(memory: &[u8], at: usize) -> Option<u64>
    requires { at < 2 ^ 33 }
    ensures { result ≡ number_at w64 memory.now at }
{
    if at + 8 > memory.len() {
        return None;
    }
    let part = &memory[at..at + 8];
    Some(u64::from_le_bytes([
        part[0], part[1], part[2], part[3], part[4], part[5], part[6], part[7],
    ]))
}

/// Writes the bytes in place of those at a place on.
pub(crate) fn overwrite(memory: &mut [u8], at: usize, bytes: &[u8])
    requires { at + length bytes.now ≤ length memory.old }
    ensures { memory.new ≡ take at memory.old ++ bytes.now ++ drop (at + length bytes.now) memory.old }
{
    memory[at..at + bytes.len()].copy_from_slice(bytes);
}
