ghost use Rattle.std.specs.Prelude.{◌≡◌, ◌<◌, length, get_or, if◌then◌else◌, ◌==◌};
ghost use Rattle.wasm_form.specs.Steps.{entered, act_control, act_variable, act_load, act_store, act, step};
ghost use Rattle.wasm_form.specs.Within.{IsWithin};
ghost use Rattle.wasm_form.specs.declared.instr.Instr.{out-Instr};
ghost use Rattle.wasm_run.specs.Views.{Shows, ShowsIf};

use crate::state::memory::{read8, read16, read32, read64};
use crate::state::{MOST_LAYERS, State, Went};
use wasm_form::traps::{PAST_MEMORY, UNREACHABLE};
use wasm_form::{Instr, Module, Value, ValueType};

/// Reads a number at an address and gives what is made of it.
macro_rules! of_load {
    ($state:expr, $module:expr, $access:expr, $read:ident, $number:ident => $value:expr) => {
        match $state.address($module, $access.offset) {
            Some(at) => match $read(&$state.memory, at) {
                Some($number) => $state.give($value),
                None => Went::Trapped(PAST_MEMORY, 0),
            },
            None => Went::Stuck,
        }
    };
}

/// Takes a number and writes it at an address.
macro_rules! of_store {
    ($state:expr, $module:expr, $access:expr, $take:ident, $write:ident) => {
        match $state.$take() {
            Some(bits) => match $state.address($module, $access.offset) {
                Some(at) => $state.$write(at, bits as u64),
                None => Went::Stuck,
            },
            None => Went::Stuck,
        }
    };
}

impl<'m> State<'m> {
    /// Enters the side of an if that is chosen.
    fn enter_side(
        &mut self,
        number: u32,
        handed: Option<ValueType>,
        first: &'m [Instr],
        second: &'m [Instr],
    )
        requires { length self.old.layers < MOST_LAYERS }
        ensures { self.new ≡ entered handed self.old.code (if number == 0 then second.now else first.now) self.old }
    {
        let after = self.code();
        if number == 0 {
            self.enter(handed, after, second);
        } else {
            self.enter(handed, after, first);
        }
    }

    fn act_control(
        &mut self,
        module: &'m Module,
        instr: &'m Instr,
        here: &'m [Instr],
    ) -> Option<Went>
        requires within { IsWithin «module».now }
        requires layers { length self.old.layers < MOST_LAYERS }
        ensures { ShowsIf result self.old self.new (act_control «module».now (out-Instr instr.now) here.now self.old) }
    {
        Some(match instr {
            Instr::Unreachable => Went::Trapped(UNREACHABLE, 0),
            Instr::Nop => Went::On,
            Instr::Block(handed, body) => {
                let after = self.code();
                self.enter(*handed, after, body.as_slice());
                Went::On
            }
            Instr::Loop(_, body) => {
                self.enter(None, here, body.as_slice());
                Went::On
            }
            Instr::If(handed, first, second) => match self.pop32() {
                Some(number) => {
                    self.enter_side(
                        number,
                        *handed,
                        first.get().as_slice(),
                        second.get().as_slice(),
                    );
                    Went::On
                }
                None => Went::Stuck,
            },
            Instr::Br(label) => self.branch(Some(*label)),
            Instr::BrIf(label) => match self.pop32() {
                Some(0) => Went::On,
                Some(_) => self.branch(Some(*label)),
                None => Went::Stuck,
            },
            Instr::BrTable(labels, default) => match self.pop32() {
                Some(number) => self.branch(Some(chosen(
                    labels.get().as_slice(),
                    *default,
                    number,
                ))),
                None => Went::Stuck,
            },
            Instr::Return => self.branch(None),
            Instr::Call(function) => self.call(module, *function),
            Instr::CallIndirect(type_index) => self.call_indirect(module, *type_index),
            _ => return None,
        })
    }

    fn act_variable(&mut self, module: &Module, instr: &Instr) -> Option<Went>
        ensures { ShowsIf result self.old self.new (act_variable «module».now (out-Instr instr.now) self.old) }
    {
        Some(match instr {
            Instr::Drop => match self.pop() {
                Some(_) => Went::On,
                None => Went::Stuck,
            },
            Instr::Select => self.select(),
            Instr::LocalGet(index) => self.local_get(*index),
            Instr::LocalSet(index) => self.local_set(*index),
            Instr::LocalTee(index) => self.local_tee(*index),
            Instr::GlobalGet(index) => self.global_get(*index),
            Instr::GlobalSet(index) => self.global_set(module, *index),
            Instr::I32Const(bits) => self.push(Value::I32(*bits)),
            Instr::I64Const(bits) => self.push(Value::I64(*bits)),
            _ => return None,
        })
    }

    fn act_load(&mut self, module: &Module, instr: &Instr) -> Option<Went>
        ensures { ShowsIf result self.old self.new (act_load «module».now (out-Instr instr.now) self.old) }
    {
        Some(match instr {
            Instr::I32Load(a) => of_load!(self, module, a, read32, n => Value::I32(n)),
            Instr::I64Load(a) => of_load!(self, module, a, read64, n => Value::I64(n)),
            Instr::I32Load8S(a) =>
                of_load!(self, module, a, read8, n => Value::I32((n.cast_signed() as i32).cast_unsigned())),
            Instr::I32Load8U(a) => of_load!(self, module, a, read8, n => Value::I32(n as u32)),
            Instr::I32Load16S(a) =>
                of_load!(self, module, a, read16, n => Value::I32((n.cast_signed() as i32).cast_unsigned())),
            Instr::I32Load16U(a) => of_load!(self, module, a, read16, n => Value::I32(n as u32)),
            Instr::I64Load8S(a) =>
                of_load!(self, module, a, read8, n => Value::I64((n.cast_signed() as i64).cast_unsigned())),
            Instr::I64Load8U(a) => of_load!(self, module, a, read8, n => Value::I64(n as u64)),
            Instr::I64Load16S(a) =>
                of_load!(self, module, a, read16, n => Value::I64((n.cast_signed() as i64).cast_unsigned())),
            Instr::I64Load16U(a) => of_load!(self, module, a, read16, n => Value::I64(n as u64)),
            Instr::I64Load32S(a) =>
                of_load!(self, module, a, read32, n => Value::I64((n.cast_signed() as i64).cast_unsigned())),
            Instr::I64Load32U(a) => of_load!(self, module, a, read32, n => Value::I64(n as u64)),
            _ => return None,
        })
    }

    fn act_store(&mut self, module: &Module, instr: &Instr) -> Option<Went>
        ensures { ShowsIf result self.old self.new (act_store «module».now (out-Instr instr.now) self.old) }
    {
        Some(match instr {
            Instr::I32Store(a) => of_store!(self, module, a, pop32, store32),
            Instr::I64Store(a) => of_store!(self, module, a, pop64, store64),
            Instr::I32Store8(a) => of_store!(self, module, a, pop32, store8),
            Instr::I32Store16(a) => of_store!(self, module, a, pop32, store16),
            Instr::I64Store8(a) => of_store!(self, module, a, pop64, store8),
            Instr::I64Store16(a) => of_store!(self, module, a, pop64, store16),
            Instr::I64Store32(a) => of_store!(self, module, a, pop64, store32),
            Instr::MemorySize => self.memory_size(module),
            Instr::MemoryGrow => self.memory_grow(module),
            _ => return None,
        })
    }

    /// One instruction, where `here` are the instructions from it on.
    fn act(&mut self, module: &'m Module, instr: &'m Instr, here: &'m [Instr]) -> Went
        requires within { IsWithin «module».now }
        requires layers { length self.old.layers < MOST_LAYERS }
        ensures { Shows result self.new (act «module».now (out-Instr instr.now) here.now self.old) }
    {
        if let Some(went) = self.act_control(module, instr, here) {
            return went;
        }
        if let Some(went) = self.act_variable(module, instr) {
            return went;
        }
        if let Some(went) = self.act_load(module, instr) {
            return went;
        }
        if let Some(went) = self.act_store(module, instr) {
            return went;
        }
        if let Some(went) = self.act_test32(instr) {
            return went;
        }
        if let Some(went) = self.act_test64(instr) {
            return went;
        }
        if let Some(went) = self.act_arithmetic32(instr) {
            return went;
        }
        if let Some(went) = self.act_arithmetic64(instr) {
            return went;
        }
        Went::Stuck
    }

    /// One step.
    #[tactic(auto, unfolding(wasm_form::specs::Steps::step))]
    pub(crate) fn step(&mut self, module: &'m Module) -> Went
        requires within { IsWithin «module».now }
        requires layers { length self.old.layers < MOST_LAYERS }
        ensures { Shows result self.new (step «module».now self.old) }
    {
        match self.fetch() {
            None => self.leave(),
            Some((instr, here)) => self.act(module, instr, here),
        }
    }
}

/// The label that a table names.
fn chosen(labels: &[u32], default: u32, number: u32) -> u32
    ensures { result ≡ get_or labels.now number default }
{
    let at = number as usize;
    if at < labels.len() {
        labels[at]
    } else {
        default
    }
}
