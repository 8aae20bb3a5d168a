ghost use Rattle.std.specs.Prelude.{◌≡◌, ◌++◌, ◌+◌, ◌-◌, ◌^◌, ◌<◌, ◌≤◌, length, take, drop, reverse, replicate, slice_get, IsTrue};
ghost use Rattle.std.specs.Option.{option_copied};
ghost use Rattle.std.specs.Vec.{vec_capacity, vec_len};
ghost use Rattle.wasm_form.specs.Steps.{host, read_in, written_text, typed, zeros, zero_of, called, defined_type, call_defined, call};
ghost use Rattle.wasm_form.specs.Within.{IsWithin, FunctionIsWithin, count_locals};
ghost use Rattle.wasm_run.specs.Views.{Shows};

use crate::state::{Layer, MOST_LAYERS, State, Went, Written, is_of};
use wasm_form::limits::MOST_FRAMES;
use wasm_form::traps::{PAST_MEMORY, TOO_MANY_FRAMES};
use wasm_form::{CodeEntry, FunctionType, HostCall, LocalGroup, Module, Value, ValueType};

impl<'m> State<'m> {
    /// The next number of the input, or 0 past its end.
    fn read(&mut self) -> Went
        ensures { Shows result self.new (read_in self.old.input self.old) }
    {
        match self.input {
            [] => self.push(Value::I64(0)),
            [number, rest @ ..] => {
                self.input = rest;
                self.push(Value::I64(number.cast_unsigned()))
            }
        }
    }

    /// The bytes of memory at a place are to be written.
    fn write_text(&mut self, at: u32, size: u32) -> Went
        ensures { Shows result self.new (written_text at size self.old) }
    {
        let (at, size) = (at as usize, size as usize);
        if at + size > self.memory.len() {
            return Went::Trapped(PAST_MEMORY, 0);
        }
        Went::Wrote(Written::Text { at, size })
    }

    /// A call of the host.
    #[tactic(auto, unfolding(wasm_form::specs::Steps::host))]
    fn host(&mut self, call: HostCall) -> Went
        ensures { Shows result self.new (host call self.old) }
    {
        match call {
            HostCall::WriteInt => match self.pop64() {
                Some(bits) => Went::Wrote(Written::Number(bits.cast_signed())),
                None => Went::Stuck,
            },
            HostCall::WriteBool => match self.pop32() {
                Some(bits) => Went::Wrote(Written::Truth(bits != 0)),
                None => Went::Stuck,
            },
            HostCall::WriteText => match self.two32() {
                Some((at, size)) => self.write_text(at, size),
                None => Went::Stuck,
            },
            HostCall::WriteByte => match self.pop32() {
                Some(bits) => Went::Wrote(Written::Byte((bits % 256) as u8)),
                None => Went::Stuck,
            },
            HostCall::ReadInt => self.read(),
            HostCall::Trap => match self.two32() {
                Some((code, at)) => Went::Trapped(code, at),
                None => Went::Stuck,
            },
        }
    }

    /// Enters a function, whose arguments are the topmost values.
    #[tactic(auto, unfolding(wasm_form::specs::Steps::called))]
    fn enter_function(&mut self, own: &'m FunctionType, function: &'m CodeEntry) -> Went
        requires within { FunctionIsWithin own.now function.now }
        requires layers { length self.old.layers < MOST_LAYERS }
        ensures { Shows result self.new (called own.now function.now self.old) }
    {
        let params = own.parameters.as_slice();
        if !are_args(&self.values, self.base, params) {
            return Went::Stuck;
        }
        if self.depth >= MOST_FRAMES as usize {
            return Went::Trapped(TOO_MANY_FRAMES, 0);
        }
        let start = self.values.len() - params.len();
        self.layers.push_reserved(Layer {
            after: self.code,
            target: self.code,
            base: self.base,
            result: own.result,
            is_frame: true,
            locals: self.locals_base,
            depth: self.depth,
        });
        self.locals_base = self.locals.len();
        add_args(&mut self.locals, &self.values, start);
        add_zeros(&mut self.locals, function.locals.as_slice());
        self.values.truncate(start);
        self.base = start;
        self.depth += 1;
        self.code = function.body.as_slice();
        Went::On
    }

    /// Calls a defined function, counted from the first of them.
    #[tactic(auto, unfolding(wasm_form::specs::Steps::call_defined))]
    fn call_defined(&mut self, module: &'m Module, index: usize) -> Went
        requires within { IsWithin «module».now }
        requires layers { length self.old.layers < MOST_LAYERS }
        ensures { Shows result self.new (call_defined «module».now index self.old) }
    {
        let Some(own) = type_of_defined(module, index) else {
            return Went::Stuck;
        };
        match module.codes.get(index) {
            Some(function) => self.enter_function(own, function),
            None => Went::Stuck,
        }
    }

    /// Calls a function.
    #[tactic(auto, unfolding(wasm_form::specs::Steps::call))]
    pub(crate) fn call(&mut self, module: &'m Module, index: u32) -> Went
        requires within { IsWithin «module».now }
        requires layers { length self.old.layers < MOST_LAYERS }
        ensures { Shows result self.new (call «module».now index self.old) }
    {
        let index = index as usize;
        match module.imports.get(index).copied() {
            Some(import) => self.host(import.call),
            None => self.call_defined(module, index - module.imports.len()),
        }
    }
}

/// The type of a defined function, counted from the first of them.
pub(crate) fn type_of_defined(module: &Module, index: usize) -> Option<&FunctionType>
    ensures { option_copied result ≡ defined_type «module».now index }
{
    let type_index = module.functions.get(index).copied()?;
    module.types.get(type_index as usize)
}

/// Whether the topmost values are arguments of these types.
fn are_args(values: &[Value], base: usize, params: &[ValueType]) -> bool
    requires { base ≤ length values.now }
    ensures typed { result ≡ typed (reverse (take (length params.now) (reverse (drop base values.now)))) params.now }
    ensures enough { IsTrue result → base + length params.now ≤ length values.now }
{
    if values.len() - base < params.len() {
        return false;
    }
    let args = &values[values.len() - params.len()..];
    are_typed(args, params)
}

/// Whether the values have these types, one each.
fn are_typed(values: &[Value], types: &[ValueType]) -> bool
    requires { length values.now ≡ length types.now }
    ensures { result ≡ typed values.now types.now }
{
    let mut k = 0;
    while k < types.len() {
        if !is_of(values[k], types[k]) {
            return false;
        }
        k += 1;
    }
    true
}

/// Adds the values from a place on.
fn add_args(locals: &mut Vec<Value>, values: &[Value], start: usize)
    requires room { vec_len locals.old + (length values.now - start) ≤ vec_capacity locals.old }
    requires within { start ≤ length values.now }
    ensures items { locals.new.items ≡ locals.old.items ++ drop start values.now }
    ensures capacity { vec_capacity locals.new ≡ vec_capacity locals.old }
{
    for value in &values[start..] {
        locals.push_reserved(*value);
    }
}

/// Adds the zeros of the declared locals.
pub(crate) fn add_zeros(locals: &mut Vec<Value>, groups: &[LocalGroup])
    requires { vec_len locals.old + count_locals groups.now ≤ vec_capacity locals.old }
    ensures items { locals.new.items ≡ locals.old.items ++ zeros groups.now }
    ensures len { vec_len locals.new ≡ vec_len locals.old + count_locals groups.now }
    ensures capacity { vec_capacity locals.new ≡ vec_capacity locals.old }
{
    for group in groups {
        add_group(locals, *group);
    }
}

/// Adds the zeros of one group.
fn add_group(locals: &mut Vec<Value>, group: LocalGroup)
    requires { vec_len locals.old + group.count ≤ vec_capacity locals.old }
    ensures items { locals.new.items ≡ locals.old.items ++ replicate group.count (zero_of group.value_type) }
    ensures capacity { vec_capacity locals.new ≡ vec_capacity locals.old }
{
    for _ in 0..group.count {
        locals.push_reserved(zero(group.value_type));
    }
}

fn zero(value_type: ValueType) -> Value
    ensures { result ≡ zero_of value_type }
{
    match value_type {
        ValueType::I32 => Value::I32(0),
        ValueType::I64 => Value::I64(0),
    }
}
