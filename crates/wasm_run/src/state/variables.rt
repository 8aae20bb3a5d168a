ghost use Rattle.std.specs.Prelude.{◌≡◌, ◌<◌, length, slice_get, slice_set};
ghost use Rattle.wasm_form.specs.Steps.{operands, local_get, set_local, local_set, local_tee, global_get, global_set, with_locals, with_globals, select};
ghost use Rattle.wasm_run.specs.Views.{Shows};

use crate::state::{State, Went, are_same, is_of, type_of};
use wasm_form::{Module, Value};

impl<'m> State<'m> {
    /// The local of that number.
    pub(crate) fn local(&self, index: u32) -> Option<Value>
        ensures { result ≡ slice_get self.now.locals index }
    {
        let current = &self.locals[self.locals_base..];
        current.get(index as usize).copied()
    }

    #[tactic(auto, unfolding(wasm_form::specs::Steps::local_get))]
    pub(crate) fn local_get(&mut self, index: u32) -> Went
        ensures { Shows result self.new (local_get index self.old) }
    {
        match self.local(index) {
            Some(value) => self.push(value),
            None => Went::Stuck,
        }
    }

    /// Sets the local of that number, which there is.
    fn put_local(&mut self, index: u32, value: Value)
        requires { index < length self.old.locals }
        ensures { self.new ≡ with_locals (slice_set self.old.locals index value) self.old }
    {
        let at = self.locals_base + index as usize;
        self.locals[at] = value;
    }

    /// Sets the local of that number, if it is there and of the value's type.
    fn set_local(&mut self, index: u32, value: Value) -> Went
        ensures { Shows result self.new (set_local index value self.old) }
    {
        let Some(old) = self.local(index) else {
            return Went::Stuck;
        };
        if !is_of(value, type_of(old)) {
            return Went::Stuck;
        }
        self.put_local(index, value);
        Went::On
    }

    #[tactic(auto, unfolding(wasm_form::specs::Steps::local_set))]
    pub(crate) fn local_set(&mut self, index: u32) -> Went
        ensures { Shows result self.new (local_set index self.old) }
    {
        match self.pop() {
            Some(value) => self.set_local(index, value),
            None => Went::Stuck,
        }
    }

    #[tactic(auto, unfolding(wasm_form::specs::Steps::local_tee))]
    pub(crate) fn local_tee(&mut self, index: u32) -> Went
        ensures { Shows result self.new (local_tee index self.old) }
    {
        match self.top() {
            Some(value) => self.set_local(index, value),
            None => Went::Stuck,
        }
    }

    /// The global of that number.
    fn global(&self, index: u32) -> Option<Value>
        ensures { result ≡ slice_get self.now.globals index }
    {
        self.globals.as_slice().get(index as usize).copied()
    }

    #[tactic(auto, unfolding(wasm_form::specs::Steps::global_get))]
    pub(crate) fn global_get(&mut self, index: u32) -> Went
        ensures { Shows result self.new (global_get index self.old) }
    {
        match self.global(index) {
            Some(value) => self.push(value),
            None => Went::Stuck,
        }
    }

    /// Sets the global of that number, if it is there.
    fn put_global(&mut self, index: u32, value: Value)
        ensures { self.new ≡ with_globals (slice_set self.old.globals index value) self.old }
    {
        let at = index as usize;
        if at < self.globals.len() {
            self.globals[at] = value;
        }
    }

    #[tactic(auto, unfolding(wasm_form::specs::Steps::global_set))]
    pub(crate) fn global_set(&mut self, module: &Module, index: u32) -> Went
        ensures { Shows result self.new (global_set «module».now index self.old) }
    {
        let Some(value) = self.pop() else {
            return Went::Stuck;
        };
        let Some(global) = module.globals.get(index as usize).copied() else {
            return Went::Stuck;
        };
        if !is_of(value, global.value_type) {
            return Went::Stuck;
        }
        self.put_global(index, value);
        Went::On
    }

    #[tactic(auto, unfolding(wasm_form::specs::Steps::select))]
    pub(crate) fn select(&mut self) -> Went
        ensures { Shows result self.new (select self.old) }
    {
        let Some(number) = self.pop32() else {
            return Went::Stuck;
        };
        let Some(second) = self.pop() else {
            return Went::Stuck;
        };
        let Some(first) = self.pop() else {
            return Went::Stuck;
        };
        if !are_same(type_of(first), type_of(second)) {
            return Went::Stuck;
        }
        if number == 0 {
            self.give(second)
        } else {
            self.give(first)
        }
    }
}
