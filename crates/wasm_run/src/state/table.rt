ghost use Rattle.std.specs.Prelude.{◌≡◌, [], ◌<◌, length, slice_get};
ghost use Rattle.std.specs.Option.{option_copied};
ghost use Rattle.wasm_form.specs.Steps.{type_of_function, same_types, same_result, same_function_type, call_element, call_indirect};
ghost use Rattle.wasm_form.specs.Within.{IsWithin};
ghost use Rattle.wasm_run.specs.Views.{Shows};

use crate::state::calls::type_of_defined;
use crate::state::memory::first_of;
use crate::state::{MOST_LAYERS, State, Went, are_same};
use wasm_form::traps::{EMPTY_ELEMENT, OTHER_TYPE, PAST_TABLE};
use wasm_form::{FunctionType, Module, ValueType};

impl<'m> State<'m> {
    /// The element of the table at that place.
    fn element(&self, index: u32) -> Option<Option<u32>>
        ensures { result ≡ slice_get self.now.table index }
    {
        self.table.as_slice().get(index as usize).copied()
    }

    /// Calls the function at a place of the table, which is to be of a type.
    fn call_element(&mut self, module: &'m Module, wanted: &FunctionType, index: u32) -> Went
        requires within { IsWithin «module».now }
        requires layers { length self.old.layers < MOST_LAYERS }
        ensures { Shows result self.new (call_element «module».now wanted.now (slice_get self.old.table index) self.old) }
    {
        let Some(element) = self.element(index) else {
            return Went::Trapped(PAST_TABLE, 0);
        };
        let Some(function) = element else {
            return Went::Trapped(EMPTY_ELEMENT, 0);
        };
        let Some(own) = type_of_function(module, function) else {
            return Went::Stuck;
        };
        if !is_same_type(own, wanted) {
            return Went::Trapped(OTHER_TYPE, 0);
        }
        self.call(module, function)
    }

    #[tactic(auto, unfolding(wasm_form::specs::Steps::call_indirect))]
    pub(crate) fn call_indirect(&mut self, module: &'m Module, type_index: u32) -> Went
        requires within { IsWithin «module».now }
        requires layers { length self.old.layers < MOST_LAYERS }
        ensures { Shows result self.new (call_indirect «module».now type_index self.old) }
    {
        let Some(_) = first_of(module.tables.as_slice()) else {
            return Went::Stuck;
        };
        let Some(wanted) = module.types.get(type_index as usize) else {
            return Went::Stuck;
        };
        match self.pop32() {
            Some(index) => self.call_element(module, wanted, index),
            None => Went::Stuck,
        }
    }
}

/// The type of a function, with the imports counted first.
#[tactic(auto, unfolding(wasm_form::specs::Steps::type_of_function))]
fn type_of_function(module: &Module, index: u32) -> Option<&FunctionType>
    ensures { option_copied result ≡ type_of_function «module».now index }
{
    let index = index as usize;
    match module.imports.get(index).copied() {
        Some(import) => module.types.get(import.type_index as usize),
        None => type_of_defined(module, index - module.imports.len()),
    }
}

fn is_same_type(left: &FunctionType, right: &FunctionType) -> bool
    ensures { result ≡ same_function_type left.now right.now }
{
    if !is_same_list(left.parameters.as_slice(), right.parameters.as_slice()) {
        return false;
    }
    match (left.result, right.result) {
        (None, None) => true,
        (Some(left), Some(right)) => are_same(left, right),
        _ => false,
    }
}

fn is_same_list(left: &[ValueType], right: &[ValueType]) -> bool
    ensures { result ≡ same_types left.now right.now }
{
    let (mut own, mut other) = (left, right);
    loop {
        let [first, own_rest @ ..] = own else {
            return is_none(other);
        };
        let [second, other_rest @ ..] = other else {
            return false;
        };
        if !are_same(*first, *second) {
            return false;
        }
        own = own_rest;
        other = other_rest;
    }
}

fn is_none(types: &[ValueType]) -> bool
    ensures { result ≡ same_types [] types.now }
{
    match types {
        [] => true,
        [_, ..] => false,
    }
}
