ghost use Rattle.std.specs.Prelude.{◌≡◌, [], ◌∷◌, ◌<◌, length, IfSome, IfNone};
ghost use Rattle.wasm_form.specs.Steps.{operands, pushed, given, pop, pop32, pop64, two32, two64, first_of, with_code, type_of_value, has_type, same_type, truth};
ghost use Rattle.wasm_run.specs.Views.{Took, Shows};

use std::marker::Model;
use wasm_form::limits::{MOST_FRAMES, MOST_LABELS, MOST_LOCALS, MOST_OPERANDS};
use wasm_form::traps::TOO_MANY_OPERANDS;
use wasm_form::{Instr, Value, ValueType};

mod act;
mod blocks;
mod calls;
mod memory;
mod numbers;
mod output;
pub(crate) mod start;
mod table;
mod variables;

/// What one step came to.
#[derive(Clone, Copy, Debug, PartialEq, Eq)]
pub(crate) enum Went {
    On,
    Ended,
    Wrote(Written),
    /// The code and the offset of a trap.
    Trapped(u32, u32),
    Stuck,
}

/// What a step wants to be written.
#[derive(Clone, Copy, Debug, PartialEq, Eq)]
pub(crate) enum Written {
    Number(i64),
    Truth(bool),
    /// A piece of the memory.
    Text { at: usize, size: usize },
    Byte(u8),
}

/// What a block, a loop, an if or a function goes back to.
#[derive(Clone, Copy)]
pub(crate) struct Layer<'m> {
    /// The instructions after it, and those that a branch to it goes to.
    after: &'m [Instr],
    target: &'m [Instr],
    result: Option<ValueType>,
    is_frame: bool,
    /// Where the values and the locals of what stands round it begin, and how many frames that is.
    base: usize,
    locals: usize,
    depth: usize,
}

/// Where the machine is. The values of all layers lie in one `Vec`, and so do the locals of all frames.
#[derive(Drop)]
pub(crate) struct State<'m> {
    code: &'m [Instr],
    values: Vec<Value>,
    /// Where the values of the innermost layer begin.
    base: usize,
    layers: Vec<Layer<'m>>,
    locals: Vec<Value>,
    /// Where the locals of the innermost frame begin.
    locals_base: usize,
    /// How many frames there are.
    depth: usize,
    globals: Vec<Value>,
    table: Vec<Option<u32>>,
    memory: Vec<u8>,
    input: &'m [i64],
}

impl<'m> Model for State<'m> {
    ghost use Rattle.wasm_form.specs.Steps.{Config};

    ghost Value = { Config };

    ghost use Rattle.wasm_form.specs.contracts.instr.Instr as instr;
    ghost use Rattle.std.specs.Coded.{codes};

    ghost coded = { Prim.hlevel (codes, instr.the_row.coded) };

    ghost use Rattle.wasm_run.specs.Views.{view_of, IsSound};

    ghost view = { view_of };

    ghost invariant = { IsSound };
}

const MOST_VALUES: usize = MOST_OPERANDS as usize;
/// The most layers: a frame and its labels, for each frame and the first.
const MOST_LAYERS: usize = (MOST_FRAMES as usize + 1) * (MOST_LABELS as usize + 1);
/// The most locals of all frames.
const MOST_LOCALS_HELD: usize = MOST_FRAMES as usize * MOST_LOCALS as usize;

pub(crate) fn type_of(value: Value) -> ValueType
    ensures { result ≡ type_of_value value }
{
    match value {
        Value::I32(_) => ValueType::I32,
        Value::I64(_) => ValueType::I64,
    }
}

pub(crate) fn is_of(value: Value, wanted: ValueType) -> bool
    ensures { result ≡ has_type value wanted }
{
    match (value, wanted) {
        (Value::I32(_), ValueType::I32) => true,
        (Value::I64(_), ValueType::I64) => true,
        _ => false,
    }
}

pub(crate) fn are_same(left: ValueType, right: ValueType) -> bool
    ensures { result ≡ same_type left right }
{
    match (left, right) {
        (ValueType::I32, ValueType::I32) => true,
        (ValueType::I64, ValueType::I64) => true,
        _ => false,
    }
}

pub(crate) fn truth_value(holds: bool) -> Value
    ensures { result ≡ truth holds }
{
    if holds { Value::I32(1) } else { Value::I32(0) }
}

impl<'m> State<'m> {
    #[tactic(auto, unfolding(wasm_form::specs::Steps::pushed))]
    pub(crate) fn push(&mut self, value: Value) -> Went
        ensures { Shows result self.new (pushed value self.old) }
    {
        if self.values.len() >= MOST_VALUES {
            return Went::Trapped(TOO_MANY_OPERANDS, 0);
        }
        self.values.push_reserved(value);
        Went::On
    }

    /// Gives a value where one was taken before.
    #[tactic(auto, unfolding(wasm_form::specs::Steps::given))]
    pub(crate) fn give(&mut self, value: Value) -> Went
        requires { operands self.old < MOST_VALUES }
        ensures { Shows result self.new (given value self.old) }
    {
        self.values.push_reserved(value);
        Went::On
    }

    #[tactic(auto, unfolding(wasm_form::specs::Steps::pop))]
    pub(crate) fn pop(&mut self) -> Option<Value>
        ensures took { Took result self.new (pop self.old) }
        ensures layers { IfSome result (λ _. self.new.layers ≡ self.old.layers) }
        ensures room { IfSome result (λ _. operands self.new < MOST_VALUES) }
    {
        if self.values.len() <= self.base {
            return None;
        }
        self.values.pop()
    }

    /// The topmost value, which stays.
    pub(crate) fn top(&self) -> Option<Value>
        ensures { result ≡ first_of self.now.values }
    {
        let own = &self.values[self.base..];
        match own {
            [] => None,
            [.., value] => Some(*value),
        }
    }

    #[tactic(auto, unfolding(wasm_form::specs::Steps::pop32))]
    pub(crate) fn pop32(&mut self) -> Option<u32>
        ensures took { Took result self.new (pop32 self.old) }
        ensures layers { IfSome result (λ _. self.new.layers ≡ self.old.layers) }
        ensures room { IfSome result (λ _. operands self.new < MOST_VALUES) }
    {
        match self.pop() {
            Some(Value::I32(bits)) => Some(bits),
            _ => None,
        }
    }

    #[tactic(auto, unfolding(wasm_form::specs::Steps::pop64))]
    pub(crate) fn pop64(&mut self) -> Option<u64>
        ensures took { Took result self.new (pop64 self.old) }
        ensures layers { IfSome result (λ _. self.new.layers ≡ self.old.layers) }
        ensures room { IfSome result (λ _. operands self.new < MOST_VALUES) }
    {
        match self.pop() {
            Some(Value::I64(bits)) => Some(bits),
            _ => None,
        }
    }

    #[tactic(auto, unfolding(wasm_form::specs::Steps::two32))]
    pub(crate) fn two32(&mut self) -> Option<(u32, u32)>
        ensures took { Took result self.new (two32 self.old) }
        ensures layers { IfSome result (λ _. self.new.layers ≡ self.old.layers) }
        ensures room { IfSome result (λ _. operands self.new < MOST_VALUES) }
    {
        let second = self.pop32()?;
        let first = self.pop32()?;
        Some((first, second))
    }

    #[tactic(auto, unfolding(wasm_form::specs::Steps::two64))]
    pub(crate) fn two64(&mut self) -> Option<(u64, u64)>
        ensures took { Took result self.new (two64 self.old) }
        ensures layers { IfSome result (λ _. self.new.layers ≡ self.old.layers) }
        ensures room { IfSome result (λ _. operands self.new < MOST_VALUES) }
    {
        let second = self.pop64()?;
        let first = self.pop64()?;
        Some((first, second))
    }

    /// The instruction that comes next, which is taken, and the instructions from it on.
    pub(crate) fn fetch(&mut self) -> Option<(&'m Instr, &'m [Instr])>
        ensures here { IfSome result (λ p. self.old.code ≡ p.1.now) }
        ensures next { IfSome result (λ p. self.old.code ≡ p.0.now ∷ self.new.code) }
        ensures moved { IfSome result (λ p. self.new ≡ with_code self.new.code self.old) }
        ensures none { IfNone result (self.old.code ≡ []) }
        ensures same { IfNone result (self.new ≡ self.old) }
    {
        let here = self.code;
        match here {
            [] => None,
            [instr, rest @ ..] => {
                self.code = rest;
                Some((instr, here))
            }
        }
    }

    /// The instructions that come next.
    pub(crate) fn code(&self) -> &'m [Instr]
        ensures { result.now ≡ self.now.code }
    {
        self.code
    }
}
