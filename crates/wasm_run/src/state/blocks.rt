ghost use Rattle.std.specs.Prelude.{◌≡◌, ◌∷◌, [], ◌++◌, ◌+◌, ◌-◌, ◌<◌, ◌≤◌, length, take, drop, reverse, IfSome, IfNone};
ghost use Rattle.std.specs.Vec.{vec_capacity};
ghost use Rattle.wasm_form.specs.Steps.{entered, branch, leave, exactly, carried};
ghost use Rattle.wasm_run.specs.Views.{Shows, Falls, IsFound, IsNotFound, listed};

use crate::state::{Layer, MOST_LAYERS, State, Went, is_of};
use wasm_form::{Instr, Value, ValueType};

impl<'m> State<'m> {
    /// Enters a block, a loop or a side of an if.
    pub(crate) fn enter(
        &mut self,
        handed: Option<ValueType>,
        target: &'m [Instr],
        body: &'m [Instr],
    )
        requires { length self.old.layers < MOST_LAYERS }
        ensures { self.new ≡ entered handed target.now body.now self.old }
    {
        self.layers.push_reserved(Layer {
            after: self.code,
            target,
            base: self.base,
            result: handed,
            is_frame: false,
            locals: self.locals_base,
            depth: self.depth,
        });
        self.base = self.values.len();
        self.code = body;
    }

    /// A branch past so many labels, or a return.
    pub(crate) fn branch(&mut self, past: Option<u32>) -> Went
        ensures { Shows result self.new (branch past self.old) }
    {
        let Some((at, start, layer)) = find(&self.layers, self.base, past) else {
            return Went::Stuck;
        };
        let Some(handed) = handed_on(&self.values, self.base, layer.result) else {
            return Went::Stuck;
        };
        if layer.is_frame {
            if at == 0 {
                return Went::Ended;
            }
            self.layers.truncate(at);
            put(&mut self.values, start, handed);
            self.base = layer.base;
            self.code = layer.after;
            self.locals.truncate(self.locals_base);
            self.locals_base = layer.locals;
            self.depth = layer.depth;
            return Went::On;
        }
        self.layers.truncate(at);
        put(&mut self.values, start, handed);
        self.base = layer.base;
        self.code = layer.target;
        Went::On
    }

    /// The end of a block, a loop, an if or a function.
    #[tactic(auto, unfolding(wasm_form::specs::Steps::leave))]
    pub(crate) fn leave(&mut self) -> Went
        ensures { Shows result self.new (leave self.old) }
    {
        let Some(top) = top_of(&self.layers) else {
            return Went::Stuck;
        };
        if top.is_frame {
            if !is_exactly(&self.values, self.base, top.result) {
                return Went::Stuck;
            }
            return self.branch(None);
        }
        self.code = top.after;
        self.base = top.base;
        self.layers.truncate(self.layers.len() - 1);
        Went::On
    }
}

/// The innermost layer.
fn top_of<'m>(layers: &[Layer<'m>]) -> Option<Layer<'m>>
    ensures some { IfSome result (λ x. reverse layers.now ≡ x ∷ reverse (take (length layers.now - 1) layers.now)) }
    ensures none { IfNone result (layers.now ≡ []) }
{
    match layers {
        [] => None,
        [.., top] => Some(*top),
    }
}

/// Whether these are exactly the values that a function's end asks for.
fn is_exactly(values: &[Value], base: usize, wanted: Option<ValueType>) -> bool
    requires { base ≤ length values.now }
    ensures { result ≡ exactly wanted (reverse (drop base values.now)) }
{
    let own = &values[base..];
    match (wanted, own) {
        (None, []) => true,
        (Some(wanted), [value]) => is_of(*value, wanted),
        _ => false,
    }
}

/// The value that a branch hands on, of those of the innermost layer.
fn handed_on(values: &[Value], base: usize, wanted: Option<ValueType>) -> Option<Option<Value>>
    requires { base ≤ length values.now }
    ensures some { IfSome result (λ h. carried wanted (reverse (drop base values.now)) ≡ Some (listed h)) }
    ensures fits { IfSome result (λ h. base + length (listed h) ≤ length values.now) }
    ensures none { IfNone result (carried wanted (reverse (drop base values.now)) ≡ None) }
{
    let own = &values[base..];
    match wanted {
        None => Some(None),
        Some(wanted) => match own {
            [.., value] if is_of(*value, wanted) => Some(Some(*value)),
            _ => None,
        },
    }
}

/// Leaves the first values alone, and puts one more after them.
fn put(values: &mut Vec<Value>, start: usize, handed: Option<Value>)
    requires { start + length (listed handed) ≤ length values.old.items }
    ensures items { values.new.items ≡ take start values.old.items ++ listed handed }
    ensures capacity { vec_capacity values.new ≡ vec_capacity values.old }
{
    values.truncate(start);
    if let Some(value) = handed {
        values.push_reserved(value);
    }
}

/// The place of the layer that a branch goes to, and where the values in it begin.
fn find<'m>(
    layers: &[Layer<'m>],
    base: usize,
    past: Option<u32>,
) -> Option<(usize, usize, Layer<'m>)>
    requires { Falls (reverse layers.now) base }
    ensures some { IfSome result (λ p. IsFound layers.now base past p.0 p.1 p.2) }
    ensures none { IfNone result (IsNotFound layers.now base past) }
{
    let mut start = base;
    let mut at = layers.len();
    let mut left = past;
    while at > 0 {
        at -= 1;
        let layer = layers[at];
        match left {
            None => {
                if layer.is_frame {
                    return Some((at, start, layer));
                }
            }
            Some(more) => {
                if more == 0 {
                    return Some((at, start, layer));
                }
                if layer.is_frame {
                    return None;
                }
                left = Some(more - 1);
            }
        }
        start = layer.base;
    }
    None
}
