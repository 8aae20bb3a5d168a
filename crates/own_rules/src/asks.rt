//! What each rule asks of an op and of a return, and which makers break it.

ghost use Rattle.std.specs.Prelude.{◌≡◌, ◌&&◌, [], ◌∷◌};
ghost use Rattle.own_paths.specs.Makers.{kind_needs};
ghost use Rattle.own_table.specs.Table.{IsTypeIn, types_in};
ghost use Rattle.own_leaves.specs.Bindings.{AreTyped};
ghost use Rattle.own_shapes.specs.Types.{passes_let};
ghost use Rattle.own_breaks.specs.Asking.{blames, gives_value, is_consumed_self, is_end, owes, takes_value};
ghost use Rattle.own_rules.specs.Bodies.{asked_by, let_in, mode_in};

use crate::body::Body;
use own_leaves::{covers, is_strictly_above, overlaps};
use own_table::TypeTable;
use own_tree::{Binding, Mode, Op, OpKind, Place, Rule, Ty};

/// Whether an op of this kind gives a leaf its value.
fn gives_value(kind: OpKind) -> bool
    ensures { result ≡ gives_value kind }
{
    kind == OpKind::Make || kind == OpKind::Assign
}

/// Whether an op of this kind leaves a leaf without a value.
fn takes_value(kind: OpKind) -> bool
    ensures { result ≡ takes_value kind }
{
    match kind {
        OpKind::Declare | OpKind::Consume | OpKind::Discard | OpKind::End => true,
        OpKind::Make
        | OpKind::Assign
        | OpKind::Read
        | OpKind::Borrow
        | OpKind::Inout
        | OpKind::Capture => false,
    }
}

/// Whether a leaf that an op of this kind made or ended last breaks a rule.
pub(crate) fn blames(rule: Rule, kind: OpKind) -> bool
    ensures { result ≡ blames rule kind }
{
    match rule {
        Rule::O1 => kind == OpKind::Consume || kind == OpKind::Discard,
        Rule::O2 => kind == OpKind::Declare,
        Rule::O3 | Rule::O5 => takes_value(kind),
        Rule::O4 | Rule::O6 => gives_value(kind),
        _ => false,
    }
}

/// Whether an op of this kind at a place needs a leaf.
fn needs(kind: OpKind, place: &Place, leaf: &Place) -> bool
    ensures { result ≡ kind_needs kind place.now leaf.now }
{
    match kind {
        OpKind::Declare | OpKind::Make | OpKind::End => false,
        OpKind::Assign => is_strictly_above(leaf, place),
        OpKind::Read
        | OpKind::Borrow
        | OpKind::Inout
        | OpKind::Consume
        | OpKind::Discard
        | OpKind::Capture => overlaps(leaf, place),
    }
}

/// How a binding came about.
fn mode_of(bindings: &[Binding], binding: u32) -> Option<Mode>
    ensures { result ≡ mode_in bindings.now binding }
{
    Some(bindings.get(binding as usize)?.mode)
}

/// Whether a stored property of a type is a `let`.
fn is_let(table: &TypeTable, ty: Ty, property: u32) -> bool
    requires { IsTypeIn table.now ty }
    ensures { result ≡ passes_let ((types_in table.now).shape ty) (property ∷ []) }
{
    match table.fields(ty).get(property as usize) {
        Some(field) => !field.changes,
        None => false,
    }
}

/// Whether a place is `self` of an `init` and one stored property, which is a `let`.
fn is_let_property(table: &TypeTable, bindings: &[Binding], place: &Place) -> bool
    requires { AreTyped table.now bindings.now }
    ensures { result ≡ let_in (types_in table.now) bindings.now place.now }
{
    match bindings.get(place.binding as usize) {
        Some(binding) if binding.mode == Mode::SelfInit && place.fields.len() == 1 => {
            is_let(table, binding.ty, place.fields.as_slice()[0])
        }
        _ => false,
    }
}

/// Whether a rule asks at a return for the leaves of a binding: O3 for what the caller has back, O5 for
/// `self` of an `init`.
pub(crate) fn owes(bindings: &[Binding], rule: Rule, binding: u32) -> bool
    ensures { result ≡ owes rule (mode_in bindings.now binding) }
{
    match (rule, mode_of(bindings, binding)) {
        (Rule::O3, Some(Mode::Inout | Mode::SelfMutating)) => true,
        (Rule::O5, Some(Mode::SelfInit)) => true,
        _ => false,
    }
}

impl Body<'_> {
    /// Whether an op ends `self` of a `consuming` method that contains `discard self` (SE-0390).
    fn ends_discarded_self(&self, op: &Op) -> bool
        ensures { result ≡ (is_end op.now.kind && self.now.discards
            && is_consumed_self (mode_in self.now.bindings.now op.now.place.binding)) }
    {
        op.kind == OpKind::End
            && self.discards
            && mode_of(self.bindings, op.place.binding) == Some(Mode::SelfConsuming)
    }

    /// Whether a rule asks at an op for a leaf.
    pub(crate) fn asks(&self, rule: Rule, op: &Op, leaf: &Place) -> bool
        requires { AreTyped self.now.table.now self.now.bindings.now }
        ensures { result ≡ asked_by self.now rule op.now leaf.now }
    {
        match rule {
            Rule::O1 | Rule::O2 => needs(op.kind, &op.place, leaf),
            Rule::O4 => self.ends_discarded_self(op) && covers(&op.place, leaf),
            Rule::O6 => {
                op.kind == OpKind::Assign
                    && is_let_property(self.table, self.bindings, &op.place)
                    && covers(&op.place, leaf)
            }
            _ => false,
        }
    }
}
