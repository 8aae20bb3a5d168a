//! M11 and M12: the leaves of a body, and the pairs of an op and a leaf that it makes, ends or declares.

ghost use Rattle.std.specs.Prelude.{◌≡◌, ◌==◌, ◌||◌, not, Some, slice_get};
ghost use Rattle.own_paths.specs.BodyLimits.{is_maker, leaves_at};
ghost use Rattle.own_paths.specs.Fixed.{is_borrowed, is_consume, place_of};
ghost use Rattle.own_paths.specs.Makers.{leaves_declared, consumes_in_vain};
ghost use Rattle.own_uses.specs.Building.{types_for, program_for};
ghost use Rattle.own_uses.specs.Leaves.{own_leaves, own_below, leaf_counts, makers_of};
ghost use Rattle.own_uses.specs.Saturating.{held};

use crate::builder::Builder;
use crate::leaves::{binding_leaf_above, binding_leaves_below};
use own_tree::{Binding, Mode, Op, OpKind};

/// Whether an op of that kind makes, ends or declares leaves.
fn is_maker(kind: OpKind) -> bool
    ensures { result ≡ is_maker kind }
{
    match kind {
        OpKind::Declare
        | OpKind::Make
        | OpKind::Assign
        | OpKind::Consume
        | OpKind::Discard
        | OpKind::End => true,
        OpKind::Read | OpKind::Borrow | OpKind::Inout | OpKind::Capture => false,
    }
}

/// Whether a binding is borrowed: it is not given away, nor is `self` before `init` has given it out or
/// while `deinit` ends it.
fn is_borrowed(mode: Mode) -> bool
    ensures { result ≡ is_borrowed mode }
{
    matches!(
        mode,
        Mode::Borrowing
            | Mode::PatternBorrowed
            | Mode::SelfBorrowing
            | Mode::SelfInit
            | Mode::SelfDeinit
    )
}

fn is_consume(kind: OpKind) -> bool
    ensures { result ≡ is_consume kind }
{
    matches!(kind, OpKind::Consume)
}

/// Whether what a binding holds is not the body's to give away.
fn is_anothers(number: u32, binding: &Binding) -> bool
    ensures { result ≡ (is_borrowed binding.now.mode || not (binding.now.body == number)) }
{
    is_borrowed(binding.mode) || binding.body != number
}

impl Builder<'_> {
    /// The leaves of a binding, if the body of that number declares it.
    fn own_leaves(&self, number: u32, binding: &Binding) -> u64
        ensures { result ≡ held (own_leaves (types_for self.now) number binding.now) }
    {
        if binding.body == number {
            binding_leaves_below(self.table, binding, &[])
        } else {
            0
        }
    }

    /// The leaves of the bindings that a body declares.
    pub(crate) fn body_leaves(&self, number: u32, bindings: &[Binding]) -> u64
        ensures { result ≡ held (leaf_counts (types_for self.now) number bindings.now) }
    {
        let mut sum = 0u64;
        for binding in bindings {
            sum = sum.saturating_add(self.own_leaves(number, binding));
        }
        sum
    }

    /// Of the leaves of a binding, if the body declares it, those that lie at these fields or below them.
    fn own_leaves_below(&self, number: u32, binding: &Binding, fields: &[u32]) -> u64
        ensures { result ≡ held (own_below (types_for self.now) number fields.now (Some binding.now)) }
    {
        if binding.body == number {
            binding_leaves_below(self.table, binding, fields)
        } else {
            0
        }
    }

    /// Of the leaves that a body declares those that lie at a place or below it.
    pub(crate) fn leaves_at(&self, number: u32, binding: u32, fields: &[u32]) -> u64
        ensures { result ≡ held (leaves_at (place_of binding fields.now)
            (leaves_declared (types_for self.now) number 0 (program_for self.now).bindings)) }
    {
        match self.typed.bindings.get(binding as usize) {
            Some(found) => self.own_leaves_below(number, found, fields),
            None => 0,
        }
    }

    /// Whether a Consume breaks O7 or O8, and so ends nothing: of what is borrowed, or captured, or of a
    /// part of a leaf.
    fn is_in_vain(&self, number: u32, binding: &Binding, op: &Op) -> bool
        ensures { result ≡ consumes_in_vain (types_for self.now) number (Some binding.now) op.now }
    {
        if !is_consume(op.kind) {
            return false;
        }
        if is_anothers(number, binding) {
            return true;
        }
        binding_leaf_above(self.table, binding, op.place.fields.as_slice())
    }

    /// Whether an op of a body does so.
    fn consumes_in_vain(&self, number: u32, op: &Op) -> bool
        ensures { result ≡ consumes_in_vain (types_for self.now) number
            (slice_get (program_for self.now).bindings op.now.place.binding) op.now }
    {
        match self.typed.bindings.get(op.place.binding as usize) {
            Some(binding) => self.is_in_vain(number, binding, op),
            None => false,
        }
    }

    /// The leaves that an op of a body makes, ends or declares.
    pub(crate) fn op_makers(&self, number: u32, op: &Op) -> u64
        ensures { result ≡ held (makers_of (types_for self.now) (program_for self.now) number op.now) }
    {
        if is_maker(op.kind) && !self.consumes_in_vain(number, op) {
            self.leaves_at(number, op.place.binding, op.place.fields.as_slice())
        } else {
            0
        }
    }
}
