//! What an op does to the leaves at its place or below it.

ghost use Rattle.std.specs.Prelude.{◌≡◌, ◌&&◌, not, slice_get};
ghost use Rattle.own_paths.specs.BodyLimits.{is_maker};
ghost use Rattle.own_paths.specs.Fixed.{is_borrowed, lies_in_leaf};
ghost use Rattle.own_paths.specs.Makers.{consumes_in_vain};
ghost use Rattle.own_shapes.specs.Places.{is_prefix};
ghost use Rattle.own_shapes.specs.Types.{leaves};
ghost use Rattle.own_table.specs.Table.{IsTypeIn, shape_in_table, types_in};
ghost use Rattle.own_leaves.specs.Bindings.{AreTyped};

use crate::places::is_prefix;
use own_table::TypeTable;
use own_tree::{Binding, Mode, Op, OpKind, Place, Ty};

/// Whether an op of this kind makes, ends or declares leaves.
pub fn is_maker(kind: OpKind) -> bool
    ensures { result ≡ is_maker kind }
{
    match kind {
        OpKind::Declare
        | OpKind::Make
        | OpKind::Assign
        | OpKind::Consume
        | OpKind::Discard
        | OpKind::End => true,
        OpKind::Read | OpKind::Borrow | OpKind::Inout | OpKind::Capture => false,
    }
}

/// Whether what a binding holds is not its own to give away: it is borrowed (SE-0377, SE-0432), or it is
/// `self` before `init` has given it out or while `deinit` ends it (SE-0390).
fn is_borrowed(mode: Mode) -> bool
    ensures { result ≡ is_borrowed mode }
{
    match mode {
        Mode::Borrowing
        | Mode::PatternBorrowed
        | Mode::SelfBorrowing
        | Mode::SelfInit
        | Mode::SelfDeinit => true,
        Mode::Let
        | Mode::Var
        | Mode::Plain
        | Mode::Consuming
        | Mode::Inout
        | Mode::Turn
        | Mode::PatternOwned
        | Mode::SelfConsuming
        | Mode::SelfMutating
        | Mode::Closure => false,
    }
}

/// Whether fields lead to a part of a leaf, which these fields lead to.
fn is_part(leaf: &[u32], fields: &[u32]) -> bool
    ensures { result ≡ (is_prefix leaf.now fields.now && not (is_prefix fields.now leaf.now)) }
{
    is_prefix(leaf, fields) && !is_prefix(fields, leaf)
}

/// Whether a place lies strictly below a leaf of its binding, which is of this type.
fn lies_in_leaf(table: &TypeTable, ty: Ty, place: &Place) -> bool
    requires { IsTypeIn table.now ty }
    ensures { result ≡ lies_in_leaf place.now (leaves (shape_in_table table.now ty)) }
{
    let fields = place.fields.as_slice();
    for k in 0..table.leaf_count(ty) {
        if is_part(table.leaf(ty, k), fields) {
            return true;
        }
    }
    false
}

/// Whether an op of the body is a Consume that ends nothing: it breaks O7, since its binding is borrowed
/// or captured, or O8, since its place is a part of a leaf.
pub fn ends_nothing(table: &TypeTable, bindings: &[Binding], body: u32, op: &Op) -> bool
    requires { AreTyped table.now bindings.now }
    ensures { result ≡ consumes_in_vain (types_in table.now) body (slice_get bindings.now op.now.place.binding) op.now }
{
    match bindings.get(op.place.binding as usize) {
        Some(binding) if op.kind == OpKind::Consume => {
            is_borrowed(binding.mode)
                || binding.body != body
                || lies_in_leaf(table, binding.ty, &op.place)
        }
        _ => false,
    }
}
