//! Single ops.

ghost use Rattle.std.specs.Prelude.{◌≡◌, IfOk};
ghost use Rattle.std.specs.Option.{option_copied};
ghost use Rattle.own_tree.specs.OpSource.{nothing};
ghost use Rattle.own_tree.specs.OpView.{op_view};
ghost use Rattle.own_paths.specs.Ops.{entry_kind, op_of, op_at, at_name, at_entry};
ghost use Rattle.own_shapes.specs.Places.{whole};

use own_tree::typed::At;
use own_tree::{Binding, Mode, Op, OpKind, OpTree, Place, Row, Span};
use sqlite_items::Items;
use std::alloc::{AllocError, Global};

/// What does nothing.
pub(crate) fn nothing(alloc: Global) -> OpTree
    ensures { op_view result ≡ nothing }
{
    OpTree::Seq(Items::new(alloc))
}

/// An op at a node of its own, such as a path's.
pub(crate) fn op_at(
    alloc: Global,
    kind: OpKind,
    place: &Place,
    at: At,
) -> Result<OpTree, AllocError>
    ensures { IfOk result (λ tree. op_view tree ≡ op_at kind place.now at) }
{
    let fields = Row::from_slice(alloc, place.fields.as_slice())?;
    Ok(OpTree::Op(Op {
        kind,
        place: Place {
            binding: place.binding,
            fields,
        },
        span: at.span,
        node: at.id,
    }))
}

/// An op on a binding as a whole.
pub(crate) fn op_on(alloc: Global, kind: OpKind, binding: u32, span: Span, node: u32) -> OpTree
    ensures { op_view result ≡ op_of kind (whole binding) span node }
{
    OpTree::Op(Op {
        kind,
        place: Place {
            binding,
            fields: Row::new(alloc),
        },
        span,
        node,
    })
}

/// An op on a binding, at its name.
pub(crate) fn at_name(
    alloc: Global,
    kind: OpKind,
    node: u32,
    number: u32,
    binding: Option<&Binding>,
) -> OpTree
    ensures { op_view result ≡ at_name kind node number (option_copied binding.entry) }
{
    match binding {
        Some(binding) => op_on(alloc, kind, number, binding.span, node),
        None => nothing(alloc),
    }
}

/// What the entry of a body does to `self` or a parameter.
fn entry_kind(mode: Mode) -> OpKind
    ensures { result ≡ entry_kind mode }
{
    match mode {
        Mode::SelfInit => OpKind::Declare,
        _ => OpKind::Make,
    }
}

/// The op of `self` or a parameter at the entry of a body, which stands at no node.
pub(crate) fn at_entry(alloc: Global, number: u32, binding: Option<&Binding>) -> OpTree
    ensures { op_view result ≡ at_entry number (option_copied binding.entry) }
{
    match binding {
        Some(found) => at_name(alloc, entry_kind(found.mode), 0, number, binding),
        None => nothing(alloc),
    }
}
