//! The leaves for which a running program remembers whether they have a value.

use crate::values::field_type;
use core_layout::is_alias;
use core_layout::types::{holds_tracked, leaf, leaf_count, properties};
use own_table::TypeTable;
use own_tree::{Binding, Flag, LeafFacts, Mode, Place, Placement, Row, Ty, Typed};
use std::alloc::{AllocError, Global};

/// Whether a body keeps track of the leaves of a binding: it owns it, or has to leave a value in it.
fn is_kept(mode: Mode) -> bool {
    !is_alias(mode) || matches!(mode, Mode::Inout | Mode::SelfMutating)
}

/// The type at the end of a way through stored properties.
fn type_at(table: &TypeTable, ty: Ty, fields: &[u32]) -> Ty {
    let mut found = ty;
    for field in fields {
        found = field_type(table, found, *field);
    }
    found
}

/// A flag of a leaf below these fields of a binding.
fn flag_below(
    alloc: Global,
    body: u32,
    binding: u32,
    front: &[u32],
    path: &[u32],
) -> Result<Flag, AllocError> {
    let mut fields = Vec::new(alloc);
    fields.extend_from_slice(front)?;
    fields.extend_from_slice(path)?;
    let place = Place {
        binding,
        fields: Row::from_vec(fields),
    };
    Ok(Flag { body, place })
}

/// Adds a flag for each leaf of a type that holds a tracked value. The leaves stand below these fields of a
/// binding.
fn push_leaves(
    alloc: Global,
    table: &TypeTable,
    flags: &mut Row<Flag>,
    (body, binding): (u32, u32),
    front: &[u32],
    ty: Ty,
) -> Result<(), AllocError> {
    for number in 0..leaf_count(table, ty) {
        let path = leaf(table, ty, number);
        if holds_tracked(table, type_at(table, ty, path)) {
            flags.push(flag_below(alloc, body, binding, front, path)?)?;
        }
    }
    Ok(())
}

/// Adds the flags of the stored properties of a value.
fn push_opened(
    alloc: Global,
    table: &TypeTable,
    flags: &mut Row<Flag>,
    at: (u32, u32),
    ty: Ty,
) -> Result<(), AllocError> {
    for (field, info) in properties(table, ty).iter().enumerate() {
        let Ok(field) = u32::try_from(field) else {
            return Err(AllocError);
        };
        push_leaves(alloc, table, flags, at, &[field], info.ty)?;
    }
    Ok(())
}

/// Adds the flags of a binding. `self` in an `init` is opened, whatever its `deinit`.
fn push_binding(
    alloc: Global,
    table: &TypeTable,
    flags: &mut Row<Flag>,
    number: u32,
    binding: &Binding,
) -> Result<(), AllocError> {
    let at = (binding.body, number);
    match binding.mode {
        Mode::SelfInit => push_opened(alloc, table, flags, at, binding.ty),
        _ => push_leaves(alloc, table, flags, at, &[], binding.ty),
    }
}

/// So many empty lists.
fn empty_lists(alloc: Global, count: usize) -> Result<Vec<Row<u32>>, AllocError> {
    let mut lists = Vec::new(alloc);
    for _ in 0..count {
        lists.push(Row::new(alloc))?;
    }
    Ok(lists)
}

/// The bindings of each body whose leaves it keeps track of, in order.
fn by_body(
    alloc: Global,
    bodies: usize,
    bindings: &[Binding],
) -> Result<Vec<Row<u32>>, AllocError> {
    let mut lists = empty_lists(alloc, bodies)?;
    for (number, binding) in bindings.iter().enumerate() {
        let body = binding.body as usize;
        let Ok(number) = u32::try_from(number) else {
            return Err(AllocError);
        };
        if body < lists.len() && is_kept(binding.mode) {
            lists[body].push(number)?;
        }
    }
    Ok(lists)
}

/// Adds the flags of these bindings.
fn push_bindings(
    alloc: Global,
    table: &TypeTable,
    flags: &mut Row<Flag>,
    bindings: &[Binding],
    numbers: &[u32],
) -> Result<(), AllocError> {
    for number in numbers {
        if let Some(binding) = bindings.get(*number as usize) {
            push_binding(alloc, table, flags, *number, binding)?;
        }
    }
    Ok(())
}

/// The placement of a program without findings. As long as the facts are not read, it has a flag for each
/// leaf that holds a tracked value, in order of body, binding and leaf, and no plan: whether a leaf is
/// destroyed is asked of its mark.
pub fn place(
    alloc: Global,
    typed: &Typed,
    table: &TypeTable,
    _facts: &LeafFacts,
) -> Result<Placement, AllocError> {
    let bindings = typed.bindings.as_slice();
    let lists = by_body(alloc, typed.bodies.len(), bindings)?;
    let mut flags = Row::new(alloc);
    for numbers in lists.iter() {
        push_bindings(alloc, table, &mut flags, bindings, numbers.as_slice())?;
    }
    Ok(Placement {
        flags,
        plans: Row::new(alloc),
    })
}
