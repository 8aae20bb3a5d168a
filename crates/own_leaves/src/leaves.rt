//! The leaves of the bindings that a body declares.

ghost use Rattle.std.specs.Prelude.{◌≡◌, ◌++◌, IfOk, OnOk, map};
ghost use Rattle.own_paths.specs.Fixed.{binding_leaves, place_of};
ghost use Rattle.own_paths.specs.Makers.{leaves_declared};
ghost use Rattle.own_shapes.specs.Types.{leaves, opened_leaves};
ghost use Rattle.own_table.specs.Table.{IsTypeIn, shape_in_table, types_in};
ghost use Rattle.own_leaves.specs.Bindings.{AreTyped};

use own_table::TypeTable;
use own_tree::{Binding, Mode, Place, Row, Ty};
use std::alloc::{AllocError, Global};

/// A place by its binding and its fields, in two parts.
fn place_below(
    alloc: Global,
    binding: u32,
    front: &[u32],
    path: &[u32],
) -> Result<Place, AllocError>
    ensures { IfOk result (λ place. place ≡ place_of binding (front.now ++ path.now)) }
{
    let mut fields = Vec::new(alloc);
    fields.extend_from_slice(front)?;
    fields.extend_from_slice(path)?;
    Ok(Place {
        binding,
        fields: Row::from_vec(fields),
    })
}

/// Adds the leaves of a type, as places below these fields of a binding.
fn push_leaves(
    alloc: Global,
    places: &mut Row<Place>,
    table: &TypeTable,
    ty: Ty,
    binding: u32,
    front: &[u32],
) -> Result<(), AllocError>
    requires { IsTypeIn table.now ty }
    ensures { OnOk result (places.new
        ≡ places.old ++ map (λ path. place_of binding (front.now ++ path)) (leaves (shape_in_table table.now ty))) }
{
    for k in 0..table.leaf_count(ty) {
        places.push(place_below(alloc, binding, front, table.leaf(ty, k))?)?;
    }
    Ok(())
}

/// Adds the leaves of the stored properties of a struct, which is opened whatever its `deinit`.
fn push_opened(
    alloc: Global,
    places: &mut Row<Place>,
    table: &TypeTable,
    ty: Ty,
    binding: u32,
) -> Result<(), AllocError>
    requires { IsTypeIn table.now ty }
    ensures { OnOk result (places.new ≡ places.old ++ map (place_of binding) (opened_leaves (shape_in_table table.now ty))) }
{
    match ty {
        Ty::Named(_) if !table.is_enum(ty) => {
            for (number, field) in table.fields(ty).iter().enumerate() {
                push_leaves(alloc, places, table, field.ty, binding, &[number as u32])?;
            }
            Ok(())
        }
        _ => push_leaves(alloc, places, table, ty, binding, &[]),
    }
}

/// Adds the leaves of a binding. `self` in an `init` is opened, whatever its type.
fn push_binding(
    alloc: Global,
    places: &mut Row<Place>,
    table: &TypeTable,
    number: u32,
    binding: &Binding,
) -> Result<(), AllocError>
    requires { IsTypeIn table.now binding.now.ty }
    ensures { OnOk result (places.new ≡ places.old ++ map (place_of number) (binding_leaves (types_in table.now) binding.now)) }
{
    match binding.mode {
        Mode::SelfInit => push_opened(alloc, places, table, binding.ty, number),
        _ => push_leaves(alloc, places, table, binding.ty, number, &[]),
    }
}

/// The leaves of the bindings that a body declares, its parameters and `self` included, in order. A text
/// of more than 4,294,967,296 bindings, which no text within the limits has, answers want of memory.
pub fn body_leaves(
    alloc: Global,
    table: &TypeTable,
    bindings: &[Binding],
    body: u32,
) -> Result<Row<Place>, AllocError>
    requires { AreTyped table.now bindings.now }
    ensures { IfOk result (λ leaves. leaves ≡ leaves_declared (types_in table.now) body 0 bindings.now) }
{
    let mut places = Row::new(alloc);
    for (number, binding) in bindings.iter().enumerate() {
        if number > u32::MAX as usize {
            return Err(AllocError);
        }
        if binding.body == body {
            push_binding(alloc, &mut places, table, number as u32, binding)?;
        }
    }
    Ok(places)
}
