//! The core of a whole program.

ghost use Rattle.std.specs.Prelude.{◌≡◌, IfOk};

use crate::coder::Coder;
use crate::droppers::deinits;
use crate::texts::texts_of;
use core_form::{Core, CoreFunction};
use core_layout::Layout;
use core_place::Places;
use own_bodies::BodyBindings;
use own_table::TypeTable;
use own_tree::{Flag, Place, Placement, Row, Ty, Typed};
use std::alloc::{AllocError, Global};

/// A flag, once more.
fn copied_flag(alloc: Global, flag: &Flag) -> Result<Flag, AllocError>
    ensures { IfOk result (λ copy. copy ≡ flag.now) }
{
    Ok(Flag {
        body: flag.body,
        place: Place {
            binding: flag.place.binding,
            fields: Row::from_slice(alloc, flag.place.fields.as_slice())?,
        },
    })
}

/// The flags of a placement.
fn flags_of(alloc: Global, placement: &Placement) -> Result<Row<Flag>, AllocError> {
    let mut flags = Row::new(alloc);
    for flag in placement.flags.as_slice() {
        flags.push(copied_flag(alloc, flag)?)?;
    }
    Ok(flags)
}

/// Adds the functions of all bodies.
fn push_bodies(functions: &mut Vec<CoreFunction>, coder: &Coder<'_>) -> Result<(), AllocError> {
    let typed = coder.places.typed;
    let index = BodyBindings::new(coder.alloc, typed.bindings.as_slice(), typed.bodies.len())?;
    for (number, body) in typed.bodies.as_slice().iter().enumerate() {
        let Ok(number) = u32::try_from(number) else {
            return Err(AllocError);
        };
        let function = coder
            .within(number)
            .function_of(body, index.numbers(number))?;
        functions.push(function)?;
    }
    Ok(())
}

/// Adds the functions that end a value of each declared type.
fn push_droppers(functions: &mut Vec<CoreFunction>, coder: &Coder<'_>) -> Result<(), AllocError> {
    let types = coder.places.table.count();
    let deinits = deinits(coder.alloc, coder.places.typed, types)?;
    let mut number: u32 = 0;
    for deinit in deinits.iter() {
        functions.push(coder.dropper(Ty::Named(number), *deinit)?)?;
        number = number.saturating_add(1);
    }
    Ok(())
}

/// The functions of all bodies, and then those that end a value of each type.
fn functions_of(coder: &Coder<'_>) -> Result<Row<CoreFunction>, AllocError> {
    let mut functions = Vec::new(coder.alloc);
    push_bodies(&mut functions, coder)?;
    push_droppers(&mut functions, coder)?;
    Ok(Row::from_vec(functions))
}

/// The core of a program without findings. A traced one writes the lines of events. Want of memory comes too
/// where a text has more bodies or bindings, or more bytes of texts, than a `u32` counts, which none within the
/// limits has.
pub fn to_core(
    alloc: Global,
    typed: &Typed,
    table: &TypeTable,
    placement: &Placement,
    layout: &Layout,
    traced: bool,
) -> Result<Core, AllocError>
    ensures main { IfOk result (λ core. core.main ≡ typed.now.main) }
{
    let texts = texts_of(alloc, typed, table, traced)?;
    let places = Places {
        alloc,
        typed,
        table,
        layout,
        body: typed.main,
    };
    let functions = functions_of(&Coder {
        alloc,
        places,
        texts: &texts,
        traced,
    })?;
    let flags = flags_of(alloc, placement)?;
    Ok(Core {
        functions,
        main: typed.main,
        texts: texts.into_bytes(),
        flags,
    })
}
