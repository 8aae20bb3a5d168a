//! What each pattern of a list says at one place of a value.

ghost use Rattle.std.specs.Prelude.{◌≡◌, IfOk, map};
ghost use Rattle.own_table.specs.Table.{shape_in_table};
ghost use Rattle.own_shapes.specs.Types.{shapes_of};
ghost use Rattle.own_tree.specs.TypedView.{pattern_view};
ghost use Rattle.own_match.specs.View.{said, said_all, columns_held};
ghost use Rattle.own_match.specs.Forms.{part, inside};
ghost use Rattle.own_match.specs.Search.{narrowed, rising, payload_columns, is_mentioned};

use crate::head::{Head, accepts};
use own_table::TypeTable;
use own_tree::{TPattern, Ty};
use std::alloc::{AllocError, Global};
use std::collections::BTreeSet;

/// The type at a place, and what each pattern says there: nothing, where it has another case on the
/// way or stops before the place.
#[derive(Drop)]
pub struct Column<'p> {
    pub ty: Ty,
    pub cells: Vec<Option<&'p TPattern>>,
}

/// The part of a pattern of that case.
fn part_of(pattern: &TPattern, case: u32, payload: usize) -> Option<&TPattern>
    ensures { said result ≡ part case payload (pattern_view pattern.now) }
{
    match pattern {
        TPattern::Case(present, parts) if *present == case => parts.get(payload),
        _ => None,
    }
}

/// What a pattern says of a payload of a case.
fn part<'p>(cell: Option<&'p TPattern>, case: u32, payload: usize) -> Option<&'p TPattern>
    ensures { said result ≡ part case payload (said cell.entry) }
{
    match cell {
        Some(pattern) => part_of(pattern, case, payload),
        None => None,
    }
}

/// What the patterns say of a payload of a case.
fn inside<'p>(
    alloc: Global,
    cells: &[Option<&'p TPattern>],
    case: u32,
    payload: usize,
) -> Result<Vec<Option<&'p TPattern>>, AllocError>
    ensures { IfOk result (λ parts. said_all parts.items ≡ inside case payload (said_all cells.now)) }
{
    let mut parts = Vec::new(alloc);
    for cell in cells {
        parts.push(part(*cell, case, payload))?;
    }
    Ok(parts)
}

/// The columns of the payloads of a case, which have these types.
pub fn payload_columns<'p>(
    alloc: Global,
    table: &TypeTable,
    types: &[Ty],
    case: u32,
    cells: &[Option<&'p TPattern>],
) -> Result<Vec<Column<'p>>, AllocError>
    ensures held { IfOk result (λ columns. columns_held (shape_in_table table.now) columns.items
        ≡ payload_columns (shapes_of (shape_in_table table.now) types.now) case 0 (said_all cells.now)) }
    ensures types { IfOk result (λ columns. map (λ c. c.ty) columns.items ≡ types.now) }
{
    let mut columns = Vec::new(alloc);
    for (payload, ty) in types.iter().enumerate() {
        let cells = inside(alloc, cells, case, payload)?;
        columns.push(Column { ty: *ty, cells })?;
    }
    Ok(columns)
}

/// Which patterns are still live at a value that begins so.
pub fn narrowed(
    alloc: Global,
    live: &[bool],
    cells: &[Option<&TPattern>],
    head: Head,
) -> Result<Vec<bool>, AllocError>
    ensures { IfOk result (λ bits. bits.items ≡ narrowed head live.now (said_all cells.now)) }
{
    let mut bits = Vec::new(alloc);
    for (live, cell) in live.iter().zip(cells) {
        bits.push(*live && accepts(head, *cell))?;
    }
    Ok(bits)
}

/// The numbers in a column, in rising order.
pub fn literals(alloc: Global, cells: &[Option<&TPattern>]) -> Result<Vec<i64>, AllocError>
    ensures { IfOk result (λ numbers. numbers.items ≡ rising (said_all cells.now)) }
{
    let mut numbers = BTreeSet::new(alloc);
    for cell in cells {
        if let Some(TPattern::Number(number)) = cell {
            numbers.insert(*number)?;
        }
    }
    numbers.into_iter().collect(alloc)
}

/// Whether a live pattern accepts this head and no other.
pub fn is_mentioned(live: &[bool], cells: &[Option<&TPattern>], head: Head) -> bool
    ensures { result ≡ is_mentioned head live.now (said_all cells.now) }
{
    for (live, cell) in live.iter().zip(cells) {
        if *live && accepts(head, *cell) && !accepts(Head::Other, *cell) {
            return true;
        }
    }
    false
}
