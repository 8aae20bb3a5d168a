//! The forms that a search has found, and the columns that it has still to look at.

ghost use Rattle.std.specs.Prelude.{◌≡◌, ◌≤◌, ◌++◌, IfOk, Some, map, vec_len};
ghost use Rattle.own_tree.specs.TypedView.{pattern_view};
ghost use Rattle.own_tree.specs.declared.place.Ty.{Ty};
ghost use Rattle.own_shapes.specs.Types.{Shape};
ghost use Rattle.own_match.specs.View.{columns_held, forms_held};
ghost use Rattle.own_match.specs.Search.{led, gathered, any_live, gap_end};

use crate::column::Column;
use own_tree::TPattern;
use sqlite_items::Items;
use std::alloc::{AllocError, Global};

/// A form before those that were found behind it.
pub fn put_first(
    form: TPattern,
    mut forms: Vec<TPattern>,
) -> Result<Option<Vec<TPattern>>, AllocError>
    ensures { IfOk result (λ gap. forms_held gap ≡ led (pattern_view form) (forms_held (Some forms))) }
{
    forms.insert(0, form)?;
    Ok(Some(forms))
}

/// The first forms as those of the payloads of a case.
pub fn gather(
    case: u32,
    count: usize,
    mut forms: Vec<TPattern>,
) -> Result<Option<Vec<TPattern>>, AllocError>
    requires { count ≤ vec_len forms }
    ensures { IfOk result (λ gap. forms_held gap ≡ gathered case count (forms_held (Some forms))) }
{
    let rest = forms.split_off(count)?;
    put_first(TPattern::Case(case, Items::from_vec(forms)), rest)
}

/// A column with the same cells.
fn copied<'p>(alloc: Global, column: &Column<'p>) -> Result<Column<'p>, AllocError>
    ensures { IfOk result (λ copy. (copy.ty ≡ column.now.ty) × (copy.cells.items ≡ column.now.cells.items)) }
{
    Ok(Column {
        ty: column.ty,
        cells: Vec::from_slice(alloc, column.cells.as_slice())?,
    })
}

/// These columns before others.
pub fn joined<'p>(
    alloc: Global,
    columns: Vec<Column<'p>>,
    rest: &[Column<'p>],
) -> Result<Vec<Column<'p>>, AllocError>
    ensures held { IfOk result (λ todo. (shape : Ty → Shape) → columns_held shape todo.items ≡ columns_held shape columns.entry.items ++ columns_held shape rest.now) }
    ensures types { IfOk result (λ todo. map (λ c. c.ty) todo.items ≡ map (λ c. c.ty) columns.entry.items ++ map (λ c. c.ty) rest.now) }
{
    let mut todo = columns;
    for column in rest {
        todo.push(copied(alloc, column)?)?;
    }
    Ok(todo)
}

fn any_live(live: &[bool]) -> bool
    ensures { result ≡ any_live live.now }
{
    for live in live {
        if *live {
            return true;
        }
    }
    false
}

/// What is missing behind the last column: nothing where a pattern is still live, and else the empty
/// list of forms.
pub fn gap_at_end(alloc: Global, live: &[bool]) -> Option<Vec<TPattern>>
    ensures { forms_held result ≡ gap_end live.now }
{
    if any_live(live) {
        None
    } else {
        Some(Vec::new(alloc))
    }
}
