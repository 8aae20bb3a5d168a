ghost use Rattle.std.specs.Prelude.{◌≡◌, ◌↔◌, true, IfOk, Some, map, replicate, length};
ghost use Rattle.own_tree.specs.TypedView.{pats_of, pattern_view};
ghost use Rattle.own_table.specs.Table.{shape_in_table, IsTypeIn};
ghost use Rattle.own_match.specs.Answers.{IsAll, OnMissing, single};
ghost use Rattle.own_match.specs.Forms.{IsMissing, IsFirst};
ghost use Rattle.own_match.specs.Search.{gap, gap_end};
ghost use Rattle.own_match.specs.Values.{Covers};
ghost use Rattle.own_match.specs.View.{said_all, forms_held};

use crate::column::Column;
use crate::search::Search;
use own_table::TypeTable;
use own_tree::{Cover, TPattern, Ty};
use std::alloc::{AllocError, Global};

/// What the patterns say at the value as a whole.
fn whole_cells<'p>(
    alloc: Global,
    patterns: &'p [TPattern],
) -> Result<Vec<Option<&'p TPattern>>, AllocError>
    ensures { IfOk result (λ cells. said_all cells.items ≡ map pattern_view patterns.now) }
{
    let mut cells = Vec::new(alloc);
    for pattern in patterns {
        cells.push(Some(pattern))?;
    }
    Ok(cells)
}

/// All of so many patterns are live.
fn all_live(alloc: Global, count: usize) -> Result<Vec<bool>, AllocError>
    ensures { IfOk result (λ live. live.items ≡ replicate count true) }
{
    vec![in alloc; true; count]
}

/// The form that was found at the value as a whole.
fn only_form(forms: Vec<TPattern>) -> Option<TPattern>
    requires { length forms.items ≡ 1 }
    ensures { single result ≡ Some (pats_of (map pattern_view forms.items)) }
{
    let mut forms = forms;
    forms.pop()
}

/// The first form of a type that the patterns miss.
fn missing_form(
    alloc: Global,
    table: &TypeTable,
    ty: Ty,
    patterns: &[TPattern],
) -> Result<Option<TPattern>, AllocError>
    requires { IsTypeIn table.now ty }
    ensures { IfOk result (λ form. single form
        ≡ gap (shape_in_table table.now ty) (map pattern_view patterns.now) gap_end (replicate (length patterns.now) true)) }
{
    let cells = whole_cells(alloc, patterns)?;
    let live = all_live(alloc, patterns.len())?;
    let search = Search { alloc, table };
    match search.first_gap(&[Column { ty, cells }], live.as_slice())? {
        Some(forms) => Ok(only_form(forms)),
        None => Ok(None),
    }
}

/// Whether every value of a type matches one of the patterns, and else the first form of a value that
/// matches none. The type is one of the table. A guard is no part of a pattern: the caller leaves the
/// patterns of guarded clauses out.
pub fn cover(
    alloc: Global,
    table: &TypeTable,
    ty: Ty,
    patterns: &[TPattern],
) -> Result<Cover, AllocError>
    requires { IsTypeIn table.now ty }
    ensures all { IfOk result (λ c. IsAll c ↔ Covers (map pattern_view patterns.now) (shape_in_table table.now ty)) }
    ensures missing { IfOk result (λ c. OnMissing c (IsMissing (shape_in_table table.now ty) (map pattern_view patterns.now))) }
    ensures first { IfOk result (λ c. OnMissing c (IsFirst (shape_in_table table.now ty) (map pattern_view patterns.now))) }
{
    match missing_form(alloc, table, ty, patterns)? {
        Some(form) => Ok(Cover::Missing(form)),
        None => Ok(Cover::All),
    }
}
