//! Patterns that match all values of their type, and so say nothing of a value.

ghost use Rattle.std.specs.Prelude.{◌≡◌, true, map};
ghost use Rattle.own_tree.specs.TypedView.{pats_of, pattern_view};
ghost use Rattle.own_table.specs.Table.{types_in, shape_in_table, IsTypeIn};
ghost use Rattle.own_shapes.specs.Types.{shapes_of};
ghost use Rattle.own_match.specs.Search.{is_only_case, case_payloads, matches_all, parts_match_all, is_silent_at, says_nothing, one_is_silent};
ghost use Rattle.own_match.specs.View.{column_held, columns_held, AreTyped, AreTypes};

use crate::column::Column;
use crate::values::all_have_values;
use own_table::TypeTable;
use own_tree::{TPattern, Ty};

/// Whether no other case of an enum has a value.
fn is_only_case(table: &TypeTable, ty: Ty, case: u32) -> bool
    requires typed { IsTypeIn table.now ty }
    requires is_enum { (types_in table.now).is_enum ty ≡ true }
    ensures { result ≡ is_only_case (shape_in_table table.now ty) case }
{
    for (number, info) in table.cases(ty).iter().enumerate() {
        if number != case as usize && all_have_values(table, info.payloads.as_slice()) {
            return false;
        }
    }
    true
}

/// The types of the payloads of a case, and none where the enum has no such case.
fn case_payloads(table: &TypeTable, ty: Ty, case: u32) -> &[Ty]
    requires typed { IsTypeIn table.now ty }
    requires is_enum { (types_in table.now).is_enum ty ≡ true }
    ensures held { shapes_of (shape_in_table table.now) result.now ≡ case_payloads (shape_in_table table.now ty) case }
    ensures typed { AreTypes table.now result.now }
{
    match table.cases(ty).get(case as usize) {
        Some(info) => info.payloads.as_slice(),
        None => &[],
    }
}

/// Whether a pattern matches all values of a type: `_` or a name does, and the only case of an enum that
/// has a value, where each part does.
#[cycle(matches)]
fn matches_all(table: &TypeTable, ty: Ty, pattern: &TPattern) -> bool
    requires { IsTypeIn table.now ty }
    ensures { result ≡ matches_all (shape_in_table table.now ty) (pattern_view pattern.now) }
{
    match pattern {
        TPattern::Any | TPattern::Bind(_) => true,
        TPattern::Case(case, parts) => {
            table.is_enum(ty)
                && is_only_case(table, ty, *case)
                && parts_match_all(table, case_payloads(table, ty, *case), parts.as_slice())
        }
        TPattern::Number(_) | TPattern::Truth(_) => false,
    }
}

/// Whether each part matches all values of its payload.
#[cycle(matches)]
fn parts_match_all(table: &TypeTable, types: &[Ty], parts: &[TPattern]) -> bool
    requires { AreTypes table.now types.now }
    ensures { result ≡ parts_match_all (shapes_of (shape_in_table table.now) types.now) (pats_of (map pattern_view parts.now)) }
{
    for (ty, part) in types.iter().zip(parts) {
        if !matches_all(table, *ty, part) {
            return false;
        }
    }
    true
}

/// Whether a pattern matches all values at the place of a column.
fn is_silent(table: &TypeTable, column: &Column<'_>, number: usize) -> bool
    requires { IsTypeIn table.now column.now.ty }
    ensures { result ≡ is_silent_at number (column_held (shape_in_table table.now) column.now) }
{
    match column.cells.get(number) {
        Some(Some(pattern)) => matches_all(table, column.ty, *pattern),
        Some(None) => true,
        None => false,
    }
}

/// Whether it does so at each of these columns.
fn says_nothing(table: &TypeTable, todo: &[Column<'_>], number: usize) -> bool
    requires { AreTyped table.now todo.now }
    ensures { result ≡ says_nothing number (columns_held (shape_in_table table.now) todo.now) }
{
    for column in todo {
        if !is_silent(table, column, number) {
            return false;
        }
    }
    true
}

/// Whether a live pattern does so at each of these columns.
pub fn one_is_silent(table: &TypeTable, todo: &[Column<'_>], live: &[bool]) -> bool
    requires { AreTyped table.now todo.now }
    ensures { result ≡ one_is_silent 0 (columns_held (shape_in_table table.now) todo.now) live.now }
{
    for (number, is_live) in live.iter().enumerate() {
        if *is_live && says_nothing(table, todo, number) {
            return true;
        }
    }
    false
}
