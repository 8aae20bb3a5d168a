//! Whether the patterns of a `switch` cover its subject (T20).

ghost use Rattle.std.specs.Prelude.{map, IfOk};
ghost use Rattle.own_tree.specs.TypedView.{pattern_view};
ghost use Rattle.own_table.specs.Table.{shape_in_table, types_in};
ghost use Rattle.own_judging.specs.Made.{Made};
ghost use Rattle.own_judged.specs.Refusals.{Gives};
ghost use Rattle.own_judged.specs.Rules.{covering as covering_rule};
ghost use Rattle.own_patterns.specs.Covers.{CoversOr};

use crate::forms::printed;
use own_calls::TypeError;
use own_match::cover;
use own_scope::types::is_type;
use own_table::TypeTable;
use own_tree::{Cover, Span, TPattern, Ty};
use std::alloc::{AllocError, Global};

/// What the patterns leave out. A type that is not in the table has no part, as `Unit` has none.
fn cover_of(
    alloc: Global,
    table: &TypeTable,
    ty: Ty,
    patterns: &[TPattern],
) -> Result<Cover, AllocError>
    ensures { IfOk result (CoversOr (shape_in_table table.now ty) (map pattern_view patterns.now)) }
{
    if is_type(table, ty) {
        cover(alloc, table, ty, patterns)
    } else {
        cover(alloc, table, Ty::Unit, patterns)
    }
}

/// The judgement at that place that the patterns without a guard match each value of a type. Else
/// `Uncovered` names the first form that they leave out (T20).
pub fn covering(
    alloc: Global,
    table: &TypeTable,
    ty: Ty,
    patterns: &[TPattern],
    at: Span,
) -> Result<(), TypeError>
    ensures { (s : Made) → Gives (types_in table.now) (λ x. tt) result s
        ((covering_rule (types_in table.now) ty (map pattern_view patterns.now) at).run s) }
{
    match cover_of(alloc, table, ty, patterns)? {
        Cover::All => Ok(()),
        Cover::Missing(form) => Err(TypeError::Uncovered {
            at,
            form: printed(alloc, table, &form, ty)?,
        }),
    }
}
