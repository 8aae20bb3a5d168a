//! The findings of the fixed rules.

ghost use Rattle.std.specs.Prelude.{◌≡◌, ◌<◌, length, IfOk, IsPermutation, IsSortedByKey};
ghost use Rattle.own_tree.specs.TypedView.{block_view, program_view};
ghost use Rattle.own_table.specs.Table.{types_in};
ghost use Rattle.own_excl.specs.Found.{block_found};
ghost use Rattle.own_excl.specs.Order.{finding_cmp, AreFixedFindingsIn};
ghost use Rattle.own_excl.specs.View.{break_view, breaks_view, types_for, program_for};

use crate::breaks::{Break, compare, first_of_each};
use crate::walk::Walk;
use own_table::TypeTable;
use own_tree::typed::TypedBlock;
use own_tree::{Finding, Row, Typed};
use own_within::{expressions_of, statements_in};
use std::alloc::{AllocError, Global};

impl<'t> Walk<'t> {
    /// All breaks of a block.
    fn block_breaks(&self, block: &'t TypedBlock) -> Result<Vec<Break<'t>>, AllocError>
        ensures { IfOk result (λ breaks. breaks_view breaks.items
            ≡ block_found (types_for self.now) (program_for self.now) self.now.body (block_view block.now)) }
    {
        let mut changes = Vec::new(self.alloc);
        self.push_block(&mut changes, block)?;
        let statements = statements_in(self.alloc, block)?;
        let exprs = expressions_of(self.alloc, statements.as_slice())?;
        let mut breaks = Vec::new(self.alloc);
        self.push_changes(&mut breaks, changes.as_slice())?;
        self.push_calls(&mut breaks, exprs.as_slice())?;
        self.push_switches(&mut breaks, statements.as_slice())?;
        Ok(breaks)
    }
}

/// Breaks in order, each rule at one span and one place with its causes in order.
fn sorted(breaks: Vec<Break<'_>>) -> Result<Vec<Break<'_>>, AllocError>
    ensures moved { IfOk result (λ sorted. IsPermutation breaks.entry.items sorted.items) }
    ensures ordered { IfOk result (λ sorted. IsSortedByKey break_view finding_cmp sorted.items) }
{
    let mut breaks = breaks;
    breaks.sort_by(|one, other| compare(*one, *other))?;
    Ok(breaks)
}

/// What breaks O7 to O11 in a body, by its number, whatever ways lead there: each break once, in order of
/// span, then of rule, then of place, with the cause of least position. Want of memory alone gives none.
pub fn fixed_findings(
    alloc: Global,
    typed: &Typed,
    table: &TypeTable,
    body: u32,
) -> Result<Row<Finding>, AllocError>
    requires { body < length typed.now.bodies }
    ensures { IfOk result (AreFixedFindingsIn (types_in table.now) (program_view typed.now) body) }
{
    let walk = Walk {
        alloc,
        typed,
        table,
        body,
    };
    let breaks = walk.block_breaks(&typed.bodies.as_slice()[body as usize].block)?;
    let sorted = sorted(breaks)?;
    first_of_each(alloc, sorted.as_slice())
}
