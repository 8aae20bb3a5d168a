//! From all that breaks a rule to the findings.

ghost use Rattle.std.specs.Prelude.{IfOk};
ghost use Rattle.own_breaks.specs.Settling.{AreBest};

use crate::offer::{finding_at, offer};
use crate::order::question_order;
use own_tree::{Finding, Row};
use std::alloc::{AllocError, Global};

/// Of the findings that answer one question the best, all in order.
pub(crate) fn best(alloc: Global, mut found: Vec<Finding>) -> Result<Row<Finding>, AllocError>
    ensures { IfOk result (AreBest found.items) }
{
    found.sort_unstable_by(|f, g| question_order(f, g));
    let mut best = Vec::new(alloc);
    'found: for k in 0..found.len() {
        let f = &found[k];
        offer(
            &mut best,
            finding_at(alloc, f.rule, f.span, &f.place, f.cause)?,
        )?;
    }
    Ok(Row::from_vec(best))
}
