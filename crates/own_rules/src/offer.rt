//! Lists of what breaks rules.

ghost use Rattle.std.specs.Prelude.{◌≡◌, IfOk, OnOk};
ghost use Rattle.own_paths.specs.Fixed.{broken};
ghost use Rattle.own_breaks.specs.Settling.{offered};

use crate::order::{is_better, is_same_question};
use own_tree::{Finding, Place, Row, Rule, Span};
use std::alloc::{AllocError, Global};

/// A copy of a place.
pub(crate) fn copied_place(alloc: Global, place: &Place) -> Result<Place, AllocError>
    ensures { IfOk result (λ p. p ≡ place.now) }
{
    Ok(Place {
        binding: place.binding,
        fields: Row::from_slice(alloc, place.fields.as_slice())?,
    })
}

/// A finding at a place.
pub(crate) fn finding_at(
    alloc: Global,
    rule: Rule,
    span: Span,
    place: &Place,
    cause: Span,
) -> Result<Finding, AllocError>
    ensures { IfOk result (λ f. f ≡ broken rule span place.now cause) }
{
    Ok(Finding {
        rule,
        span,
        place: copied_place(alloc, place)?,
        cause,
    })
}

/// Adds a finding. Where the last one answers the same question, the better of the two stays.
pub(crate) fn offer(found: &mut Vec<Finding>, finding: Finding) -> Result<(), AllocError>
    ensures { OnOk result (found.new.items ≡ offered found.old.items finding) }
{
    let count = found.len();
    if count == 0 {
        found.push(finding)?;
        return Ok(());
    }
    let last = count - 1;
    if !is_same_question(&found[last], &finding) {
        found.push(finding)?;
        return Ok(());
    }
    if is_better(&finding, &found[last]) {
        found[last] = finding;
    }
    Ok(())
}
