//! Breaks of rules, and their order.

ghost use Rattle.std.specs.Prelude.{◌≡◌, IfOk, None};
ghost use Rattle.own_paths.specs.Findings.{rule_number};
ghost use Rattle.own_excl.specs.Order.{break_cmp, finding_cmp, repeats, kept_after};
ghost use Rattle.own_excl.specs.View.{break_view, breaks_view, last_view};

use crate::places::PlaceRef;
use own_tree::{Finding, Place, Row, Rule, Span};
use std::alloc::{AllocError, Global};
use std::cmp::Ordering;

/// A break of a rule, with one of its causes.
#[derive(Clone, Copy)]
pub(crate) struct Break<'t> {
    pub rule: Rule,
    pub span: Span,
    pub place: PlaceRef<'t>,
    pub cause: Span,
}

/// How many rules stand before a rule.
fn rule_number(rule: Rule) -> u8
    ensures { result ≡ rule_number rule }
{
    match rule {
        Rule::O1 => 0,
        Rule::O2 => 1,
        Rule::O3 => 2,
        Rule::O4 => 3,
        Rule::O5 => 4,
        Rule::O6 => 5,
        Rule::O7 => 6,
        Rule::O8 => 7,
        Rule::O9 => 8,
        Rule::O10 => 9,
        Rule::O11 => 10,
        Rule::F1 => 11,
    }
}

/// By span, then by rule, then by place.
fn compare_breaks(one: Break<'_>, other: Break<'_>) -> Ordering
    ensures { result ≡ break_cmp (break_view one.entry) (break_view other.entry) }
{
    one.span
        .start
        .cmp(&other.span.start)
        .then(one.span.end.cmp(&other.span.end))
        .then(rule_number(one.rule).cmp(&rule_number(other.rule)))
        .then(one.place.binding.cmp(&other.place.binding))
        .then(one.place.fields.cmp(other.place.fields))
}

/// And then by cause.
pub(crate) fn compare(one: Break<'_>, other: Break<'_>) -> Ordering
    ensures { result ≡ finding_cmp (break_view one.entry) (break_view other.entry) }
{
    compare_breaks(one, other)
        .then(one.cause.start.cmp(&other.cause.start))
        .then(one.cause.end.cmp(&other.cause.end))
}

/// Whether a break is that of the finding before it, with another cause or the same one.
fn is_repeated(last: Option<Break<'_>>, found: Break<'_>) -> bool
    ensures { result ≡ repeats (last_view last.entry) (break_view found.entry) }
{
    match last {
        Some(last) => compare_breaks(last, found) == Ordering::Equal,
        None => false,
    }
}

/// A break as a finding.
fn finding(alloc: Global, found: Break<'_>) -> Result<Finding, AllocError>
    ensures { IfOk result (λ finding. finding ≡ break_view found.entry) }
{
    let fields = Row::from_slice(alloc, found.place.fields)?;
    Ok(Finding {
        rule: found.rule,
        span: found.span,
        place: Place {
            binding: found.place.binding,
            fields,
        },
        cause: found.cause,
    })
}

/// The findings of breaks that are in order: of those that break one rule at one span and one place the
/// first one.
pub(crate) fn first_of_each(alloc: Global, breaks: &[Break<'_>]) -> Result<Row<Finding>, AllocError>
    ensures { IfOk result (λ row. row ≡ kept_after None (breaks_view breaks.now)) }
{
    let mut row = Row::new(alloc);
    let mut last = None;
    for found in breaks {
        if !is_repeated(last, *found) {
            row.push(finding(alloc, *found)?)?;
            last = Some(*found);
        }
    }
    Ok(row)
}
