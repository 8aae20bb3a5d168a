//! The one list of findings.

use own_tree::{Finding, Place, Row, Rule, Span};
use std::alloc::{AllocError, Global};
use std::cmp::Ordering;

/// The number of a rule, by which findings at one span are in order.
fn rule_number(rule: Rule) -> u8 {
    match rule {
        Rule::O1 => 0,
        Rule::O2 => 1,
        Rule::O3 => 2,
        Rule::O4 => 3,
        Rule::O5 => 4,
        Rule::O6 => 5,
        Rule::O7 => 6,
        Rule::O8 => 7,
        Rule::O9 => 8,
        Rule::O10 => 9,
        Rule::O11 => 10,
        Rule::F1 => 11,
    }
}

/// By where they begin, and then by where they end.
fn span_order(one: Span, other: Span) -> Ordering {
    one.start.cmp(&other.start).then(one.end.cmp(&other.end))
}

/// By their bindings, and then by their fields, number by number, a prefix first.
fn place_order(one: &Place, other: &Place) -> Ordering {
    one.binding
        .cmp(&other.binding)
        .then(one.fields.as_slice().cmp(&other.fields.as_slice()))
}

/// By span, then by rule, then by place: what two findings are of.
fn break_order(one: &Finding, other: &Finding) -> Ordering {
    span_order(one.span, other.span)
        .then(rule_number(one.rule).cmp(&rule_number(other.rule)))
        .then(place_order(&one.place, &other.place))
}

/// By what they are of, and then by their causes.
fn finding_order(one: &Finding, other: &Finding) -> Ordering {
    break_order(one, other).then(span_order(one.cause, other.cause))
}

/// Whether a finding is of the same break as the last one of a list.
fn is_repeated(row: &Row<Finding>, found: &Finding) -> bool {
    match row.as_slice().last() {
        Some(last) => break_order(last, found) == Ordering::Equal,
        None => false,
    }
}

/// The findings of all bodies in order, and of those of one break the one with the least cause.
pub(crate) fn first_of_each(
    alloc: Global,
    found: Vec<Finding>,
) -> Result<Row<Finding>, AllocError> {
    let mut found = found;
    found.sort_by(|one, other| finding_order(one, other))?;
    let mut row = Row::new(alloc);
    for finding in found {
        if !is_repeated(&row, &finding) {
            row.push(finding)?;
        }
    }
    Ok(row)
}
