//! The order of findings.

ghost use Rattle.std.specs.Prelude.{◌≡◌};
ghost use Rattle.std.specs.Ordering.{is_eq};
ghost use Rattle.own_paths.specs.Findings.{rule_number};
ghost use Rattle.own_breaks.specs.Settling.{asked_place, is_better, place_cmp, question_cmp, span_cmp};

use own_tree::{Finding, Place, Rule, Span};
use std::cmp::Ordering;

/// The number of a rule, by which findings at one span are in order.
fn rule_number(rule: Rule) -> u32
    ensures { result ≡ rule_number rule }
{
    match rule {
        Rule::O1 => 0,
        Rule::O2 => 1,
        Rule::O3 => 2,
        Rule::O4 => 3,
        Rule::O5 => 4,
        Rule::O6 => 5,
        Rule::O7 => 6,
        Rule::O8 => 7,
        Rule::O9 => 8,
        Rule::O10 => 9,
        Rule::O11 => 10,
        Rule::F1 => 11,
    }
}

/// By where they begin, and then by where they end.
pub(crate) fn span_order(a: Span, b: Span) -> Ordering
    ensures { result ≡ span_cmp a b }
{
    a.start.cmp(&b.start).then(a.end.cmp(&b.end))
}

/// By their bindings, and then by their fields, number by number, a prefix first.
fn place_order(p: &Place, q: &Place) -> Ordering
    ensures { result ≡ place_cmp p.now q.now }
{
    p.binding
        .cmp(&q.binding)
        .then(p.fields.as_slice().cmp(&q.fields.as_slice()))
}

/// By the places of two findings of one rule, where that rule has a finding for each place: O3 and O5 have
/// one for all leaves at a return.
fn asked_place_order(f: &Finding, g: &Finding) -> Ordering
    requires { f.now.rule ≡ g.now.rule }
    ensures { result ≡ place_cmp (asked_place f.now.rule f.now.place) (asked_place g.now.rule g.now.place) }
{
    match f.rule {
        Rule::O3 | Rule::O5 => Ordering::Equal,
        _ => place_order(&f.place, &g.place),
    }
}

/// By what they answer: first by their spans, then by their rules, then by their places.
pub(crate) fn question_order(f: &Finding, g: &Finding) -> Ordering
    ensures { result ≡ question_cmp f.now g.now }
{
    let by_span = span_order(f.span, g.span);
    let by_rule = rule_number(f.rule).cmp(&rule_number(g.rule));
    match by_span.then(by_rule) {
        Ordering::Equal => asked_place_order(f, g),
        order => order,
    }
}

/// Whether two findings answer one question.
pub(crate) fn is_same_question(f: &Finding, g: &Finding) -> bool
    ensures { result ≡ is_eq (question_cmp f.now g.now) }
{
    question_order(f, g) == Ordering::Equal
}

/// Whether the first of two findings that answer one question is to be given: its cause comes first, or
/// its place where both have one cause.
pub(crate) fn is_better(f: &Finding, g: &Finding) -> bool
    ensures { result ≡ is_better f.now g.now }
{
    let by_cause = span_order(f.cause, g.cause);
    by_cause.then(place_order(&f.place, &g.place)) == Ordering::Less
}
