//! Patterns after a `let`, in which names bind.
ghost use Rattle.std.specs.Prelude.{◌≡◌, ◌<◌, ◌+◌, length, map, [], IfOk};
ghost use Rattle.own_expr.specs.Gives.{Gives};
ghost use Rattle.own_grammar.specs.Reading as spec;
ghost use Rattle.own_tree.specs.Source as source;
ghost use Rattle.own_tree.specs.View.{let_pattern_view, let_pats_of};

use crate::fault::ReadError;
use crate::next::{after, here, is_mark, name_at, number_at, till, truth_at};
use crate::operators::negative_at;
use own_grammar::limits::MOST_PATTERN_LEVELS;
use own_tree::tree::{LetPattern, Name};
use own_tree::{Mark, Span, Token};
use sqlite_items::Items;
use std::alloc::Global;

/// A number, a negative one, `true` or `false`.
#[tactic(auto, unfolding(own_grammar::specs::Reading::let_literal_with))]
fn let_literal_of(rest: &[Token]) -> Result<(LetPattern, &[Token]), ReadError>
    ensures gives { Gives (λ x. (let_pattern_view x.0, x.1.now)) result (spec.let_literal_with rest.now) }
    ensures shorter { IfOk result (λ x. length x.1.now < length rest.now) }
{
    if let Some(truth) = truth_at(rest) {
        return Ok((LetPattern::Truth(here(rest), truth), after(rest)));
    }
    if let Some(n) = number_at(rest) {
        return Ok((LetPattern::Number(here(rest), false, n), after(rest)));
    }
    if let Some(n) = negative_at(false, rest) {
        let more = after(rest);
        let span = till(here(rest), here(more));
        return Ok((LetPattern::Number(span, true, n), after(more)));
    }
    Err(ReadError::Syntax(rest.len()))
}

/// A case with its parts.
fn let_case(span: Span, name: Name, parts: Items<LetPattern>) -> LetPattern
    ensures { let_pattern_view result ≡ source.let_case span name (let_pats_of (map let_pattern_view parts)) }
{
    LetPattern::Case(span, name, parts)
}

/// The parts of a case, after its `(`. The case begins at `from`.
#[cycle(let_patterns)]
#[tactic(auto, unfolding(own_grammar::specs::Reading::let_parts_with))]
fn let_parts_of<'a>(
    alloc: Global,
    rest: &'a [Token],
    from: &[Token],
    name: Name,
    level: u32,
) -> Result<(LetPattern, &'a [Token]), ReadError>
    ensures gives { Gives (λ x. (let_pattern_view x.0, x.1.now)) result (spec.let_parts_with MOST_PATTERN_LEVELS (spec.read_pattern MOST_PATTERN_LEVELS) level from.now name rest.now) }
    ensures shorter { IfOk result (λ x. length x.1.now < length rest.now) }
{
    if level >= MOST_PATTERN_LEVELS {
        return Err(ReadError::Depth(rest.len()));
    }
    let (parts, more) = let_patterns_of(alloc, rest, level + 1)?;
    if !is_mark(Mark::CloseParen, more) {
        return Err(ReadError::Syntax(more.len()));
    }
    let span = till(here(from), here(more));
    Ok((let_case(span, name, parts), after(more)))
}

/// A case, the dot of which is the next token.
#[cycle(let_patterns)]
#[tactic(auto, unfolding(own_grammar::specs::Reading::let_case_with))]
fn let_case_of(
    alloc: Global,
    rest: &[Token],
    level: u32,
) -> Result<(LetPattern, &[Token]), ReadError>
    requires some { 0 < length rest.now }
    ensures gives { Gives (λ x. (let_pattern_view x.0, x.1.now)) result (spec.let_case_with MOST_PATTERN_LEVELS (spec.read_pattern MOST_PATTERN_LEVELS) level rest.now) }
    ensures shorter { IfOk result (λ x. length x.1.now < length rest.now) }
{
    let more = after(rest);
    let Some(name) = name_at(alloc, more)? else {
        return Err(ReadError::Syntax(more.len()));
    };
    let last = after(more);
    if is_mark(Mark::OpenParen, last) {
        return let_parts_of(alloc, after(last), rest, name, level);
    }
    let span = till(here(rest), here(more));
    Ok((LetPattern::Case(span, name, Items::new(alloc)), last))
}

#[cycle(let_patterns)]
#[tactic(auto, unfolding(own_grammar::specs::Reading::let_pattern_with))]
fn let_pattern_of(
    alloc: Global,
    rest: &[Token],
    level: u32,
) -> Result<(LetPattern, &[Token]), ReadError>
    ensures gives { Gives (λ x. (let_pattern_view x.0, x.1.now)) result (spec.let_pattern_with MOST_PATTERN_LEVELS (spec.read_pattern MOST_PATTERN_LEVELS) level rest.now) }
    ensures shorter { IfOk result (λ x. length x.1.now < length rest.now) }
{
    if is_mark(Mark::Underscore, rest) {
        return Ok((LetPattern::Any(here(rest)), after(rest)));
    }
    if is_mark(Mark::Dot, rest) {
        return let_case_of(alloc, rest, level);
    }
    if let Some(name) = name_at(alloc, rest)? {
        return Ok((LetPattern::Bind(name), after(rest)));
    }
    let_literal_of(rest)
}

/// Patterns with commas between them.
#[cycle(let_patterns)]
fn let_pattern_list(
    alloc: Global,
    rest: &[Token],
    level: u32,
) -> Result<(Items<LetPattern>, &[Token]), ReadError>
    ensures gives { Gives (λ x. (map let_pattern_view x.0, x.1.now)) result (spec.let_patterns_with MOST_PATTERN_LEVELS (spec.read_pattern MOST_PATTERN_LEVELS) [] level rest.now) }
    ensures shorter { IfOk result (λ x. length x.1.now < length rest.now) }
{
    let mut found = Items::new(alloc);
    let mut left = rest;
    loop {
        let (pattern, more) = let_pattern_of(alloc, left, level)?;
        found.push(pattern)?;
        if !is_mark(Mark::Comma, more) {
            return Ok((found, more));
        }
        left = after(more);
    }
}

#[cycle(let_patterns)]
#[tactic(auto, using(crate::proofs::LetPatternList::list_is))]
fn let_patterns_of(
    alloc: Global,
    rest: &[Token],
    level: u32,
) -> Result<(Items<LetPattern>, &[Token]), ReadError>
    ensures gives { Gives (λ x. (map let_pattern_view x.0, x.1.now)) result (spec.read_pattern MOST_PATTERN_LEVELS (spec.PatternGoal.let_patterns_on []) level rest.now) }
    ensures shorter { IfOk result (λ x. length x.1.now < length rest.now) }
{
    let_pattern_list(alloc, rest, level)
}

/// The pattern after a `let`, and what follows.
#[tactic(auto, using(crate::proofs::LetPatternList::one_is))]
pub(crate) fn let_pattern_goal(
    alloc: Global,
    rest: &[Token],
    level: u32,
) -> Result<(LetPattern, &[Token]), ReadError>
    ensures gives { Gives (λ x. (let_pattern_view x.0, x.1.now)) result (spec.read_pattern MOST_PATTERN_LEVELS spec.PatternGoal.let_pattern level rest.now) }
    ensures shorter { IfOk result (λ x. length x.1.now < length rest.now) }
{
    let_pattern_of(alloc, rest, level)
}
