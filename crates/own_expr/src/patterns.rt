//! The patterns of a clause.
ghost use Rattle.std.specs.Prelude.{◌≡◌, ◌<◌, ◌+◌, length, map, [], IfOk};
ghost use Rattle.own_expr.specs.Gives.{Gives};
ghost use Rattle.own_grammar.specs.Reading as spec;
ghost use Rattle.own_tree.specs.Source as source;
ghost use Rattle.own_tree.specs.View.{pattern_view, pats_of};

use crate::fault::ReadError;
use crate::let_patterns::let_pattern_goal;
use crate::next::{after, here, is_mark, is_word, name_at, number_at, till, truth_at};
use crate::nodes::let_pattern_span;
use crate::operators::negative_at;
use own_grammar::limits::MOST_PATTERN_LEVELS;
use own_tree::tree::{Name, Pattern};
use own_tree::{Mark, Row, Span, Token, Word};
use sqlite_items::Items;
use std::alloc::Global;

/// A number, a negative one, `true` or `false`.
#[tactic(auto, unfolding(own_grammar::specs::Reading::literal_pattern_with))]
fn literal_pattern_of(rest: &[Token]) -> Result<(Pattern, &[Token]), ReadError>
    ensures gives { Gives (λ x. (pattern_view x.0, x.1.now)) result (spec.literal_pattern_with rest.now) }
    ensures shorter { IfOk result (λ x. length x.1.now < length rest.now) }
{
    if let Some(truth) = truth_at(rest) {
        return Ok((Pattern::Truth(here(rest), truth), after(rest)));
    }
    if let Some(n) = number_at(rest) {
        return Ok((Pattern::Number(here(rest), false, n), after(rest)));
    }
    if let Some(n) = negative_at(false, rest) {
        let more = after(rest);
        let span = till(here(rest), here(more));
        return Ok((Pattern::Number(span, true, n), after(more)));
    }
    Err(ReadError::Syntax(rest.len()))
}

/// `let`, and a name or a case in which names bind.
#[tactic(auto, unfolding(own_grammar::specs::Reading::bind_with))]
fn bind_of(alloc: Global, rest: &[Token], level: u32) -> Result<(Pattern, &[Token]), ReadError>
    requires some { 0 < length rest.now }
    ensures gives { Gives (λ x. (pattern_view x.0, x.1.now)) result (spec.bind_with (spec.read_pattern MOST_PATTERN_LEVELS) level rest.now) }
    ensures shorter { IfOk result (λ x. length x.1.now < length rest.now) }
{
    let more = after(rest);
    if let Some(name) = name_at(alloc, more)? {
        let span = till(here(rest), here(more));
        return Ok((Pattern::Bind(span, name), after(more)));
    }
    if !is_mark(Mark::Dot, more) {
        return Err(ReadError::Syntax(more.len()));
    }
    let (pattern, last) = let_pattern_goal(alloc, more, level)?;
    let span = till(here(rest), let_pattern_span(&pattern));
    Ok((Pattern::BindCase(span, pattern), last))
}

/// A case with its parts.
fn on_case(span: Span, name: Name, parts: Row<Pattern>) -> Pattern
    ensures { pattern_view result ≡ source.on_case span name (pats_of (map pattern_view parts)) }
{
    Pattern::Case(span, name, Items::from_vec(parts.into_vec()))
}

/// The parts of a case, after its `(`. The case begins at `from`.
#[cycle(patterns)]
#[tactic(auto, unfolding(own_grammar::specs::Reading::parts_with))]
fn parts_of<'a>(
    alloc: Global,
    rest: &'a [Token],
    from: &[Token],
    name: Name,
    level: u32,
) -> Result<(Pattern, &'a [Token]), ReadError>
    ensures gives { Gives (λ x. (pattern_view x.0, x.1.now)) result (spec.parts_with MOST_PATTERN_LEVELS (spec.read_pattern MOST_PATTERN_LEVELS) level from.now name rest.now) }
    ensures shorter { IfOk result (λ x. length x.1.now < length rest.now) }
{
    if level >= MOST_PATTERN_LEVELS {
        return Err(ReadError::Depth(rest.len()));
    }
    let (parts, more) = patterns_of(alloc, rest, level + 1)?;
    if !is_mark(Mark::CloseParen, more) {
        return Err(ReadError::Syntax(more.len()));
    }
    let span = till(here(from), here(more));
    Ok((on_case(span, name, parts), after(more)))
}

/// A case, the dot of which is the next token.
#[cycle(patterns)]
#[tactic(auto, unfolding(own_grammar::specs::Reading::case_with))]
fn case_of(alloc: Global, rest: &[Token], level: u32) -> Result<(Pattern, &[Token]), ReadError>
    requires some { 0 < length rest.now }
    ensures gives { Gives (λ x. (pattern_view x.0, x.1.now)) result (spec.case_with MOST_PATTERN_LEVELS (spec.read_pattern MOST_PATTERN_LEVELS) level rest.now) }
    ensures shorter { IfOk result (λ x. length x.1.now < length rest.now) }
{
    let more = after(rest);
    let Some(name) = name_at(alloc, more)? else {
        return Err(ReadError::Syntax(more.len()));
    };
    let last = after(more);
    if is_mark(Mark::OpenParen, last) {
        return parts_of(alloc, after(last), rest, name, level);
    }
    let span = till(here(rest), here(more));
    Ok((Pattern::Case(span, name, Items::new(alloc)), last))
}

#[cycle(patterns)]
#[tactic(auto, unfolding(own_grammar::specs::Reading::pattern_with))]
fn pattern_of(alloc: Global, rest: &[Token], level: u32) -> Result<(Pattern, &[Token]), ReadError>
    ensures gives { Gives (λ x. (pattern_view x.0, x.1.now)) result (spec.pattern_with MOST_PATTERN_LEVELS (spec.read_pattern MOST_PATTERN_LEVELS) level rest.now) }
    ensures shorter { IfOk result (λ x. length x.1.now < length rest.now) }
{
    if is_mark(Mark::Underscore, rest) {
        return Ok((Pattern::Any(here(rest)), after(rest)));
    }
    if is_word(Word::Let, rest) {
        return bind_of(alloc, rest, level);
    }
    if is_mark(Mark::Dot, rest) {
        return case_of(alloc, rest, level);
    }
    literal_pattern_of(rest)
}

/// Patterns with commas between them.
#[cycle(patterns)]
fn pattern_list(
    alloc: Global,
    rest: &[Token],
    level: u32,
) -> Result<(Row<Pattern>, &[Token]), ReadError>
    ensures gives { Gives (λ x. (map pattern_view x.0, x.1.now)) result (spec.patterns_with MOST_PATTERN_LEVELS (spec.read_pattern MOST_PATTERN_LEVELS) [] level rest.now) }
    ensures shorter { IfOk result (λ x. length x.1.now < length rest.now) }
{
    let mut found = Row::new(alloc);
    let mut left = rest;
    loop {
        let (pattern, more) = pattern_of(alloc, left, level)?;
        found.push(pattern)?;
        if !is_mark(Mark::Comma, more) {
            return Ok((found, more));
        }
        left = after(more);
    }
}

/// The patterns of a clause or of a case, with commas between them, and what follows. Each of them is
/// at `level`: those of a clause are at level 1.
#[cycle(patterns)]
#[tactic(auto, using(crate::proofs::PatternList::list_is))]
pub(crate) fn patterns_of(
    alloc: Global,
    rest: &[Token],
    level: u32,
) -> Result<(Row<Pattern>, &[Token]), ReadError>
    ensures gives { Gives (λ x. (map pattern_view x.0, x.1.now)) result (spec.read_pattern MOST_PATTERN_LEVELS (spec.PatternGoal.patterns_on []) level rest.now) }
    ensures shorter { IfOk result (λ x. length x.1.now < length rest.now) }
{
    pattern_list(alloc, rest, level)
}
