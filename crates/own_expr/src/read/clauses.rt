//! The clauses of a `switch`. A clause is no node.

ghost use Rattle.std.specs.Prelude.{◌≡◌, ◌≤◌, ◌<◌, ◌+◌, length, map, max, [], IfOk};
ghost use Rattle.own_tree.specs.View.{stmt_view, clause_view, pattern_view, clauses_of, stms_of};
ghost use Rattle.own_grammar.specs.Nesting.{nest_stms, nest_when, nest_clauses};
ghost use Rattle.own_grammar.specs.Reading as spec;
ghost use Rattle.own_expr.specs.Gives.{Gives};
ghost use Rattle.own_expr.specs.Reads.{reader};
ghost use Rattle.own_expr.specs.Views.{head_view};

use super::Read;
use super::blocks::separated_of;
use super::expressions::expression_goal;
use crate::fault::{ReadError, without};
use crate::lines::ends_clause;
use crate::makers::{case_head, guarded_head};
use crate::next::{after, here, is_mark, is_word, till};
use crate::nodes::{larger, only_pattern, statements_end};
use crate::patterns::patterns_of;
use own_grammar::Context;
use own_grammar::limits::MOST_PATTERN_LEVELS;
use own_tree::limits::MOST_NESTING;
use own_tree::tree::{Clause, Head, Pattern, Stmt};
use own_tree::{Mark, Row, Token, Word};
use sqlite_items::Items;
use std::alloc::Global;

/// The statements of a clause, of which there is one at least.
#[cycle(parse)]
fn clause_goal(alloc: Global, rest: &[Token], depth: u32) -> Read<'_, Items<Stmt>>
    requires limit { depth ≤ MOST_NESTING }
    ensures gives { Gives (λ x. (map stmt_view x.0, x.2.now)) result (reader (spec.Goal.clause_on []) depth rest.now) }
    ensures height { IfOk result (λ x. x.1 ≡ nest_stms (stms_of (map stmt_view x.0))) }
    ensures fits { IfOk result (λ x. depth + x.1 ≤ MOST_NESTING) }
    ensures shorter { IfOk result (λ x. length x.2.now < length rest.now) }
{
    let mut found = Items::new(alloc);
    let mut height = 0;
    let mut left = rest;
    loop {
        let (statement, more_height, more) = separated_of(alloc, left, depth)?;
        found.push(statement)?;
        height = larger(height, more_height);
        if ends_clause(more) {
            return Ok((found, height, more));
        }
        left = more;
    }
}

/// After the patterns of a `case`: a `where` stands only after a single one.
#[cycle(parse)]
fn where_of(alloc: Global, rest: &[Token], patterns: Row<Pattern>, depth: u32) -> Read<'_, Head>
    requires limit { depth ≤ MOST_NESTING }
    ensures gives { Gives (λ x. (head_view x.0, x.2.now)) result (spec.where_with reader depth (map pattern_view patterns) rest.now) }
    ensures height { IfOk result (λ x. x.1 ≡ nest_when (head_view x.0)) }
    ensures fits { IfOk result (λ x. depth + x.1 ≤ MOST_NESTING) }
    ensures shorter { IfOk result (λ x. length x.2.now ≤ length rest.now) }
{
    if !is_word(Word::Where, rest) {
        return Ok((case_head(patterns), 0, rest));
    }
    match only_pattern(patterns) {
        Ok(pattern) => {
            let start = after(rest);
            let (guard, height, more) = expression_goal(alloc, start, Context::Plain, depth)?;
            let head = guarded_head(pattern, guard);
            Ok((head, height, more))
        }
        Err(patterns) => Ok((case_head(patterns), 0, rest)),
    }
}

/// What stands before the `:` of a clause.
#[cycle(parse)]
#[tactic(auto, unfolding(own_grammar::specs::Reading::head_with))]
fn head_of(alloc: Global, rest: &[Token], depth: u32) -> Read<'_, Head>
    requires limit { depth ≤ MOST_NESTING }
    ensures gives { Gives (λ x. (head_view x.0, x.2.now)) result (spec.head_with MOST_PATTERN_LEVELS reader depth rest.now) }
    ensures height { IfOk result (λ x. x.1 ≡ nest_when (head_view x.0)) }
    ensures fits { IfOk result (λ x. depth + x.1 ≤ MOST_NESTING) }
    ensures shorter { IfOk result (λ x. length x.2.now < length rest.now) }
{
    if is_word(Word::Case, rest) {
        let (patterns, more) = patterns_of(alloc, after(rest), 1)?;
        return where_of(alloc, more, patterns, depth);
    }
    if is_word(Word::Default, rest) {
        return Ok((Head::Default, 0, after(rest)));
    }
    Err(ReadError::Syntax(rest.len()))
}

#[cycle(parse)]
#[tactic(auto, unfolding(own_grammar::specs::Reading::clause_with))]
fn clause_of(alloc: Global, rest: &[Token], depth: u32) -> Read<'_, Clause>
    requires limit { depth ≤ MOST_NESTING }
    ensures gives { Gives (λ x. (clause_view x.0, x.2.now)) result (spec.clause_with MOST_PATTERN_LEVELS reader depth rest.now) }
    ensures height { IfOk result (λ x. x.1 ≡ max (nest_when (clause_view x.0).1) (nest_stms (clause_view x.0).2)) }
    ensures fits { IfOk result (λ x. depth + x.1 ≤ MOST_NESTING) }
    ensures shorter { IfOk result (λ x. length x.2.now < length rest.now) }
{
    let (head, head_height, more) = head_of(alloc, rest, depth)?;
    if !is_mark(Mark::Colon, more) {
        return Err(without(head, ReadError::Syntax(more.len())));
    }
    let (statements, height, last) = match clause_goal(alloc, after(more), depth) {
        Ok(statements) => statements,
        Err(fault) => return Err(without(head, fault)),
    };
    let span = till(
        here(rest),
        statements_end(here(more), statements.as_slice()),
    );
    Ok((
        Clause {
            span,
            head,
            statements,
        },
        head_height.max(height),
        last,
    ))
}

/// The clauses before the `}` of a `switch`.
#[cycle(parse)]
pub fn clauses_goal(alloc: Global, rest: &[Token], depth: u32) -> Read<'_, Items<Clause>>
    requires limit { depth ≤ MOST_NESTING }
    ensures gives { Gives (λ x. (map clause_view x.0, x.2.now)) result (reader (spec.Goal.clauses_on []) depth rest.now) }
    ensures height { IfOk result (λ x. x.1 ≡ nest_clauses (clauses_of (map clause_view x.0))) }
    ensures fits { IfOk result (λ x. depth + x.1 ≤ MOST_NESTING) }
    ensures shorter { IfOk result (λ x. length x.2.now ≤ length rest.now) }
{
    let mut found = Items::new(alloc);
    let mut height = 0;
    let mut left = rest;
    while !is_mark(Mark::CloseBrace, left) {
        let (clause, more_height, more) = clause_of(alloc, left, depth)?;
        found.push(clause)?;
        height = larger(height, more_height);
        left = more;
    }
    Ok((found, height, left))
}
