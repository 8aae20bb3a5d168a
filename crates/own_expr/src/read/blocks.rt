//! Statements with what stands between them, and blocks.

ghost use Rattle.std.specs.Prelude.{◌≡◌, ◌≤◌, ◌<◌, ◌+◌, length, map, [], IfOk};
ghost use Rattle.own_tree.specs.View.{stmt_view, block_view, stms_of};
ghost use Rattle.own_grammar.specs.Nesting.{nest_stm, nest_stms, nest_blk};
ghost use Rattle.own_grammar.specs.Reading as spec;
ghost use Rattle.own_expr.specs.Gives.{Gives};
ghost use Rattle.own_expr.specs.Reads.{reader};

use super::Read;
use super::statements::statement_of;
use crate::fault::ReadError;
use crate::lines::sep_at;
use crate::next::{after, here, is_mark, till};
use crate::nodes::{is_return, larger};
use own_tree::limits::MOST_NESTING;
use own_tree::tree::{Block, Stmt};
use own_tree::{Mark, Token};
use sqlite_items::Items;
use std::alloc::Global;

/// A statement, and what stands after it.
#[cycle(parse)]
#[tactic(auto, unfolding(own_grammar::specs::Reading::separated_with))]
pub fn separated_of(alloc: Global, rest: &[Token], depth: u32) -> Read<'_, Stmt>
    requires limit { depth ≤ MOST_NESTING }
    ensures gives { Gives (λ x. (stmt_view x.0, x.2.now)) result (spec.separated_with MOST_NESTING reader depth rest.now) }
    ensures height { IfOk result (λ x. x.1 ≡ nest_stm (stmt_view x.0)) }
    ensures fits { IfOk result (λ x. depth + x.1 ≤ MOST_NESTING) }
    ensures shorter { IfOk result (λ x. length x.2.now < length rest.now) }
{
    let (statement, height, more) = statement_of(alloc, rest, depth)?;
    let next = sep_at(is_return(&statement), more)?;
    Ok((statement, height, next))
}

/// The statements before a `}`.
#[cycle(parse)]
pub fn statements_goal(alloc: Global, rest: &[Token], depth: u32) -> Read<'_, Items<Stmt>>
    requires limit { depth ≤ MOST_NESTING }
    ensures gives { Gives (λ x. (map stmt_view x.0, x.2.now)) result (reader (spec.Goal.statements_on []) depth rest.now) }
    ensures height { IfOk result (λ x. x.1 ≡ nest_stms (stms_of (map stmt_view x.0))) }
    ensures fits { IfOk result (λ x. depth + x.1 ≤ MOST_NESTING) }
    ensures shorter { IfOk result (λ x. length x.2.now ≤ length rest.now) }
{
    let mut found = Items::new(alloc);
    let mut height = 0;
    let mut left = rest;
    while !is_mark(Mark::CloseBrace, left) {
        let (statement, more_height, more) = separated_of(alloc, left, depth)?;
        found.push(statement)?;
        height = larger(height, more_height);
        left = more;
    }
    Ok((found, height, left))
}

#[cycle(parse)]
#[tactic(auto, unfolding(own_grammar::specs::Reading::block_with))]
fn block_of(alloc: Global, rest: &[Token], depth: u32) -> Read<'_, Block>
    requires limit { depth ≤ MOST_NESTING }
    ensures gives { Gives (λ x. (block_view x.0, x.2.now)) result (spec.block_with MOST_NESTING reader depth rest.now) }
    ensures height { IfOk result (λ x. x.1 ≡ nest_blk (block_view x.0)) }
    ensures fits { IfOk result (λ x. depth + x.1 ≤ MOST_NESTING) }
    ensures shorter { IfOk result (λ x. length x.2.now < length rest.now) }
{
    if depth >= MOST_NESTING {
        return Err(ReadError::Depth(rest.len()));
    }
    if !is_mark(Mark::OpenBrace, rest) {
        return Err(ReadError::Syntax(rest.len()));
    }
    let (statements, height, last) = statements_goal(alloc, after(rest), depth + 1)?;
    let span = till(here(rest), here(last));
    Ok((Block { span, statements }, height + 1, after(last)))
}

/// The block that begins at the next token, its height, and what follows. `depth` nodes stand above it.
#[cycle(parse)]
pub fn body_goal(alloc: Global, rest: &[Token], depth: u32) -> Read<'_, Block>
    requires limit { depth ≤ MOST_NESTING }
    ensures gives { Gives (λ x. (block_view x.0, x.2.now)) result (reader spec.Goal.body depth rest.now) }
    ensures height { IfOk result (λ x. x.1 ≡ nest_blk (block_view x.0)) }
    ensures fits { IfOk result (λ x. depth + x.1 ≤ MOST_NESTING) }
    ensures shorter { IfOk result (λ x. length x.2.now < length rest.now) }
{
    block_of(alloc, rest, depth)
}
