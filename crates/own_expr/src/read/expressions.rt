//! Operators, from the loosest to the tightest, and what stands between them.

ghost use Rattle.std.specs.Prelude.{◌≡◌, ◌≤◌, ◌<◌, ◌+◌, length, suc, IfOk};
ghost use Rattle.own_tree.specs.View.{expr_view};
ghost use Rattle.own_grammar.specs.Nesting.{nest, chains};
ghost use Rattle.own_grammar.specs.Reading as spec;
ghost use Rattle.own_expr.specs.Gives.{Gives};
ghost use Rattle.own_expr.specs.Reads.{reader};

use super::Read;
use super::calls::calls_goal;
use crate::atoms::atom_of;
use crate::fault::{ReadError, without};
use crate::makers::{choice, parenthesized, prefix};
use crate::next::{after, here, is_mark, is_word, till};
use crate::nodes::binary;
use crate::operators::{chains, level, operator_at, unary_at};
use crate::paths::consume_of;
use own_grammar::Context;
use own_tree::limits::MOST_NESTING;
use own_tree::tree::{Expr, PrefixOperator};
use own_tree::{Mark, Token, Word};
use std::alloc::Global;

/// The number of levels of binary operators.
const LEVELS: u32 = 5;

#[cycle(parse)]
#[tactic(auto, unfolding(own_grammar::specs::Reading::parenthesized_with))]
fn parenthesized_of(alloc: Global, rest: &[Token], depth: u32) -> Read<'_, Expr>
    requires limit { depth < MOST_NESTING }
    requires some { 0 < length rest.now }
    ensures gives { Gives (λ x. (expr_view x.0, x.2.now)) result (spec.parenthesized_with reader depth rest.now) }
    ensures height { IfOk result (λ x. x.1 ≡ nest (expr_view x.0)) }
    ensures fits { IfOk result (λ x. depth + x.1 ≤ MOST_NESTING) }
    ensures shorter { IfOk result (λ x. length x.2.now < length rest.now) }
{
    let (inner, height, more) = expression_goal(alloc, after(rest), Context::Inside, depth + 1)?;
    if !is_mark(Mark::CloseParen, more) {
        return Err(without(inner, ReadError::Syntax(more.len())));
    }
    let span = till(here(rest), here(more));
    Ok((parenthesized(alloc, span, inner)?, height + 1, after(more)))
}

#[cycle(parse)]
fn primary_of(alloc: Global, rest: &[Token], tight: bool, depth: u32) -> Read<'_, Expr>
    requires limit { depth < MOST_NESTING }
    ensures gives { Gives (λ x. (expr_view x.0, x.2.now)) result (spec.primary_with reader tight depth rest.now) }
    ensures height { IfOk result (λ x. x.1 ≡ nest (expr_view x.0)) }
    ensures fits { IfOk result (λ x. depth + x.1 ≤ MOST_NESTING) }
    ensures shorter { IfOk result (λ x. length x.2.now < length rest.now) }
{
    if is_mark(Mark::OpenParen, rest) {
        return parenthesized_of(alloc, rest, depth);
    }
    atom_of(alloc, rest, tight, depth)
}

#[cycle(parse)]
#[tactic(auto, unfolding(own_grammar::specs::Reading::post_with))]
fn post_of(
    alloc: Global,
    rest: &[Token],
    tight: bool,
    context: Context,
    depth: u32,
) -> Read<'_, Expr>
    requires limit { depth < MOST_NESTING }
    ensures gives { Gives (λ x. (expr_view x.0, x.2.now)) result (spec.post_with reader tight context depth rest.now) }
    ensures height { IfOk result (λ x. x.1 ≡ nest (expr_view x.0)) }
    ensures fits { IfOk result (λ x. depth + x.1 ≤ MOST_NESTING) }
    ensures shorter { IfOk result (λ x. length x.2.now < length rest.now) }
{
    let (e, height, more) = primary_of(alloc, rest, tight, depth)?;
    calls_goal(alloc, more, context, e, height, depth)
}

#[cycle(parse)]
#[tactic(auto, unfolding(own_grammar::specs::Reading::prefix_with))]
fn prefix_of(
    alloc: Global,
    rest: &[Token],
    sign: PrefixOperator,
    context: Context,
    depth: u32,
) -> Read<'_, Expr>
    requires limit { depth < MOST_NESTING }
    requires some { 0 < length rest.now }
    ensures gives { Gives (λ x. (expr_view x.0, x.2.now)) result (spec.prefix_with reader sign context depth rest.now) }
    ensures height { IfOk result (λ x. x.1 ≡ nest (expr_view x.0)) }
    ensures fits { IfOk result (λ x. depth + x.1 ≤ MOST_NESTING) }
    ensures shorter { IfOk result (λ x. length x.2.now < length rest.now) }
{
    let (e, height, more) = operand_goal(alloc, after(rest), context, depth + 1)?;
    Ok((prefix(alloc, here(rest), sign, e)?, height + 1, more))
}

#[cycle(parse)]
#[tactic(auto, unfolding(own_grammar::specs::Reading::pre_with))]
fn pre_of(
    alloc: Global,
    rest: &[Token],
    tight: bool,
    context: Context,
    depth: u32,
) -> Read<'_, Expr>
    requires limit { depth ≤ MOST_NESTING }
    ensures gives { Gives (λ x. (expr_view x.0, x.2.now)) result (spec.pre_with MOST_NESTING reader tight context depth rest.now) }
    ensures height { IfOk result (λ x. x.1 ≡ nest (expr_view x.0)) }
    ensures fits { IfOk result (λ x. depth + x.1 ≤ MOST_NESTING) }
    ensures shorter { IfOk result (λ x. length x.2.now < length rest.now) }
{
    if depth >= MOST_NESTING {
        return Err(ReadError::Depth(rest.len()));
    }
    if let Some(sign) = unary_at(tight, rest) {
        return prefix_of(alloc, rest, sign, context, depth);
    }
    if is_word(Word::Consume, rest) {
        return consume_of(alloc, rest, depth);
    }
    post_of(alloc, rest, tight, context, depth)
}

/// What stands after a prefix mark.
#[cycle(parse)]
fn operand_goal(alloc: Global, rest: &[Token], context: Context, depth: u32) -> Read<'_, Expr>
    requires limit { depth ≤ MOST_NESTING }
    ensures gives { Gives (λ x. (expr_view x.0, x.2.now)) result (reader (spec.Goal.operand context) depth rest.now) }
    ensures height { IfOk result (λ x. x.1 ≡ nest (expr_view x.0)) }
    ensures fits { IfOk result (λ x. depth + x.1 ≤ MOST_NESTING) }
    ensures shorter { IfOk result (λ x. length x.2.now < length rest.now) }
{
    pre_of(alloc, rest, true, context, depth)
}

/// An expression whose operators are of the first `j` levels.
#[cycle(parse)]
fn level_of(alloc: Global, rest: &[Token], j: u32, context: Context, depth: u32) -> Read<'_, Expr>
    requires limit { depth ≤ MOST_NESTING }
    requires few { j ≤ LEVELS }
    ensures gives { Gives (λ x. (expr_view x.0, x.2.now)) result (spec.level_with MOST_NESTING reader j context depth rest.now) }
    ensures height { IfOk result (λ x. x.1 ≡ nest (expr_view x.0)) }
    ensures fits { IfOk result (λ x. depth + x.1 ≤ MOST_NESTING) }
    ensures shorter { IfOk result (λ x. length x.2.now < length rest.now) }
{
    if j == 0 {
        return pre_of(alloc, rest, false, context, depth);
    }
    let (e, height, more) = level_of(alloc, rest, j - 1, context, depth)?;
    operators_goal(alloc, more, j - 1, context, e, height, depth)
}

/// Operators of the level `j + 1` after `left`.
#[cycle(parse)]
#[tactic(auto, unfolding(own_grammar::specs::Reading::operators_with, own_grammar::specs::Reading::operator_with))]
fn operators_of(
    alloc: Global,
    rest: &[Token],
    j: u32,
    context: Context,
    left: Expr,
    height: u32,
    depth: u32,
) -> Read<'_, Expr>
    requires limit { depth ≤ MOST_NESTING }
    requires few { j < LEVELS }
    requires left { height ≡ nest (expr_view left) }
    requires left_fits { depth + height ≤ MOST_NESTING }
    ensures gives { Gives (λ x. (expr_view x.0, x.2.now)) result (spec.operators_with MOST_NESTING reader j context (expr_view left) depth rest.now) }
    ensures height { IfOk result (λ x. x.1 ≡ nest (expr_view x.0)) }
    ensures fits { IfOk result (λ x. depth + x.1 ≤ MOST_NESTING) }
    ensures shorter { IfOk result (λ x. length x.2.now ≤ length rest.now) }
{
    if let Some(operator) = operator_at(rest) {
        if level(operator) != j + 1 {
            return Ok((left, height, rest));
        }
        if depth + height >= MOST_NESTING {
            return Err(without(left, ReadError::Depth(after(rest).len())));
        }
        let (right, right_height, more) = match level_of(
            alloc,
            after(rest),
            j,
            context,
            depth + 1,
        ) {
            Ok(right) => right,
            Err(fault) => return Err(without(left, fault)),
        };
        let e = binary(alloc, left, operator, here(rest), right)?;
        return next_of(
            alloc,
            more,
            j,
            context,
            e,
            height.max(right_height) + 1,
            depth,
        );
    }
    Ok((left, height, rest))
}

/// After an operator of the level `j + 1` and its operands.
#[cycle(parse)]
#[tactic(auto, unfolding(own_grammar::specs::Reading::next_with))]
fn next_of(
    alloc: Global,
    rest: &[Token],
    j: u32,
    context: Context,
    left: Expr,
    height: u32,
    depth: u32,
) -> Read<'_, Expr>
    requires limit { depth ≤ MOST_NESTING }
    requires few { j < LEVELS }
    requires left { height ≡ nest (expr_view left) }
    requires left_fits { depth + height ≤ MOST_NESTING }
    ensures gives { Gives (λ x. (expr_view x.0, x.2.now)) result (spec.next_with reader (chains (suc j)) j context depth (expr_view left) rest.now) }
    ensures height { IfOk result (λ x. x.1 ≡ nest (expr_view x.0)) }
    ensures fits { IfOk result (λ x. depth + x.1 ≤ MOST_NESTING) }
    ensures shorter { IfOk result (λ x. length x.2.now ≤ length rest.now) }
{
    if chains(j + 1) {
        operators_goal(alloc, rest, j, context, left, height, depth)
    } else {
        Ok((left, height, rest))
    }
}

#[cycle(parse)]
fn operators_goal(
    alloc: Global,
    rest: &[Token],
    j: u32,
    context: Context,
    left: Expr,
    height: u32,
    depth: u32,
) -> Read<'_, Expr>
    requires limit { depth ≤ MOST_NESTING }
    requires few { j < LEVELS }
    requires left { height ≡ nest (expr_view left) }
    requires left_fits { depth + height ≤ MOST_NESTING }
    ensures gives { Gives (λ x. (expr_view x.0, x.2.now)) result (reader (spec.Goal.operators_on j context (expr_view left)) depth rest.now) }
    ensures height { IfOk result (λ x. x.1 ≡ nest (expr_view x.0)) }
    ensures fits { IfOk result (λ x. depth + x.1 ≤ MOST_NESTING) }
    ensures shorter { IfOk result (λ x. length x.2.now ≤ length rest.now) }
{
    operators_of(alloc, rest, j, context, left, height, depth)
}

/// After the `?` of a choice.
#[cycle(parse)]
#[tactic(auto, unfolding(own_grammar::specs::Reading::branches_with))]
fn branches_of(
    alloc: Global,
    rest: &[Token],
    context: Context,
    condition: Expr,
    height: u32,
    depth: u32,
) -> Read<'_, Expr>
    requires limit { depth < MOST_NESTING }
    requires condition { height ≡ nest (expr_view condition) }
    requires condition_fits { depth + height < MOST_NESTING }
    ensures gives { Gives (λ x. (expr_view x.0, x.2.now)) result (spec.branches_with reader context depth (expr_view condition) rest.now) }
    ensures height { IfOk result (λ x. x.1 ≡ nest (expr_view x.0)) }
    ensures fits { IfOk result (λ x. depth + x.1 ≤ MOST_NESTING) }
    ensures shorter { IfOk result (λ x. length x.2.now ≤ length rest.now) }
{
    let (first, first_height, more) = match expression_goal(alloc, rest, context, depth + 1) {
        Ok(first) => first,
        Err(fault) => return Err(without(condition, fault)),
    };
    if !is_mark(Mark::Colon, more) {
        let fault = without(first, ReadError::Syntax(more.len()));
        return Err(without(condition, fault));
    }
    let (second, second_height, last) = match expression_goal(
        alloc,
        after(more),
        context,
        depth + 1,
    ) {
        Ok(second) => second,
        Err(fault) => return Err(without(condition, without(first, fault))),
    };
    let e = choice(alloc, condition, first, second)?;
    Ok((e, height.max(first_height.max(second_height)) + 1, last))
}

/// After the condition of a choice, or an expression that is none.
#[cycle(parse)]
#[tactic(auto, unfolding(own_grammar::specs::Reading::choice_with))]
fn choice_of(
    alloc: Global,
    rest: &[Token],
    context: Context,
    condition: Expr,
    height: u32,
    depth: u32,
) -> Read<'_, Expr>
    requires limit { depth ≤ MOST_NESTING }
    requires condition { height ≡ nest (expr_view condition) }
    requires condition_fits { depth + height ≤ MOST_NESTING }
    ensures gives { Gives (λ x. (expr_view x.0, x.2.now)) result (spec.choice_with MOST_NESTING reader context depth (expr_view condition) rest.now) }
    ensures height { IfOk result (λ x. x.1 ≡ nest (expr_view x.0)) }
    ensures fits { IfOk result (λ x. depth + x.1 ≤ MOST_NESTING) }
    ensures shorter { IfOk result (λ x. length x.2.now ≤ length rest.now) }
{
    if !is_mark(Mark::Question, rest) {
        return Ok((condition, height, rest));
    }
    if depth + height >= MOST_NESTING {
        return Err(without(condition, ReadError::Depth(after(rest).len())));
    }
    branches_of(alloc, after(rest), context, condition, height, depth)
}

#[cycle(parse)]
#[tactic(auto, unfolding(own_grammar::specs::Reading::expression_with))]
pub fn expression_of(alloc: Global, rest: &[Token], context: Context, depth: u32) -> Read<'_, Expr>
    requires limit { depth ≤ MOST_NESTING }
    ensures gives { Gives (λ x. (expr_view x.0, x.2.now)) result (spec.expression_with MOST_NESTING reader context depth rest.now) }
    ensures height { IfOk result (λ x. x.1 ≡ nest (expr_view x.0)) }
    ensures fits { IfOk result (λ x. depth + x.1 ≤ MOST_NESTING) }
    ensures shorter { IfOk result (λ x. length x.2.now < length rest.now) }
{
    let (e, height, more) = level_of(alloc, rest, LEVELS, context, depth)?;
    choice_of(alloc, more, context, e, height, depth)
}

#[cycle(parse)]
pub fn expression_goal(
    alloc: Global,
    rest: &[Token],
    context: Context,
    depth: u32,
) -> Read<'_, Expr>
    requires limit { depth ≤ MOST_NESTING }
    ensures gives { Gives (λ x. (expr_view x.0, x.2.now)) result (reader (spec.Goal.expression context) depth rest.now) }
    ensures height { IfOk result (λ x. x.1 ≡ nest (expr_view x.0)) }
    ensures fits { IfOk result (λ x. depth + x.1 ≤ MOST_NESTING) }
    ensures shorter { IfOk result (λ x. length x.2.now < length rest.now) }
{
    expression_of(alloc, rest, context, depth)
}
