//! What stands after a primary expression: members, arguments and closures.

ghost use Rattle.std.specs.Prelude.{◌≡◌, ◌≤◌, ◌<◌, ◌+◌, length, map, [], IfOk};
ghost use Rattle.own_tree.specs.View.{expr_view, passed_view, argument_view, closure_view, args_of};
ghost use Rattle.own_grammar.specs.Nesting.{nest, nest_given, nest_args, nest_clo};
ghost use Rattle.own_grammar.specs.Reading as spec;
ghost use Rattle.own_expr.specs.Gives.{Gives};
ghost use Rattle.own_expr.specs.Reads.{reader};

use super::Read;
use super::blocks::statements_goal;
use super::expressions::expression_of;
use crate::fault::{ReadError, without};
use crate::lines::{closes, label_at, opens};
use crate::makers::{call, call_closing, call_closure, member};
use crate::next::{after, here, is_mark, name_at, till};
use crate::nodes::larger;
use crate::paths::{address_of, closure_head};
use own_grammar::Context;
use own_tree::limits::MOST_NESTING;
use own_tree::tree::{Argument, Closure, Expr, Passed};
use own_tree::{Mark, Token};
use sqlite_items::Items;
use std::alloc::Global;

/// A closure, whose `{` is the first token.
#[cycle(parse)]
#[tactic(auto, unfolding(own_grammar::specs::Reading::closure_with))]
fn closure_of(alloc: Global, rest: &[Token], depth: u32) -> Read<'_, Closure>
    requires limit { depth ≤ MOST_NESTING }
    requires some { 0 < length rest.now }
    ensures gives { Gives (λ x. (closure_view x.0, x.2.now)) result (spec.closure_with MOST_NESTING reader depth rest.now) }
    ensures height { IfOk result (λ x. x.1 ≡ nest_clo (closure_view x.0)) }
    ensures fits { IfOk result (λ x. depth + x.1 ≤ MOST_NESTING) }
    ensures shorter { IfOk result (λ x. length x.2.now < length rest.now) }
{
    if depth >= MOST_NESTING {
        return Err(ReadError::Depth(rest.len()));
    }
    let (names, start) = closure_head(alloc, after(rest))?;
    let (statements, height, last) = statements_goal(alloc, start, depth + 1)?;
    let span = till(here(rest), here(last));
    Ok((
        Closure {
            span,
            names,
            statements,
        },
        height + 1,
        after(last),
    ))
}

/// What an argument passes.
#[cycle(parse)]
#[tactic(auto, unfolding(own_grammar::specs::Reading::given_with))]
fn given_of(alloc: Global, rest: &[Token], depth: u32) -> Read<'_, Passed>
    requires limit { depth ≤ MOST_NESTING }
    ensures gives { Gives (λ x. (passed_view x.0, x.2.now)) result (spec.given_with MOST_NESTING reader depth rest.now) }
    ensures height { IfOk result (λ x. x.1 ≡ nest_given (passed_view x.0)) }
    ensures fits { IfOk result (λ x. depth + x.1 ≤ MOST_NESTING) }
    ensures shorter { IfOk result (λ x. length x.2.now < length rest.now) }
{
    if is_mark(Mark::Ampersand, rest) {
        return address_of(alloc, rest, depth);
    }
    if is_mark(Mark::OpenBrace, rest) {
        let (closure, height, more) = closure_of(alloc, rest, depth)?;
        return Ok((Passed::Closure(closure), height, more));
    }
    let (e, height, more) = expression_of(alloc, rest, Context::Inside, depth)?;
    Ok((Passed::Value(e), height, more))
}

#[cycle(parse)]
#[tactic(auto, unfolding(own_grammar::specs::Reading::argument_with))]
fn argument_of(alloc: Global, rest: &[Token], depth: u32) -> Read<'_, Argument>
    requires limit { depth < MOST_NESTING }
    ensures gives { Gives (λ x. (argument_view x.0, x.2.now)) result (spec.argument_with MOST_NESTING reader depth rest.now) }
    ensures height { IfOk result (λ x. x.1 ≡ nest_given (argument_view x.0).1) }
    ensures fits { IfOk result (λ x. depth + x.1 < MOST_NESTING) }
    ensures shorter { IfOk result (λ x. length x.2.now < length rest.now) }
{
    if let Some(label) = label_at(alloc, rest)? {
        let (passed, height, more) = given_of(alloc, after(after(rest)), depth + 1)?;
        return Ok((
            Argument {
                label: Some(label),
                passed,
            },
            height,
            more,
        ));
    }
    let (passed, height, more) = given_of(alloc, rest, depth + 1)?;
    Ok((
        Argument {
            label: None,
            passed,
        },
        height,
        more,
    ))
}

/// Arguments, of which there is one at least.
#[cycle(parse)]
fn arguments_of(alloc: Global, rest: &[Token], depth: u32) -> Read<'_, Items<Argument>>
    requires limit { depth < MOST_NESTING }
    ensures gives { Gives (λ x. (map argument_view x.0, x.2.now)) result (spec.arguments_with MOST_NESTING reader [] depth rest.now) }
    ensures height { IfOk result (λ x. x.1 ≡ nest_args (args_of (map argument_view x.0))) }
    ensures fits { IfOk result (λ x. depth + x.1 < MOST_NESTING) }
    ensures shorter { IfOk result (λ x. length x.2.now < length rest.now) }
{
    let mut found = Items::new(alloc);
    let mut height = 0;
    let mut left = rest;
    loop {
        let (argument, more_height, more) = argument_of(alloc, left, depth)?;
        found.push(argument)?;
        height = larger(height, more_height);
        if !is_mark(Mark::Comma, more) {
            return Ok((found, height, more));
        }
        left = after(more);
    }
}

/// After the `(` of a call.
#[cycle(parse)]
#[tactic(auto, unfolding(own_grammar::specs::Reading::all_arguments_with))]
fn all_arguments_of(alloc: Global, rest: &[Token], depth: u32) -> Read<'_, Items<Argument>>
    requires limit { depth < MOST_NESTING }
    ensures gives { Gives (λ x. (map argument_view x.0, x.2.now)) result (spec.all_arguments_with MOST_NESTING reader depth rest.now) }
    ensures height { IfOk result (λ x. x.1 ≡ nest_args (args_of (map argument_view x.0))) }
    ensures fits { IfOk result (λ x. depth + x.1 < MOST_NESTING) }
    ensures shorter { IfOk result (λ x. length x.2.now ≤ length rest.now) }
{
    if is_mark(Mark::CloseParen, rest) {
        return Ok((Items::new(alloc), 0, rest));
    }
    arguments_of(alloc, rest, depth)
}

/// After the arguments of a call.
#[cycle(parse)]
#[tactic(auto, unfolding(own_grammar::specs::Reading::called_with))]
fn called_of(
    alloc: Global,
    rest: &[Token],
    context: Context,
    callee: Expr,
    height: u32,
    arguments: Items<Argument>,
    arguments_height: u32,
    depth: u32,
) -> Read<'_, Expr>
    requires limit { depth < MOST_NESTING }
    requires callee { height ≡ nest (expr_view callee) }
    requires callee_fits { depth + height < MOST_NESTING }
    requires arguments { arguments_height ≡ nest_args (args_of (map argument_view arguments)) }
    requires arguments_fit { depth + arguments_height < MOST_NESTING }
    ensures gives { Gives (λ x. (expr_view x.0, x.2.now)) result (spec.called_with MOST_NESTING reader context (expr_view callee) depth (map argument_view arguments) rest.now) }
    ensures height { IfOk result (λ x. x.1 ≡ nest (expr_view x.0)) }
    ensures fits { IfOk result (λ x. depth + x.1 ≤ MOST_NESTING) }
    ensures shorter { IfOk result (λ x. length x.2.now ≤ length rest.now) }
{
    if !is_mark(Mark::CloseParen, rest) {
        return Err(without(callee, ReadError::Syntax(rest.len())));
    }
    let more = after(rest);
    if closes(context, more) {
        let (closure, closure_height, last) = match closure_of(alloc, more, depth + 1) {
            Ok(closure) => closure,
            Err(fault) => return Err(without(callee, fault)),
        };
        let e = call_closing(alloc, callee, arguments, closure)?;
        let height = height.max(arguments_height.max(closure_height)) + 1;
        return calls_goal(alloc, last, context, e, height, depth);
    }
    let e = call(alloc, callee, here(rest), arguments)?;
    calls_goal(
        alloc,
        more,
        context,
        e,
        height.max(arguments_height) + 1,
        depth,
    )
}

/// A call, at its `(`.
#[cycle(parse)]
#[tactic(auto, unfolding(own_grammar::specs::Reading::call_with))]
fn call_of(
    alloc: Global,
    rest: &[Token],
    context: Context,
    callee: Expr,
    height: u32,
    depth: u32,
) -> Read<'_, Expr>
    requires limit { depth ≤ MOST_NESTING }
    requires some { 0 < length rest.now }
    requires callee { height ≡ nest (expr_view callee) }
    requires callee_fits { depth + height ≤ MOST_NESTING }
    ensures gives { Gives (λ x. (expr_view x.0, x.2.now)) result (spec.call_with MOST_NESTING reader context (expr_view callee) depth rest.now) }
    ensures height { IfOk result (λ x. x.1 ≡ nest (expr_view x.0)) }
    ensures fits { IfOk result (λ x. depth + x.1 ≤ MOST_NESTING) }
    ensures shorter { IfOk result (λ x. length x.2.now ≤ length rest.now) }
{
    if depth + height >= MOST_NESTING {
        return Err(without(callee, ReadError::Depth(after(rest).len())));
    }
    let (arguments, arguments_height, more) = match all_arguments_of(alloc, after(rest), depth) {
        Ok(arguments) => arguments,
        Err(fault) => return Err(without(callee, fault)),
    };
    called_of(
        alloc,
        more,
        context,
        callee,
        height,
        arguments,
        arguments_height,
        depth,
    )
}

/// A call without parentheses, at the `{` of its closure.
#[cycle(parse)]
#[tactic(auto, unfolding(own_grammar::specs::Reading::closing_with))]
fn closing_of(
    alloc: Global,
    rest: &[Token],
    context: Context,
    callee: Expr,
    height: u32,
    depth: u32,
) -> Read<'_, Expr>
    requires limit { depth ≤ MOST_NESTING }
    requires some { 0 < length rest.now }
    requires callee { height ≡ nest (expr_view callee) }
    requires callee_fits { depth + height ≤ MOST_NESTING }
    ensures gives { Gives (λ x. (expr_view x.0, x.2.now)) result (spec.closing_with MOST_NESTING reader context (expr_view callee) depth rest.now) }
    ensures height { IfOk result (λ x. x.1 ≡ nest (expr_view x.0)) }
    ensures fits { IfOk result (λ x. depth + x.1 ≤ MOST_NESTING) }
    ensures shorter { IfOk result (λ x. length x.2.now ≤ length rest.now) }
{
    if depth + height >= MOST_NESTING {
        return Err(without(callee, ReadError::Depth(after(rest).len())));
    }
    let (closure, closure_height, more) = match closure_of(alloc, rest, depth + 1) {
        Ok(closure) => closure,
        Err(fault) => return Err(without(callee, fault)),
    };
    let e = call_closure(alloc, callee, closure)?;
    calls_goal(
        alloc,
        more,
        context,
        e,
        height.max(closure_height) + 1,
        depth,
    )
}

/// A member, at its `.`.
#[cycle(parse)]
#[tactic(auto, unfolding(own_grammar::specs::Reading::member_with))]
fn member_of(
    alloc: Global,
    rest: &[Token],
    context: Context,
    whole: Expr,
    height: u32,
    depth: u32,
) -> Read<'_, Expr>
    requires limit { depth ≤ MOST_NESTING }
    requires some { 0 < length rest.now }
    requires whole { height ≡ nest (expr_view whole) }
    requires whole_fits { depth + height ≤ MOST_NESTING }
    ensures gives { Gives (λ x. (expr_view x.0, x.2.now)) result (spec.member_with MOST_NESTING reader context (expr_view whole) depth rest.now) }
    ensures height { IfOk result (λ x. x.1 ≡ nest (expr_view x.0)) }
    ensures fits { IfOk result (λ x. depth + x.1 ≤ MOST_NESTING) }
    ensures shorter { IfOk result (λ x. length x.2.now ≤ length rest.now) }
{
    let more = after(rest);
    if depth + height >= MOST_NESTING {
        return Err(without(whole, ReadError::Depth(more.len())));
    }
    match name_at(alloc, more) {
        Ok(Some(name)) => {
            let e = member(alloc, whole, here(more), name)?;
            calls_goal(alloc, after(more), context, e, height + 1, depth)
        }
        Ok(None) => Err(without(whole, ReadError::Syntax(more.len()))),
        Err(_) => Err(without(whole, ReadError::Memory)),
    }
}

/// Members and calls after `left`.
#[cycle(parse)]
#[tactic(auto, unfolding(own_grammar::specs::Reading::calls_with))]
fn calls_of(
    alloc: Global,
    rest: &[Token],
    context: Context,
    left: Expr,
    height: u32,
    depth: u32,
) -> Read<'_, Expr>
    requires limit { depth ≤ MOST_NESTING }
    requires left { height ≡ nest (expr_view left) }
    requires left_fits { depth + height ≤ MOST_NESTING }
    ensures gives { Gives (λ x. (expr_view x.0, x.2.now)) result (spec.calls_with MOST_NESTING reader context (expr_view left) depth rest.now) }
    ensures height { IfOk result (λ x. x.1 ≡ nest (expr_view x.0)) }
    ensures fits { IfOk result (λ x. depth + x.1 ≤ MOST_NESTING) }
    ensures shorter { IfOk result (λ x. length x.2.now ≤ length rest.now) }
{
    if opens(context, rest) {
        return call_of(alloc, rest, context, left, height, depth);
    }
    if closes(context, rest) {
        return closing_of(alloc, rest, context, left, height, depth);
    }
    if is_mark(Mark::Dot, rest) {
        return member_of(alloc, rest, context, left, height, depth);
    }
    Ok((left, height, rest))
}

#[cycle(parse)]
pub fn calls_goal(
    alloc: Global,
    rest: &[Token],
    context: Context,
    left: Expr,
    height: u32,
    depth: u32,
) -> Read<'_, Expr>
    requires limit { depth ≤ MOST_NESTING }
    requires left { height ≡ nest (expr_view left) }
    requires left_fits { depth + height ≤ MOST_NESTING }
    ensures gives { Gives (λ x. (expr_view x.0, x.2.now)) result (reader (spec.Goal.calls_on context (expr_view left)) depth rest.now) }
    ensures height { IfOk result (λ x. x.1 ≡ nest (expr_view x.0)) }
    ensures fits { IfOk result (λ x. depth + x.1 ≤ MOST_NESTING) }
    ensures shorter { IfOk result (λ x. length x.2.now ≤ length rest.now) }
{
    calls_of(alloc, rest, context, left, height, depth)
}
