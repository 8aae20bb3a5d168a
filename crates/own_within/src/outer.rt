//! What a body mentions that it does not declare.

ghost use Rattle.std.specs.Prelude.{◌≡◌, [], ◌∷◌, ◌++◌, if◌then◌else◌, OnOk, IfOk};
ghost use Rattle.std.specs.Option.{option_copied};
ghost use Rattle.own_tree.specs.TypedView.{block_view, expr_view, program_view};
ghost use Rattle.own_paths.specs.Captures.{exp_mentions, exps_mention, block_mentions, is_elsewhere, declared_elsewhere, outer_mentions};
ghost use Rattle.own_within.specs.View.{exps_seen, captured_view, captured_seen};

use crate::captured::Captured;
use crate::mentions::{push_call, push_mention, push_statements_mention};
use crate::within::{expressions_of, statements_in};
use own_tree::typed::{TypedBlock, TypedExpr};
use own_tree::{Binding, Row, Typed};
use std::alloc::{AllocError, Global};

/// Whether a binding is there and another body declares it.
fn is_elsewhere(body: u32, binding: Option<&Binding>) -> bool
    ensures { result ≡ is_elsewhere body (option_copied binding.entry) }
{
    match binding {
        Some(binding) => binding.body != body,
        None => false,
    }
}

/// Adds a mention that is wanted.
fn push_if(outer: &mut Vec<Captured>, mention: Captured, is_wanted: bool) -> Result<(), AllocError>
    ensures { OnOk result (captured_seen outer.new.items
        ≡ captured_seen outer.old.items ++ (if is_wanted then captured_view mention ∷ [] else [])) }
{
    if is_wanted {
        outer.push(mention)?;
    }
    Ok(())
}

/// Those that a body does not declare.
fn declared_elsewhere(
    alloc: Global,
    bindings: &Row<Binding>,
    body: u32,
    mentions: &[Captured],
) -> Result<Vec<Captured>, AllocError>
    ensures { IfOk result (λ outer. captured_seen outer.items
        ≡ declared_elsewhere bindings.now body (captured_seen mentions.now)) }
{
    let mut outer = Vec::new(alloc);
    for mention in mentions {
        let is_wanted = is_elsewhere(body, bindings.get(mention.binding as usize));
        push_if(&mut outer, *mention, is_wanted)?;
    }
    Ok(outer)
}

/// Adds all of these.
fn push_all(mentions: &mut Vec<Captured>, more: &[Captured]) -> Result<(), AllocError>
    ensures { OnOk result (captured_seen mentions.new.items
        ≡ captured_seen mentions.old.items ++ captured_seen more.now) }
{
    mentions.extend_from_slice(more)?;
    Ok(())
}

/// Adds what an expression mentions by itself, without its parts. Closures are nested at most so deep.
#[cycle(outer)]
fn push_expression_mentions(
    alloc: Global,
    typed: &Typed,
    depth: usize,
    mentions: &mut Vec<Captured>,
    expr: &TypedExpr,
) -> Result<(), AllocError>
    ensures { OnOk result (captured_seen mentions.new.items
        ≡ captured_seen mentions.old.items ++ exp_mentions (outer_mentions (program_view typed.now) depth)
        (expr_view expr.now)) }
{
    match expr {
        TypedExpr::Path(path) | TypedExpr::Consume(_, path) => {
            push_mention(mentions, false, path.place.binding)
        }
        TypedExpr::Address(path) => push_mention(mentions, true, path.place.binding),
        TypedExpr::Call(_, target, arguments, passings) => {
            push_call(mentions, *target, arguments.as_slice(), passings.as_slice())
        }
        TypedExpr::Closure(_, body) => push_outer(alloc, typed, depth, mentions, *body),
        TypedExpr::Function(_, binding) => push_mention(mentions, false, *binding),
        TypedExpr::Number(..)
        | TypedExpr::Text(..)
        | TypedExpr::Truth(..)
        | TypedExpr::Parenthesized(..)
        | TypedExpr::Negate(..)
        | TypedExpr::Not(..)
        | TypedExpr::Arithmetic(..)
        | TypedExpr::Wrapping(..)
        | TypedExpr::Compare(..)
        | TypedExpr::Logic(..)
        | TypedExpr::Choice(..)
        | TypedExpr::Member(..) => Ok(()),
    }
}

/// Adds what each of these mentions by itself.
#[cycle(outer)]
fn push_expressions_mention(
    alloc: Global,
    typed: &Typed,
    depth: usize,
    mentions: &mut Vec<Captured>,
    exprs: &[&TypedExpr],
) -> Result<(), AllocError>
    ensures { OnOk result (captured_seen mentions.new.items
        ≡ captured_seen mentions.old.items ++ exps_mention (outer_mentions (program_view typed.now) depth)
        (exps_seen exprs.now)) }
{
    for expr in exprs {
        push_expression_mentions(alloc, typed, depth, mentions, *expr)?;
    }
    Ok(())
}

/// Adds what a closure mentions that it does not declare.
#[cycle(outer)]
fn push_outer(
    alloc: Global,
    typed: &Typed,
    depth: usize,
    mentions: &mut Vec<Captured>,
    body: u32,
) -> Result<(), AllocError>
    ensures { OnOk result (captured_seen mentions.new.items
        ≡ captured_seen mentions.old.items ++ outer_mentions (program_view typed.now) depth body) }
{
    let outer = outer_mentions(alloc, typed, depth, body)?;
    push_all(mentions, outer.as_slice())
}

/// What a block mentions.
#[cycle(outer)]
fn block_mentions(
    alloc: Global,
    typed: &Typed,
    depth: usize,
    block: &TypedBlock,
) -> Result<Vec<Captured>, AllocError>
    ensures { IfOk result (λ mentions. captured_seen mentions.items
        ≡ block_mentions (outer_mentions (program_view typed.now) depth) (block_view block.now)) }
{
    let statements = statements_in(alloc, block)?;
    let expressions = expressions_of(alloc, statements.as_slice())?;
    let mut mentions = Vec::new(alloc);
    push_statements_mention(&mut mentions, statements.as_slice())?;
    push_expressions_mention(alloc, typed, depth, &mut mentions, expressions.as_slice())?;
    Ok(mentions)
}

/// What a body mentions that it does not declare. Closures are nested at most so deep.
#[cycle(outer)]
pub(crate) fn outer_mentions(
    alloc: Global,
    typed: &Typed,
    depth: usize,
    number: u32,
) -> Result<Vec<Captured>, AllocError>
    ensures { IfOk result (λ outer. captured_seen outer.items ≡ outer_mentions (program_view typed.now) depth number) }
{
    if depth == 0 {
        return Ok(Vec::new(alloc));
    }
    match typed.bodies.get(number as usize) {
        Some(body) => {
            let mentions = block_mentions(alloc, typed, depth - 1, &body.block)?;
            declared_elsewhere(alloc, &typed.bindings, number, mentions.as_slice())
        }
        None => Ok(Vec::new(alloc)),
    }
}
