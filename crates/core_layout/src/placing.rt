//! The words of a program's frames.

use crate::frames::Frames;
use crate::modes::words_of_mode;
use crate::types::{copyable, slots};
use crate::waiting::{holder, is_given};
use crate::words::Layout;
use own_table::TypeTable;
use own_tree::typed::{Body, Target, TypedExpr, TypedStmt};
use own_tree::{Binding, Passing, Row, Typed};
use own_within::{expressions_of, first_passing, node_of, other_passings, statements_in};
use std::alloc::{AllocError, Global};

/// The words that the value of an expression waits in.
fn place_node(
    frames: &mut Frames,
    table: &TypeTable,
    body: usize,
    expr: &TypedExpr,
) -> Result<(), AllocError> {
    let node = node_of(holder(expr));
    frames.give_node(body, node.id as usize, slots(table, node.ty))
}

/// The words that arguments wait in before a call: all that are given but the last one.
fn place_arguments(
    frames: &mut Frames,
    table: &TypeTable,
    body: usize,
    arguments: &[TypedExpr],
    passings: &[Passing],
) -> Result<(), AllocError> {
    let mut left = arguments;
    let mut passings = passings;
    while let Some((argument, later)) = left.split_first() {
        if is_given(first_passing(passings)) && !later.is_empty() {
            place_node(frames, table, body, argument)?;
        }
        left = later;
        passings = other_passings(passings);
    }
    Ok(())
}

/// The words of the arguments of a call. The items of `print` are written one by one.
fn place_passed(
    frames: &mut Frames,
    table: &TypeTable,
    body: usize,
    target: Target,
    arguments: &[TypedExpr],
    passings: &[Passing],
) -> Result<(), AllocError> {
    match target {
        Target::Print => Ok(()),
        _ => place_arguments(frames, table, body, arguments, passings),
    }
}

/// The words of an expression by itself.
fn place_expression(
    frames: &mut Frames,
    table: &TypeTable,
    body: usize,
    expr: &TypedExpr,
) -> Result<(), AllocError> {
    match expr {
        TypedExpr::Call(_, target, arguments, passings) => {
            place_node(frames, table, body, expr)?;
            let arguments = arguments.as_slice();
            place_passed(frames, table, body, *target, arguments, passings.as_slice())
        }
        TypedExpr::Consume(..) | TypedExpr::Choice(..) => place_node(frames, table, body, expr),
        _ => Ok(()),
    }
}

/// The next number and the last one of a `for`, and a copyable subject of a `switch`.
fn place_statement(
    frames: &mut Frames,
    table: &TypeTable,
    body: usize,
    statement: &TypedStmt,
) -> Result<(), AllocError> {
    match statement {
        TypedStmt::For(at, ..) => frames.give_node(body, at.id as usize, 2),
        TypedStmt::Switch(_, subject, _) => {
            if copyable(table, node_of(subject).ty) {
                place_node(frames, table, body, subject)
            } else {
                Ok(())
            }
        }
        _ => Ok(()),
    }
}

/// The words of statements, each by itself.
fn place_statements(
    frames: &mut Frames,
    table: &TypeTable,
    body: usize,
    statements: &[&TypedStmt],
) -> Result<(), AllocError> {
    for statement in statements {
        place_statement(frames, table, body, *statement)?;
    }
    Ok(())
}

/// The words of expressions, each by itself.
fn place_expressions(
    frames: &mut Frames,
    table: &TypeTable,
    body: usize,
    exprs: &[&TypedExpr],
) -> Result<(), AllocError> {
    for expr in exprs {
        place_expression(frames, table, body, *expr)?;
    }
    Ok(())
}

/// The words of the nodes of a body: those of its statements, and then those of its expressions.
fn place_nodes(
    alloc: Global,
    frames: &mut Frames,
    table: &TypeTable,
    number: usize,
    body: &Body,
) -> Result<(), AllocError> {
    let statements = statements_in(alloc, &body.block)?;
    place_statements(frames, table, number, statements.as_slice())?;
    let exprs = expressions_of(alloc, statements.as_slice())?;
    place_expressions(frames, table, number, exprs.as_slice())
}

/// The words of a binding, in the frame of the body that declares it.
fn place_binding(
    frames: &mut Frames,
    table: &TypeTable,
    number: usize,
    binding: &Binding,
) -> Result<(), AllocError> {
    let words = words_of_mode(table, binding.mode, binding.ty);
    frames.give_binding(binding.body as usize, number, words)
}

/// The words of the parameters of a body.
fn place_params(
    frames: &mut Frames,
    bindings: &[Binding],
    table: &TypeTable,
    params: &[u32],
) -> Result<(), AllocError> {
    for number in params {
        if let Some(binding) = bindings.get(*number as usize) {
            place_binding(frames, table, *number as usize, binding)?;
        }
    }
    Ok(())
}

/// The words of all bindings, the parameters of each body before its others.
fn place_bindings(frames: &mut Frames, typed: &Typed, table: &TypeTable) -> Result<(), AllocError> {
    let bindings = typed.bindings.as_slice();
    for body in typed.bodies.as_slice() {
        place_params(frames, bindings, table, body.params.as_slice())?;
    }
    for (number, binding) in bindings.iter().enumerate() {
        place_binding(frames, table, number, binding)?;
    }
    Ok(())
}

/// The words of all frames. Each binding has words of its own. A frame of more words than a `u32` counts,
/// which no text within the limits has, answers want of memory.
pub fn layout(alloc: Global, typed: &Typed, table: &TypeTable) -> Result<Layout, AllocError> {
    let mut frames = Frames::new(alloc, typed.bodies.len(), typed.bindings.len())?;
    place_bindings(&mut frames, typed, table)?;
    for (number, body) in typed.bodies.as_slice().iter().enumerate() {
        place_nodes(alloc, &mut frames, table, number, body)?;
    }
    let sizes = frames.sizes(alloc)?;
    let (bindings, nodes) = frames.into_words();
    Ok(Layout {
        offsets: Row::from_vec(bindings),
        nodes: Row::from_vec(nodes),
        frames: Row::from_vec(sizes),
    })
}
