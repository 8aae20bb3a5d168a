//! Closure literals and blocks.

use crate::statements::statements;
use own_calls::TypeError;
use own_scope::{Builder, Known, Local, Scope};
use own_stated::opened::{
    Names, closure_body, closure_names, closure_scope, closure_type, is_single, no_block,
};
use own_terms::nodes::node_at;
use own_tree::tree::{Block, Closure, Stmt};
use own_tree::typed::{TypedBlock, TypedExpr};
use own_tree::{Row, Signature, Span, Ty};
use sqlite_items::Items;
use std::alloc::Global;

/// A closure literal that has begun: the number of its body, and its names.
#[derive(Drop)]
pub struct Opened<'t> {
    pub body: u32,
    pub names: Names<'t>,
}

/// Begins the body of a closure literal.
fn begun(
    alloc: Global,
    builder: &mut Builder,
    scope: &Scope<'_>,
    span: Span,
    gives: Ty,
) -> Result<u32, TypeError> {
    let nothing = no_block(alloc, span);
    let body = closure_body(scope, span, Row::new(alloc), gives, nothing);
    Ok(builder.embody(body)?)
}

/// Begins the body of a closure literal of that type, with its names.
fn open_closure<'t>(
    alloc: Global,
    builder: &mut Builder,
    scope: &Scope<'_>,
    literal: &'t Closure,
    signature: &Signature,
) -> Result<Opened<'t>, TypeError> {
    let body = begun(alloc, builder, scope, literal.span, signature.result)?;
    let params = signature.params.as_slice();
    let names = closure_names(alloc, builder, literal.names.as_slice(), params, body)?;
    Ok(Opened { body, names })
}

/// Ends the body of a closure literal, which the block makes whole.
fn closed(
    builder: &mut Builder,
    scope: &Scope<'_>,
    span: Span,
    gives: Ty,
    opened: Opened<'_>,
    block: TypedBlock,
) -> Result<u32, TypeError> {
    let Opened { body, names } = opened;
    let whole = closure_body(scope, span, names.bindings, gives, block);
    builder.settle_body(body, whole)?;
    Ok(body)
}

/// The statements of a block, in a scope of their own; whether one of them may be alone in a body.
#[cycle(walk)]
pub fn block_in(
    alloc: Global,
    known: &Known<'_>,
    builder: &mut Builder,
    scope: Scope<'_>,
    inside: &[Stmt],
    span: Span,
    alone: bool,
) -> Result<TypedBlock, TypeError> {
    let id = builder.node()?;
    let made = statements(alloc, known, builder, scope, inside, alone)?;
    Ok(TypedBlock {
        at: node_at(id, span, Ty::Unit),
        statements: Items::from_vec(made),
    })
}

/// A block of a statement.
#[cycle(walk)]
pub fn block_of(
    alloc: Global,
    known: &Known<'_>,
    builder: &mut Builder,
    scope: &Scope<'_>,
    block: &Block,
) -> Result<TypedBlock, TypeError> {
    let inner = scope.block(alloc)?;
    block_in(
        alloc,
        known,
        builder,
        inner,
        block.statements.as_slice(),
        block.span,
        false,
    )
}

/// The block of a closure literal.
#[cycle(walk)]
fn closure_block(
    alloc: Global,
    known: &Known<'_>,
    builder: &mut Builder,
    scope: &Scope<'_>,
    literal: &Closure,
    body: u32,
    gives: Ty,
    locals: &[Local<'_>],
) -> Result<TypedBlock, TypeError> {
    let inner = closure_scope(alloc, scope, body, gives, locals)?;
    let inside = literal.statements.as_slice();
    block_in(
        alloc,
        known,
        builder,
        inner,
        inside,
        literal.span,
        is_single(inside),
    )
}

/// A closure literal, by its call and the type of its parameter: a body of its own.
#[cycle(walk)]
pub fn closure(
    alloc: Global,
    known: &Known<'_>,
    builder: &mut Builder,
    scope: &Scope<'_>,
    literal: &Closure,
    call: Span,
    ty: Ty,
) -> Result<TypedExpr, TypeError> {
    let signature = closure_type(known, call, literal.names.as_slice(), ty)?;
    let gives = signature.result;
    let id = builder.node()?;
    let opened = open_closure(alloc, builder, scope, literal, signature)?;
    let locals = opened.names.locals.as_slice();
    let block = closure_block(
        alloc,
        known,
        builder,
        scope,
        literal,
        opened.body,
        gives,
        locals,
    )?;
    let body = closed(builder, scope, literal.span, gives, opened, block)?;
    Ok(TypedExpr::Closure(node_at(id, literal.span, ty), body))
}
