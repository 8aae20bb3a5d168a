//! What a closure has besides its statements: its type, its names and its body.

ghost use Rattle.std.specs.Prelude.{◌≡◌, ◌∷◌, ◌++◌, [], map, IfOk, OnOk};
ghost use Rattle.own_tree.specs.View.{stmt_view, stms_of};
ghost use Rattle.own_tree.specs.TypedView.{block_view, body_view};
ghost use Rattle.own_shapes.specs.Spans.{opening as opening_of};
ghost use Rattle.own_paths.specs.Ops.{closing as closing_of};
ghost use Rattle.own_judging.specs.Made.{made};
ghost use Rattle.own_judged.specs.Closures.{binding_of as binding_rule, closure_body as body_rule, closure_params, local_named as named_rule, name_span as span_rule, name_text as text_rule, no_block as no_block_rule};
ghost use Rattle.own_judged.specs.Names.{inside_closure as within_closure};
ghost use Rattle.own_judged.specs.Statements.{is_single as is_single_rule};
ghost use Rattle.own_scope.specs.Known.{text_in};
ghost use Rattle.own_scope.specs.Locals.{local_of as local_view};
ghost use Rattle.own_scope.specs.Making.{made_of};
ghost use Rattle.own_scope.specs.Scopes.{scope_of};
ghost use Rattle.own_terms.specs.Says.{Says};
ghost use Rattle.own_stated.specs.Closures.{closure_type as type_rule};

use crate::locals::local_of;
use own_calls::{ARGUMENTS_DIFFER, TypeError};
use own_scope::{Builder, Known, Local, Scope};
use own_terms::nodes::node_at;
use own_tree::tree::{ClosureName, Stmt};
use own_tree::typed::{BodyKind, TypedBlock};
use own_tree::{Binding, Body, Bytes, ParamInfo, Row, Signature, Span, Ty};
use sqlite_items::Items;
use std::alloc::{AllocError, Global};

/// The names of a body with their bindings, and the bindings of all of them in order.
#[derive(Drop)]
pub struct Names<'t> {
    pub bindings: Row<u32>,
    pub locals: Vec<Local<'t>>,
}

/// The first byte of a span.
pub fn opening(span: Span) -> Span
    ensures { result ≡ opening_of span }
{
    Span {
        start: span.start,
        end: span.start.saturating_add(1).min(span.end),
    }
}

/// Whether there is one statement.
pub fn is_single(ss: &[Stmt]) -> bool
    ensures { result ≡ is_single_rule (stms_of (map stmt_view ss.now)) }
{
    matches!(ss, [_])
}

/// The type of a closure with these names, by its call. T13 comes where it is no function type, or has
/// another number of parameters.
pub fn closure_type<'k>(
    known: &'k Known<'_>,
    call: Span,
    names: &[ClosureName],
    ty: Ty,
) -> Result<&'k Signature, TypeError>
    ensures { Says (λ g. g.now) result (type_rule (text_in known.entry.now) call names.now ty) }
{
    let differ = TypeError::BadType {
        code: ARGUMENTS_DIFFER,
        at: call,
    };
    let Ty::Fun(number) = ty else {
        return Err(differ);
    };
    match known.signature(number) {
        Some(signature) if names.len() == signature.params.len() => Ok(signature),
        _ => Err(differ),
    }
}

/// The last byte of a span.
pub fn closing(span: Span) -> Span
    ensures { result ≡ closing_of span }
{
    Span {
        start: span.end.saturating_sub(1),
        end: span.end,
    }
}

/// The block of a body whose parts are not typed yet.
pub fn no_block(alloc: Global, span: Span) -> TypedBlock
    ensures { block_view result ≡ no_block_rule span }
{
    TypedBlock {
        at: node_at(0, span, Ty::Unit),
        statements: Items::new(alloc),
    }
}

/// The body of a closure of that span, which stands in body `outer` and gives `gives`.
pub fn closure_body(
    scope: &Scope<'_>,
    span: Span,
    params: Row<u32>,
    gives: Ty,
    block: TypedBlock,
) -> Body
    ensures { body_view result ≡ body_rule (scope_of scope.now) span params gives (block_view block) }
{
    Body {
        kind: BodyKind::Closure(scope.context.body),
        owner: None,
        params,
        result: gives,
        discards: false,
        span: opening(span),
        close: closing(span),
        block,
    }
}

/// The span of a name of a closure.
fn name_span(name: &ClosureName) -> Span
    ensures { result ≡ span_rule name.now }
{
    match name {
        ClosureName::Any(span) => *span,
        ClosureName::Bind(name) => name.span,
    }
}

/// The name that a binding of a closure has: none where it is `_`.
fn name_text(alloc: Global, name: &ClosureName) -> Result<Bytes, AllocError>
    ensures { IfOk result (λ text. text ≡ text_rule name.now) }
{
    match name {
        ClosureName::Any(_) => Ok(Bytes::new(alloc)),
        ClosureName::Bind(name) => Bytes::from_slice(alloc, name.text.as_slice()),
    }
}

/// The binding of a name of a closure, in body `body`.
fn name_binding(
    alloc: Global,
    name: &ClosureName,
    param: &ParamInfo,
    body: u32,
) -> Result<Binding, AllocError>
    ensures { IfOk result (λ b. b ≡ binding_rule (text_rule name.now) param.now.ty param.now.mode (span_rule name.now)
        body) }
{
    Ok(Binding {
        name: name_text(alloc, name)?,
        ty: param.ty,
        mode: param.mode,
        span: name_span(name),
        body,
    })
}

/// Adds a name of a closure, unless it is `_`.
fn and_name<'t>(
    locals: &mut Vec<Local<'t>>,
    name: &'t ClosureName,
    binding: u32,
    ty: Ty,
) -> Result<(), AllocError>
    ensures { OnOk result (map local_view locals.new.items
        ≡ map local_view locals.old.items ++ named_rule name.entry.now binding ty) }
{
    if let ClosureName::Bind(name) = name {
        locals.push(local_of(name, binding, ty))?;
    }
    Ok(())
}

/// The names of a closure as bindings of body `body`, by the parameters of its type, of which there are as
/// many.
pub fn closure_names<'t>(
    alloc: Global,
    builder: &mut Builder,
    names: &'t [ClosureName],
    params: &[ParamInfo],
    body: u32,
) -> Result<Names<'t>, AllocError>
    ensures { IfOk result (λ n. (closure_params body names.entry.now params.now).run (made_of builder.old)
        ≡ made (n.bindings, map local_view n.locals.items) (made_of builder.new)) }
{
    let mut bindings = Row::new(alloc);
    let mut locals = Vec::new(alloc);
    for number in 0..names.len() {
        if number >= params.len() {
            return Err(AllocError);
        }
        let (name, param) = (&names[number], &params[number]);
        let binding = builder.declare(name_binding(alloc, name, param, body)?)?;
        bindings.push(binding)?;
        and_name(&mut locals, name, binding, param.ty)?;
    }
    Ok(Names { bindings, locals })
}

/// The inside of a closure that is body `body` and gives `gives`, with its names.
pub fn closure_scope<'i>(
    alloc: Global,
    scope: &'i Scope<'_>,
    body: u32,
    gives: Ty,
    locals: &[Local<'_>],
) -> Result<Scope<'i>, AllocError>
    ensures { IfOk result (λ inner. scope_of inner
        ≡ within_closure (scope_of scope.entry.now) body gives (map local_view locals.now)) }
{
    let mut inner = (&*scope).inside_closure(alloc, body, gives)?;
    inner.declare_all(alloc, locals)?;
    Ok(inner)
}
