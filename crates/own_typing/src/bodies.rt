//! The bodies of functions, methods, `init` and `deinit`, in order of the text.

use crate::closures::block_in;
use crate::discards::discards;
use crate::headings::{
    Heading, context_of, deinitializer_heading, function_heading, initializer_heading,
    method_heading,
};
use own_calls::TypeError;
use own_scope::signatures::param_of;
use own_scope::{Builder, Known, Local, Receiver, Scope};
use own_stated::locals::local_of;
use own_stated::opened::{closing, is_single, no_block};
use own_tree::tree::{Block, Declaration, EnumMember, Parameter, StructMember};
use own_tree::typed::{Body, TypedBlock};
use own_tree::{Binding, Bytes, Row, Ty};
use std::alloc::Global;

/// The body of that heading.
fn body_of(heading: Heading, params: Row<u32>, block: TypedBlock) -> Body {
    Body {
        kind: heading.kind,
        owner: heading.owner,
        params,
        result: heading.result,
        discards: discards(&block),
        span: heading.span,
        close: closing(block.at.span),
        block,
    }
}

/// The bindings of a body, and the names of its parameters.
#[derive(Drop)]
struct Bound<'t> {
    params: Row<u32>,
    receiver: Option<Receiver>,
    locals: Vec<Local<'t>>,
}

/// `self` of a body, where it has one.
fn receiver_of(
    alloc: Global,
    builder: &mut Builder,
    heading: Heading,
    body: u32,
) -> Result<Option<Receiver>, TypeError> {
    let (Some(mode), Some(owner)) = (heading.receiver, heading.owner) else {
        return Ok(None);
    };
    let ty = Ty::Named(owner);
    let binding = builder.declare(Binding {
        name: Bytes::from_slice(alloc, b"self".as_slice())?,
        ty,
        mode,
        span: heading.span,
        body,
    })?;
    Ok(Some(Receiver { binding, ty, mode }))
}

/// A parameter of a body, as a binding and as a local.
fn parameter_of<'t>(
    alloc: Global,
    known: &Known<'_>,
    builder: &mut Builder,
    parameter: &'t Parameter,
    body: u32,
) -> Result<Local<'t>, TypeError> {
    let said = param_of(alloc, &known.types, known.signatures.as_slice(), parameter)?;
    let binding = builder.declare(Binding {
        name: Bytes::from_slice(alloc, parameter.name.text.as_slice())?,
        ty: said.ty,
        mode: said.mode,
        span: parameter.name.span,
        body,
    })?;
    Ok(local_of(&parameter.name, binding, said.ty))
}

/// The bindings of a body before its parameters.
fn receiver_bound<'t>(
    alloc: Global,
    builder: &mut Builder,
    heading: Heading,
    body: u32,
) -> Result<Bound<'t>, TypeError> {
    let receiver = receiver_of(alloc, builder, heading, body)?;
    let mut params = Row::new(alloc);
    if let Some(me) = receiver {
        params.push(me.binding)?;
    }
    Ok(Bound {
        params,
        receiver,
        locals: Vec::new(alloc),
    })
}

/// Adds a parameter.
fn and_parameter<'t>(bound: Bound<'t>, local: Local<'t>) -> Result<Bound<'t>, TypeError> {
    let Bound {
        mut params,
        receiver,
        mut locals,
    } = bound;
    params.push(local.binding)?;
    locals.push(local)?;
    Ok(Bound {
        params,
        receiver,
        locals,
    })
}

/// The bindings of a body.
fn bound_by<'t>(
    alloc: Global,
    known: &Known<'_>,
    builder: &mut Builder,
    heading: Heading,
    parameters: &'t [Parameter],
    body: u32,
) -> Result<Bound<'t>, TypeError> {
    let mut bound = receiver_bound(alloc, builder, heading, body)?;
    for parameter in parameters {
        let local = parameter_of(alloc, known, builder, parameter, body)?;
        bound = and_parameter(bound, local)?;
    }
    Ok(bound)
}

/// The block of a body, which sees its parameters.
fn block_with(
    alloc: Global,
    known: &Known<'_>,
    builder: &mut Builder,
    heading: Heading,
    block: &Block,
    body: u32,
    receiver: Option<Receiver>,
    locals: &[Local<'_>],
) -> Result<TypedBlock, TypeError> {
    let mut scope = Scope::new(alloc, context_of(heading, body, receiver));
    scope.declare_all(alloc, locals)?;
    let inside = block.statements.as_slice();
    block_in(
        alloc,
        known,
        builder,
        scope,
        inside,
        block.span,
        is_single(inside),
    )
}

/// A body. Its number stands before those of the closures in it.
fn body(
    alloc: Global,
    known: &Known<'_>,
    builder: &mut Builder,
    heading: Heading,
    parameters: &[Parameter],
    block: &Block,
) -> Result<(), TypeError> {
    let nothing = no_block(alloc, block.span);
    let number = builder.embody(body_of(heading, Row::new(alloc), nothing))?;
    let bound = bound_by(alloc, known, builder, heading, parameters, number)?;
    let Bound {
        params,
        receiver,
        locals,
    } = bound;
    let locals = locals.as_slice();
    let made = block_with(
        alloc, known, builder, heading, block, number, receiver, locals,
    )?;
    builder.settle_body(number, body_of(heading, params, made))?;
    Ok(())
}

/// The body of a member of the struct of that number, where it has one.
fn struct_member(
    alloc: Global,
    known: &Known<'_>,
    builder: &mut Builder,
    owner: u32,
    member: &StructMember,
) -> Result<(), TypeError> {
    match member {
        StructMember::Field(_) => Ok(()),
        StructMember::Initializer(m) => {
            let heading = initializer_heading(owner, m.span);
            body(
                alloc,
                known,
                builder,
                heading,
                m.parameters.as_slice(),
                &m.block,
            )
        }
        StructMember::Deinitializer(m) => {
            let heading = deinitializer_heading(owner, m.span);
            body(alloc, known, builder, heading, &[], &m.block)
        }
        StructMember::Method(m) => {
            let heading = method_heading(known, owner, m);
            let parameters = m.function.parameters.as_slice();
            body(
                alloc,
                known,
                builder,
                heading,
                parameters,
                &m.function.block,
            )
        }
    }
}

/// The body of a member of the enum of that number, where it has one.
fn enum_member(
    alloc: Global,
    known: &Known<'_>,
    builder: &mut Builder,
    owner: u32,
    member: &EnumMember,
) -> Result<(), TypeError> {
    match member {
        EnumMember::Cases(..) => Ok(()),
        EnumMember::Deinitializer(m) => {
            let heading = deinitializer_heading(owner, m.span);
            body(alloc, known, builder, heading, &[], &m.block)
        }
        EnumMember::Method(m) => {
            let heading = method_heading(known, owner, m);
            let parameters = m.function.parameters.as_slice();
            body(
                alloc,
                known,
                builder,
                heading,
                parameters,
                &m.function.block,
            )
        }
    }
}

/// The bodies of the members of a struct.
fn struct_members(
    alloc: Global,
    known: &Known<'_>,
    builder: &mut Builder,
    owner: u32,
    members: &[StructMember],
) -> Result<(), TypeError> {
    for member in members {
        struct_member(alloc, known, builder, owner, member)?;
    }
    Ok(())
}

/// The bodies of the members of an enum.
fn enum_members(
    alloc: Global,
    known: &Known<'_>,
    builder: &mut Builder,
    owner: u32,
    members: &[EnumMember],
) -> Result<(), TypeError> {
    for member in members {
        enum_member(alloc, known, builder, owner, member)?;
    }
    Ok(())
}

/// The number of the next type. A number that is too large counts as memory that is refused.
fn next(number: u32) -> Result<u32, TypeError> {
    match number.checked_add(1) {
        Some(next) => Ok(next),
        None => Err(TypeError::Memory),
    }
}

/// The bodies of a declaration. Its type, where it declares one, has that number; the number of the next type.
fn of_declaration(
    alloc: Global,
    known: &Known<'_>,
    builder: &mut Builder,
    owner: u32,
    declaration: &Declaration,
) -> Result<u32, TypeError> {
    match declaration {
        Declaration::Struct(s) => {
            struct_members(alloc, known, builder, owner, s.members.as_slice())?;
            next(owner)
        }
        Declaration::Enum(e) => {
            enum_members(alloc, known, builder, owner, e.members.as_slice())?;
            next(owner)
        }
        Declaration::Function(f) => {
            let heading = function_heading(known, f);
            body(
                alloc,
                known,
                builder,
                heading,
                f.parameters.as_slice(),
                &f.block,
            )?;
            Ok(owner)
        }
    }
}

/// The bodies of declarations, in order.
pub fn type_bodies(
    alloc: Global,
    known: &Known<'_>,
    builder: &mut Builder,
    declarations: &[Declaration],
) -> Result<(), TypeError> {
    let mut owner = 0;
    for declaration in declarations {
        owner = of_declaration(alloc, known, builder, owner, declaration)?;
    }
    Ok(())
}
