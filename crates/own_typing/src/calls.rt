//! Calls: what is called, and its arguments, each by its own parameter.

use crate::closures::closure;
use crate::expressions::expression;
use own_calls::{ARGUMENTS_DIFFER, TypeError};
use own_named::{
    Call, Callee, a_place, finished, implicit_case, method_of_value, path_callee, refused,
};
use own_scope::{Builder, Known, Scope};
use own_terms::arguments::{Given, expected_by, info, passed};
use own_terms::items::{item, printed};
use own_terms::nodes::{FUNCTION_STANDS, span_of};
use own_tree::tree::{Argument, Closure, Expr, Name, Passed, Path};
use own_tree::typed::TypedExpr;
use own_tree::{ArgInfo, ParamInfo, Span, Ty};
use std::alloc::Global;

/// An argument, and what it says to its parameter.
#[derive(Drop)]
pub struct Spoken {
    pub value: TypedExpr,
    pub info: ArgInfo,
}

/// No arguments.
fn nothing_given(alloc: Global) -> Given {
    Given {
        values: Vec::new(alloc),
        infos: Vec::new(alloc),
    }
}

/// Adds an argument behind those there are.
fn and_given(given: Given, more: Spoken) -> Result<Given, TypeError> {
    let Given {
        mut values,
        mut infos,
    } = given;
    let Spoken { value, info } = more;
    values.push(value)?;
    infos.push(info)?;
    Ok(Given { values, infos })
}

/// The parameter of the next argument. One argument too many is T13, before it is looked at.
fn next_param<'p>(
    params: &'p [ParamInfo],
    given: &Given,
    call: Span,
) -> Result<&'p ParamInfo, TypeError> {
    match params.get(given.values.len()) {
        Some(param) => Ok(param),
        None => Err(refused(ARGUMENTS_DIFFER, call)),
    }
}

/// An expression of that span, as the argument for a parameter.
fn as_argument(
    alloc: Global,
    label: &Option<Name>,
    at: Span,
    param: &ParamInfo,
    e: TypedExpr,
) -> Result<Spoken, TypeError> {
    let (value, info) = passed(alloc, label, at, param, e)?;
    Ok(Spoken { value, info })
}

/// A closure of that span, as an argument.
fn spoken_closure(
    alloc: Global,
    label: &Option<Name>,
    at: Span,
    e: TypedExpr,
) -> Result<Spoken, TypeError> {
    let info = info(alloc, label, &e, at)?;
    Ok(Spoken { value: e, info })
}

/// `&path` (SE-0377).
fn address(
    alloc: Global,
    known: &Known<'_>,
    builder: &mut Builder,
    scope: &Scope<'_>,
    label: &Option<Name>,
    path: &Path,
) -> Result<Spoken, TypeError> {
    let place = a_place(alloc, known, builder, scope, path)?;
    spoken_closure(alloc, label, path.span, TypedExpr::Address(place))
}

/// An argument, by its call and its parameter.
#[cycle(walk)]
fn argument(
    alloc: Global,
    known: &Known<'_>,
    builder: &mut Builder,
    scope: &Scope<'_>,
    argument: &Argument,
    call: Span,
    param: &ParamInfo,
) -> Result<Spoken, TypeError> {
    match &argument.passed {
        Passed::Value(e) => {
            let typed = expression(alloc, known, builder, scope, e, expected_by(param))?;
            as_argument(alloc, &argument.label, span_of(e), param, typed)
        }
        Passed::Address(_, path) => address(alloc, known, builder, scope, &argument.label, path),
        Passed::Closure(literal) => {
            let typed = closure(alloc, known, builder, scope, literal, call, param.ty)?;
            spoken_closure(alloc, &argument.label, literal.span, typed)
        }
    }
}

/// What stands in the parentheses of a call.
#[cycle(walk)]
fn arguments(
    alloc: Global,
    known: &Known<'_>,
    builder: &mut Builder,
    scope: &Scope<'_>,
    inside: &[Argument],
    call: Span,
    params: &[ParamInfo],
) -> Result<Given, TypeError> {
    let mut given = nothing_given(alloc);
    for one in inside {
        let param = next_param(params, &given, call)?;
        let more = argument(alloc, known, builder, scope, one, call, param)?;
        given = and_given(given, more)?;
    }
    Ok(given)
}

/// A trailing closure behind the other arguments (SE-0279).
#[cycle(walk)]
fn trailing(
    alloc: Global,
    known: &Known<'_>,
    builder: &mut Builder,
    scope: &Scope<'_>,
    literal: &Closure,
    call: Span,
    params: &[ParamInfo],
    given: Given,
) -> Result<Given, TypeError> {
    let param = next_param(params, &given, call)?;
    let typed = closure(alloc, known, builder, scope, literal, call, param.ty)?;
    and_given(given, spoken_closure(alloc, &None, literal.span, typed)?)
}

/// All arguments of a call.
#[cycle(walk)]
fn all_arguments(
    alloc: Global,
    known: &Known<'_>,
    builder: &mut Builder,
    scope: &Scope<'_>,
    e: &Expr,
    call: Span,
    params: &[ParamInfo],
) -> Result<Given, TypeError> {
    match e {
        Expr::Call(_, _, inside) => {
            arguments(
                alloc,
                known,
                builder,
                scope,
                inside.as_slice(),
                call,
                params,
            )
        }
        Expr::CallClosing(_, _, inside, literal) => {
            let given = arguments(
                alloc,
                known,
                builder,
                scope,
                inside.as_slice(),
                call,
                params,
            )?;
            trailing(alloc, known, builder, scope, literal, call, params, given)
        }
        Expr::CallClosure(_, _, literal) => {
            let given = nothing_given(alloc);
            trailing(alloc, known, builder, scope, literal, call, params, given)
        }
        _ => Err(TypeError::Memory),
    }
}

/// An item of a `print`.
#[cycle(walk)]
fn print_item(
    alloc: Global,
    known: &Known<'_>,
    builder: &mut Builder,
    scope: &Scope<'_>,
    argument: &Argument,
    call: Span,
) -> Result<TypedExpr, TypeError> {
    match &argument.passed {
        Passed::Value(e) => {
            if argument.label.is_some() {
                return Err(refused(ARGUMENTS_DIFFER, call));
            }
            let typed = expression(alloc, known, builder, scope, e, None)?;
            item(span_of(e), typed)
        }
        Passed::Address(..) => Err(refused(ARGUMENTS_DIFFER, call)),
        Passed::Closure(literal) => Err(refused(FUNCTION_STANDS, literal.span)),
    }
}

/// The items of a `print`.
#[cycle(walk)]
fn print_items(
    alloc: Global,
    known: &Known<'_>,
    builder: &mut Builder,
    scope: &Scope<'_>,
    inside: &[Argument],
    call: Span,
) -> Result<Vec<TypedExpr>, TypeError> {
    let mut items = Vec::new(alloc);
    for argument in inside {
        items.push(print_item(alloc, known, builder, scope, argument, call)?)?;
    }
    Ok(items)
}

/// A `print` at the node of that number. A closure behind it is T24, whatever its items are.
#[cycle(walk)]
fn print(
    alloc: Global,
    known: &Known<'_>,
    builder: &mut Builder,
    scope: &Scope<'_>,
    e: &Expr,
    id: u32,
    span: Span,
) -> Result<TypedExpr, TypeError> {
    match e {
        Expr::Call(_, _, inside) => {
            let items = print_items(alloc, known, builder, scope, inside.as_slice(), span)?;
            Ok(printed(alloc, id, span, items)?)
        }
        Expr::CallClosing(_, _, _, literal) | Expr::CallClosure(_, _, literal) => {
            Err(refused(FUNCTION_STANDS, literal.span))
        }
        _ => Err(TypeError::Memory),
    }
}

/// What is called, by what stands before the parentheses of the call of that span.
#[cycle(walk)]
fn callee_of<'k>(
    alloc: Global,
    known: &'k Known<'_>,
    builder: &mut Builder,
    scope: &Scope<'_>,
    callee: &'k Expr,
    span: Span,
    wanted: Option<Ty>,
) -> Result<Call<'k>, TypeError> {
    match callee {
        Expr::Path(path) => {
            let id = builder.node()?;
            path_callee(alloc, known, builder, scope, id, span, path)
        }
        Expr::ImplicitMember(_, name) => {
            let id = builder.node()?;
            Ok(Call::Of(implicit_case(alloc, known, id, span, wanted, name)?))
        }
        Expr::Member(_, inner, name) => {
            let id = builder.node()?;
            let receiver = expression(alloc, known, builder, scope, inner.get(), None)?;
            Ok(Call::Of(method_of_value(known, id, span, receiver, name)?))
        }
        _ => Err(refused(ARGUMENTS_DIFFER, span)),
    }
}

/// What a call calls.
#[cycle(walk)]
fn called<'k>(
    alloc: Global,
    known: &'k Known<'_>,
    builder: &mut Builder,
    scope: &Scope<'_>,
    e: &'k Expr,
    wanted: Option<Ty>,
) -> Result<Call<'k>, TypeError> {
    match e {
        Expr::Call(span, callee, _)
        | Expr::CallClosing(span, callee, _, _)
        | Expr::CallClosure(span, callee, _) => {
            callee_of(alloc, known, builder, scope, callee.get(), *span, wanted)
        }
        _ => Err(TypeError::Memory),
    }
}

/// A call of what is no `print`, with its arguments.
#[cycle(walk)]
fn with_arguments(
    alloc: Global,
    known: &Known<'_>,
    builder: &mut Builder,
    scope: &Scope<'_>,
    e: &Expr,
    callee: Callee<'_>,
) -> Result<TypedExpr, TypeError> {
    let call = callee.at.span;
    let given = all_arguments(
        alloc,
        known,
        builder,
        scope,
        e,
        call,
        callee.params.as_slice(),
    )?;
    finished(alloc, known, callee, given)
}

/// A call, in each of its three forms.
#[cycle(walk)]
pub fn call(
    alloc: Global,
    known: &Known<'_>,
    builder: &mut Builder,
    scope: &Scope<'_>,
    e: &Expr,
    wanted: Option<Ty>,
) -> Result<TypedExpr, TypeError> {
    match called(alloc, &*known, builder, scope, &*e, wanted)? {
        Call::Of(callee) => with_arguments(alloc, known, builder, scope, e, callee),
        Call::Print(id, span) => print(alloc, known, builder, scope, e, id, span),
    }
}
