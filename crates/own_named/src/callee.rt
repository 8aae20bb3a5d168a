//! What is called, before its arguments are typed, and the call when they are.

ghost use Rattle.std.specs.Prelude.{◌≡◌, All, true};
ghost use Rattle.own_table.specs.Table.{IsTypeIn};

use crate::members::{PART_OF_TEMPORARY, UNKNOWN_MEMBER, missing_member, refused};
use crate::path_values::path_value;
use crate::places::{UNKNOWN_NAME, of_self};
use own_calls::{ARGUMENTS_DIFFER, TypeError, check_args};
use own_scope::types::{case_of_type, copyable, is_enum, is_type, properties, property};
use own_scope::{Builder, Known, Local, Method, Scope, Seen, seen_at};
use own_shapes::CaseInfo;
use own_table::TypeTable;
use own_terms::arguments::Given;
use own_terms::nodes::{FUNCTION_STANDS, no_value, node_at, node_of, path_of, till};
use own_terms::values::holding;
use own_tree::tree::{MethodMode, Name, Path, Root};
use own_tree::typed::{At, Target, TypedExpr};
use own_tree::{ArgInfo, Bytes, Mode, ParamInfo, Passing, Row, Span, Ty};
use sqlite_items::Items;
use std::alloc::Global;

/// The judgement that `.name` has an expected type.
pub const NO_EXPECTED_TYPE: u8 = 25;

/// The parameters of what is called: those of a declaration, or those that its type gives.
#[derive(Drop)]
pub enum Parameters<'k> {
    Declared(&'k [ParamInfo]),
    Made(Row<ParamInfo>),
}

impl<'k> Parameters<'k> {
    pub fn as_slice(&self) -> &[ParamInfo] {
        match self {
            Parameters::Declared(params) => *params,
            Parameters::Made(params) => params.as_slice(),
        }
    }
}

/// The receiver of a method, and how it is passed.
#[derive(Drop)]
pub struct MethodReceiver {
    pub receiver: TypedExpr,
    pub passing: Passing,
}

/// What is called, at the node of the call.
#[derive(Drop)]
pub struct Callee<'k> {
    pub at: At,
    pub to: Target,
    pub params: Parameters<'k>,
    pub sent: Option<MethodReceiver>,
}

/// What a call is, by what stands before its parentheses.
#[derive(Drop)]
pub enum Call<'k> {
    Of(Callee<'k>),
    /// A `print`, by its number and its span.
    Print(u32, Span),
}

fn declared<'k>(at: At, to: Target, params: &'k [ParamInfo]) -> Callee<'k> {
    Callee {
        at,
        to,
        params: Parameters::Declared(params),
        sent: None,
    }
}

fn by_type<'k>(at: At, to: Target, params: Row<ParamInfo>) -> Callee<'k> {
    Callee {
        at,
        to,
        params: Parameters::Made(params),
        sent: None,
    }
}

// ---- cases

/// A payload is given without a label, and moves or is copied.
fn payloads(alloc: Global, case: &CaseInfo) -> Result<Row<ParamInfo>, TypeError> {
    let mut params = Row::new(alloc);
    for ty in case.payloads.as_slice() {
        params.push(ParamInfo {
            label: None,
            mode: Mode::Plain,
            ty: *ty,
        })?;
    }
    Ok(params)
}

/// `Name.case`, by the number of the type that is named there.
pub fn case_named<'k>(
    alloc: Global,
    known: &'k Known<'_>,
    id: u32,
    span: Span,
    named_at: Span,
    number: u32,
    name: &Name,
) -> Result<Callee<'k>, TypeError> {
    let ty = Ty::Named(number);
    let text = name.text.as_slice();
    holding(is_enum(known.table, ty), FUNCTION_STANDS, named_at)?;
    match case_of_type(known.table, ty, text) {
        Some((k, case)) => {
            let params = payloads(alloc, case)?;
            Ok(by_type(node_at(id, span, ty), Target::Case(number, k), params))
        }
        None => {
            let code = missing_member(known.method(number, text).is_some());
            Err(refused(code, name.span))
        }
    }
}

/// `.case`, of the type that is expected.
pub fn implicit_case<'k>(
    alloc: Global,
    known: &'k Known<'_>,
    id: u32,
    span: Span,
    wanted: Option<Ty>,
    name: &Name,
) -> Result<Callee<'k>, TypeError> {
    let Some(ty) = wanted else {
        return Err(refused(NO_EXPECTED_TYPE, span));
    };
    let Ty::Named(number) = ty else {
        return Err(refused(UNKNOWN_MEMBER, name.span));
    };
    holding(is_enum(known.table, ty), UNKNOWN_MEMBER, name.span)?;
    match case_of_type(known.table, ty, name.text.as_slice()) {
        Some((k, case)) => {
            let params = payloads(alloc, case)?;
            Ok(by_type(node_at(id, span, ty), Target::Case(number, k), params))
        }
        None => Err(refused(UNKNOWN_MEMBER, name.span)),
    }
}

// ---- methods

/// SE-0390: a method without a modifier borrows `self`.
fn receiver_mode(mode: Option<MethodMode>) -> Mode {
    match mode {
        None | Some(MethodMode::Borrowing) => Mode::Borrowing,
        Some(MethodMode::Consuming) => Mode::Consuming,
        Some(MethodMode::Mutating) => Mode::Inout,
    }
}

/// How a receiver of that type is passed.
fn received(known: &Known<'_>, mode: Option<MethodMode>, ty: Ty) -> Passing {
    match receiver_mode(mode) {
        Mode::Inout => Passing::Inout,
        _ if copyable(known.table, ty) => Passing::ByValue,
        Mode::Borrowing => Passing::Borrow,
        _ => Passing::Consume,
    }
}

/// A method with its receiver. No mutating method is called on a value that is no place.
fn sent<'k>(
    known: &'k Known<'_>,
    id: u32,
    span: Span,
    receiver: TypedExpr,
    method: &'k Method,
) -> Result<Callee<'k>, TypeError> {
    let lends = method.mode != Some(MethodMode::Mutating) || path_of(&receiver).is_some();
    holding(lends, PART_OF_TEMPORARY, span)?;
    let passing = received(known, method.mode, node_of(&receiver).ty);
    Ok(Callee {
        at: node_at(id, span, method.callable.result),
        to: Target::Method(method.callable.body),
        params: Parameters::Declared(method.callable.params.as_slice()),
        sent: Some(MethodReceiver { receiver, passing }),
    })
}

/// A method of a value, by its name.
pub fn method_of_value<'k>(
    known: &'k Known<'_>,
    id: u32,
    span: Span,
    receiver: TypedExpr,
    name: &Name,
) -> Result<Callee<'k>, TypeError> {
    let at = node_of(&receiver);
    let text = name.text.as_slice();
    if let Some(code) = no_value(&receiver) {
        return Err(refused(code, at.span));
    }
    holding(
        property(known.table, at.ty, text).is_none(),
        ARGUMENTS_DIFFER,
        span,
    )?;
    match known.method_of(at.ty, text) {
        Some(method) => sent(known, id, span, receiver, method),
        None => Err(refused(UNKNOWN_MEMBER, name.span)),
    }
}

/// A method of what a path names without its last field.
fn method_of_path<'k>(
    alloc: Global,
    known: &'k Known<'_>,
    builder: &mut Builder,
    scope: &Scope<'_>,
    id: u32,
    span: Span,
    root: &Root,
    first: Span,
    fields: &[Name],
) -> Result<Callee<'k>, TypeError> {
    let Some((last, front)) = fields.split_last() else {
        return Err(refused(ARGUMENTS_DIFFER, span));
    };
    let inner = builder.node()?;
    let end = match front.last() {
        Some(name) => name.span,
        None => first,
    };
    let receiver = path_value(
        alloc,
        known,
        builder,
        scope,
        inner,
        till(first, end),
        root,
        front,
    )?;
    method_of_value(known, id, span, receiver, last)
}

// ---- what is called by its bare name

/// A parameter of function type.
fn closure_called<'k>(
    known: &'k Known<'_>,
    id: u32,
    span: Span,
    local: Local<'_>,
) -> Result<Callee<'k>, TypeError> {
    let Ty::Fun(number) = local.ty else {
        return Err(refused(ARGUMENTS_DIFFER, span));
    };
    let Some(signature) = known.signature(number) else {
        return Err(refused(ARGUMENTS_DIFFER, span));
    };
    let at = node_at(id, span, signature.result);
    Ok(declared(
        at,
        Target::Closure(local.binding),
        signature.params.as_slice(),
    ))
}

/// The stored properties of a struct, each by its label.
fn memberwise(alloc: Global, known: &Known<'_>, ty: Ty) -> Result<Row<ParamInfo>, TypeError> {
    let mut params = Row::new(alloc);
    for field in properties(known.table, ty) {
        params.push(ParamInfo {
            label: Some(Bytes::from_slice(alloc, field.name.as_slice())?),
            mode: Mode::Plain,
            ty: field.ty,
        })?;
    }
    Ok(params)
}

/// A struct, by its `init` where it declares one.
fn built<'k>(
    alloc: Global,
    known: &'k Known<'_>,
    id: u32,
    span: Span,
    number: u32,
) -> Result<Callee<'k>, TypeError> {
    let at = node_at(id, span, Ty::Named(number));
    match known.initializer(number) {
        Some(callable) => {
            Ok(declared(at, Target::Init(callable.body), callable.params.as_slice()))
        }
        None => Ok(by_type(
            at,
            Target::Memberwise(number),
            memberwise(alloc, known, at.ty)?,
        )),
    }
}

/// What a bare name calls.
fn called<'k>(
    alloc: Global,
    known: &'k Known<'_>,
    builder: &mut Builder,
    scope: &Scope<'_>,
    id: u32,
    span: Span,
    name: &Name,
    seen: Seen<'k>,
) -> Result<Call<'k>, TypeError> {
    Ok(match seen {
        Seen::Local(local) => Call::Of(closure_called(known, id, span, local)?),
        Seen::Property(..) => return Err(refused(ARGUMENTS_DIFFER, span)),
        Seen::Method(method) => {
            let inner = builder.node()?;
            let path = of_self(alloc, known, scope, inner, name.span, name.span, &[])?;
            Call::Of(sent(known, id, span, TypedExpr::Path(path), method)?)
        }
        Seen::Function(callable) => {
            let at = node_at(id, span, callable.result);
            let params = callable.params.as_slice();
            Call::Of(declared(at, Target::Function(callable.body), params))
        }
        Seen::Print => Call::Print(id, span),
        Seen::ReadInt => Call::Of(declared(node_at(id, span, Ty::Int), Target::ReadInt, &[])),
        Seen::Type(number) => {
            holding(
                !is_enum(known.table, Ty::Named(number)),
                FUNCTION_STANDS,
                name.span,
            )?;
            Call::Of(built(alloc, known, id, span, number)?)
        }
    })
}

/// What a path calls.
pub fn path_callee<'k>(
    alloc: Global,
    known: &'k Known<'_>,
    builder: &mut Builder,
    scope: &Scope<'_>,
    id: u32,
    span: Span,
    path: &'k Path,
) -> Result<Call<'k>, TypeError> {
    let (root, fields) = (&path.root, path.fields.as_slice());
    let name = match root {
        Root::SelfWord(word) => {
            let word = *word;
            return Ok(Call::Of(method_of_path(
                alloc, known, builder, scope, id, span, root, word, fields,
            )?));
        }
        Root::Named(name) => name,
    };
    let Some(seen) = seen_at(known, scope, name.text.as_slice()) else {
        return Err(refused(UNKNOWN_NAME, name.span));
    };
    match (fields, seen) {
        ([], seen) => called(alloc, known, builder, scope, id, span, name, seen),
        ([case], Seen::Type(number)) => {
            Ok(Call::Of(case_named(alloc, known, id, span, name.span, number, case)?))
        }
        _ => Ok(Call::Of(method_of_path(
            alloc, known, builder, scope, id, span, root, name.span, fields,
        )?)),
    }
}

// ---- the call

/// The receiver before the arguments.
fn with_receiver(
    alloc: Global,
    sent: MethodReceiver,
    values: Vec<TypedExpr>,
    rest: &[Passing],
) -> Result<(Vec<TypedExpr>, Row<Passing>), TypeError> {
    let mut passings = Row::new(alloc);
    passings.push(sent.passing)?;
    for passing in rest {
        passings.push(*passing)?;
    }
    let mut all = Vec::new(alloc);
    all.push(sent.receiver)?;
    for value in values {
        all.push(value)?;
    }
    Ok((all, passings))
}

/// Whether each parameter is of a type of the table.
fn are_params(table: &TypeTable, params: &[ParamInfo]) -> bool
    ensures { result ≡ true → All (λ p. IsTypeIn table.now p.ty) params.now }
{
    params.iter().all(|param| is_type(table, param.ty))
}

/// Whether each argument is of a type of the table.
fn are_arguments(table: &TypeTable, infos: &[ArgInfo]) -> bool
    ensures { result ≡ true → All (λ a. IsTypeIn table.now a.ty) infos.now }
{
    infos.iter().all(|info| is_type(table, info.ty))
}

/// The judgement T13, of parameters and arguments of types of the table. So all of them are: what is said
/// of others does not matter, and counts as memory that is refused.
fn agreed(
    alloc: Global,
    table: &TypeTable,
    params: &[ParamInfo],
    infos: &[ArgInfo],
    at: Span,
) -> Result<Row<Passing>, TypeError> {
    if !are_params(table, params) || !are_arguments(table, infos) {
        return Err(TypeError::Memory);
    }
    check_args(alloc, table, params, infos, at)
}

/// A call with its arguments, of which there are as many as parameters, each for its own (T13).
pub fn finished(
    alloc: Global,
    known: &Known<'_>,
    callee: Callee<'_>,
    arguments: Given,
) -> Result<TypedExpr, TypeError> {
    let Callee {
        at,
        to,
        params,
        sent,
    } = callee;
    let Given { values, infos } = arguments;
    let params = params.as_slice();
    holding(values.len() == params.len(), ARGUMENTS_DIFFER, at.span)?;
    let rest = agreed(alloc, known.table, params, infos.as_slice(), at.span)?;
    match sent {
        None => Ok(TypedExpr::Call(at, to, Items::from_vec(values), rest)),
        Some(sent) => {
            let (all, passings) = with_receiver(alloc, sent, values, rest.as_slice())?;
            Ok(TypedExpr::Call(at, to, Items::from_vec(all), passings))
        }
    }
}

/// A construction of a case that is written without parentheses.
pub fn finished_alone(
    alloc: Global,
    known: &Known<'_>,
    callee: Callee<'_>,
) -> Result<TypedExpr, TypeError> {
    let nothing = Given {
        values: Vec::new(alloc),
        infos: Vec::new(alloc),
    };
    finished(alloc, known, callee, nothing)
}
