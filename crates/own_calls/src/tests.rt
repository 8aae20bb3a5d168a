ghost use Rattle.std.specs.Prelude.{◌≡◌, true, All, IfOk};
ghost use Rattle.own_table.specs.Table.{IsTypeIn};

use super::*;
use own_table::{TypeInfo, TypeTable};
use own_tree::{ArgInfo, Bytes, Form, Mode, ParamInfo, Passing, Row, Span, Ty};
use std::alloc::{AllocError, Global};
use std::process::Abort;
use std::test::*;

/// A label, the mode and the type.
type Parameter<'t> = (Option<&'t [u8]>, Mode, Ty);

/// A label, the form, the type and the end of the argument.
type Argument<'t> = (Option<&'t [u8]>, Form, Ty, u32);

const CALL: Span = Span { start: 10, end: 50 };

const INSIDE: u32 = 40;

const BEHIND: u32 = 50;

const FILE: Ty = Ty::Named(0);

const POINT: Ty = Ty::Named(1);

const TURNS: Ty = Ty::Fun(0);

const TURNS_TWICE: Ty = Ty::Fun(1);

fn struct_of(alloc: Global, noncopyable: bool) -> Result<TypeInfo, AllocError> {
    Ok(TypeInfo {
        name: Bytes::from_slice(alloc, b"Struct")?,
        is_enum: false,
        noncopyable,
        has_deinit: false,
        fields: Row::new(alloc),
        cases: Row::new(alloc),
    })
}

fn table_of(alloc: Global) -> Result<TypeTable, Fail> {
    let mut types = Row::new(alloc);
    types.push(struct_of(alloc, true)?)?;
    types.push(struct_of(alloc, false)?)?;
    let table = TypeTable::from_types(alloc, types).ok().ok_or("no table")?;
    Ok(table)
}

fn is_type(table: &TypeTable, ty: Ty) -> bool
    ensures { result ≡ true → IsTypeIn table.now ty }
{
    match ty {
        Ty::Named(number) => number < table.count(),
        _ => true,
    }
}

fn label_of(alloc: Global, label: Option<&[u8]>) -> Result<Option<Bytes>, AllocError> {
    match label {
        Some(label) => Ok(Some(Bytes::from_slice(alloc, label)?)),
        None => Ok(None),
    }
}

fn params_of(
    rt: &impl Abort,
    alloc: Global,
    table: &TypeTable,
    rows: &[Parameter<'_>],
) -> Result<Vec<ParamInfo>, AllocError>
    ensures { IfOk result (λ params. All (λ p. IsTypeIn table.now p.ty) params.items) }
{
    let mut params = Vec::new(alloc);
    for (label, mode, ty) in rows {
        assert!(rt; is_type(table, *ty));
        params.push(ParamInfo {
            label: label_of(alloc, *label)?,
            mode: *mode,
            ty: *ty,
        })?;
    }
    Ok(params)
}

fn args_of(
    rt: &impl Abort,
    alloc: Global,
    table: &TypeTable,
    rows: &[Argument<'_>],
) -> Result<Vec<ArgInfo>, AllocError>
    ensures { IfOk result (λ args. All (λ a. IsTypeIn table.now a.ty) args.items) }
{
    let mut args = Vec::new(alloc);
    for (label, form, ty, end) in rows {
        assert!(rt; is_type(table, *ty));
        args.push(ArgInfo {
            label: label_of(alloc, *label)?,
            form: *form,
            ty: *ty,
            at: Span {
                start: CALL.start,
                end: *end,
            },
        })?;
    }
    Ok(args)
}

fn check(
    rt: &impl Abort,
    alloc: Global,
    params: &[Parameter<'_>],
    args: &[Argument<'_>],
) -> Result<Result<Row<Passing>, TypeError>, Fail> {
    let table = table_of(alloc)?;
    let params = params_of(rt, alloc, &table, params)?;
    let args = args_of(rt, alloc, &table, args)?;
    Ok(check_args(alloc, &table, params.as_slice(), args.as_slice(), CALL))
}

/// Parameters, arguments that agree with them, and how these are passed.
type Agreeing<'t> = (&'t [Parameter<'t>], &'t [Argument<'t>], &'t [Passing]);

const AGREEING: &[Agreeing<'static>] = &[
    (&[], &[], &[]),
    // a type that is copied, under each modifier
    (
        &[
            (None, Mode::Plain, Ty::Int),
            (Some(b"by"), Mode::Borrowing, POINT),
            (None, Mode::Consuming, Ty::Bool),
            (Some(b"to"), Mode::Inout, POINT),
        ],
        &[
            (None, Form::Value, Ty::Int, INSIDE),
            (Some(b"by"), Form::Path, POINT, INSIDE),
            (None, Form::Path, Ty::Bool, INSIDE),
            (Some(b"to"), Form::Address, POINT, INSIDE),
        ],
        &[
            Passing::ByValue,
            Passing::ByValue,
            Passing::ByValue,
            Passing::Inout,
        ],
    ),
    // and one that is not
    (
        &[
            (None, Mode::Plain, FILE),
            (None, Mode::Borrowing, FILE),
            (None, Mode::Consuming, FILE),
            (None, Mode::Inout, FILE),
        ],
        &[
            (None, Form::Value, FILE, INSIDE),
            (None, Form::Value, FILE, INSIDE),
            (None, Form::Path, FILE, INSIDE),
            (None, Form::Address, FILE, INSIDE),
        ],
        &[
            Passing::Consume,
            Passing::Borrow,
            Passing::Consume,
            Passing::Inout,
        ],
    ),
    // closures, and a parameter of function type that is passed on
    (
        &[
            (Some(b"first"), Mode::Closure, TURNS),
            (None, Mode::Closure, TURNS_TWICE),
            (Some(b"last"), Mode::Closure, TURNS),
        ],
        &[
            (Some(b"first"), Form::Closure, TURNS, INSIDE),
            (None, Form::Path, TURNS_TWICE, INSIDE),
            (None, Form::Closure, TURNS, BEHIND),
        ],
        &[Passing::Closure, Passing::Closure, Passing::Closure],
    ),
];

#[test]
fn agreeing_arguments_have_their_passings(rt: HostRuntime) -> Result<(), Fail> {
    for (params, args, wanted) in AGREEING {
        let row = check(&rt, rt.alloc(), params, args)?.ok().ok_or("refused")?;
        assert_eq!(rt; row.as_slice(), *wanted);
    }
    Ok(())
}

const LABELED: &[Parameter<'static>] = &[
    (Some(b"from"), Mode::Plain, Ty::Int),
    (Some(b"to"), Mode::Plain, Ty::Int),
];

const FROM: Argument<'static> = (Some(b"from"), Form::Value, Ty::Int, INSIDE);

const TO: Argument<'static> = (Some(b"to"), Form::Value, Ty::Int, INSIDE);

const UNLABELED: Argument<'static> = (None, Form::Value, Ty::Int, INSIDE);

/// Parameters, and arguments that differ from them.
type Differing<'t> = (&'t [Parameter<'t>], &'t [Argument<'t>]);

const DIFFERING: &[Differing<'static>] = &[
    // too few and too many
    (LABELED, &[FROM]),
    (LABELED, &[FROM, TO, UNLABELED]),
    // a label that is missing, one that is not wanted, and two that are swapped
    (LABELED, &[FROM, UNLABELED]),
    (&[(None, Mode::Plain, Ty::Int)], &[FROM]),
    (LABELED, &[TO, FROM]),
    // `&` that is not wanted, and that is missing
    (
        &[(None, Mode::Borrowing, FILE)],
        &[(None, Form::Address, FILE, INSIDE)],
    ),
    (
        &[(None, Mode::Inout, FILE)],
        &[(None, Form::Path, FILE, INSIDE)],
    ),
    // another type
    (
        &[(None, Mode::Plain, FILE)],
        &[(None, Form::Path, POINT, INSIDE)],
    ),
    // a closure for what is no function, a value for a function, and a closure with other names
    (
        &[(None, Mode::Plain, Ty::Int)],
        &[(None, Form::Closure, Ty::Int, BEHIND)],
    ),
    (
        &[(None, Mode::Closure, TURNS)],
        &[(None, Form::Value, TURNS, INSIDE)],
    ),
    (
        &[(None, Mode::Closure, TURNS_TWICE)],
        &[(None, Form::Closure, TURNS, BEHIND)],
    ),
    // a closure without its label inside the parentheses, and one before the last argument
    (
        &[(Some(b"each"), Mode::Closure, TURNS)],
        &[(None, Form::Closure, TURNS, INSIDE)],
    ),
    (
        &[
            (Some(b"each"), Mode::Closure, TURNS),
            (None, Mode::Closure, TURNS),
        ],
        &[
            (None, Form::Closure, TURNS, BEHIND),
            (None, Form::Closure, TURNS, BEHIND),
        ],
    ),
    // what ends with the call and is no closure
    (
        &[(Some(b"each"), Mode::Closure, TURNS)],
        &[(None, Form::Path, TURNS, BEHIND)],
    ),
];

#[test]
fn differing_arguments_are_refused_at_the_call(rt: HostRuntime) -> Result<(), Fail> {
    for (params, args) in DIFFERING {
        match check(&rt, rt.alloc(), params, args)? {
            Err(TypeError::BadType { code, at }) => {
                assert_eq!(rt; code, 13);
                assert_eq!(rt; at, CALL);
            }
            _ => assert!(rt; false, "accepted"),
        }
    }
    Ok(())
}
