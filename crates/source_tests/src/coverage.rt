use own_match::cover;
use own_table::{CaseInfo, FieldInfo, TypeInfo, TypeTable};
use own_tree::{Bytes, Cover, Row, TPattern, Ty};
use sqlite_items::Items;
use std::alloc::{AllocError, Global};
use std::process::Abort;
use std::test::*;

/// A pattern or a form, as the tables below write it.
enum Form<'f> {
    Any,
    Bind,
    Number(i64),
    Truth(bool),
    Case(u32, &'f [Form<'f>]),
}

use Form::{Any, Bind, Case, Number, Truth};

fn pattern_of(alloc: Global, form: &Form<'_>) -> Result<TPattern, AllocError> {
    match form {
        Any => Ok(TPattern::Any),
        Bind => Ok(TPattern::Bind(0)),
        Number(number) => Ok(TPattern::Number(*number)),
        Truth(truth) => Ok(TPattern::Truth(*truth)),
        Case(case, parts) => {
            let mut items = Items::new(alloc);
            for part in *parts {
                items.push(pattern_of(alloc, part)?)?;
            }
            Ok(TPattern::Case(*case, items))
        }
    }
}

fn is_form(pattern: &TPattern, form: &Form<'_>) -> bool {
    match (pattern, form) {
        (TPattern::Any, Any) => true,
        (TPattern::Number(number), Number(wanted)) => *number == *wanted,
        (TPattern::Truth(truth), Truth(wanted)) => *truth == *wanted,
        (TPattern::Case(case, parts), Case(wanted, forms)) => {
            if *case != *wanted || parts.len() != forms.len() {
                return false;
            }
            for (part, form) in parts.as_slice().iter().zip(*forms) {
                if !is_form(part, form) {
                    return false;
                }
            }
            true
        }
        _ => false,
    }
}

fn struct_of(alloc: Global, ty: Ty) -> Result<TypeInfo, AllocError> {
    let mut fields = Row::new(alloc);
    fields.push(FieldInfo {
        name: Bytes::from_slice(alloc, b"property")?,
        ty,
        changes: false,
    })?;
    Ok(TypeInfo {
        name: Bytes::from_slice(alloc, b"Struct")?,
        is_enum: false,
        noncopyable: true,
        has_deinit: false,
        fields,
        cases: Row::new(alloc),
    })
}

fn enum_of(alloc: Global, cases: &[&[Ty]]) -> Result<TypeInfo, AllocError> {
    let mut infos = Row::new(alloc);
    for payloads in cases {
        infos.push(CaseInfo {
            name: Bytes::from_slice(alloc, b"one")?,
            payloads: Row::from_slice(alloc, *payloads)?,
        })?;
    }
    Ok(TypeInfo {
        name: Bytes::from_slice(alloc, b"Enum")?,
        is_enum: true,
        noncopyable: true,
        has_deinit: false,
        fields: Row::new(alloc),
        cases: infos,
    })
}

const FILE: Ty = Ty::Named(0);

const SLOT: Ty = Ty::Named(1);

const EMPTY: Ty = Ty::Named(2);

const PAIR: Ty = Ty::Named(3);

const FLAGS: Ty = Ty::Named(4);

const HOLLOW: Ty = Ty::Named(5);

const MIXED: Ty = Ty::Named(6);

fn types(alloc: Global) -> Result<Row<TypeInfo>, AllocError> {
    let mut types = Row::new(alloc);
    types.push(struct_of(alloc, Ty::Int)?)?;
    types.push(enum_of(alloc, &[&[], &[FILE], &[FILE, FILE]])?)?;
    types.push(enum_of(alloc, &[])?)?;
    types.push(enum_of(alloc, &[&[Ty::Int, Ty::Int]])?)?;
    types.push(enum_of(alloc, &[&[Ty::Bool, Ty::Bool]])?)?;
    types.push(struct_of(alloc, EMPTY)?)?;
    types.push(enum_of(alloc, &[&[HOLLOW], &[SLOT, Ty::Bool], &[EMPTY, Ty::Int]])?)?;
    Ok(types)
}

/// The type, the patterns, and the form that they miss, if there is one.
type Answered<'f> = (Ty, &'f [Form<'f>], Option<Form<'f>>);

fn answers(rt: &impl Abort, alloc: Global, rows: &[Answered<'_>]) -> Result<(), Fail> {
    let table = TypeTable::from_types(alloc, types(alloc)?)
        .ok()
        .ok_or("no table")?;
    for (ty, forms, wanted) in rows {
        let mut patterns = Vec::new(alloc);
        for form in *forms {
            patterns.push(pattern_of(alloc, form)?)?;
        }
        if let Ty::Named(number) = *ty {
            assert!(rt; number < table.count());
        }
        match (cover(alloc, &table, *ty, patterns.as_slice())?, wanted) {
            (Cover::All, None) => {}
            (Cover::Missing(form), Some(wanted)) => assert!(rt; is_form(&form, wanted)),
            (_, _) => assert!(rt; false, "another answer"),
        }
    }
    Ok(())
}

const CASES: &[Answered<'static>] = &[
    (
        SLOT,
        &[Case(1, &[Bind]), Case(2, &[Any, Bind])],
        Some(Case(0, &[])),
    ),
    (
        SLOT,
        &[Case(1, &[Bind]), Case(0, &[])],
        Some(Case(2, &[Any, Any])),
    ),
    (
        SLOT,
        &[Case(1, &[Bind]), Case(2, &[Any, Any]), Case(0, &[])],
        None,
    ),
    (SLOT, &[Case(2, &[Any, Any]), Bind], None),
];

#[test]
fn cases_come_in_order_of_declaration(rt: HostRuntime) -> Result<(), Fail> {
    answers(&rt, rt.alloc(), CASES)
}

const TRUTHS: &[Answered<'static>] = &[
    (Ty::Bool, &[], Some(Truth(false))),
    (Ty::Bool, &[Truth(false)], Some(Truth(true))),
    (Ty::Bool, &[Truth(true), Truth(false)], None),
    (
        FLAGS,
        &[
            Case(0, &[Truth(true), Any]),
            Case(0, &[Truth(false), Truth(false)]),
        ],
        Some(Case(0, &[Truth(false), Truth(true)])),
    ),
    (
        FLAGS,
        &[Case(0, &[Bind, Truth(false)])],
        Some(Case(0, &[Truth(false), Truth(true)])),
    ),
];

#[test]
fn false_comes_before_true(rt: HostRuntime) -> Result<(), Fail> {
    answers(&rt, rt.alloc(), TRUTHS)
}

const LITERALS: &[Answered<'static>] = &[
    (Ty::Int, &[Number(3), Number(-1)], Some(Any)),
    (Ty::Int, &[Number(3), Bind], None),
    // 7 stands at the second place of another pattern
    (
        PAIR,
        &[
            Case(0, &[Number(1), Number(5)]),
            Case(0, &[Number(2), Number(7)]),
        ],
        Some(Case(0, &[Number(1), Number(7)])),
    ),
    (
        PAIR,
        &[
            Case(0, &[Number(3), Any]),
            Case(0, &[Number(-9), Number(0)]),
        ],
        Some(Case(0, &[Number(-9), Any])),
    ),
    (
        PAIR,
        &[Case(0, &[Number(1), Any]), Case(0, &[Any, Number(1)])],
        Some(Case(0, &[Any, Any])),
    ),
];

#[test]
fn literals_rise_and_all_others_come_last(rt: HostRuntime) -> Result<(), Fail> {
    answers(&rt, rt.alloc(), LITERALS)
}

const STRUCTS: &[Answered<'static>] = &[
    (FILE, &[], Some(Any)),
    (FILE, &[Bind], None),
    (
        SLOT,
        &[Case(0, &[]), Case(2, &[Any, Any])],
        Some(Case(1, &[Any])),
    ),
];

#[test]
fn a_struct_is_not_looked_into(rt: HostRuntime) -> Result<(), Fail> {
    answers(&rt, rt.alloc(), STRUCTS)
}

const EMPTIES: &[Answered<'static>] = &[
    (EMPTY, &[], None),
    (HOLLOW, &[], None),
    (MIXED, &[], Some(Case(1, &[Case(0, &[]), Truth(false)]))),
    (
        MIXED,
        &[
            Case(1, &[Case(0, &[]), Any]),
            Case(1, &[Case(1, &[Any]), Truth(false)]),
        ],
        Some(Case(1, &[Case(1, &[Any]), Truth(true)])),
    ),
    (MIXED, &[Case(1, &[Any, Any])], None),
];

#[test]
fn forms_without_a_value_do_not_count(rt: HostRuntime) -> Result<(), Fail> {
    answers(&rt, rt.alloc(), EMPTIES)
}
