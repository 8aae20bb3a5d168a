//! Tests of types before a table is made of them: M4, M5 and M7, and T01, T04 and T05.

ghost use Rattle.std.specs.Prelude.{◌≡◌, length};
ghost use Rattle.std.specs.List.{list_all};
ghost use Rattle.own_shapes.specs.Types.{all_case_types, field_types};
ghost use Rattle.own_table.specs.Fitting.{are_fit, has_content, has_few_parts, has_few_payloads, has_own_deinit, has_own_parts, is_content, is_fit};

use own_shapes::{CaseInfo, FieldInfo, TypeInfo};
use own_tree::Ty;
use own_tree::limits::{MOST_FIELDS, MOST_PARAMETERS, MOST_TYPES};

/// Whether a stored property or a payload may be of this type: `Int`, `Bool` or a declared type (T01),
/// which in a copyable type is copyable (T04).
fn is_content(ty: Ty, noncopyable: bool, types: &[TypeInfo]) -> bool
    ensures { result ≡ is_content types.now noncopyable ty }
{
    match ty {
        Ty::Int | Ty::Bool => true,
        Ty::Unit | Ty::Fun(_) => false,
        Ty::Named(k) => match types.get(k as usize) {
            Some(info) => noncopyable || !info.noncopyable,
            None => false,
        },
    }
}

fn payloads_fit(payloads: &[Ty], noncopyable: bool, types: &[TypeInfo]) -> bool
    ensures { result ≡ list_all (is_content types.now noncopyable) payloads.now }
{
    for ty in payloads {
        if !is_content(*ty, noncopyable, types) {
            return false;
        }
    }
    true
}

fn fields_fit(fields: &[FieldInfo], noncopyable: bool, types: &[TypeInfo]) -> bool
    ensures { result ≡ list_all (is_content types.now noncopyable) (field_types fields.now) }
{
    for field in fields {
        if !is_content(field.ty, noncopyable, types) {
            return false;
        }
    }
    true
}

fn cases_fit(cases: &[CaseInfo], noncopyable: bool, types: &[TypeInfo]) -> bool
    ensures { result ≡ list_all (is_content types.now noncopyable) (all_case_types cases.now) }
{
    for case in cases {
        if !payloads_fit(case.payloads.as_slice(), noncopyable, types) {
            return false;
        }
    }
    true
}

/// Whether each part is of a type that may stand there (T01, T04).
fn has_content(info: &TypeInfo, types: &[TypeInfo]) -> bool
    ensures { result ≡ has_content types.now info.now }
{
    if info.is_enum {
        cases_fit(info.cases.as_slice(), info.noncopyable, types)
    } else {
        fields_fit(info.fields.as_slice(), info.noncopyable, types)
    }
}

fn have_few_payloads(cases: &[CaseInfo]) -> bool
    ensures { result ≡ list_all has_few_payloads cases.now }
{
    for case in cases {
        if case.payloads.len() > MOST_PARAMETERS {
            return false;
        }
    }
    true
}

/// Whether it is within M5 and M7.
fn has_few_parts(info: &TypeInfo) -> bool
    ensures { result ≡ has_few_parts info.now }
{
    info.fields.len() <= MOST_FIELDS
        && info.cases.len() <= MOST_FIELDS
        && have_few_payloads(info.cases.as_slice())
}

/// Whether a `deinit` stands only where it may: in a noncopyable struct (T05, SE-0390).
fn has_own_deinit(info: &TypeInfo) -> bool
    ensures { result ≡ has_own_deinit info.now }
{
    !info.has_deinit || (info.noncopyable && !info.is_enum)
}

/// Whether a struct has no cases, and an enum no stored properties.
fn has_own_parts(info: &TypeInfo) -> bool
    ensures { result ≡ has_own_parts info.now }
{
    if info.is_enum {
        info.fields.is_empty()
    } else {
        info.cases.is_empty()
    }
}

fn is_fit(info: &TypeInfo, types: &[TypeInfo]) -> bool
    ensures { result ≡ is_fit types.now info.now }
{
    has_few_parts(info) && has_own_deinit(info) && has_own_parts(info) && has_content(info, types)
}

/// Whether types are within M4, M5 and M7, T01, T04 and T05 hold of them, and each has the parts of its
/// kind alone.
pub fn are_fit(types: &[TypeInfo]) -> bool
    ensures { result ≡ are_fit types.now }
{
    if types.len() > MOST_TYPES {
        return false;
    }
    for info in types {
        if !is_fit(info, types) {
            return false;
        }
    }
    true
}
