//! A form that is missing, printed as a pattern.

ghost use Rattle.std.specs.Prelude.{◌≡◌, ◌++◌, map, slice_get, IfOk, OnOk};
ghost use Rattle.std.specs.Option.{option_copied};
ghost use Rattle.std.specs.Fmt.{signed_decimal};
ghost use Rattle.own_tree.specs.TypedView.{pattern_view, pats_of};
ghost use Rattle.own_table.specs.Table.{types_in};
ghost use Rattle.own_judged.specs.Refusals.{case_name, case_payloads, form_text, parts_text};

use itoa::Buffer;
use own_scope::types::cases;
use own_shapes::CaseInfo;
use own_table::TypeTable;
use own_tree::{Bytes, Row, TPattern, Ty};
use std::alloc::{AllocError, Global};

/// Prints a number.
fn push_number(text: &mut Vec<u8>, number: i64) -> Result<(), AllocError>
    ensures { OnOk result (text.new.items ≡ text.old.items ++ signed_decimal number) }
{
    let mut buffer = Buffer::new();
    text.extend_from_slice(buffer.format(number).as_bytes())
}

/// The case of that number.
fn case_at<'t>(table: &'t TypeTable, ty: Ty, number: u32) -> Option<&'t CaseInfo>
    ensures { option_copied result ≡ slice_get ((types_in table.now).cases ty) number }
{
    cases(table, ty).get(number as usize)
}

/// The name and the payloads of a case. One that is not there has neither.
fn parts_of_case<'t>(case: Option<&'t CaseInfo>) -> (&'t [u8], &'t [Ty])
    ensures name { result.0.now ≡ case_name (option_copied case.entry) }
    ensures payloads { result.1.now ≡ case_payloads (option_copied case.entry) }
{
    match case {
        Some(info) => (info.name.as_slice(), info.payloads.as_slice()),
        None => (&[], &[]),
    }
}

/// Prints a form of that type.
#[cycle(forms)]
fn push_form(
    text: &mut Vec<u8>,
    table: &TypeTable,
    form: &TPattern,
    ty: Ty,
) -> Result<(), AllocError>
    ensures { OnOk result (text.new.items
        ≡ text.old.items ++ form_text (types_in table.now) ty (pattern_view form.now)) }
{
    match form {
        TPattern::Any | TPattern::Bind(_) => text.extend_from_slice(b"_"),
        TPattern::Number(number) => push_number(text, *number),
        TPattern::Truth(true) => text.extend_from_slice(b"true"),
        TPattern::Truth(false) => text.extend_from_slice(b"false"),
        TPattern::Case(number, parts) => {
            let (name, payloads) = parts_of_case(case_at(table, ty, *number));
            text.extend_from_slice(b".")?;
            text.extend_from_slice(name)?;
            push_parts(text, table, parts.as_slice(), payloads)
        }
    }
}

/// Prints the parts of a case in parentheses, where it has any.
#[cycle(forms)]
fn push_parts(
    text: &mut Vec<u8>,
    table: &TypeTable,
    parts: &[TPattern],
    payloads: &[Ty],
) -> Result<(), AllocError>
    ensures { OnOk result (text.new.items
        ≡ text.old.items ++ parts_text (types_in table.now) payloads.now (pats_of (map pattern_view parts.now))) }
{
    if parts.is_empty() || payloads.is_empty() {
        return Ok(());
    }
    text.extend_from_slice(b"(")?;
    push_form(text, table, &parts[0], payloads[0])?;
    for number in 1..parts.len() {
        if number >= payloads.len() {
            return text.extend_from_slice(b")");
        }
        text.extend_from_slice(b", ")?;
        push_form(text, table, &parts[number], payloads[number])?;
    }
    text.extend_from_slice(b")")
}

/// A form of that type as a pattern: `.name`, `.name(p, p)`, `true`, `false`, a number or `_`.
pub fn printed(
    alloc: Global,
    table: &TypeTable,
    form: &TPattern,
    ty: Ty,
) -> Result<Bytes, AllocError>
    ensures { IfOk result (λ text. text ≡ form_text (types_in table.now) ty (pattern_view form.now)) }
{
    let mut text = Vec::new(alloc);
    push_form(&mut text, table, form, ty)?;
    Ok(Row::from_vec(text))
}
