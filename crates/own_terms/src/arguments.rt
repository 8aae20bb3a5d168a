//! Arguments, by the parameters that take them.

ghost use Rattle.std.specs.Prelude.{◌≡◌, IfOk};
ghost use Rattle.own_tree.specs.TypedView.{expr_view};
ghost use Rattle.own_judged.specs.Arguments.{expected_by as expected_of, info as info_of, label_text as label_of, not_passed as why_not_passed};
ghost use Rattle.own_terms.specs.Passing.{as_argument};
ghost use Rattle.own_terms.specs.Says.{Says};

use crate::nodes::{form_of, no_value, node_of};
use own_calls::TypeError;
use own_tree::tree::Name;
use own_tree::typed::TypedExpr;
use own_tree::{ArgInfo, Bytes, ParamInfo, Span, Ty};
use std::alloc::{AllocError, Global};

/// What stands in the parentheses of a call, and what each of it says to its parameter.
#[derive(Drop)]
pub struct Given {
    pub values: Vec<TypedExpr>,
    pub infos: Vec<ArgInfo>,
}

/// The type that a parameter expects of a value. A function is not expected: it is no value.
pub fn expected_by(param: &ParamInfo) -> Option<Ty>
    ensures { result ≡ expected_of param.now }
{
    match param.ty {
        Ty::Fun(_) => None,
        ty => Some(ty),
    }
}

/// The judgement by which an expression is no argument for a parameter.
fn not_passed(param: &ParamInfo, e: &TypedExpr) -> Option<u8>
    ensures { result ≡ why_not_passed param.now (expr_view e.now) }
{
    match param.ty {
        Ty::Fun(_) => None,
        _ => no_value(e),
    }
}

/// A copy of a label, where there is one.
fn label_text(alloc: Global, label: &Option<Name>) -> Result<Option<Bytes>, AllocError>
    ensures { IfOk result (λ text. text ≡ label_of label.now) }
{
    match label {
        Some(name) => Ok(Some(Bytes::from_slice(alloc, name.text.as_slice())?)),
        None => Ok(None),
    }
}

/// What an argument of that span says to its parameter.
pub fn info(
    alloc: Global,
    label: &Option<Name>,
    e: &TypedExpr,
    at: Span,
) -> Result<ArgInfo, AllocError>
    ensures { IfOk result (λ i. i ≡ info_of label.now (expr_view e.now) at) }
{
    Ok(ArgInfo {
        label: label_text(alloc, label)?,
        form: form_of(e),
        ty: node_of(e).ty,
        at,
    })
}

/// An expression of that span, as the argument for a parameter. T24, T29 and T32 come where a parameter of
/// another than a function type gets no value.
pub fn passed(
    alloc: Global,
    label: &Option<Name>,
    at: Span,
    param: &ParamInfo,
    e: TypedExpr,
) -> Result<(TypedExpr, ArgInfo), TypeError>
    ensures { Says (λ r. (expr_view r.0, r.1)) result (as_argument label.now at param.now (expr_view e)) }
{
    if let Some(code) = not_passed(param, &e) {
        return Err(TypeError::BadType { code, at });
    }
    let info = info(alloc, label, &e, at)?;
    Ok((e, info))
}
