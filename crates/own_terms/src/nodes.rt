//! The nodes of expressions, and what stands inside parentheses.

ghost use Rattle.std.specs.Prelude.{◌≡◌};
ghost use Rattle.std.specs.Option.{option_copied};
ghost use Rattle.own_tree.specs.TypedView.{expr_view};
ghost use Rattle.own_tree.specs.View.{expr_view as source_view};
ghost use Rattle.own_paths.specs.Within.{node_of as node_of_exp, path_of as path_of_exp};
ghost use Rattle.own_judged.specs.Values.{at as at_node, no_value as why_no_value, span_of as span_of_exp, till as span_till, without_value as why_without_value};
ghost use Rattle.own_judged.specs.Arguments.{form_of as form_of_exp};

use own_tree::tree::Expr;
use own_tree::typed::{At, TypedExpr, TypedPath};
use own_tree::{Form, Span, Ty};

/// The judgement that an argument for a parameter of function type is a closure or such a parameter, and
/// that functions are only called.
pub const FUNCTION_STANDS: u8 = 24;

/// The judgement that a text stands only as an item of `print`.
pub const TEXT_STANDS: u8 = 29;

/// The judgement that a call without a result is no value.
pub const NO_RESULT: u8 = 32;

/// The span of an expression of the text.
pub fn span_of(e: &Expr) -> Span
    ensures { result ≡ span_of_exp (source_view e.now) }
{
    match e {
        Expr::Number(span, _, _)
        | Expr::Text(span, _)
        | Expr::Truth(span, _)
        | Expr::ImplicitMember(span, _)
        | Expr::Parenthesized(span, _)
        | Expr::Consume(span, _)
        | Expr::Prefix(span, _, _)
        | Expr::Binary(span, _, _, _, _)
        | Expr::Choice(span, _, _, _)
        | Expr::Member(span, _, _)
        | Expr::Call(span, _, _)
        | Expr::CallClosing(span, _, _, _)
        | Expr::CallClosure(span, _, _) => *span,
        Expr::Path(path) => path.span,
    }
}

/// From the begin of one span to the end of another.
pub fn till(first: Span, last: Span) -> Span
    ensures { result ≡ span_till first last }
{
    Span {
        start: first.start,
        end: last.end,
    }
}

/// The node of that number.
pub fn node_at(id: u32, span: Span, ty: Ty) -> At
    ensures { result ≡ at_node id span ty }
{
    At { id, span, ty }
}

/// The node that a typed expression is.
pub fn node_of(e: &TypedExpr) -> At
    ensures { result ≡ node_of_exp (expr_view e.now) }
{
    match e {
        TypedExpr::Number(at, _)
        | TypedExpr::Text(at, _)
        | TypedExpr::Truth(at, _)
        | TypedExpr::Parenthesized(at, _)
        | TypedExpr::Consume(at, _)
        | TypedExpr::Negate(at, _, _)
        | TypedExpr::Not(at, _)
        | TypedExpr::Arithmetic(at, _, _, _, _)
        | TypedExpr::Wrapping(at, _, _, _)
        | TypedExpr::Compare(at, _, _, _)
        | TypedExpr::Logic(at, _, _, _)
        | TypedExpr::Choice(at, _, _, _)
        | TypedExpr::Member(at, _, _)
        | TypedExpr::Call(at, _, _, _)
        | TypedExpr::Closure(at, _)
        | TypedExpr::Function(at, _) => *at,
        TypedExpr::Path(path) | TypedExpr::Address(path) => path.at,
    }
}

/// The path that an expression is, without the parentheses round it.
pub fn path_of(e: &TypedExpr) -> Option<&TypedPath>
    ensures { option_copied result ≡ path_of_exp (expr_view e.now) }
{
    match e {
        TypedExpr::Path(path) => Some(path),
        TypedExpr::Parenthesized(_, inner) => path_of(inner.get()),
        _ => None,
    }
}

/// The judgement by which a call of that type is no value.
fn without_value(ty: Ty) -> Option<u8>
    ensures { result ≡ why_without_value ty }
{
    match ty {
        Ty::Unit => Some(NO_RESULT),
        Ty::Fun(_) => Some(FUNCTION_STANDS),
        Ty::Int | Ty::Bool | Ty::Named(_) => None,
    }
}

/// The judgement by which an expression is no value: T29 of a text, T32 of a call without a result, T24
/// of a function.
pub fn no_value(e: &TypedExpr) -> Option<u8>
    ensures { result ≡ why_no_value (expr_view e.now) }
{
    match e {
        TypedExpr::Text(..) => Some(TEXT_STANDS),
        TypedExpr::Parenthesized(_, inner) => no_value(inner.get()),
        TypedExpr::Call(at, _, _, _) => without_value(at.ty),
        TypedExpr::Closure(..) | TypedExpr::Function(..) => Some(FUNCTION_STANDS),
        _ => None,
    }
}

/// How an argument is written, without the parentheses round it.
pub fn form_of(e: &TypedExpr) -> Form
    ensures { result ≡ form_of_exp (expr_view e.now) }
{
    match e {
        TypedExpr::Parenthesized(_, inner) => form_of(inner.get()),
        TypedExpr::Path(_) | TypedExpr::Function(..) => Form::Path,
        TypedExpr::Address(_) => Form::Address,
        TypedExpr::Closure(..) => Form::Closure,
        _ => Form::Value,
    }
}
