//! Expressions as values, and literals.

ghost use Rattle.std.specs.Prelude.{◌≡◌, ◌≤◌, true, false, OnOk, IfErr, IfOk};
ghost use Rattle.own_tree.specs.TypedSource as typed;
ghost use Rattle.own_tree.specs.TypedView.{expr_view};
ghost use Rattle.own_calls.specs.Arguments.{same_type};
ghost use Rattle.own_calls.specs.declared.error.TypeError.TheVariants as type_error;
ghost use Rattle.own_judged.specs.Values.{at as at_node, chosen as chosen_rule, largest as largest_of, number_literal as number_rule, signed as signed_number, type_of, valued as valued_rule};
ghost use Rattle.own_terms.specs.Says.{Says};

use crate::nodes::{no_value, node_at, node_of};
use own_calls::TypeError;
use own_tree::typed::TypedExpr;
use own_tree::{Span, Ty};
use sqlite_items::Boxed;
use std::alloc::{AllocError, Global};

/// The judgement that a value has the type that is expected.
pub const TYPES_DIFFER: u8 = 12;

/// The judgement that a number is none of `Int`.
pub const TOO_LARGE: u8 = 14;

/// How far the numbers of `Int` reach below zero, which is one further than above it.
const INT_BELOW_ZERO: u64 = 9_223_372_036_854_775_808;

/// A judgement that has to hold, and where it is named.
pub fn holding(holds: bool, code: u8, at: Span) -> Result<(), TypeError>
    ensures ok { OnOk result (holds ≡ true) }
    ensures err { IfErr result (λ e. (holds ≡ false) × (e ≡ type_error.BadType code at)) }
{
    if holds {
        Ok(())
    } else {
        Err(TypeError::BadType { code, at })
    }
}

/// An expression of that span as a value, of the type that is expected where there is one.
pub fn valued(span: Span, wanted: Option<Ty>, e: TypedExpr) -> Result<TypedExpr, TypeError>
    ensures { Says expr_view result (valued_rule span wanted (expr_view e)) }
{
    if let Some(code) = no_value(&e) {
        return Err(TypeError::BadType { code, at: span });
    }
    match wanted {
        Some(ty) => {
            holding(node_of(&e).ty == ty, TYPES_DIFFER, span)?;
            Ok(e)
        }
        None => Ok(e),
    }
}

/// Whether two values have one type.
fn have_one_type(first: &TypedExpr, second: &TypedExpr) -> bool
    ensures { result ≡ same_type (type_of (expr_view first.now)) (type_of (expr_view second.now)) }
{
    node_of(first).ty == node_of(second).ty
}

/// A condition with two branches, of the type of the first.
fn choice(
    alloc: Global,
    id: u32,
    span: Span,
    condition: TypedExpr,
    first: TypedExpr,
    second: TypedExpr,
) -> Result<TypedExpr, AllocError>
    ensures { IfOk result (λ e. expr_view e ≡ typed.choice (at_node id span (type_of (expr_view first)))
        (expr_view condition) (expr_view first) (expr_view second)) }
{
    let at = node_at(id, span, node_of(&first).ty);
    let condition = Boxed::new(alloc, condition)?;
    let first = Boxed::new(alloc, first)?;
    let second = Boxed::new(alloc, second)?;
    Ok(TypedExpr::Choice(at, condition, first, second))
}

/// The two branches of `?:` under its condition. T12 comes where they have different types.
pub fn chosen(
    alloc: Global,
    id: u32,
    span: Span,
    condition: TypedExpr,
    first: TypedExpr,
    second: TypedExpr,
) -> Result<TypedExpr, TypeError>
    ensures { Says expr_view result
        (chosen_rule id span (expr_view condition) (expr_view first) (expr_view second)) }
{
    holding(have_one_type(&first, &second), TYPES_DIFFER, span)?;
    Ok(choice(alloc, id, span, condition, first, second)?)
}

/// The largest number of a literal, by whether a `-` stands before it.
fn largest(negative: bool) -> u64
    ensures { result ≡ largest_of negative }
{
    if negative {
        INT_BELOW_ZERO
    } else {
        INT_BELOW_ZERO - 1
    }
}

/// A number that fits `Int`, with its sign.
fn signed(negative: bool, number: u64) -> i64
    requires { number ≤ largest_of negative }
    ensures { result ≡ signed_number negative number }
{
    if !negative {
        return number as i64;
    }
    if number == INT_BELOW_ZERO {
        return i64::MIN;
    }
    -(number as i64)
}

/// A number, which stands as a literal (T14).
pub fn number_literal(
    id: u32,
    span: Span,
    negative: bool,
    number: u64,
) -> Result<TypedExpr, TypeError>
    ensures { Says expr_view result (number_rule id span negative number) }
{
    holding(number <= largest(negative), TOO_LARGE, span)?;
    Ok(TypedExpr::Number(node_at(id, span, Ty::Int), signed(negative, number)))
}
