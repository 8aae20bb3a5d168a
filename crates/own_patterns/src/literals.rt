//! Patterns that are literals, and the places where patterns do not fit.

ghost use Rattle.std.specs.Prelude.{◌≡◌, ◌≤◌};
ghost use Rattle.own_calls.specs.declared.error.TypeError.TheVariants as type_error;
ghost use Rattle.own_judged.specs.Patterns.{number_pattern as number_rule, truth_pattern as truth_rule};
ghost use Rattle.own_judged.specs.Refusals.{Gives};
ghost use Rattle.own_judged.specs.Values.{largest as largest_of, signed as signed_number};
ghost use Rattle.own_scope.specs.Making.{made_of};
ghost use Rattle.own_scope.specs.Known.{text_in};
ghost use Rattle.own_patterns.specs.View.{matched_of};

use crate::matched::{Matched, without_names};
use own_calls::TypeError;
use own_scope::{Builder, Known};
use own_tree::{Span, TPattern, Ty};
use std::alloc::Global;

/// The judgement that the type has that case.
pub const UNKNOWN_MEMBER: u8 = 11;

/// The judgement that a number is one of `Int`.
pub const TOO_LARGE: u8 = 14;

/// The judgement that a pattern fits its type.
pub const DOES_NOT_FIT: u8 = 21;

/// T21 at that place.
pub(crate) fn misfit(at: Span) -> TypeError
    ensures { result ≡ type_error.BadType 21 at }
{
    TypeError::BadType {
        code: DOES_NOT_FIT,
        at,
    }
}

/// T11 at that place.
pub(crate) fn unknown_case(at: Span) -> TypeError
    ensures { result ≡ type_error.BadType 11 at }
{
    TypeError::BadType {
        code: UNKNOWN_MEMBER,
        at,
    }
}

/// The largest number of a literal, by whether a `-` stands before it.
fn largest(negative: bool) -> u64
    ensures { result ≡ largest_of negative }
{
    if negative { 1 << 63 } else { (1 << 63) - 1 }
}

/// A number that fits `Int`, with its sign.
fn signed(negative: bool, number: u64) -> i64
    requires { number ≤ largest_of negative }
    ensures { result ≡ signed_number negative number }
{
    if !negative {
        return number as i64;
    }
    if number == 1 << 63 {
        return i64::MIN;
    }
    -(number as i64)
}

/// A number as a pattern. T21 comes where the type is not `Int`, and T14 where the number is too large.
pub(crate) fn number_pattern<'t>(
    alloc: Global,
    known: &Known<'_>,
    builder: &Builder,
    span: Span,
    negative: bool,
    number: u64,
    ty: Ty,
) -> Result<Matched<'t>, TypeError>
    ensures { Gives (text_in known.now).types matched_of result (made_of builder.now)
        ((number_rule span negative number ty).run (made_of builder.now)) }
{
    if ty != Ty::Int {
        return Err(misfit(span));
    }
    if number > largest(negative) {
        return Err(TypeError::BadType {
            code: TOO_LARGE,
            at: span,
        });
    }
    Ok(without_names(alloc, TPattern::Number(signed(negative, number))))
}

/// `true` or `false` as a pattern. T21 comes where the type is not `Bool`.
pub(crate) fn truth_pattern<'t>(
    alloc: Global,
    known: &Known<'_>,
    builder: &Builder,
    span: Span,
    truth: bool,
    ty: Ty,
) -> Result<Matched<'t>, TypeError>
    ensures { Gives (text_in known.now).types matched_of result (made_of builder.now)
        ((truth_rule span truth ty).run (made_of builder.now)) }
{
    if ty != Ty::Bool {
        return Err(misfit(span));
    }
    Ok(without_names(alloc, TPattern::Truth(truth)))
}
