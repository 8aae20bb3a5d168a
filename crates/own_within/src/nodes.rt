//! What an expression is at its top.

ghost use Rattle.std.specs.Prelude.{◌≡◌};
ghost use Rattle.std.specs.Option.{option_copied};
ghost use Rattle.own_tree.specs.TypedView.{expr_view};
ghost use Rattle.own_paths.specs.Captures.{first_passing, other_passings};
ghost use Rattle.own_paths.specs.Within.{node_of, path_of};

use own_tree::Passing;
use own_tree::typed::{At, TypedExpr, TypedPath};

/// The node that an expression is.
pub fn node_of(expr: &TypedExpr) -> At
    ensures { result ≡ node_of (expr_view expr.now) }
{
    match expr {
        TypedExpr::Number(at, _)
        | TypedExpr::Text(at, _)
        | TypedExpr::Truth(at, _)
        | TypedExpr::Parenthesized(at, _)
        | TypedExpr::Consume(at, _)
        | TypedExpr::Negate(at, _, _)
        | TypedExpr::Not(at, _)
        | TypedExpr::Arithmetic(at, _, _, _, _)
        | TypedExpr::Wrapping(at, _, _, _)
        | TypedExpr::Compare(at, _, _, _)
        | TypedExpr::Logic(at, _, _, _)
        | TypedExpr::Choice(at, _, _, _)
        | TypedExpr::Member(at, _, _)
        | TypedExpr::Call(at, _, _, _)
        | TypedExpr::Closure(at, _)
        | TypedExpr::Function(at, _) => *at,
        TypedExpr::Path(path) | TypedExpr::Address(path) => path.at,
    }
}

/// The path that an expression is. One in parentheses occurs as it would without them.
pub fn path_of(expr: &TypedExpr) -> Option<&TypedPath>
    ensures { option_copied result ≡ path_of (expr_view expr.now) }
{
    match expr {
        TypedExpr::Path(path) => Some(path),
        TypedExpr::Parenthesized(_, inner) => path_of(inner.get()),
        _ => None,
    }
}

/// How the first of some arguments is passed. What has no passing of its own is passed by value.
pub fn first_passing(passings: &[Passing]) -> Passing
    ensures { result ≡ first_passing passings.now }
{
    match passings {
        [first, ..] => *first,
        [] => Passing::ByValue,
    }
}

/// How those behind the first are passed.
pub fn other_passings(passings: &[Passing]) -> &[Passing]
    ensures { result.now ≡ other_passings passings.now }
{
    match passings.split_first() {
        Some((_, others)) => others,
        None => &[],
    }
}
