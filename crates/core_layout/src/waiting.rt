//! Which expressions have words of the frame in which their value waits.

ghost use Rattle.std.specs.Prelude.{◌≡◌};
ghost use Rattle.own_paths.specs.BodyLimits.{is_kept};
ghost use Rattle.own_paths.specs.Within.{node_of};
ghost use Rattle.own_runs.specs.Calls.{holder};
ghost use Rattle.own_tree.specs.TypedView.{expr_view};

use own_tree::Passing;
use own_tree::typed::TypedExpr;

/// The expression at whose node a value waits: parentheses have none of their own.
pub fn holder(expr: &TypedExpr) -> &TypedExpr
    ensures { node_of (expr_view result.now) ≡ holder (expr_view expr.now) }
{
    match expr {
        TypedExpr::Parenthesized(_, inner) => holder(inner.get()),
        _ => expr,
    }
}

/// Whether an argument that is passed so is a value of its own, which the callee takes over.
pub fn is_given(passing: Passing) -> bool
    ensures { result ≡ is_kept passing }
{
    matches!(passing, Passing::ByValue | Passing::Consume)
}
