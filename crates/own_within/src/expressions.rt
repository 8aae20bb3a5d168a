//! The expressions within an expression. The walk goes as deep as the expression is nested.

ghost use Rattle.std.specs.Prelude.{◌≡◌, ◌++◌, OnOk, map};
ghost use Rattle.own_tree.specs.TypedView.{exps_of, expr_view};
ghost use Rattle.own_paths.specs.Within.{exps_in, exps_in_all};
ghost use Rattle.own_within.specs.View.{exps_seen};

use own_tree::typed::TypedExpr;
use std::alloc::AllocError;

/// Adds an expression and what stands within it, each before its parts and the parts in order.
#[cycle(within)]
pub(crate) fn push_expression<'t>(
    found: &mut Vec<&'t TypedExpr>,
    expr: &'t TypedExpr,
) -> Result<(), AllocError>
    ensures { OnOk result (exps_seen found.new.items ≡ exps_seen found.old.items ++ exps_in (expr_view expr.now)) }
{
    found.push(expr)?;
    match expr {
        TypedExpr::Parenthesized(_, inner)
        | TypedExpr::Negate(_, _, inner)
        | TypedExpr::Not(_, inner)
        | TypedExpr::Member(_, inner, _) => push_expression(found, inner.get()),
        TypedExpr::Arithmetic(_, _, _, left, right)
        | TypedExpr::Wrapping(_, _, left, right)
        | TypedExpr::Compare(_, _, left, right)
        | TypedExpr::Logic(_, _, left, right) => {
            push_expression(found, left.get())?;
            push_expression(found, right.get())
        }
        TypedExpr::Choice(_, condition, first, second) => {
            push_expression(found, condition.get())?;
            push_expression(found, first.get())?;
            push_expression(found, second.get())
        }
        TypedExpr::Call(_, _, arguments, _) => push_expressions(found, arguments.as_slice()),
        TypedExpr::Number(..)
        | TypedExpr::Text(..)
        | TypedExpr::Truth(..)
        | TypedExpr::Path(_)
        | TypedExpr::Consume(..)
        | TypedExpr::Address(_)
        | TypedExpr::Closure(..)
        | TypedExpr::Function(..) => Ok(()),
    }
}

/// Adds those of each of these.
#[cycle(within)]
fn push_expressions<'t>(
    found: &mut Vec<&'t TypedExpr>,
    exprs: &'t [TypedExpr],
) -> Result<(), AllocError>
    ensures { OnOk result (exps_seen found.new.items ≡ exps_seen found.old.items ++ exps_in_all
        (exps_of (map expr_view exprs.now))) }
{
    for expr in exprs {
        push_expression(found, expr)?;
    }
    Ok(())
}
