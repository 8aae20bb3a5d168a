//! The items of a `print`.

ghost use Rattle.std.specs.Prelude.{◌≡◌, IfOk, map};
ghost use Rattle.own_tree.specs.TypedView.{exps_of, expr_view};
ghost use Rattle.own_tree.specs.declared.typed.Target.TheVariants as target_of;
ghost use Rattle.own_tree.specs.TypedSource as typed;
ghost use Rattle.own_tree.specs.declared.place.Ty.TheVariants as type;
ghost use Rattle.own_judged.specs.Arguments.{all_by_value, no_item as why_no_item};
ghost use Rattle.own_judged.specs.Values.{at as at_node};
ghost use Rattle.own_terms.specs.Passing.{item as item_rule};
ghost use Rattle.own_terms.specs.Says.{Says};

use crate::nodes::{FUNCTION_STANDS, NO_RESULT, TEXT_STANDS, node_at, node_of};
use own_calls::TypeError;
use own_tree::typed::{Passing, Target, TypedExpr};
use own_tree::{Row, Span, Ty};
use sqlite_items::Items;
use std::alloc::{AllocError, Global};

/// The judgement by which an expression of that type is no item: it is none of `Int`, `Bool` and a text.
fn no_item(e: &TypedExpr, ty: Ty) -> Option<u8>
    ensures { result ≡ why_no_item (expr_view e.now) ty }
{
    match e {
        TypedExpr::Text(..) => None,
        TypedExpr::Parenthesized(_, inner) => no_item(inner.get(), ty),
        TypedExpr::Closure(..) | TypedExpr::Function(..) => Some(FUNCTION_STANDS),
        _ => match ty {
            Ty::Int | Ty::Bool => None,
            Ty::Unit => Some(NO_RESULT),
            Ty::Named(_) => Some(TEXT_STANDS),
            Ty::Fun(_) => Some(FUNCTION_STANDS),
        },
    }
}

/// An expression of that span, as an item without a label. T24, T29 and T32 come by what it is.
pub fn item(at: Span, e: TypedExpr) -> Result<TypedExpr, TypeError>
    ensures { Says expr_view result (item_rule at (expr_view e)) }
{
    match no_item(&e, node_of(&e).ty) {
        Some(code) => Err(TypeError::BadType { code, at }),
        None => Ok(e),
    }
}

/// Items are passed by value.
fn by_value(alloc: Global, items: &[TypedExpr]) -> Result<Row<Passing>, AllocError>
    ensures { IfOk result (λ row. row ≡ all_by_value (exps_of (map expr_view items.now))) }
{
    let mut row = Row::new(alloc);
    for _item in items {
        row.push(Passing::ByValue)?;
    }
    Ok(row)
}

/// A `print` of these items.
pub fn printed(
    alloc: Global,
    id: u32,
    span: Span,
    items: Vec<TypedExpr>,
) -> Result<TypedExpr, AllocError>
    ensures { IfOk result (λ e. expr_view e ≡ typed.call (at_node id span type.Unit) target_of.Print
        (exps_of (map expr_view items.items)) (all_by_value (exps_of (map expr_view items.items)))) }
{
    let passings = by_value(alloc, items.as_slice())?;
    let at = node_at(id, span, Ty::Unit);
    Ok(TypedExpr::Call(at, Target::Print, Items::from_vec(items), passings))
}
