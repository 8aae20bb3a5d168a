//! Operators, and the types of their operands (T15).

ghost use Rattle.std.specs.Prelude.{◌≡◌};
ghost use Rattle.own_tree.specs.TypedView.{expr_view};
ghost use Rattle.own_judged.specs.Values.{both_are as both_are_of, operated as operated_rule, operation as operation_rule, prefixed as prefixed_rule};
ghost use Rattle.own_terms.specs.Operations.{operands_fit, operation_view};
ghost use Rattle.own_terms.specs.Says.{Says};

use crate::nodes::{node_at, node_of};
use crate::values::holding;
use own_calls::TypeError;
use own_tree::tree::{BinaryOperator, PrefixOperator};
use own_tree::typed::{Comparison, Logic, TypedExpr};
use own_tree::{Arith, Span, Ty};
use sqlite_items::Boxed;
use std::alloc::Global;

/// The judgement that the operands of an operator have its types.
pub const OPERANDS_DIFFER: u8 = 15;

/// What an operator between two operands does.
#[derive(Clone, Copy, Debug, PartialEq, Eq)]
pub enum Operation {
    Logical(Logic),
    /// `==` or `!=`.
    Equality(Comparison),
    Order(Comparison),
    /// Arithmetic that traps on overflow.
    Trapping(Arith),
    Wrapping(Arith),
}

/// The operation of an operator.
fn operation_of(operator: BinaryOperator) -> Operation
    ensures { operation_view result ≡ operation_rule operator }
{
    match operator {
        BinaryOperator::Or => Operation::Logical(Logic::Or),
        BinaryOperator::And => Operation::Logical(Logic::And),
        BinaryOperator::Equal => Operation::Equality(Comparison::Equal),
        BinaryOperator::Unequal => Operation::Equality(Comparison::Unequal),
        BinaryOperator::Less => Operation::Order(Comparison::Less),
        BinaryOperator::LessEqual => Operation::Order(Comparison::LessEqual),
        BinaryOperator::Greater => Operation::Order(Comparison::Greater),
        BinaryOperator::GreaterEqual => Operation::Order(Comparison::GreaterEqual),
        BinaryOperator::Plus => Operation::Trapping(Arith::Add),
        BinaryOperator::Minus => Operation::Trapping(Arith::Sub),
        BinaryOperator::PlusWrapping => Operation::Wrapping(Arith::Add),
        BinaryOperator::MinusWrapping => Operation::Wrapping(Arith::Sub),
        BinaryOperator::Times => Operation::Trapping(Arith::Mul),
        BinaryOperator::Divide => Operation::Trapping(Arith::Div),
        BinaryOperator::Remainder => Operation::Trapping(Arith::Rem),
        BinaryOperator::TimesWrapping => Operation::Wrapping(Arith::Mul),
    }
}

/// Whether two operands are of that type.
fn both_are(ty: Ty, left: &TypedExpr, right: &TypedExpr) -> bool
    ensures { result ≡ (both_are_of ty (expr_view left.now) (expr_view right.now)).test }
{
    node_of(left).ty == ty && node_of(right).ty == ty
}

/// Whether two operands have the types that an operation asks for.
fn fit(operation: Operation, left: &TypedExpr, right: &TypedExpr) -> bool
    ensures { result ≡ operands_fit (operation_view operation) (expr_view left.now) (expr_view right.now) }
{
    match operation {
        Operation::Logical(_) => both_are(Ty::Bool, left, right),
        Operation::Equality(_) => {
            both_are(Ty::Int, left, right) || both_are(Ty::Bool, left, right)
        }
        Operation::Order(_) | Operation::Trapping(_) | Operation::Wrapping(_) => {
            both_are(Ty::Int, left, right)
        }
    }
}

/// An operator between two values, with its span, under the node of that number. T15 comes where the
/// operands have other types.
pub fn operated(
    alloc: Global,
    id: u32,
    span: Span,
    mark: Span,
    operator: BinaryOperator,
    left: TypedExpr,
    right: TypedExpr,
) -> Result<TypedExpr, TypeError>
    ensures { Says expr_view result
        (operated_rule id span mark (operation_rule operator) (expr_view left) (expr_view right)) }
{
    let operation = operation_of(operator);
    holding(fit(operation, &left, &right), OPERANDS_DIFFER, span)?;
    let left = Boxed::new(alloc, left)?;
    let right = Boxed::new(alloc, right)?;
    Ok(match operation {
        Operation::Logical(logic) => {
            TypedExpr::Logic(node_at(id, span, Ty::Bool), logic, left, right)
        }
        Operation::Equality(comparison) | Operation::Order(comparison) => {
            TypedExpr::Compare(node_at(id, span, Ty::Bool), comparison, left, right)
        }
        Operation::Trapping(arith) => {
            TypedExpr::Arithmetic(node_at(id, span, Ty::Int), arith, mark, left, right)
        }
        Operation::Wrapping(arith) => {
            TypedExpr::Wrapping(node_at(id, span, Ty::Int), arith, left, right)
        }
    })
}

/// `-` or `!` before a value. T15 comes where it has another type.
pub fn prefixed(
    alloc: Global,
    id: u32,
    span: Span,
    operator: PrefixOperator,
    e: TypedExpr,
) -> Result<TypedExpr, TypeError>
    ensures { Says expr_view result (prefixed_rule id span operator (expr_view e)) }
{
    match operator {
        PrefixOperator::Minus => {
            holding(node_of(&e).ty == Ty::Int, OPERANDS_DIFFER, span)?;
            let mark = Span {
                start: span.start,
                end: span.start.saturating_add(1).min(span.end),
            };
            let at = node_at(id, span, Ty::Int);
            Ok(TypedExpr::Negate(at, mark, Boxed::new(alloc, e)?))
        }
        PrefixOperator::Not => {
            holding(node_of(&e).ty == Ty::Bool, OPERANDS_DIFFER, span)?;
            Ok(TypedExpr::Not(node_at(id, span, Ty::Bool), Boxed::new(alloc, e)?))
        }
    }
}
