//! Operators.
ghost use Rattle.std.specs.Prelude.{◌≡◌, ◌<◌, length, IfSome};
ghost use Rattle.own_grammar.specs.Nesting as nesting;
ghost use Rattle.own_grammar.specs.Tests as spec;

use crate::next::{after, is_new_line, kind_at, number_at};
use own_tree::tree::{AssignOperator, BinaryOperator, PrefixOperator, RangeOperator};
use own_tree::{Kind, Mark, Token};

fn mark_operator(mark: Mark) -> Option<BinaryOperator>
    ensures { result ≡ spec.mark_operator mark }
{
    match mark {
        Mark::Or => Some(BinaryOperator::Or),
        Mark::And => Some(BinaryOperator::And),
        Mark::Equal => Some(BinaryOperator::Equal),
        Mark::NotEqual => Some(BinaryOperator::Unequal),
        Mark::Less => Some(BinaryOperator::Less),
        Mark::LessEqual => Some(BinaryOperator::LessEqual),
        Mark::Greater => Some(BinaryOperator::Greater),
        Mark::GreaterEqual => Some(BinaryOperator::GreaterEqual),
        Mark::Plus => Some(BinaryOperator::Plus),
        Mark::Minus => Some(BinaryOperator::Minus),
        Mark::WrappingPlus => Some(BinaryOperator::PlusWrapping),
        Mark::WrappingMinus => Some(BinaryOperator::MinusWrapping),
        Mark::Star => Some(BinaryOperator::Times),
        Mark::Slash => Some(BinaryOperator::Divide),
        Mark::Percent => Some(BinaryOperator::Remainder),
        Mark::WrappingStar => Some(BinaryOperator::TimesWrapping),
        _ => None,
    }
}

/// Whether there is space on both sides or on neither.
#[tactic(auto, unfolding(own_grammar::specs::Tests::is_even))]
fn is_even(rest: &[Token]) -> bool
    ensures { result ≡ spec.is_even rest.now }
{
    match rest {
        [token, ..] => token.space_before == token.space_after,
        [] => false,
    }
}

/// An operator where it stands between two parts.
#[tactic(auto, unfolding(own_grammar::specs::Tests::operator_at))]
pub(crate) fn operator_at(rest: &[Token]) -> Option<BinaryOperator>
    ensures value { result ≡ spec.operator_at rest.now }
    ensures some { IfSome result (λ _. 0 < length rest.now) }
{
    if !is_even(rest) {
        return None;
    }
    match kind_at(rest) {
        Some(Kind::Mark(mark)) => mark_operator(*mark),
        _ => None,
    }
}

fn mark_prefix(mark: Mark) -> Option<PrefixOperator>
    ensures { result ≡ spec.mark_prefix mark }
{
    match mark {
        Mark::Minus => Some(PrefixOperator::Minus),
        Mark::Not => Some(PrefixOperator::Not),
        _ => None,
    }
}

/// Whether a mark is prefix here. `tight` says that the token before is a prefix mark.
#[tactic(auto, unfolding(own_grammar::specs::Tests::leads))]
fn leads(tight: bool, rest: &[Token]) -> bool
    ensures { result ≡ spec.leads tight rest.now }
{
    match rest {
        [token, ..] => (token.space_before && !token.space_after) || (tight && !token.space_before),
        [] => false,
    }
}

/// `-` or `!` where it is prefix. `tight` says that the token before is a prefix mark.
#[tactic(auto, unfolding(own_grammar::specs::Tests::prefix_at))]
fn prefix_at(tight: bool, rest: &[Token]) -> Option<PrefixOperator>
    ensures value { result ≡ spec.prefix_at tight rest.now }
    ensures some { IfSome result (λ _. 0 < length rest.now) }
{
    if !leads(tight, rest) {
        return None;
    }
    match kind_at(rest) {
        Some(Kind::Mark(mark)) => mark_prefix(*mark),
        _ => None,
    }
}

/// The NUMBER after a prefix `-`, with which it is one negative literal.
#[tactic(auto, unfolding(own_grammar::specs::Tests::negative_at))]
pub(crate) fn negative_at(tight: bool, rest: &[Token]) -> Option<u64>
    ensures value { result ≡ spec.negative_at tight rest.now }
    ensures some { IfSome result (λ _. 0 < length rest.now) }
{
    match prefix_at(tight, rest) {
        Some(PrefixOperator::Minus) => number_at(after(rest)),
        _ => None,
    }
}

/// A prefix mark that is not of a negative literal.
#[tactic(auto, unfolding(own_grammar::specs::Tests::unary_at))]
pub(crate) fn unary_at(tight: bool, rest: &[Token]) -> Option<PrefixOperator>
    ensures value { result ≡ spec.unary_at tight rest.now }
    ensures some { IfSome result (λ _. 0 < length rest.now) }
{
    match negative_at(tight, rest) {
        Some(_) => None,
        None => prefix_at(tight, rest),
    }
}

fn mark_assign(mark: Mark) -> Option<AssignOperator>
    ensures { result ≡ spec.mark_assign mark }
{
    match mark {
        Mark::Assign => Some(AssignOperator::Plain),
        Mark::PlusAssign => Some(AssignOperator::Plus),
        Mark::MinusAssign => Some(AssignOperator::Minus),
        Mark::StarAssign => Some(AssignOperator::Times),
        Mark::SlashAssign => Some(AssignOperator::Divide),
        Mark::PercentAssign => Some(AssignOperator::Remainder),
        _ => None,
    }
}

/// The operator of an assignment, on the line of the token before: what stands before it could end a
/// statement.
#[tactic(auto, unfolding(own_grammar::specs::Tests::assign_at))]
pub(crate) fn assign_at(rest: &[Token]) -> Option<AssignOperator>
    ensures value { result ≡ spec.assign_at rest.now }
    ensures some { IfSome result (λ _. 0 < length rest.now) }
{
    if is_new_line(rest) {
        return None;
    }
    match kind_at(rest) {
        Some(Kind::Mark(mark)) => mark_assign(*mark),
        _ => None,
    }
}

fn mark_range(mark: Mark) -> Option<RangeOperator>
    ensures { result ≡ spec.mark_range mark }
{
    match mark {
        Mark::HalfOpenRange => Some(RangeOperator::HalfOpen),
        Mark::ClosedRange => Some(RangeOperator::Closed),
        _ => None,
    }
}

/// `..<` or `...`.
#[tactic(auto, unfolding(own_grammar::specs::Tests::range_at))]
pub(crate) fn range_at(rest: &[Token]) -> Option<RangeOperator>
    ensures value { result ≡ spec.range_at rest.now }
    ensures some { IfSome result (λ _. 0 < length rest.now) }
{
    match kind_at(rest) {
        Some(Kind::Mark(mark)) => mark_range(*mark),
        _ => None,
    }
}

/// How tightly an operator holds its parts: 1 is the tightest.
pub(crate) fn level(operator: BinaryOperator) -> u32
    ensures { result ≡ nesting.level operator }
{
    match operator {
        BinaryOperator::Times
        | BinaryOperator::Divide
        | BinaryOperator::Remainder
        | BinaryOperator::TimesWrapping => 1,
        BinaryOperator::Plus
        | BinaryOperator::Minus
        | BinaryOperator::PlusWrapping
        | BinaryOperator::MinusWrapping => 2,
        BinaryOperator::Equal
        | BinaryOperator::Unequal
        | BinaryOperator::Less
        | BinaryOperator::LessEqual
        | BinaryOperator::Greater
        | BinaryOperator::GreaterEqual => 3,
        BinaryOperator::And => 4,
        BinaryOperator::Or => 5,
    }
}

/// Whether operators of a level follow each other without parentheses: comparisons do not.
pub(crate) fn chains(level: u32) -> bool
    ensures { result ≡ nesting.chains level }
{
    level != 3
}
