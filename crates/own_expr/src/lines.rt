//! Line ends, and where statements end.
ghost use Rattle.std.specs.Prelude.{◌≡◌, ◌≤◌, ◌<◌, length, not, true, IfOk};
ghost use Rattle.own_expr.specs.Gives.{Gives};
ghost use Rattle.own_grammar.specs.Reading as reading;
ghost use Rattle.own_grammar.specs.Spells as spells;
ghost use Rattle.own_grammar.specs.Tests as spec;

use crate::fault::ReadError;
use crate::next::{after, is_mark, is_new_line, is_word, name_at};
use crate::operators::{operator_at, range_at};
use own_grammar::Context;
use own_tree::tree::Name;
use own_tree::{Mark, Token, Word};
use std::alloc::{AllocError, Global};

/// The `=` of a `let` or `var`, on the line of the token before.
#[tactic(auto, unfolding(own_grammar::specs::Tests::assigns))]
pub(crate) fn assigns(rest: &[Token]) -> bool
    ensures value { result ≡ spec.assigns rest.now }
    ensures some { result ≡ true → 0 < length rest.now }
{
    is_mark(Mark::Assign, rest) && !is_new_line(rest)
}

/// The `:` of a `let` or `var`, on the line of the token before.
#[tactic(auto, unfolding(own_grammar::specs::Tests::annotates))]
pub(crate) fn annotates(rest: &[Token]) -> bool
    ensures value { result ≡ spec.annotates rest.now }
    ensures some { result ≡ true → 0 < length rest.now }
{
    is_mark(Mark::Colon, rest) && !is_new_line(rest)
}

/// Whether the next token may go on with what stands before it.
fn joins(context: Context, rest: &[Token]) -> bool
    ensures { result ≡ spec.joins context rest.now }
{
    match context {
        Context::Plain | Context::Condition => !is_new_line(rest),
        Context::Inside => true,
    }
}

/// Whether a closure may stand outside parentheses.
fn allows(context: Context) -> bool
    ensures { result ≡ spec.allows context }
{
    match context {
        Context::Plain | Context::Inside => true,
        Context::Condition => false,
    }
}

/// The parenthesis of a call.
#[tactic(auto, unfolding(own_grammar::specs::Tests::opens))]
pub fn opens(context: Context, rest: &[Token]) -> bool
    ensures value { result ≡ spec.opens context rest.now }
    ensures some { result ≡ true → 0 < length rest.now }
{
    is_mark(Mark::OpenParen, rest) && joins(context, rest)
}

/// The brace of a closure after what is called.
#[tactic(auto, unfolding(own_grammar::specs::Tests::closes))]
pub(crate) fn closes(context: Context, rest: &[Token]) -> bool
    ensures value { result ≡ spec.closes context rest.now }
    ensures some { result ≡ true → 0 < length rest.now }
{
    is_mark(Mark::OpenBrace, rest) && joins(context, rest) && allows(context)
}

/// Whether no token is left.
#[tactic(auto, unfolding(own_grammar::specs::Tests::kind_at))]
pub fn is_over(rest: &[Token]) -> bool
    ensures { result ≡ spec.is_over rest.now }
{
    rest.is_empty()
}

fn has_operator(rest: &[Token]) -> bool
    ensures { result ≡ not (spec.is_none (spec.operator_at rest.now)) }
{
    operator_at(rest).is_some()
}

fn has_range(rest: &[Token]) -> bool
    ensures { result ≡ not (spec.is_none (spec.range_at rest.now)) }
{
    range_at(rest).is_some()
}

/// A token with which a statement goes on after a line end.
#[tactic(auto, unfolding(own_grammar::specs::Tests::goes_on))]
fn goes_on(rest: &[Token]) -> bool
    ensures { result ≡ spec.goes_on rest.now }
{
    has_operator(rest)
        || has_range(rest)
        || is_mark(Mark::Dot, rest)
        || is_mark(Mark::Question, rest)
        || is_word(Word::Else, rest)
}

/// Whether a statement ends here without a `;`.
#[tactic(auto, unfolding(own_grammar::specs::Tests::ends))]
fn ends(rest: &[Token]) -> bool
    ensures { result ≡ spec.ends rest.now }
{
    is_over(rest)
        || is_mark(Mark::CloseBrace, rest)
        || (is_new_line(rest) && !goes_on(rest) && !is_mark(Mark::Semicolon, rest))
}

/// Whether a `return` has no expression here.
#[tactic(auto, unfolding(own_grammar::specs::Tests::is_bare))]
pub(crate) fn is_bare(rest: &[Token]) -> bool
    ensures { result ≡ spec.is_bare rest.now }
{
    is_over(rest)
        || is_mark(Mark::CloseBrace, rest)
        || is_new_line(rest)
        || is_mark(Mark::Semicolon, rest)
}

/// Whether a statement may end here without a `;`: `bare` says that it is a `return` without a value.
fn ends_after(bare: bool, rest: &[Token]) -> bool
    ensures { result ≡ spells.ends_after bare rest.now }
{
    if bare { is_bare(rest) } else { ends(rest) }
}

/// What follows the end of a statement: `bare` says that it is a `return` without a value.
#[tactic(auto, unfolding(own_grammar::specs::Reading::sep_at))]
pub fn sep_at(bare: bool, rest: &[Token]) -> Result<&[Token], ReadError>
    ensures gives { Gives (λ x. x.now) result (reading.sep_at bare rest.now) }
    ensures within { IfOk result (λ x. length x.now ≤ length rest.now) }
{
    if is_mark(Mark::Semicolon, rest) {
        Ok(after(rest))
    } else if ends_after(bare, rest) {
        Ok(rest)
    } else {
        Err(ReadError::Syntax(rest.len()))
    }
}

/// Whether the statements of a clause end here.
#[tactic(auto, unfolding(own_grammar::specs::Reading::ends_clause))]
pub(crate) fn ends_clause(rest: &[Token]) -> bool
    ensures { result ≡ reading.ends_clause rest.now }
{
    is_word(Word::Case, rest) || is_word(Word::Default, rest) || is_mark(Mark::CloseBrace, rest)
}

/// The label of an argument, before its `:`.
#[tactic(auto, unfolding(own_grammar::specs::Tests::label_at))]
pub(crate) fn label_at(alloc: Global, rest: &[Token]) -> Result<Option<Name>, AllocError>
    ensures { IfOk result (λ label. label ≡ spec.label_at rest.now) }
{
    if is_mark(Mark::Colon, after(rest)) {
        name_at(alloc, rest)
    } else {
        Ok(None)
    }
}
