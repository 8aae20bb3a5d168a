//! Paths, written types, and the parts that hold nothing but these.
ghost use Rattle.std.specs.Prelude.{◌≡◌, ◌≤◌, ◌<◌, ◌+◌, length, [], IfOk, IfSome, option_map};
ghost use Rattle.own_expr.specs.Gives.{Gives};
ghost use Rattle.own_grammar.specs.Nesting.{nest, nest_given, nest_stm};
ghost use Rattle.own_grammar.specs.Reading as spec;
ghost use Rattle.own_grammar.specs.Tests as tests;
ghost use Rattle.own_tree.specs.View.{expr_view, passed_view, stmt_view};

use crate::fault::ReadError;
use crate::lines::annotates;
use crate::next::{after, closure_name_at, here, is_mark, is_word, name_at, root_at, till};
use crate::nodes::names_end;
use own_tree::limits::MOST_NESTING;
use own_tree::tree::{ClosureName, Expr, Name, Passed, Path, Root, Stmt};
use own_tree::{Mark, Row, Token, Word};
use std::alloc::{AllocError, Global};

/// The fields of a path and what follows.
fn fields_of(alloc: Global, rest: &[Token]) -> Result<(Row<Name>, &[Token]), ReadError>
    ensures gives { Gives (λ x. (x.0, x.1.now)) result (spec.fields_on [] rest.now) }
    ensures within { IfOk result (λ x. length x.1.now ≤ length rest.now) }
{
    let mut found = Row::new(alloc);
    let mut left = rest;
    while is_mark(Mark::Dot, left) {
        let dotted = after(left);
        let Some(name) = name_at(alloc, dotted)? else {
            return Err(ReadError::Syntax(dotted.len()));
        };
        found.push(name)?;
        left = after(dotted);
    }
    Ok((found, left))
}

/// The path whose root is the next token, and what follows.
#[tactic(auto, unfolding(own_grammar::specs::Reading::path_from))]
pub(crate) fn path_from(
    alloc: Global,
    rest: &[Token],
    root: Root,
) -> Result<(Path, &[Token]), ReadError>
    requires some { 0 < length rest.now }
    ensures gives { Gives (λ x. (x.0, x.1.now)) result (spec.path_from root rest.now) }
    ensures shorter { IfOk result (λ x. length x.1.now < length rest.now) }
{
    let (fields, more) = fields_of(alloc, after(rest))?;
    let span = till(here(rest), names_end(here(rest), fields.as_slice()));
    Ok((Path { span, root, fields }, more))
}

/// The path that stands here, and what follows.
#[tactic(auto, unfolding(own_grammar::specs::Reading::path_with))]
pub(crate) fn path_of(alloc: Global, rest: &[Token]) -> Result<(Path, &[Token]), ReadError>
    ensures gives { Gives (λ x. (x.0, x.1.now)) result (spec.path_with rest.now) }
    ensures shorter { IfOk result (λ x. length x.1.now < length rest.now) }
{
    match root_at(alloc, rest)? {
        Some(root) => path_from(alloc, rest, root),
        None => Err(ReadError::Syntax(rest.len())),
    }
}

/// The type of a `let` or `var`, where one is written, and what follows.
#[tactic(auto, unfolding(own_grammar::specs::Reading::typed_with))]
pub(crate) fn typed_of(alloc: Global, rest: &[Token]) -> Result<(Option<Name>, &[Token]), ReadError>
    ensures gives { Gives (λ x. (x.0, x.1.now)) result (spec.typed_with rest.now) }
    ensures within { IfOk result (λ x. length x.1.now ≤ length rest.now) }
{
    if !annotates(rest) {
        return Ok((None, rest));
    }
    let more = after(rest);
    match name_at(alloc, more)? {
        Some(name) => Ok((Some(name), after(more))),
        None => Err(ReadError::Syntax(more.len())),
    }
}

/// `.NAME`, the dot of which is the next token.
#[tactic(auto, unfolding(own_grammar::specs::Reading::implicit_with))]
pub(crate) fn implicit_of(
    alloc: Global,
    rest: &[Token],
    depth: u32,
) -> Result<(Expr, u32, &[Token]), ReadError>
    requires limit { depth < MOST_NESTING }
    requires some { 0 < length rest.now }
    ensures gives { Gives (λ x. (expr_view x.0, x.2.now)) result (spec.implicit_with rest.now) }
    ensures height { IfOk result (λ x. x.1 ≡ nest (expr_view x.0)) }
    ensures fits { IfOk result (λ x. depth + x.1 ≤ MOST_NESTING) }
    ensures shorter { IfOk result (λ x. length x.2.now < length rest.now) }
{
    let more = after(rest);
    match name_at(alloc, more)? {
        Some(name) => {
            let span = till(here(rest), here(more));
            Ok((Expr::ImplicitMember(span, name), 1, after(more)))
        }
        None => Err(ReadError::Syntax(more.len())),
    }
}

/// `consume` and its path.
#[tactic(auto, unfolding(own_grammar::specs::Reading::consume_with))]
pub(crate) fn consume_of(
    alloc: Global,
    rest: &[Token],
    depth: u32,
) -> Result<(Expr, u32, &[Token]), ReadError>
    requires limit { depth < MOST_NESTING }
    requires some { 0 < length rest.now }
    ensures gives { Gives (λ x. (expr_view x.0, x.2.now)) result (spec.consume_with MOST_NESTING depth rest.now) }
    ensures height { IfOk result (λ x. x.1 ≡ nest (expr_view x.0)) }
    ensures fits { IfOk result (λ x. depth + x.1 ≤ MOST_NESTING) }
    ensures shorter { IfOk result (λ x. length x.2.now < length rest.now) }
{
    if depth + 1 >= MOST_NESTING {
        return Err(ReadError::Depth(after(rest).len()));
    }
    let (path, more) = path_of(alloc, after(rest))?;
    let span = till(here(rest), path.span);
    Ok((Expr::Consume(span, path), 2, more))
}

/// `&` and its path.
#[tactic(auto, unfolding(own_grammar::specs::Reading::address_with))]
pub(crate) fn address_of(
    alloc: Global,
    rest: &[Token],
    depth: u32,
) -> Result<(Passed, u32, &[Token]), ReadError>
    requires limit { depth ≤ MOST_NESTING }
    requires some { 0 < length rest.now }
    ensures gives { Gives (λ x. (passed_view x.0, x.2.now)) result (spec.address_with MOST_NESTING depth rest.now) }
    ensures height { IfOk result (λ x. x.1 ≡ nest_given (passed_view x.0)) }
    ensures fits { IfOk result (λ x. depth + x.1 ≤ MOST_NESTING) }
    ensures shorter { IfOk result (λ x. length x.2.now < length rest.now) }
{
    if depth >= MOST_NESTING {
        return Err(ReadError::Depth(after(rest).len()));
    }
    let (path, more) = path_of(alloc, after(rest))?;
    let span = till(here(rest), path.span);
    Ok((Passed::Address(span, path), 1, more))
}

/// `discard self`.
#[tactic(auto, unfolding(own_grammar::specs::Reading::discard_with))]
pub(crate) fn discard_of(rest: &[Token], depth: u32) -> Result<(Stmt, u32, &[Token]), ReadError>
    requires limit { depth < MOST_NESTING }
    requires some { 0 < length rest.now }
    ensures gives { Gives (λ x. (stmt_view x.0, x.2.now)) result (spec.discard_with rest.now) }
    ensures height { IfOk result (λ x. x.1 ≡ nest_stm (stmt_view x.0)) }
    ensures fits { IfOk result (λ x. depth + x.1 ≤ MOST_NESTING) }
    ensures shorter { IfOk result (λ x. length x.2.now < length rest.now) }
{
    let more = after(rest);
    if is_word(Word::SelfValue, more) {
        let span = till(here(rest), here(more));
        Ok((Stmt::Discard(span), 1, after(more)))
    } else {
        Err(ReadError::Syntax(more.len()))
    }
}

/// The names of a closure up to their `in` and what follows, where some stand here.
fn names_at(
    alloc: Global,
    rest: &[Token],
) -> Result<Option<(Row<ClosureName>, &[Token])>, AllocError>
    ensures value { IfOk result (λ names. option_map (λ x. (x.0, x.1.now)) names ≡ tests.names_at rest.now) }
    ensures within { IfOk result (λ names. IfSome names (λ x. length x.1.now ≤ length rest.now)) }
{
    let mut found = Row::new(alloc);
    let mut left = rest;
    loop {
        let Some(name) = closure_name_at(alloc, left)? else {
            return Ok(None);
        };
        found.push(name)?;
        let more = after(left);
        if !is_mark(Mark::Comma, more) {
            if is_word(Word::In, more) {
                return Ok(Some((found, after(more))));
            }
            return Ok(None);
        }
        left = after(more);
    }
}

/// The names of a closure, and where its statements begin.
#[tactic(auto, unfolding(own_grammar::specs::Tests::closure_head))]
pub(crate) fn closure_head(
    alloc: Global,
    rest: &[Token],
) -> Result<(Row<ClosureName>, &[Token]), AllocError>
    ensures value { IfOk result (λ x. (x.0, x.1.now) ≡ tests.closure_head rest.now) }
    ensures within { IfOk result (λ x. length x.1.now ≤ length rest.now) }
{
    match names_at(alloc, rest)? {
        Some(head) => Ok(head),
        None => Ok((Row::new(alloc), rest)),
    }
}
