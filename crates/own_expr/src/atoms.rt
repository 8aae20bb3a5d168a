//! Expressions of one token or a path.
ghost use Rattle.std.specs.Prelude.{◌≡◌, ◌≤◌, ◌<◌, ◌+◌, length, false, IfOk};
ghost use Rattle.own_expr.specs.Gives.{Gives};
ghost use Rattle.own_expr.specs.Reads.{reader};
ghost use Rattle.own_grammar.specs.Nesting.{nest};
ghost use Rattle.own_grammar.specs.Reading as spec;
ghost use Rattle.own_grammar.specs.Tests as tests;
ghost use Rattle.own_tree.specs.View.{expr_view};

use crate::fault::ReadError;
use crate::next::{after, here, is_mark, literal_at, root_at, till};
use crate::operators::negative_at;
use crate::paths::{implicit_of, path_from};
use own_tree::limits::MOST_NESTING;
use own_tree::tree::Expr;
use own_tree::{Mark, Token};
use std::alloc::Global;

/// A primary expression that does not begin with a parenthesis.
#[tactic(auto, unfolding(own_grammar::specs::Reading::primary_with))]
pub(crate) fn atom_of(
    alloc: Global,
    rest: &[Token],
    tight: bool,
    depth: u32,
) -> Result<(Expr, u32, &[Token]), ReadError>
    requires limit { depth < MOST_NESTING }
    requires plain { tests.is_mark Mark.OpenParen rest.now ≡ false }
    ensures gives { Gives (λ x. (expr_view x.0, x.2.now)) result (spec.primary_with reader tight depth rest.now) }
    ensures height { IfOk result (λ x. x.1 ≡ nest (expr_view x.0)) }
    ensures fits { IfOk result (λ x. depth + x.1 ≤ MOST_NESTING) }
    ensures shorter { IfOk result (λ x. length x.2.now < length rest.now) }
{
    if let Some(n) = negative_at(tight, rest) {
        let more = after(rest);
        let span = till(here(rest), here(more));
        return Ok((Expr::Number(span, true, n), 1, after(more)));
    }
    if let Some(literal) = literal_at(alloc, rest)? {
        return Ok((literal, 1, after(rest)));
    }
    if let Some(root) = root_at(alloc, rest)? {
        let (path, more) = path_from(alloc, rest, root)?;
        return Ok((Expr::Path(path), 1, more));
    }
    if is_mark(Mark::Dot, rest) {
        implicit_of(alloc, rest, depth)
    } else {
        Err(ReadError::Syntax(rest.len()))
    }
}
