//! The file.
ghost use Rattle.std.specs.Prelude.{◌<◌, ◌^◌, length, Result, Ok, Err};
ghost use Rattle.own_expr.specs.Gives.{Gives};
ghost use Rattle.own_grammar.specs.ReadingFile as spec;
ghost use Rattle.own_tree.specs.View.{tree_view};

use crate::declarations::declarations_of;
use own_expr::tokens::{ReadError, after, here, is_mark, is_over, opens};
use own_grammar::Context;
use own_grammar::limits::MOST_PATTERN_LEVELS;
use own_tree::limits::MOST_NESTING;
use own_tree::tree::Tree;
use own_tree::{Mark, Span, Token};
use std::alloc::Global;

/// What may follow the last `)`: a `;`, or nothing.
#[tactic(auto, unfolding(own_grammar::specs::ReadingFile::end_with))]
fn end_of(rest: &[Token]) -> Result<(), ReadError>
    ensures { Gives (λ x. x) result (spec.end_with rest.now) }
{
    if is_over(rest) {
        return Ok(());
    }
    if !is_mark(Mark::Semicolon, rest) {
        return Err(ReadError::Syntax(rest.len()));
    }
    let more = after(rest);
    if is_over(more) {
        Ok(())
    } else {
        Err(ReadError::Syntax(more.len()))
    }
}

/// The last `main()`, the word of which is the next token.
#[tactic(auto, unfolding(own_grammar::specs::ReadingFile::main_with))]
fn main_of(rest: &[Token]) -> Result<Span, ReadError>
    ensures { Gives (λ x. x) result (spec.main_with rest.now) }
{
    let more = after(rest);
    if !opens(Context::Plain, more) {
        return Err(ReadError::Syntax(more.len()));
    }
    let last = after(more);
    if !is_mark(Mark::CloseParen, last) {
        return Err(ReadError::Syntax(last.len()));
    }
    end_of(after(last))?;
    Ok(here(rest))
}

/// The tree of all tokens.
#[tactic(auto, unfolding(own_grammar::specs::ReadingFile::read_file))]
pub(crate) fn file_of(alloc: Global, tokens: &[Token]) -> Result<Tree, ReadError>
    requires few { length tokens.now < 2 ^ 32 }
    ensures { Gives tree_view result (spec.read_file MOST_NESTING MOST_PATTERN_LEVELS tokens.now) }
{
    let (declarations, last) = declarations_of(alloc, tokens)?;
    let main = main_of(last)?;
    let tokens = tokens.len() as u32;
    Ok(Tree {
        declarations,
        main,
        tokens,
    })
}
