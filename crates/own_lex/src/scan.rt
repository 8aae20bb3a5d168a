//! The tokens of a text, from left to right.
ghost use Rattle.std.specs.Prelude.{◌≡◌, ◌≤◌, [], Ok, IfOk, true, false};
ghost use Rattle.own_tree.specs.Characters.{bytes_of, first_is, is_digit, starts_name};
ghost use Rattle.own_tree.specs.Tokens as rules;
ghost use Rattle.own_lex.specs.Reading as spec;

use crate::character;
use crate::comment::blank_at;
use crate::fault::Fault;
use crate::mark::mark_at;
use crate::number::number_at;
use crate::rest::Rest;
use crate::text::text_at;
use crate::word::name_at;
use own_tree::limits::MOST_TOKENS;
use own_tree::{Kind, Mark, Row, Span, Token};
use std::alloc::Global;

/// What stands before a token.
#[derive(Clone, Copy)]
struct Before {
    space: bool,
    line: bool,
}

fn starts_name(text: Rest) -> bool
    ensures { result ≡ first_is starts_name text.entry.chars.now }
{
    text.first().is_some_and(character::starts_name)
}

fn starts_number(text: Rest) -> bool
    ensures { result ≡ first_is (is_digit 10) text.entry.chars.now }
{
    text.first().is_some_and(|c| c.is_digit(10))
}

/// The token at the front, and what follows.
#[tactic(auto, unfolding(crate::specs::Reading::token_at))]
fn token_at(alloc: Global, text: Rest) -> Result<(Kind, Rest), Fault>
    ensures gives { spec.Gives (λ x. (x.0, x.1.chars.now)) result (spec.token_at text.entry.chars.now) }
    ensures within { IfOk result (λ x. x.1.left ≤ text.entry.left) }
{
    if starts_name(text) {
        return name_at(alloc, text);
    }
    if starts_number(text) {
        return number_at(text);
    }
    if text.begins("\"") {
        return text_at(alloc, text);
    }
    mark_at(text)
}

/// Whether the token is one of `( { , ; :`.
fn gives_space(kind: &Kind) -> bool
    ensures { result ≡ rules.gives_space kind.now }
{
    match kind {
        Kind::Mark(mark) => matches!(
            *mark,
            Mark::OpenParen | Mark::OpenBrace | Mark::Comma | Mark::Semicolon | Mark::Colon
        ),
        _ => false,
    }
}

/// Whether white space, a comment, the end of the text or one of `) } , ; :` stands here.
fn has_space(text: Rest) -> bool
    ensures { result ≡ rules.has_space text.entry.chars.now }
{
    match text.first() {
        Some(c) => {
            character::is_white(c)
                || matches!(c, ')' | '}' | ',' | ';' | ':')
                || text.begins("//")
                || text.begins("/*")
        }
        None => true,
    }
}

fn token_of(total: u32, kind: Kind, from: Rest, to: Rest, before: Before) -> Token
    requires { (from.left ≤ total) × (to.left ≤ total) }
    ensures { result ≡ rules.token_of total kind from.entry.chars.now to.entry.chars.now before.space before.line }
{
    Token {
        kind,
        span: Span {
            start: total - from.left,
            end: total - to.left,
        },
        space_before: before.space,
        space_after: has_space(to),
        line_before: before.line,
    }
}

/// The tokens of what is left of a text that has `total` bytes.
#[tactic(auto, using(crate::proofs::Turns::turn_over, crate::proofs::Turns::turn_fault, crate::proofs::Turns::turn_blank, crate::proofs::Turns::turn_bad, crate::proofs::Turns::turn_many, crate::proofs::Turns::turn_more, crate::proofs::Lengths::blank_less, crate::proofs::Lengths::token_less))]
pub(crate) fn tokens(alloc: Global, total: u32, text: Rest) -> Result<Row<Token>, Fault>
    requires { text.left ≤ total }
    ensures { spec.Gives (λ x. x) result (spec.lex_on total [] true false text.entry.chars.now) }
{
    let mut tokens = Row::new(alloc);
    let mut rest = text;
    let mut before = Before {
        space: true,
        line: false,
    };
    while !rest.is_over() {
        if let Some((line, others)) = blank_at(rest)? {
            before = Before {
                space: true,
                line: before.line | line,
            };
            rest = others;
            continue;
        }
        let (kind, others) = token_at(alloc, rest)?;
        if tokens.len() == MOST_TOKENS {
            return Err(Fault::TooManyTokens(rest.left));
        }
        let space = gives_space(&kind);
        tokens.push(token_of(total, kind, rest, others, before))?;
        before = Before { space, line: false };
        rest = others;
    }
    Ok(tokens)
}
