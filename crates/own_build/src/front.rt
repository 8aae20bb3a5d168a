//! A text up to its typing.

use crate::text::Refused;
use own_decl::parse;
use own_lex::lex;
use own_table::{TableError, TypeTable};
use own_tree::tree::Tree;
use own_tree::{LexError, ParseError, Refusal, Token, Typed};
use own_typing::{TypeError, type_program};
use std::alloc::Global;

/// A typed program and its types.
#[derive(Drop)]
pub(crate) struct Front {
    pub(crate) typed: Typed,
    pub(crate) table: TypeTable,
}

fn lex_refusal(error: LexError) -> Refused {
    match error {
        LexError::Memory => Refused::Memory,
        _ => Refused::Refusal(Refusal::Lex(error)),
    }
}

/// The offset of a token, or of the end of the text where the number is that of all tokens.
fn offset_of(text: &[u8], tokens: &[Token], token: u32) -> u32 {
    match tokens.get(token as usize) {
        Some(named) => named.span.start,
        None => u32::try_from(text.len()).unwrap_or(u32::MAX),
    }
}

fn parse_refusal(text: &[u8], tokens: &[Token], error: ParseError) -> Refused {
    match error {
        ParseError::Syntax { token } | ParseError::Depth { token } => {
            Refused::Refusal(Refusal::Parse(error, offset_of(text, tokens, token)))
        }
        ParseError::Memory => Refused::Memory,
    }
}

fn table_refusal(error: TableError) -> Refused {
    match error {
        TableError::Limit { which, count, at } => {
            Refused::Refusal(Refusal::Limit { which, count, at })
        }
        TableError::BadType { code, at } => Refused::Refusal(Refusal::BadType { code, at }),
        TableError::Memory => Refused::Memory,
    }
}

fn type_refusal(error: TypeError) -> Refused {
    match error {
        TypeError::BadType { code, at } => Refused::Refusal(Refusal::BadType { code, at }),
        TypeError::Uncovered { at, form } => Refused::Refusal(Refusal::Uncovered { at, form }),
        TypeError::Memory => Refused::Memory,
    }
}

/// The tree of a text.
fn tree_of(alloc: Global, text: &[u8]) -> Result<Tree, Refused> {
    let tokens = match lex(alloc, text) {
        Ok(tokens) => tokens,
        Err(error) => return Err(lex_refusal(error)),
    };
    match parse(alloc, tokens.as_slice()) {
        Ok(tree) => Ok(tree),
        Err(error) => Err(parse_refusal(text, tokens.as_slice(), error)),
    }
}

/// The typing of a text and its types, or the first refusal on the way there.
pub(crate) fn typed_text(alloc: Global, text: &[u8]) -> Result<Front, Refused> {
    let tree = tree_of(alloc, text)?;
    let table = match TypeTable::build(alloc, &tree) {
        Ok(table) => table,
        Err(error) => return Err(table_refusal(error)),
    };
    match type_program(alloc, &tree, &table) {
        Ok(typed) => Ok(Front { typed, table }),
        Err(error) => Err(type_refusal(error)),
    }
}
