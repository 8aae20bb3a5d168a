//! Prints the block of each line of the input, as the parser reads it. A `$` is a line end. The block begins at
//! the first `{`, with as many nodes above it as there are tokens before that. After the block stands the number of
//! the token behind it.
#![tactic(auto)]

mod shown;

use anyhow::Context;
use own_expr::parse_block;
use own_lex::lex;
use own_tree::{Kind, Mark, ParseError, Token};
use std::alloc::{AllocError, Global};
use std::fmt::Write;

/// How many levels of a tree are shown.
const LEVELS: u32 = 1_000;

/// The number of tokens before the first `{`, or 0 where there is none.
fn first_brace(tokens: &[Token]) -> u32 {
    let mut number = 0;
    for token in tokens {
        match &token.kind {
            Kind::Mark(Mark::OpenBrace) => return number,
            _ => {}
        }
        if number >= 100 {
            return 0;
        }
        number += 1;
    }
    0
}

/// The block, or why there is none.
fn shown_block(alloc: Global, tokens: &[Token]) -> Result<String, AllocError> {
    let mut out = String::new(alloc);
    let from = first_brace(tokens);
    if tokens.len() > 200_000 || from > 100 || from as usize > tokens.len() {
        return Ok(out);
    }
    match parse_block(alloc, tokens, from, from) {
        Ok(at) => {
            shown::put_block(&mut out, &at.block, LEVELS);
            let next = at.next;
            write!(out, " {next}")?;
        }
        Err(ParseError::Syntax { token }) => write!(out, "syntax {token}")?,
        Err(ParseError::Depth { token }) => write!(out, "depth {token}")?,
        Err(ParseError::Memory) => write!(out, "memory")?,
    }
    Ok(out)
}

/// The text of a line: a `$` stands for a line end.
fn text_of(alloc: Global, line: &str) -> Result<Vec<u8>, AllocError> {
    let mut text = Vec::new(alloc);
    for byte in line.as_bytes() {
        text.push(if *byte == b'$' { b'\n' } else { *byte })?;
    }
    Ok(text)
}

fn main(rt: HostRuntime) -> anyhow::Result<()> {
    let alloc = rt.alloc();
    for line in rt.lines(alloc) {
        let line = line?;
        let text = text_of(alloc, line.as_str())?;
        let tokens = lex(alloc, text.as_slice()).context("the text")?;
        let block = shown_block(alloc, tokens.as_slice())?;
        println!(rt; "{line}\n    {block}")?;
    }
    Ok(())
}
