//! The text that the lexer and the parser are timed on. The words are `lex` or `parse`, a SIZE in bytes and a
//! number of TURNS: a text of that size at least is made, and its tokens, or its tree, are read so many times.
#![tactic(auto)]

use anyhow::{Context, bail};
use own_decl::parse;
use own_lex::lex;
use own_tree::Token;
use own_tree::limits::MOST_TOKENS;
use std::alloc::{AllocError, Global};
use std::env;

/// A piece of a program, which the text repeats.
const PIECE: &str = "/// What is left of a file behind a position, at most a given number of bytes.
func remaining(_ file: borrowing File, upTo limit: Int) -> Int {
    /* It is counted /* from the start */ and not from the end. */
    var remainingBytes = 0x10
    while remainingBytes < limit && file.descriptor != -1 {
        remainingBytes = remainingBytes + file.descriptor * 1_000
        print(\"remaining\\n\", remainingBytes)
    }
    return remainingBytes
}
";

fn main(rt: HostRuntime) -> anyhow::Result<()> {
    let alloc = rt.alloc();
    let words: Vec<String> = env::args(&rt)?.skip(1).collect(alloc)?;
    match words.as_slice() {
        [what, size, turns] => {
            let size = size.as_str().parse::<u32>().context("the size")?;
            let turns = turns.as_str().parse::<u32>().context("the turns")?;
            let text = text_of(alloc, size as usize)?;
            let count = match what.as_str() {
                "lex" => tokens_of(alloc, text.as_bytes(), turns)?,
                "parse" => declarations_of(alloc, text.as_bytes(), turns)?,
                _ => bail!("usage: bench_text lex|parse SIZE TURNS"),
            };
            println!(rt; "{count}")?;
            Ok(())
        }
        _ => bail!("usage: bench_text lex|parse SIZE TURNS"),
    }
}

/// A program of at least so many bytes, in whole pieces.
fn text_of(alloc: Global, size: usize) -> Result<String, AllocError> {
    let mut text = String::new(alloc);
    for _ in 0..=size / PIECE.len() {
        text.push_str(PIECE)?;
    }
    text.push_str("main()\n")?;
    Ok(text)
}

/// Reads the tokens so many times, and says how many there are.
fn tokens_of(alloc: Global, text: &[u8], turns: u32) -> anyhow::Result<usize> {
    let mut count = 0;
    for _ in 0..turns {
        count = lex(alloc, text).context("the text")?.len();
    }
    Ok(count)
}

/// Reads the tree of one reading of the tokens so many times, and says how many declarations there are.
fn declarations_of(alloc: Global, text: &[u8], turns: u32) -> anyhow::Result<usize> {
    let tokens = lex(alloc, text).context("the text")?;
    let mut count = 0;
    for _ in 0..turns {
        count = tree_size(alloc, tokens.as_slice())?;
    }
    Ok(count)
}

/// Reads the tree once.
fn tree_size(alloc: Global, tokens: &[Token]) -> anyhow::Result<usize> {
    if tokens.len() > MOST_TOKENS {
        bail!("too many tokens");
    }
    let tree = parse(alloc, tokens).context("the tokens")?;
    Ok(tree.declarations.len())
}
