//! Prints what the table of types says of each text of the input, a line a text: a `$` is a line end, and
//! `[N:PIECE]` is the piece so many times, in which `#` is the number of the turn from 0. Of a table stand the
//! types with their slots, leaves and names of parts; of a refusal its code, the word at its place and where that
//! begins.
#![tactic(auto)]

mod shown;

use anyhow::Context;
use own_decl::parse;
use own_lex::lex;
use own_table::TypeTable;
use own_tree::limits::MOST_TOKENS;
use std::alloc::{AllocError, Global};
use std::fmt::Write;

/// Adds a piece so many times, with the number of the turn for `#`.
fn push_turns(text: &mut String, piece: &str, turns: u32) -> Result<(), AllocError> {
    for turn in 0..turns {
        for part in piece.split('#').enumerate() {
            let (number, plain) = part;
            if number > 0 {
                write!(text, "{turn}")?;
            }
            text.push_str(plain)?;
        }
    }
    Ok(())
}

/// Adds what stands after a `[`: the turns of its piece, and the text behind them.
fn push_repeated(text: &mut String, part: &str) -> anyhow::Result<()> {
    let (inside, after) = part.split_once(']').context("a `]`")?;
    let (turns, piece) = inside.split_once(':').context("a `:`")?;
    push_turns(text, piece, turns.parse::<u32>().context("the turns")?)?;
    text.push_str(after)?;
    Ok(())
}

/// The text of a line.
fn text_of(alloc: Global, line: &str) -> anyhow::Result<String> {
    let mut text = String::new(alloc);
    for (number, part) in line.split('[').enumerate() {
        if number == 0 {
            text.push_str(part)?;
        } else {
            push_repeated(&mut text, part)?;
        }
    }
    Ok(text.replace(alloc, "$", "\n")?)
}

/// What the table of a text says.
fn answer(alloc: Global, text: &str) -> anyhow::Result<String> {
    let mut out = String::new(alloc);
    let tokens = lex(alloc, text.as_bytes()).context("the text")?;
    if tokens.len() > MOST_TOKENS {
        return Ok(out);
    }
    let tree = parse(alloc, tokens.as_slice()).context("the tokens")?;
    match TypeTable::build(alloc, &tree) {
        Ok(table) => shown::put_table(&mut out, &table)?,
        Err(refused) => shown::put_refusal(&mut out, text, refused)?,
    }
    Ok(out)
}

fn main(rt: HostRuntime) -> anyhow::Result<()> {
    let alloc = rt.alloc();
    for line in rt.lines(alloc) {
        let line = line?;
        let text = text_of(alloc, line.as_str())?;
        let said = answer(alloc, text.as_str())?;
        println!(rt; "{line}\n    {said}")?;
    }
    Ok(())
}
