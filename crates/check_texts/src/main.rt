//! Prints what is said of each text of the input, a line a text: a `$` is a line end, and `[N:PIECE]` is the piece
//! so many times, in which `#` is the number of the turn from 0. It is `accepted`, or the line of a refusal, or the
//! lines of all findings, of a file by the name `t`.
#![tactic(auto)]

use anyhow::Context;
use own_build::{Refused, check_text};
use own_report::{finding_lines, refusal_text};
use own_tree::Bytes;
use std::alloc::{AllocError, Global};
use std::fmt::Write;

/// Adds a piece so many times, with the number of the turn for `#`.
fn push_turns(text: &mut String, piece: &str, turns: u32) -> Result<(), AllocError> {
    for turn in 0..turns {
        for (number, plain) in piece.split('#').enumerate() {
            if number > 0 {
                write!(text, "{turn}")?;
            }
            text.push_str(plain)?;
        }
    }
    Ok(())
}

/// Adds what stands after a `[`: the turns of its piece, and the text behind them.
fn push_repeated(text: &mut String, part: &str) -> anyhow::Result<()> {
    let (inside, after) = part.split_once(']').context("a `]`")?;
    let (turns, piece) = inside.split_once(':').context("a `:`")?;
    push_turns(text, piece, turns.parse::<u32>().context("the turns")?)?;
    text.push_str(after)?;
    Ok(())
}

/// The text of a line.
fn text_of(alloc: Global, line: &str) -> anyhow::Result<String> {
    let mut text = String::new(alloc);
    for (number, part) in line.split('[').enumerate() {
        if number == 0 {
            text.push_str(part)?;
        } else {
            push_repeated(&mut text, part)?;
        }
    }
    Ok(text.replace(alloc, "$", "\n")?)
}

/// The lines of a text that is not accepted.
fn refused_lines(alloc: Global, text: &[u8], refused: &Refused) -> Result<Bytes, AllocError> {
    match refused {
        Refused::Refusal(refusal) => refusal_text(alloc, "t", text, refusal),
        Refused::Findings(typed, table, found) => {
            finding_lines(alloc, "t", text, typed, table, found.as_slice())
        }
        Refused::Memory => Err(AllocError),
    }
}

/// What is said of a text.
fn answer(alloc: Global, text: &[u8]) -> Result<Bytes, AllocError> {
    match check_text(alloc, text) {
        Ok(_) => Bytes::from_slice(alloc, b"accepted\n"),
        Err(refused) => refused_lines(alloc, text, &refused),
    }
}

fn main(rt: HostRuntime) -> anyhow::Result<()> {
    let alloc = rt.alloc();
    for line in rt.lines(alloc) {
        let line = line?;
        let text = text_of(alloc, line.as_str())?;
        let said = answer(alloc, text.as_bytes())?;
        let said = str::from_utf8(said.as_slice()).context("lines of text")?;
        println!(rt; "{line}")?;
        for one in said.lines() {
            println!(rt; "    {one}")?;
        }
    }
    Ok(())
}
