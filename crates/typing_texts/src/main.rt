//! Prints what typing says of each text of the input, a line a text: a `$` is a line end. Of a typed program stand
//! its bodies with their statements and its bindings (`shown.rt` says how); of a refusal its code, the place where it
//! is named, and what stands there.
#![tactic(auto)]

mod expressions;
mod shown;
mod statements;
mod words;

use anyhow::Context;
use own_decl::parse;
use own_lex::lex;
use own_table::{TableError, TypeTable};
use own_tree::limits::MOST_TOKENS;
use own_typing::type_program;
use std::alloc::Global;

/// What typing says of a text.
fn answer(alloc: Global, text: &str) -> anyhow::Result<String> {
    let mut out = String::new(alloc);
    let tokens = lex(alloc, text.as_bytes()).context("the text")?;
    if tokens.len() > MOST_TOKENS {
        return Ok(out);
    }
    let tree = parse(alloc, tokens.as_slice()).context("the tokens")?;
    let table = match TypeTable::build(alloc, &tree) {
        Ok(table) => table,
        Err(TableError::BadType { code, at }) => {
            shown::put_refused(&mut out, "table: ", code, text, at);
            return Ok(out);
        }
        Err(_) => return Err(anyhow::anyhow!("a limit")),
    };
    match type_program(alloc, &tree, &table) {
        Ok(typed) => shown::put_program(&mut out, &typed),
        Err(refused) => shown::put_refusal(&mut out, text, refused),
    }
    Ok(out)
}

fn main(rt: HostRuntime) -> anyhow::Result<()> {
    let alloc = rt.alloc();
    for line in rt.lines(alloc) {
        let line = line?;
        let text = line.replace(alloc, "$", "\n")?;
        let said = answer(alloc, text.as_str())?;
        println!(rt; "{line}\n    {said}")?;
    }
    Ok(())
}
