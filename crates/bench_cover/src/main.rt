//! The patterns that coverage is timed on. The words are a kind of problem, as `cases`, its SIZE and a number of
//! TURNS: patterns of the kind are made, and it is asked so many times, and once at least, whether they cover
//! their type.
#![tactic(auto)]

mod kind;
mod patterns;
mod problem;
mod types;

use crate::kind::Kind;
use crate::problem::Problem;
use anyhow::{Context, bail};
use own_tree::{Cover, TPattern};
use std::alloc::{AllocError, Global};
use std::env;

fn main(rt: HostRuntime) -> anyhow::Result<()> {
    let alloc = rt.alloc();
    let words: Vec<String> = env::args(&rt)?.skip(1).collect(alloc)?;
    match words.as_slice() {
        [kind, size, turns] => {
            let kind = kind.as_str().parse::<Kind>()?;
            let size = size.as_str().parse::<u32>().context("the size")?;
            let turns = turns.as_str().parse::<u32>().context("the turns")?;
            let problem = Problem::new(alloc, kind, size)?;
            print(&rt, &asked(alloc, &problem, turns)?)
        }
        _ => bail!(
            "usage: bench_cover cases|truths|clauses|nested|single|structs|pairs SIZE TURNS"
        ),
    }
}

/// Asks so many times, and once at least.
fn asked(alloc: Global, problem: &Problem, turns: u32) -> Result<Cover, AllocError> {
    let mut answer = problem.answer(alloc)?;
    for _ in 1..turns {
        answer = problem.answer(alloc)?;
    }
    Ok(answer)
}

/// Prints the answer, with no more of a missing form than its case.
fn print(rt: &HostRuntime, answer: &Cover) -> anyhow::Result<()> {
    match answer {
        Cover::All => println!(rt; "all")?,
        Cover::Missing(TPattern::Case(case, _)) => println!(rt; "missing: case {case}")?,
        Cover::Missing(_) => println!(rt; "missing")?,
    }
    Ok(())
}
