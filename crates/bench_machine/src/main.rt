//! The module that the machine is timed on. The words `run TURNS` run it on our machine, and `bytes TURNS`
//! write its bytes, for another interpreter.
#![tactic(auto)]

ghost use Rattle.wasm_form.specs.Within.{IsWithin};

mod module;

use crate::module::benchmark;
use anyhow::{Context, bail};
use own_io::{StdSink, send};
use std::alloc::Global;
use std::env;
use wasm_form::Module;
use wasm_run::{Machine, Ran};
use wasm_write::write_module;

/// More than the steps of the most turns.
const MOST_STEPS: u64 = 1_000_000_000_000;

fn main(rt: HostRuntime) -> anyhow::Result<()> {
    let alloc = rt.alloc();
    let words: Vec<String> = env::args(&rt)?.skip(1).collect(alloc)?;
    match words.as_slice() {
        [word, turns] => {
            let turns = turns
                .as_str()
                .parse::<u32>()
                .context("the number of turns")?;
            let module = benchmark(alloc, u64::from(turns))?;
            match word.as_str() {
                "run" => run(&rt, &module),
                "bytes" => write(&rt, alloc, &module),
                _ => bail!("usage: bench_machine run|bytes TURNS"),
            }
        }
        _ => bail!("usage: bench_machine run|bytes TURNS"),
    }
}

/// Runs the module, which writes its sum, and prints the number of steps.
fn run(rt: &HostRuntime, module: &Module) -> anyhow::Result<()>
    requires { IsWithin «module».now }
{
    let mut out = StdSink::out(rt);
    match Machine::start(rt.alloc(), module, &[])?.run(MOST_STEPS, &mut out) {
        Ran::Ended { steps } => println!(rt; "\n{steps} steps")?,
        _ => bail!("the run did not end"),
    }
    Ok(())
}

fn write(rt: &HostRuntime, alloc: Global, module: &Module) -> anyhow::Result<()> {
    let bytes = write_module(alloc, module)?;
    match send(&mut StdSink::out(rt), bytes.as_slice()) {
        Ok(()) => Ok(()),
        Err(_) => bail!("the bytes could not be written"),
    }
}
