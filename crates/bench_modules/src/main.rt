//! The reader and the writer of modules, as they are timed. The words `read FILE TURNS` read the module of the
//! file so many times, and say whether it is one. `write FILE TURNS` read it once and write it so many times,
//! and say how many bytes that makes; `copy FILE 1` writes them to standard output.
#![tactic(auto)]

ghost use Rattle.std.specs.Prelude.{◌^◌, ◌<◌, length, IfOk};

use anyhow::{Context, bail};
use own_io::{DiskFolder, Folder, StdSink, send};
use own_tree::Bytes;
use std::alloc::Global;
use std::env;
use wasm_form::Module;
use wasm_read::read_module;
use wasm_write::write_module;

/// The longest file that is loaded.
const MOST_BYTES: usize = 64 * 1024 * 1024;

fn main(rt: HostRuntime) -> anyhow::Result<()> {
    let alloc = rt.alloc();
    let words: Vec<String> = env::args(&rt)?.skip(1).collect(alloc)?;
    match words.as_slice() {
        [word, file, turns] => {
            let turns = turns.as_str().parse::<u32>().context("the turns")?;
            let bytes = loaded(&rt, alloc, file.as_str())?;
            match word.as_str() {
                "read" => read(&rt, alloc, bytes.as_slice(), turns),
                "write" => write(&rt, alloc, bytes.as_slice(), turns),
                "copy" => copy(&rt, alloc, bytes.as_slice()),
                _ => bail!("usage: bench_modules read|write|copy FILE TURNS"),
            }
        }
        _ => bail!("usage: bench_modules read|write|copy FILE TURNS"),
    }
}

fn loaded(rt: &HostRuntime, alloc: Global, file: &str) -> anyhow::Result<Bytes>
    ensures { IfOk result (λ bytes. length bytes < 2 ^ 32) }
{
    let mut folder = DiskFolder::new(rt, alloc);
    match folder.load(file, MOST_BYTES) {
        Ok(bytes) => Ok(bytes),
        Err(_) => bail!("the file could not be read"),
    }
}

/// Reads the module so many times.
fn read(rt: &HostRuntime, alloc: Global, bytes: &[u8], turns: u32) -> anyhow::Result<()>
    requires { length bytes.now < 2 ^ 32 }
{
    let mut is_module = false;
    for _ in 0..turns {
        is_module = read_module(alloc, bytes).is_ok();
    }
    println!(rt; "{}", if is_module { "module" } else { "no module" })?;
    Ok(())
}

fn module_of(alloc: Global, bytes: &[u8]) -> anyhow::Result<Module>
    requires { length bytes.now < 2 ^ 32 }
{
    match read_module(alloc, bytes) {
        Ok(module) => Ok(module),
        Err(_) => bail!("no module"),
    }
}

/// Writes the module so many times.
fn write(rt: &HostRuntime, alloc: Global, bytes: &[u8], turns: u32) -> anyhow::Result<()>
    requires { length bytes.now < 2 ^ 32 }
{
    let module = module_of(alloc, bytes)?;
    let mut length = 0;
    for _ in 0..turns {
        length = write_module(alloc, &module)?.len();
    }
    println!(rt; "{length} bytes")?;
    Ok(())
}

/// Writes the module's bytes out.
fn copy(rt: &HostRuntime, alloc: Global, bytes: &[u8]) -> anyhow::Result<()>
    requires { length bytes.now < 2 ^ 32 }
{
    let module = module_of(alloc, bytes)?;
    let written = write_module(alloc, &module)?;
    match send(&mut StdSink::out(rt), written.as_slice()) {
        Ok(()) => Ok(()),
        Err(_) => bail!("the bytes could not be written"),
    }
}
