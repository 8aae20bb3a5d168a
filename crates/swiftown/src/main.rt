//! The program: the words of its command line, the files of the machine, and its standard streams.
#![tactic(auto)]

use own_io::{DiskFolder, StdSink};
use own_tool::swiftown;
use own_tree::Status;
use std::alloc::Global;
use std::env;
use std::io::ErrorKind;
use std::process::ExitCode;

/// Where the words cannot be had, nothing is printed: the status is 2 where one is not UTF-8, and 5 where
/// memory is refused.
fn main(rt: HostRuntime) -> ExitCode {
    let alloc = rt.alloc();
    let words = match words_of(&rt, alloc) {
        Ok(words) => words,
        Err(status) => return ExitCode::from(status.code()),
    };
    let mut out = StdSink::out(&rt);
    let mut err = StdSink::err(&rt);
    let mut folder = DiskFolder::new(&rt, alloc);
    let status = swiftown(alloc, words.as_slice(), &mut folder, &mut out, &mut err);
    ExitCode::from(status.code())
}

/// The words after the program's name.
fn words_of(rt: &HostRuntime, alloc: Global) -> Result<Vec<String>, Status> {
    match env::args(rt) {
        Ok(words) => words.skip(1).collect(alloc).map_err(|_| Status::Memory),
        Err(fault) if fault.kind() == ErrorKind::OutOfMemory => Err(Status::Memory),
        Err(_) => Err(Status::Usage),
    }
}
