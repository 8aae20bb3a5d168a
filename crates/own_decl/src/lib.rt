//! The parser of declarations and of the file.
#![tactic(auto)]

mod declarations;
mod file;
mod members;
mod parse_file;
mod read;
mod types;

pub use parse_file::parse;
