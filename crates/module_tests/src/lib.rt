//! Tests of the writer, the reader and the interpreter of modules, and of checked arithmetic. They stand apart, so
//! that a crate is proved once and not a second time with its tests.
#![tactic(auto)]

#[cfg(test)]
mod arith;
#[cfg(test)]
mod read;
#[cfg(test)]
mod run;
#[cfg(test)]
mod write;
