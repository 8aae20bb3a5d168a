//! Tests of cores as modules, from `to_wasm` through the bytes to the machine. They stand apart, so that a crate is
//! proved once and not a second time with its tests.
#![tactic(auto)]

#[cfg(test)]
mod run;
