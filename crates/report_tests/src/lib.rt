//! Tests of the lines of refusals and findings, of which each code and each kind of place stands here as the language
//! has it. They stand apart, so that a crate is proved once and not a second time with its tests.
#![tactic(auto)]

#[cfg(test)]
mod findings;
#[cfg(test)]
mod refusals;
