//! Tests of what breaks the fixed rules.
#![tactic(auto)]

#[cfg(test)]
mod bodies;
#[cfg(test)]
mod findings;
