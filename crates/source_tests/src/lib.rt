//! Tests of the parser of declarations, the table of types and the coverage of patterns. They stand apart, so that a
//! crate is proved once and not a second time with its tests.
#![tactic(auto)]

#[cfg(test)]
mod coverage;
#[cfg(test)]
mod declarations;
#[cfg(test)]
mod table;
