//! Tests of what is said of texts that stand on no line of `check_texts`: of those that are no UTF-8, that end their
//! lines otherwise than with LF, and that are as long as a text or a limit lets them be. They stand apart, so that a
//! crate is proved once and not a second time with its tests.
#![tactic(auto)]

#[cfg(test)]
mod bytes;
#[cfg(test)]
mod limits;
#[cfg(test)]
mod saying;
