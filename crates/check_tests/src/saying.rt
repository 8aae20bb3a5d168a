//! What is said of a text.

use own_build::{Refused, check_text};
use own_report::{finding_lines, refusal_text};
use own_tree::Bytes;
use std::alloc::{AllocError, Global};

/// The lines of what is said of a text, which is the file `a`; of one that is accepted there are none.
pub(crate) fn said_of(alloc: Global, text: &[u8]) -> Result<Bytes, AllocError> {
    match check_text(alloc, text) {
        Ok(_) => Ok(Bytes::new(alloc)),
        Err(Refused::Refusal(refusal)) => refusal_text(alloc, "a", text, &refusal),
        Err(Refused::Findings(typed, table, found)) => {
            finding_lines(alloc, "a", text, &typed, &table, found.as_slice())
        }
        Err(Refused::Memory) => Err(AllocError),
    }
}

/// A text of a head, so many times a piece, and a tail.
pub(crate) fn repeated(
    alloc: Global,
    head: &str,
    piece: &str,
    times: usize,
    tail: &str,
) -> Result<String, AllocError> {
    let mut text = String::from_str(alloc, head)?;
    for _ in 0..times {
        text.push_str(piece)?;
    }
    text.push_str(tail)?;
    Ok(text)
}
