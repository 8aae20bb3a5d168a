//! Places of a text that are found one from another, so that many of them take no longer than the text.

ghost use Rattle.std.specs.Prelude.{◌≡◌, ◌+◌, ◌/◌, ◌<◌, ◌≤◌, length};
ghost use Rattle.own_report.specs.declared.places.TheConstants.{MOST_BYTES, STRIDE};
ghost use Rattle.own_report.specs.Place.{place_at, AreKnown};

use crate::place::{LineColumn, byte_at, passed, place_in};
use std::alloc::{AllocError, Global};

/// How many bytes lie between two known places.
const STRIDE: usize = 256;

/// The most bytes of a text that have places. One within the limits has fewer.
const MOST_BYTES: usize = 4_294_967_294;

/// The place of an offset, by that of one before it.
fn place_after(text: &[u8], place: LineColumn, from: usize, at: usize) -> LineColumn
    requires order { from ≤ at }
    requires within { at ≤ length text.now }
    requires short { length text.now ≤ MOST_BYTES }
    requires known { place ≡ place_at text.now from }
    ensures { result ≡ place_at text.now at }
{
    let mut place = place;
    for index in from..at {
        place = passed(place, text[index], byte_at(text, index + 1));
    }
    place
}

/// The text that has places: all of one that is not longer than that.
fn front(text: &[u8]) -> &[u8]
    ensures short { length result.now ≤ MOST_BYTES }
    ensures whole { length text.now < 4294967295 → result.now ≡ text.now }
{
    if text.len() <= MOST_BYTES {
        text
    } else {
        text.split_at(MOST_BYTES).0
    }
}

/// The line and the column of an offset; of one in a text that is too long, one of its front.
pub(crate) fn place_of_front(text: &[u8], at: u32) -> LineColumn
    ensures { length text.now < 4294967295 → result ≡ place_at text.now at }
{
    place_in(front(text), at)
}

/// A text with the places of every 256th byte, from which those near them are found.
#[derive(Drop)]
pub(crate) struct Places<'t> {
    text: &'t [u8],
    known: Vec<LineColumn>,
    pub ghost short: { length text.now ≤ MOST_BYTES },
    pub ghost each: { length known.items ≡ length text.now / STRIDE + 1 },
    pub ghost exact: { AreKnown text.now known.items },
}

impl<'t> Places<'t> {
    ghost use Rattle.std.specs.Prelude.{IfOk};

    /// The places of a text; of one that is too long, those of its front.
    pub(crate) fn of(alloc: Global, text: &'t [u8]) -> Result<Places<'t>, AllocError>
        ensures { IfOk result (λ places. length text.entry.now < 4294967295 → places.text.now ≡ text.entry.now) }
    {
        let text = front(text);
        let mut known = Vec::new(alloc);
        let mut place = LineColumn { line: 1, column: 1 };
        for number in 0..text.len() / STRIDE {
            known.push(place)?;
            place = place_after(text, place, number * STRIDE, (number + 1) * STRIDE);
        }
        known.push(place)?;
        Ok(Places { text, known })
    }

    /// The line and the column of an offset; of one past the end, those of the end.
    pub(crate) fn at(&self, at: u32) -> LineColumn
        ensures { result ≡ place_at self.now.text.now at }
    {
        let end = self.text.len().min(at as usize);
        let number = end / STRIDE;
        place_after(self.text, self.known[number], number * STRIDE, end)
    }
}
