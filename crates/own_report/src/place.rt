ghost use Rattle.std.specs.Prelude.{◌≡◌, ◌+◌, ◌≤◌, ◌<◌, length, slice_get};
ghost use Rattle.own_report.specs.Place.{place_at, place_after};

use std::fmt;

/// A line and a column, both from 1.
#[derive(Clone, Copy, Debug, PartialEq, Eq)]
pub struct LineColumn {
    pub line: u32,
    pub column: u32,
}

impl fmt::Display for LineColumn {
    ghost use Rattle.std.specs.Prelude.{Some};
    ghost use Rattle.own_report.specs.Lines.{place_pair};

    ghost output = { λ place. Some (place_pair place) };

    fn fmt<W: fmt::Write>(&self, f: &mut fmt::Formatter<W>) -> fmt::Result {
        let LineColumn { line, column } = *self;
        write!(f, "{line}:{column}")
    }
}

/// The line and the column of an offset in bytes from 0.
///
/// A line ends at LF, at CR LF or at a CR alone, and columns count Unicode scalars, of which a tab is
/// one. The LF of a CR LF stands on the line that it ends.
pub fn place_of(text: &[u8], at: u32) -> LineColumn
    requires within { at ≤ length text.now }
    requires small { at < 4294967295 }
    ensures { result ≡ place_at text.now at }
{
    let mut place = LineColumn { line: 1, column: 1 };
    for index in 0..at as usize {
        place = passed(place, text[index], byte_at(text, index + 1));
    }
    place
}

/// The line and the column of an offset in bytes from 0; of one past the end, those of the end.
pub fn place_in(text: &[u8], at: u32) -> LineColumn
    requires { length text.now < 4294967295 }
    ensures { result ≡ place_at text.now at }
{
    let end = text.len() as u32;
    if at <= end {
        return place_of(text, at);
    }
    place_of(text, end)
}

/// The byte at an index, if there is one.
pub(crate) fn byte_at(text: &[u8], index: usize) -> Option<u8>
    ensures { result ≡ slice_get text.now index }
{
    text.get(index).copied()
}

/// The place after a byte, before which another or none stands.
#[tactic(auto, unfolding(crate::specs::Place::place_after))]
pub(crate) fn passed(place: LineColumn, byte: u8, next: Option<u8>) -> LineColumn
    requires line { place.line < 4294967295 }
    requires column { place.column < 4294967295 }
    ensures after { result ≡ place_after place byte next }
    ensures lines { result.line ≤ place.line + 1 }
    ensures columns { result.column ≤ place.column + 1 }
{
    let LineColumn { line, column } = place;
    match byte {
        b'\n' => LineColumn {
            line: line + 1,
            column: 1,
        },
        b'\r' => match next {
            Some(b'\n') => LineColumn {
                line,
                column: column + 1,
            },
            _ => LineColumn {
                line: line + 1,
                column: 1,
            },
        },
        // The further bytes of a scalar.
        0x80..=0xbf => place,
        _ => LineColumn {
            line,
            column: column + 1,
        },
    }
}
