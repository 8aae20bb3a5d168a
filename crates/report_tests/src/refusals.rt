//! The lines of refusals.

use own_report::refusal_text;
use own_tree::{Bytes, LexError, LimitKind, ParseError, Refusal, Span};
use std::alloc::{AllocError, Global};
use std::test::*;

const TEXT: &[u8] = b"func main() {\n}\nmain()\n";

/// An offset of the text at line 2, column 1.
const AT: u32 = 14;

fn at(start: u32) -> Span {
    Span { start, end: start }
}

/// The line of a refusal of the text.
fn line_of(alloc: Global, refused: &Refusal) -> Result<Bytes, AllocError> {
    refusal_text(alloc, "a.swift", TEXT, refused)
}

const LEXING: [(LexError, &str); 7] = [
    (
        LexError::TooLong { bytes: 1_048_577 },
        "a.swift: error[M1]: text bytes: 1048577\n",
    ),
    (
        LexError::NotUtf8 { at: AT },
        "a.swift:2:1: error[X1]: not UTF-8\n",
    ),
    (
        LexError::BadChar { at: AT },
        "a.swift:2:1: error[X2]: unexpected character\n",
    ),
    (
        LexError::OpenComment { at: AT },
        "a.swift:2:1: error[X3]: comment is not closed\n",
    ),
    (
        LexError::OpenText { at: AT },
        "a.swift:2:1: error[X4]: text is not closed\n",
    ),
    (
        LexError::WideNumber { at: AT },
        "a.swift:2:1: error[X5]: number is too wide\n",
    ),
    (
        LexError::TooManyTokens { at: AT },
        "a.swift:2:1: error[M2]: tokens\n",
    ),
];

#[test]
fn lexing(rt: HostRuntime) -> Result<(), Fail> {
    for (error, want) in &LEXING {
        let line = line_of(rt.alloc(), &Refusal::Lex(*error))?;
        assert_eq!(rt; line.as_slice(), want.as_bytes());
    }
    Ok(())
}

const PARSING: [(ParseError, &str); 2] = [
    (
        ParseError::Syntax { token: 4 },
        "a.swift:2:1: error[S1]: syntax\n",
    ),
    (
        ParseError::Depth { token: 4 },
        "a.swift:2:1: error[M3]: nesting\n",
    ),
];

#[test]
fn parsing(rt: HostRuntime) -> Result<(), Fail> {
    for (error, want) in &PARSING {
        let line = line_of(rt.alloc(), &Refusal::Parse(*error, AT))?;
        assert_eq!(rt; line.as_slice(), want.as_bytes());
    }
    Ok(())
}

const LIMITS: [(LimitKind, u64, &str); 10] = [
    (
        LimitKind::Types,
        1_001,
        "a.swift:2:1: error[M4]: types: 1001\n",
    ),
    (
        LimitKind::Fields,
        257,
        "a.swift:2:1: error[M5]: fields or cases of a type: 257\n",
    ),
    (
        LimitKind::Bodies,
        4_001,
        "a.swift:2:1: error[M6]: bodies: 4001\n",
    ),
    (
        LimitKind::Parameters,
        33,
        "a.swift:2:1: error[M7]: parameters of a body, payloads of a case: 33\n",
    ),
    (
        LimitKind::TypeSlots,
        65,
        "a.swift:2:1: error[M8]: slots of a type: 65\n",
    ),
    (
        LimitKind::BodySlots,
        2_001,
        "a.swift:2:1: error[M9]: slots of a body: 2001\n",
    ),
    (
        LimitKind::BodyOps,
        20_001,
        "a.swift:2:1: error[M10]: ops of a body: 20001\n",
    ),
    (
        LimitKind::BodyLeaves,
        2_001,
        "a.swift:2:1: error[M11]: leaves of a body: 2001\n",
    ),
    (
        LimitKind::BodyMakers,
        4_097,
        "a.swift:2:1: error[M12]: makers of a body: 4097\n",
    ),
    (
        LimitKind::Ops,
        1_000_001,
        "a.swift:2:1: error[M13]: ops of all bodies: 1000001\n",
    ),
];

#[test]
fn limits(rt: HostRuntime) -> Result<(), Fail> {
    for (which, count, want) in &LIMITS {
        let refused = Refusal::Limit {
            which: *which,
            count: *count,
            at: at(AT),
        };
        let line = line_of(rt.alloc(), &refused)?;
        assert_eq!(rt; line.as_slice(), want.as_bytes());
    }
    Ok(())
}

const TYPES: [(u8, &str); 8] = [
    (1, "a.swift:2:1: error[T01]: unknown type\n"),
    (2, "a.swift:2:1: error[T02]: name declared twice\n"),
    (3, "a.swift:2:1: error[T03]: type contains itself\n"),
    (
        4,
        "a.swift:2:1: error[T04]: noncopyable part in a copyable type\n",
    ),
    (
        5,
        "a.swift:2:1: error[T05]: deinit or init is not allowed here\n",
    ),
    (6, "a.swift:2:1: error[T06]: parameter modifier\n"),
    (7, "a.swift:2:1: error[T07]: method modifier\n"),
    (8, "a.swift:2:1: error[T08]: reserved name or no main\n"),
];

const BODIES: [(u8, &str); 20] = [
    (10, "a.swift:2:1: error[T10]: unknown name\n"),
    (11, "a.swift:2:1: error[T11]: unknown member\n"),
    (12, "a.swift:2:1: error[T12]: type differs\n"),
    (13, "a.swift:2:1: error[T13]: arguments differ\n"),
    (14, "a.swift:2:1: error[T14]: literal out of range\n"),
    (15, "a.swift:2:1: error[T15]: operands\n"),
    (16, "a.swift:2:1: error[T16]: not a place\n"),
    (18, "a.swift:2:1: error[T18]: return value\n"),
    (19, "a.swift:2:1: error[T19]: jump outside a loop\n"),
    (21, "a.swift:2:1: error[T21]: pattern does not fit\n"),
    (22, "a.swift:2:1: error[T22]: discard is not allowed here\n"),
    (23, "a.swift:2:1: error[T23]: unused value\n"),
    (24, "a.swift:2:1: error[T24]: function as a value\n"),
    (25, "a.swift:2:1: error[T25]: no type or no value\n"),
    (26, "a.swift:2:1: error[T26]: whole self in init\n"),
    (27, "a.swift:2:1: error[T27]: part of a temporary\n"),
    (28, "a.swift:2:1: error[T28]: consume of a copyable part\n"),
    (29, "a.swift:2:1: error[T29]: print item\n"),
    (31, "a.swift:2:1: error[T31]: binding in several patterns\n"),
    (32, "a.swift:2:1: error[T32]: no value\n"),
];

/// The refusal of a judgement by its number.
fn false_judgement(code: u8) -> Refusal {
    Refusal::BadType { code, at: at(AT) }
}

#[test]
fn judgements_of_types(rt: HostRuntime) -> Result<(), Fail> {
    for (code, want) in &TYPES {
        let line = line_of(rt.alloc(), &false_judgement(*code))?;
        assert_eq!(rt; line.as_slice(), want.as_bytes());
    }
    Ok(())
}

#[test]
fn judgements_of_bodies(rt: HostRuntime) -> Result<(), Fail> {
    for (code, want) in &BODIES {
        let line = line_of(rt.alloc(), &false_judgement(*code))?;
        assert_eq!(rt; line.as_slice(), want.as_bytes());
    }
    Ok(())
}

#[test]
fn a_missing_form(rt: HostRuntime) -> Result<(), Fail> {
    let refused = Refusal::Uncovered {
        at: at(AT),
        form: Bytes::from_slice(rt.alloc(), b".some(.none, _)")?,
    };
    let line = line_of(rt.alloc(), &refused)?;
    assert_eq!(rt;
        line.as_slice(),
        b"a.swift:2:1: error[T20]: switch does not cover .some(.none, _)\n".as_slice()
    );
    Ok(())
}

/// A mark of the order of bytes, a line that ends with CR LF, one that ends with CR, with a tab, a letter
/// of two bytes and one of four, and one that ends with LF.
const PLACES: &str = "\u{feff}a\r\n\tb \u{e9}\u{1f600}c\r d\n";

/// Offsets with their lines and columns, past the end of the text too.
const OFFSETS: [(u32, &str); 15] = [
    (0, "a:1:1: error[S1]: syntax\n"),
    (3, "a:1:2: error[S1]: syntax\n"),
    (4, "a:1:3: error[S1]: syntax\n"),
    (5, "a:1:4: error[S1]: syntax\n"),
    (6, "a:2:1: error[S1]: syntax\n"),
    (7, "a:2:2: error[S1]: syntax\n"),
    (9, "a:2:4: error[S1]: syntax\n"),
    (11, "a:2:5: error[S1]: syntax\n"),
    (15, "a:2:6: error[S1]: syntax\n"),
    (16, "a:2:7: error[S1]: syntax\n"),
    (17, "a:3:1: error[S1]: syntax\n"),
    (18, "a:3:2: error[S1]: syntax\n"),
    (19, "a:3:3: error[S1]: syntax\n"),
    (20, "a:4:1: error[S1]: syntax\n"),
    (99, "a:4:1: error[S1]: syntax\n"),
];

#[test]
fn places(rt: HostRuntime) -> Result<(), Fail> {
    for (offset, want) in &OFFSETS {
        let refused = Refusal::Parse(ParseError::Syntax { token: 0 }, *offset);
        let line = refusal_text(rt.alloc(), "a", PLACES.as_bytes(), &refused)?;
        assert_eq!(rt; line.as_slice(), want.as_bytes());
    }
    Ok(())
}

#[test]
fn ends_of_texts(rt: HostRuntime) -> Result<(), Fail> {
    let refused = Refusal::Parse(ParseError::Syntax { token: 0 }, 2);
    let line = refusal_text(rt.alloc(), "a", b"ab", &refused)?;
    assert_eq!(rt; line.as_slice(), b"a:1:3: error[S1]: syntax\n".as_slice());
    let line = refusal_text(rt.alloc(), "a", b"", &refused)?;
    assert_eq!(rt; line.as_slice(), b"a:1:1: error[S1]: syntax\n".as_slice());
    Ok(())
}
