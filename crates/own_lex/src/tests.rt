use super::*;
use own_tree::{Kind, Token};
use std::alloc::AllocError;
use std::fmt::Write;
use std::test::Fail;

/// The kind, in a short form.
fn put_kind(out: &mut String, kind: &Kind) -> Result<(), AllocError> {
    match kind {
        Kind::Name(name) => put_bytes(out, name.as_slice()),
        Kind::Word(word) => write!(out, "{word:?}"),
        Kind::Number(number) => write!(out, "{number}"),
        Kind::Text(text) => {
            out.push('"')?;
            put_bytes(out, text.as_slice())?;
            out.push('"')
        }
        Kind::Mark(mark) => write!(out, "{mark:?}"),
    }
}

fn put_bytes(out: &mut String, bytes: &[u8]) -> Result<(), AllocError> {
    match str::from_utf8(bytes) {
        Ok(text) => out.push_str(text),
        Err(_) => out.push_str("not UTF-8"),
    }
}

/// A token with its span: `|` where a line ends before it, and `.` on the sides that have space.
fn put_token(out: &mut String, token: &Token) -> Result<(), AllocError> {
    if token.line_before {
        out.push('|')?;
    }
    if token.space_before {
        out.push('.')?;
    }
    put_kind(out, &token.kind)?;
    if token.space_after {
        out.push('.')?;
    }
    let start = token.span.start;
    let end = token.span.end;
    write!(out, " {start}-{end} ")
}

/// The tokens of the text, or why it has none.
fn shown(alloc: Global, text: &[u8]) -> Result<String, AllocError> {
    let mut out = String::new(alloc);
    match lex(alloc, text) {
        Ok(tokens) => {
            for token in tokens.as_slice() {
                put_token(&mut out, token)?;
            }
        }
        Err(error) => write!(out, "{error:?}")?,
    }
    Ok(out)
}

const ROWS: [(&[u8], &str); 52] = [
    (b"", ""),
    // Names and words.
    (
        b"func a_1 _ _b",
        ".Func. 0-4 .a_1. 5-8 .Underscore. 9-10 ._b. 11-13 ",
    ),
    (
        b"copy class Self self",
        ".Copy. 0-4 .Class. 5-10 .SelfType. 11-15 .SelfValue. 16-20 ",
    ),
    (b"\xc3\xa9 e\xcc\x81", ".é. 0-2 .e\u{301}. 3-6 "),
    (b"a \xcc\x81", "BadChar { at: 2 }"),
    // Marks, the longest one first, and their flags.
    (
        b"( ) { } , : ; . -> = == != < <= > >= + - * / % &+ &- &* && || ! ? ..< ... += -= *= /= %= & ~ _",
        ".OpenParen. 0-1 .CloseParen. 2-3 .OpenBrace. 4-5 .CloseBrace. 6-7 .Comma. 8-9 .Colon. 10-11 .Semicolon. 12-13 .Dot. 14-15 .Arrow. 16-18 .Assign. 19-20 .Equal. 21-23 .NotEqual. 24-26 .Less. 27-28 .LessEqual. 29-31 .Greater. 32-33 .GreaterEqual. 34-36 .Plus. 37-38 .Minus. 39-40 .Star. 41-42 .Slash. 43-44 .Percent. 45-46 .WrappingPlus. 47-49 .WrappingMinus. 50-52 .WrappingStar. 53-55 .And. 56-58 .Or. 59-61 .Not. 62-63 .Question. 64-65 .HalfOpenRange. 66-69 .ClosedRange. 70-73 .PlusAssign. 74-76 .MinusAssign. 77-79 .StarAssign. 80-82 .SlashAssign. 83-85 .PercentAssign. 86-88 .Ampersand. 89-90 .Tilde. 91-92 .Underscore. 93-94 ",
    ),
    (b"a-b", ".a 0-1 Minus 1-2 b. 2-3 "),
    (b"a -b", ".a. 0-1 .Minus 2-3 b. 3-4 "),
    (b"a - b", ".a. 0-1 .Minus. 2-3 .b. 4-5 "),
    (b"!!a", ".Not 0-1 Not 1-2 a. 2-3 "),
    (b"x = -1", ".x. 0-1 .Assign. 2-3 .Minus 4-5 1. 5-6 "),
    (b"a..<b", ".a 0-1 HalfOpenRange 1-4 b. 4-5 "),
    (b"1...n", ".1 0-1 ClosedRange 1-4 n. 4-5 "),
    (b"&x", ".Ampersand 0-1 x. 1-2 "),
    (b"a&+b", ".a 0-1 WrappingPlus 1-3 b. 3-4 "),
    (
        b"f()->T",
        ".f 0-1 OpenParen. 1-2 .CloseParen 2-3 Arrow 3-5 T. 5-6 ",
    ),
    (
        b"{a:b;c,d}",
        ".OpenBrace 0-1 .a. 1-2 Colon 2-3 .b. 3-4 Semicolon 4-5 .c. 5-6 Comma 6-7 .d. 7-8 CloseBrace. 8-9 ",
    ),
    (b"a|b", "BadChar { at: 1 }"),
    (b"a@", "BadChar { at: 1 }"),
    (b"@", "BadChar { at: 0 }"),
    // Numbers.
    (
        b"1_000_ 0x1F_ 0o17 0b1_0 0xaF",
        ".1000. 0-6 .31. 7-12 .15. 13-17 .2. 18-23 .175. 24-28 ",
    ),
    (b"1.5", ".1 0-1 Dot 1-2 5. 2-3 "),
    (b"0x_1", "BadChar { at: 1 }"),
    (b"0x", "BadChar { at: 1 }"),
    (b"0X1", "BadChar { at: 1 }"),
    (b"0b2", "BadChar { at: 1 }"),
    (b" 12a", "BadChar { at: 3 }"),
    (b"9223372036854775808", ".9223372036854775808. 0-19 "),
    (b"9223372036854775809", "WideNumber { at: 0 }"),
    (b"99999999999999999999x", "WideNumber { at: 0 }"),
    (b" 0xfffffffffffffffffx", "WideNumber { at: 1 }"),
    // Texts.
    (
        b"\"a\"b \"\\n\\t\\r\\0\\\\\\\"\\'\\u{41}\\u{0001F600}\"",
        ".\"a\" 0-3 b. 3-4 .\"\n\t\r\0\\\"'A😀\". 5-39 ",
    ),
    (b"\"", "OpenText { at: 0 }"),
    (b"a \"", "OpenText { at: 2 }"),
    (b"\"a\\", "OpenText { at: 0 }"),
    (b" \"a\n\"", "OpenText { at: 1 }"),
    (b"\"a\\\r\"", "OpenText { at: 0 }"),
    (b"\"a\\q", "BadChar { at: 2 }"),
    (b"\"\\u{110000}\"", "BadChar { at: 1 }"),
    (b"\"\\u{D800}\"", "BadChar { at: 1 }"),
    (b"\"\\u{000000041}\"", "BadChar { at: 1 }"),
    (b"\"\\u{}\"", "BadChar { at: 1 }"),
    // White space and comments.
    (b"a/* \n */b", ".a. 0-1 |.b. 8-9 "),
    (b"/* /* */ */a/", ".a 11-12 Slash. 12-13 "),
    (b"a// x\rb", ".a. 0-1 |.b. 6-7 "),
    (b"a\r\nb\tc", ".a. 0-1 |.b. 3-4 .c. 5-6 "),
    (b"\na /*", "OpenComment { at: 3 }"),
    (b" /* /* */", "OpenComment { at: 1 }"),
    (b"\xef\xbb\xbfa", ".a. 3-4 "),
    (b"a\xef\xbb\xbf", "BadChar { at: 1 }"),
    // UTF-8 is tested before the scan.
    (b"a\xff", "NotUtf8 { at: 1 }"),
    (b"@\xe2\x82", "NotUtf8 { at: 1 }"),
];

#[test]
fn texts_have_these_tokens(rt: HostRuntime) -> Result<(), Fail> {
    for row in &ROWS {
        let shown = shown(rt.alloc(), row.0)?;
        assert_eq!(rt; shown.as_str(), row.1);
    }
    Ok(())
}

fn repeated(alloc: Global, byte: u8, count: usize) -> Result<Vec<u8>, AllocError> {
    let mut bytes = Vec::new(alloc);
    bytes.resize(count, byte)?;
    Ok(bytes)
}

#[test]
fn texts_and_tokens_have_a_limit(rt: HostRuntime) -> Result<(), Fail> {
    let spaces = repeated(rt.alloc(), b' ', MOST_TEXT_BYTES)?;
    let marks = repeated(rt.alloc(), b';', 200_000)?;
    assert_eq!(rt; lex(rt.alloc(), spaces.as_slice())?.len(), 0);
    assert_eq!(rt; lex(rt.alloc(), marks.as_slice())?.len(), 200_000);
    let spaces = repeated(rt.alloc(), b' ', MOST_TEXT_BYTES + 1)?;
    let marks = repeated(rt.alloc(), b';', 200_001)?;
    assert_eq!(rt;
        shown(rt.alloc(), spaces.as_slice())?.as_str(),
        "TooLong { bytes: 1048577 }"
    );
    assert_eq!(rt;
        shown(rt.alloc(), marks.as_slice())?.as_str(),
        "TooManyTokens { at: 200000 }"
    );
    Ok(())
}
