//! The lines of refusals.

ghost use Rattle.std.specs.Prelude.{◌≡◌, ◌<◌, IfOk, length, string_bytes};
ghost use Rattle.own_report.specs.Limits.{limit_said};
ghost use Rattle.own_report.specs.Lines.{said_as};
ghost use Rattle.own_report.specs.Refusals.{bytes_line, count_text, form_text, lex_line, parse_line, refusal_line, said_at, said_line, said_line_of};
ghost use Rattle.own_report.specs.Typing.{typing_said};

use crate::diagnostic::Diagnostic;
use crate::lexing::{BAD_CHAR, NOT_UTF8, OPEN_COMMENT, OPEN_TEXT, SYNTAX, WIDE_NUMBER};
use crate::limits::limit_diagnostic;
use crate::line::{head, push_number};
use crate::place::LineColumn;
use crate::places::place_of_front;
use crate::typing::typing_diagnostic;
use own_tree::{Bytes, LexError, LimitKind, ParseError, Refusal, Row};
use std::alloc::{AllocError, Global};

/// The number of the judgement that a `switch` covers its subject.
const COVERS: u8 = 20;

/// The line of what is said of a place.
fn said_line(
    alloc: Global,
    file: &str,
    place: LineColumn,
    said: &Diagnostic,
) -> Result<String, AllocError>
    ensures { IfOk result (λ line. string_bytes line
        ≡ said_line file.now place (said_as said.now.code.now said.now.text.now)) }
{
    let Diagnostic { code, text } = *said;
    format!(in alloc; "{file}:{place}: error[{code}]: {text}\n")
}

/// The line of what is said of an offset of a text.
fn said_at(
    alloc: Global,
    file: &str,
    text: &[u8],
    at: u32,
    said: &Diagnostic,
) -> Result<String, AllocError>
    ensures { length text.now < 4294967295 → IfOk result (λ line. string_bytes line
        ≡ said_at file.now text.now at (said_as said.now.code.now said.now.text.now)) }
{
    said_line(alloc, file, place_of_front(text, at), said)
}

fn bytes_line(alloc: Global, file: &str, count: usize) -> Result<String, AllocError>
    ensures { IfOk result (λ line. string_bytes line ≡ bytes_line file.now count) }
{
    let mut line = format!(in alloc; "{file}: error[M1]: text bytes: ")?;
    push_number(alloc, &mut line, count as u64)?;
    line.push_str("\n")?;
    Ok(line)
}

fn lex_line(alloc: Global, file: &str, text: &[u8], error: LexError) -> Result<String, AllocError>
    ensures { length text.now < 4294967295 → IfOk result (λ line. string_bytes line ≡ lex_line file.now text.now error) }
{
    match error {
        LexError::TooLong { bytes } => bytes_line(alloc, file, bytes),
        LexError::NotUtf8 { at } => said_at(alloc, file, text, at, &NOT_UTF8),
        LexError::BadChar { at } => said_at(alloc, file, text, at, &BAD_CHAR),
        LexError::OpenComment { at } => said_at(alloc, file, text, at, &OPEN_COMMENT),
        LexError::OpenText { at } => said_at(alloc, file, text, at, &OPEN_TEXT),
        LexError::WideNumber { at } => said_at(alloc, file, text, at, &WIDE_NUMBER),
        LexError::TooManyTokens { at } => {
            said_at(alloc, file, text, at, &limit_diagnostic(LimitKind::Tokens))
        }
        LexError::Memory => Err(AllocError),
    }
}

fn parse_line(
    alloc: Global,
    file: &str,
    text: &[u8],
    error: ParseError,
    at: u32,
) -> Result<String, AllocError>
    ensures { length text.now < 4294967295 → IfOk result (λ line. string_bytes line ≡ parse_line file.now text.now at error) }
{
    match error {
        ParseError::Syntax { .. } => said_at(alloc, file, text, at, &SYNTAX),
        ParseError::Depth { .. } => {
            said_at(alloc, file, text, at, &limit_diagnostic(LimitKind::Nesting))
        }
        ParseError::Memory => Err(AllocError),
    }
}

fn limit_line(
    alloc: Global,
    file: &str,
    place: LineColumn,
    which: LimitKind,
    count: u64,
) -> Result<String, AllocError>
    ensures { IfOk result (λ line. string_bytes line
        ≡ said_line_of file.now place (limit_said which) (count_text count)) }
{
    let Diagnostic { code, text } = limit_diagnostic(which);
    let mut line = head(alloc, file, place, code)?;
    line.push_str(text)?;
    line.push_str(": ")?;
    push_number(alloc, &mut line, count)?;
    line.push_str("\n")?;
    Ok(line)
}

fn uncovered_line(
    alloc: Global,
    file: &str,
    place: LineColumn,
    form: &[u8],
) -> Result<Bytes, AllocError>
    ensures { IfOk result (λ line. line ≡ said_line_of file.now place (typing_said 20) (form_text form.now)) }
{
    let Diagnostic { code, text } = typing_diagnostic(COVERS);
    let mut line = head(alloc, file, place, code)?.into_bytes();
    line.extend_from_slice(text.as_bytes())?;
    line.extend_from_slice(b" ")?;
    line.extend_from_slice(form)?;
    line.extend_from_slice(b"\n")?;
    Ok(Row::from_vec(line))
}

/// The bytes of a line.
fn as_bytes(line: String) -> Bytes
    ensures { result ≡ string_bytes line }
{
    Row::from_vec(line.into_bytes())
}

/// The line of a refusal of a text, which is `FILE:L:C: error[CODE]: TEXT` and a newline. Line and column
/// are those of its offset, from 1; M1 has none. A limit is told with its count, M2 and M3 without. The
/// text is the one that was refused; of one of 4,294,967,295 bytes and more only M1 is told rightly, since
/// no line and no column is counted past them.
pub fn refusal_text(
    alloc: Global,
    file: &str,
    text: &[u8],
    refused: &Refusal,
) -> Result<Bytes, AllocError>
    ensures { length text.now < 4294967295 → IfOk result (λ line. line ≡ refusal_line file.now text.now refused.now) }
{
    match refused {
        Refusal::Lex(error) => Ok(as_bytes(lex_line(alloc, file, text, *error)?)),
        Refusal::Parse(error, at) => Ok(as_bytes(parse_line(alloc, file, text, *error, *at)?)),
        Refusal::BadType { code, at } => {
            let said = typing_diagnostic(*code);
            Ok(as_bytes(said_at(alloc, file, text, at.start, &said)?))
        }
        Refusal::Uncovered { at, form } => {
            uncovered_line(alloc, file, place_of_front(text, at.start), form.as_slice())
        }
        Refusal::Limit { which, count, at } => {
            let place = place_of_front(text, at.start);
            Ok(as_bytes(limit_line(alloc, file, place, *which, *count)?))
        }
    }
}
