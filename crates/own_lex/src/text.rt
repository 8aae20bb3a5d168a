//! Texts and their escapes.
ghost use Rattle.std.specs.Prelude.{◌≡◌, ◌≤◌, ◌<◌, [], Ok, IfOk, IfSome, option_map, string_bytes};
ghost use Rattle.own_tree.specs.Characters.{bytes_of};
ghost use Rattle.own_tree.specs.Tokens as rules;
ghost use Rattle.own_lex.specs.Reading as spec;

use crate::comment::is_at_line_end;
use crate::fault::Fault;
use crate::rest::Rest;
use own_tree::{Kind, Row};
use std::alloc::Global;

/// The most digits of an escape `\u{H}`.
const MOST_DIGITS: u32 = 8;

fn digit_at(text: Rest) -> Option<u32>
    ensures value { result ≡ spec.digit_at text.entry.chars.now }
    ensures small { IfSome result (λ d. d < 16) }
{
    text.first()?.to_digit(16)
}

/// The value of at most eight hexadecimal digits, and what follows.
#[tactic(auto, using(crate::proofs::Steps::hexadecimal_goes, crate::proofs::Steps::hexadecimal_stops, crate::proofs::Steps::hexadecimal_over, crate::proofs::Steps::digits_fit, crate::proofs::Steps::digits_small))]
fn hexadecimal(text: Rest) -> (u32, Rest)
    ensures value { (result.0, result.1.chars.now) ≡ rules.hexadecimal 8 0 text.entry.chars.now }
    ensures within { result.1.left ≤ text.entry.left }
{
    let mut value = 0;
    let mut rest = text;
    for count in 0..MOST_DIGITS {
        let Some(digit) = digit_at(rest) else {
            return (value, rest);
        };
        value = value * 16 + digit;
        rest = rest.after();
    }
    (value, rest)
}

fn closed_scalar(value: u32, text: Rest) -> Option<(char, Rest)>
    ensures value { option_map (λ x. (x.0, x.1.chars.now)) result ≡ rules.closed_scalar (value, text.entry.chars.now) }
    ensures within { IfSome result (λ x. x.1.left ≤ text.entry.left) }
{
    if !text.begins("}") {
        return None;
    }
    let c = char::from_u32(value)?;
    Some((c, text.after()))
}

/// The character that `{H}` names, and what follows.
fn braced_scalar(text: Rest) -> Option<(char, Rest)>
    ensures value { option_map (λ x. (x.0, x.1.chars.now)) result ≡ rules.braced_scalar text.entry.chars.now }
    ensures within { IfSome result (λ x. x.1.left ≤ text.entry.left) }
{
    if !text.begins("{") || digit_at(text.after()).is_none() {
        return None;
    }
    let (value, rest) = hexadecimal(text.after());
    closed_scalar(value, rest)
}

fn escaped(c: char) -> Option<char>
    ensures { result ≡ rules.escaped c }
{
    match c {
        'n' => Some('\n'),
        't' => Some('\t'),
        'r' => Some('\r'),
        '0' => Some('\0'),
        '\\' | '"' | '\'' => Some(c),
        _ => None,
    }
}

fn simple_escape(text: Rest) -> Option<(char, Rest)>
    ensures value { option_map (λ x. (x.0, x.1.chars.now)) result ≡ rules.simple_escape text.entry.chars.now }
    ensures within { IfSome result (λ x. x.1.left ≤ text.entry.left) }
{
    let c = escaped(text.first()?)?;
    Some((c, text.after()))
}

/// The character that the escape stands for whose backslash was just read, and what follows.
fn escape(text: Rest) -> Option<(char, Rest)>
    ensures value { option_map (λ x. (x.0, x.1.chars.now)) result ≡ rules.escape text.entry.chars.now }
    ensures within { IfSome result (λ x. x.1.left ≤ text.entry.left) }
{
    if text.begins("u") {
        braced_scalar(text.after())
    } else {
        simple_escape(text)
    }
}

fn ends_line(text: Rest) -> bool
    ensures { result ≡ rules.ends_line text.entry.chars.now }
{
    text.is_over() || is_at_line_end(text)
}

/// The next character of the text whose first quote has `start` bytes left, and what follows.
#[tactic(auto, unfolding(crate::specs::Reading::character_at))]
fn character_at(start: u32, text: Rest) -> Result<(char, Rest), Fault>
    ensures gives { spec.Gives (λ x. (x.0, x.1.chars.now)) result (spec.character_at start text.entry.chars.now) }
    ensures shorter { IfOk result (λ x. x.1.left < text.entry.left) }
{
    let Some(c) = text.first() else {
        return Err(Fault::OpenText(start));
    };
    if is_at_line_end(text) {
        return Err(Fault::OpenText(start));
    }
    let rest = text.after();
    if c != '\\' {
        return Ok((c, rest));
    }
    if ends_line(rest) {
        return Err(Fault::OpenText(start));
    }
    match escape(rest) {
        Some(x) => Ok(x),
        None => Err(Fault::BadChar(text.left)),
    }
}

/// The text from after its first quote to its last one, and what follows.
#[tactic(auto, using(crate::proofs::Texts::text_is))]
fn text_on(alloc: Global, start: u32, text: Rest) -> Result<(String, Rest), Fault>
    ensures gives { spec.Gives (λ x. (string_bytes x.0, x.1.chars.now)) result (spec.text_on start [] text.entry.chars.now) }
    ensures within { IfOk result (λ x. x.1.left ≤ text.entry.left) }
{
    let mut value = String::new(alloc);
    let mut rest = text;
    while !rest.begins("\"") {
        let (c, others) = character_at(start, rest)?;
        value.push(c)?;
        rest = others;
    }
    Ok((value, rest.after()))
}

/// The text at the front, and what follows.
#[tactic(auto, unfolding(crate::specs::Reading::text_at))]
pub(crate) fn text_at(alloc: Global, text: Rest) -> Result<(Kind, Rest), Fault>
    ensures gives { spec.Gives (λ x. (x.0, x.1.chars.now)) result (spec.text_at text.entry.chars.now) }
    ensures within { IfOk result (λ x. x.1.left ≤ text.entry.left) }
{
    let (value, rest) = text_on(alloc, text.left, text.after())?;
    Ok((Kind::Text(Row::from_vec(value.into_bytes())), rest))
}
