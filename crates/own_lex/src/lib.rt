//! Tokens from the bytes of a text.
#![tactic(auto)]

ghost use Rattle.std.specs.Prelude.{◌≡◌, ◌≤◌, IfOk, IfErr, Ok, Err, List, true, false, length, chars};
ghost use Rattle.std.specs.Str.{is_utf8};
ghost use Rattle.std.specs.Str.Lossy.{utf8_valid_len};
ghost use Rattle.own_tree.specs.Characters.{bytes_of};
ghost use Rattle.own_tree.specs.Tokens.{Tokens, after_mark};
ghost use Rattle.own_lex.specs.Lexed.{Gives, lexed, lexed_chars};
ghost use Rattle.own_lex.specs.Refusals.{HasTokens, MayRefuse, Refuses};

mod character;
mod comment;
mod fault;
mod mark;
mod number;
mod rest;
mod scan;
#[cfg(test)]
mod tests;
mod text;
mod word;

pub use own_tree::LexError;
use own_tree::limits::MOST_TEXT_BYTES;
use own_tree::{Row, Token};
use rest::Rest;
use std::alloc::{AllocError, Global};

/// What is left after a byte order mark.
fn after_mark(text: Rest) -> Rest
    ensures value { result.chars.now ≡ after_mark text.entry.chars.now }
    ensures within { result.left ≤ text.entry.left }
{
    if text.first() == Some('\u{FEFF}') {
        text.after()
    } else {
        text
    }
}

/// The tokens of the characters of a text, which take so many bytes.
fn tokens_of(alloc: Global, chars: &[char], bytes: u32) -> Result<Row<Token>, LexError>
    requires { bytes ≡ bytes_of chars.now }
    ensures { Gives result (lexed_chars bytes chars.now) }
{
    let text = Rest { chars, left: bytes };
    match scan::tokens(alloc, bytes, after_mark(text)) {
        Ok(tokens) => Ok(tokens),
        Err(fault) => Err(fault.placed(bytes)),
    }
}

fn decoded(text: &[u8]) -> Result<&str, LexError>
    requires { length text.now ≤ MOST_TEXT_BYTES }
    ensures ok { IfOk result (λ s. (s.now ≡ text.now) × (is_utf8 text.now ≡ true)) }
    ensures err { IfErr result (λ e. (is_utf8 text.now ≡ false) × (e ≡ LexError.NotUtf8 (utf8_valid_len text.now))) }
{
    match str::from_utf8(text) {
        Ok(text) => Ok(text),
        Err(error) => Err(LexError::NotUtf8 {
            at: error.valid_up_to() as u32,
        }),
    }
}

fn chars_of(alloc: Global, text: &str) -> Result<Vec<char>, AllocError>
    ensures { IfOk result (λ v. v.items ≡ chars text.now) }
{
    text.chars().collect(alloc)
}

/// What `lex` answers, as a function of the text.
#[tactic(auto, using(crate::proofs::Left::bytes_of_chars))]
fn read(alloc: Global, text: &[u8]) -> Result<Row<Token>, LexError>
    ensures { Gives result (lexed text.now) }
{
    if text.len() > MOST_TEXT_BYTES {
        return Err(LexError::TooLong { bytes: text.len() });
    }
    let text = decoded(text)?;
    let chars = chars_of(alloc, text)?;
    tokens_of(alloc, chars.as_slice(), text.len() as u32)
}

/// The tokens of a text of at most 1,048,576 bytes that has at most 200,000 of them, in order. It
/// takes time in proportion to the length of the text, and holds no more than the tokens, their
/// text and four bytes for each character.
pub fn lex(alloc: Global, text: &[u8]) -> Result<Row<Token>, LexError>
    ensures found { IfOk result (HasTokens text.now) }
    ensures only { (tokens : List Token) → HasTokens text.now tokens → Gives result (Ok tokens) }

    // A text has one list of tokens at most.
    ensures one { (tokens others : List Token) → Tokens text.now tokens → Tokens text.now others → tokens ≡ others }

    ensures refused { IfErr result (MayRefuse text.now) }
    ensures refuses { (e : LexError) → Refuses text.now e → Gives result (Err e) }
{
    read(alloc, text)
}
