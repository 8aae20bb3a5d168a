ghost use Rattle.std.specs.Prelude.{◌≡◌};
ghost use Rattle.own_tree.specs.declared.error.LexError.TheVariants as lex_error;
ghost use Rattle.own_tree.specs.declared.error.ParseError.TheVariants as parse_error;

use std::alloc::{AllocError, AllocFailed};
use thiserror::Error;

/// Why a text has no tokens. The length is tested first, then UTF-8 over the whole text, and then
/// the text is read from left to right up to the first fault. Each `at` is in bytes from 0.
#[derive(Clone, Copy, Debug, PartialEq, Eq, Error)]
pub enum LexError {
    /// The text has more than 1,048,576 bytes.
    #[error("the text has {bytes} bytes")]
    TooLong { bytes: usize },
    /// The bytes before `at` are the longest front of the text that is UTF-8.
    #[error("the text is not UTF-8 at byte {at}")]
    NotUtf8 { at: u32 },
    /// A character that begins no token, or that may not stand right after a number; or the
    /// backslash of a wrong escape.
    #[error("unexpected character at byte {at}")]
    BadChar { at: u32 },
    /// The outermost `/*` of a comment that does not end.
    #[error("the comment at byte {at} is not closed")]
    OpenComment { at: u32 },
    /// The first quote of a text that does not end on its line.
    #[error("the text at byte {at} is not closed")]
    OpenText { at: u32 },
    /// The first byte of a number above 2^63.
    #[error("the number at byte {at} is too wide")]
    WideNumber { at: u32 },
    /// The 200,001st token.
    #[error("the token at byte {at} is one too many")]
    TooManyTokens { at: u32 },
    /// Memory was refused.
    #[error("out of memory")]
    Memory,
}

impl From<AllocError> for LexError {
    ghost from_gives = { λ _ e. e ≡ lex_error.Memory };

    fn from(_error: AllocError) -> LexError {
        LexError::Memory
    }
}

impl<T: Drop> From<AllocFailed<T>> for LexError {
    ghost from_gives = { λ _ e. e ≡ lex_error.Memory };

    fn from(_error: AllocFailed<T>) -> LexError {
        LexError::Memory
    }
}

/// Why tokens have no tree. Each `token` is a number of a token from 0, or the number of all tokens.
#[derive(Clone, Copy, Debug, PartialEq, Eq, Error)]
pub enum ParseError {
    /// No tree spells the tokens.
    #[error("syntax at token {token}")]
    Syntax { token: u32 },
    /// The tokens before it stand in a 101st level of nesting.
    #[error("nesting too deep at token {token}")]
    Depth { token: u32 },
    /// Memory was refused.
    #[error("out of memory")]
    Memory,
}

impl From<AllocError> for ParseError {
    ghost from_gives = { λ _ e. e ≡ parse_error.Memory };

    fn from(_error: AllocError) -> ParseError {
        ParseError::Memory
    }
}

impl<T: Drop> From<AllocFailed<T>> for ParseError {
    ghost from_gives = { λ _ e. e ≡ parse_error.Memory };

    fn from(_error: AllocFailed<T>) -> ParseError {
        ParseError::Memory
    }
}
