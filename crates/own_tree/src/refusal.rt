use crate::error::{LexError, ParseError};
use crate::row::Bytes;
use crate::span::Span;

/// A named limit of the language, M1 to M13.
#[derive(Clone, Copy, Debug, PartialEq, Eq)]
pub enum LimitKind {
    /// M1, `MOST_TEXT_BYTES`.
    TextBytes,
    /// M2, `MOST_TOKENS`.
    Tokens,
    /// M3, `MOST_NESTING`.
    Nesting,
    /// M4, `MOST_TYPES`.
    Types,
    /// M5, `MOST_FIELDS`.
    Fields,
    /// M6, `MOST_BODIES`.
    Bodies,
    /// M7, `MOST_PARAMETERS`.
    Parameters,
    /// M8, `MOST_TYPE_SLOTS`.
    TypeSlots,
    /// M9, `MOST_BODY_SLOTS`.
    BodySlots,
    /// M10, `MOST_BODY_OPS`.
    BodyOps,
    /// M11, `MOST_BODY_LEAVES`.
    BodyLeaves,
    /// M12, `MOST_BODY_MAKERS`.
    BodyMakers,
    /// M13, `MOST_OPS`.
    Ops,
}

/// Why a text is refused before its findings. No want of memory is held in it.
#[derive(Debug, Drop)]
pub enum Refusal {
    Lex(LexError),
    /// With the offset of the token that is named, or the length of the text.
    Parse(ParseError, u32),
    /// A judgement of the typing, T01 to T32 by its number, that is false at a node.
    BadType {
        code: u8,
        at: Span,
    },
    /// A `switch` that does not cover a form of its subject, which is printed.
    Uncovered {
        at: Span,
        form: Bytes,
    },
    /// A limit with the count that passes it.
    Limit {
        which: LimitKind,
        count: u64,
        at: Span,
    },
}
