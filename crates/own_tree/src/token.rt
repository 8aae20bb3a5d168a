use crate::row::Bytes;
use crate::span::Span;

/// A token of a text, with the three flags that the operator and line-end rules read.
#[derive(Debug, Drop)]
pub struct Token {
    pub kind: Kind,
    /// The bytes of the token itself, without white space round it.
    pub span: Span,
    /// White space, a comment, the start of the text or one of `( { , ; :` stands right before it.
    pub space_before: bool,
    /// White space, a comment, the end of the text or one of `) } , ; :` stands right after it.
    pub space_after: bool,
    /// A line ends between the token before and this one, inside a comment included.
    pub line_before: bool,
}

/// What a token is.
#[derive(Debug, Drop)]
pub enum Kind {
    /// An identifier, in UTF-8 and as it was written: names are not normalised.
    Name(Bytes),
    Word(Word),
    /// The value of a number, at most 2^63. Only after a prefix minus can 2^63 itself be used.
    Number(u64),
    /// The text between the quotes, in UTF-8 and with its escapes replaced.
    Text(Bytes),
    Mark(Mark),
}

/// A reserved word. Many are reserved in Swift alone, and no production uses them.
#[derive(Clone, Copy, Debug, PartialEq, Eq)]
pub enum Word {
    Func,
    Struct,
    Enum,
    Case,
    Let,
    Var,
    Init,
    Deinit,
    If,
    Else,
    While,
    Repeat,
    For,
    In,
    Switch,
    Where,
    Default,
    Return,
    Break,
    Continue,
    True,
    False,
    /// `self`
    SelfValue,
    Consume,
    Borrowing,
    Consuming,
    Mutating,
    Inout,
    Discard,
    Copy,
    Class,
    Protocol,
    Extension,
    Import,
    Guard,
    Defer,
    Throw,
    Throws,
    Try,
    As,
    Is,
    Nil,
    Static,
    Subscript,
    Typealias,
    Do,
    Catch,
    Fallthrough,
    Super,
    /// `Self`
    SelfType,
    Any,
    Public,
    Private,
    Fileprivate,
    Internal,
    Rethrows,
    Associatedtype,
    Operator,
}

/// A punctuation mark or an operator.
#[derive(Clone, Copy, Debug, PartialEq, Eq)]
pub enum Mark {
    /// `(`
    OpenParen,
    /// `)`
    CloseParen,
    /// `{`
    OpenBrace,
    /// `}`
    CloseBrace,
    /// `,`
    Comma,
    /// `:`
    Colon,
    /// `;`
    Semicolon,
    /// `.`
    Dot,
    /// `->`
    Arrow,
    /// `=`
    Assign,
    /// `==`
    Equal,
    /// `!=`
    NotEqual,
    /// `<`
    Less,
    /// `<=`
    LessEqual,
    /// `>`
    Greater,
    /// `>=`
    GreaterEqual,
    /// `+`
    Plus,
    /// `-`
    Minus,
    /// `*`
    Star,
    /// `/`
    Slash,
    /// `%`
    Percent,
    /// `&+`
    WrappingPlus,
    /// `&-`
    WrappingMinus,
    /// `&*`
    WrappingStar,
    /// `&&`
    And,
    /// `||`
    Or,
    /// `!`
    Not,
    /// `?`
    Question,
    /// `..<`
    HalfOpenRange,
    /// `...`
    ClosedRange,
    /// `+=`
    PlusAssign,
    /// `-=`
    MinusAssign,
    /// `*=`
    StarAssign,
    /// `/=`
    SlashAssign,
    /// `%=`
    PercentAssign,
    /// `&`
    Ampersand,
    /// `~`
    Tilde,
    /// `_`
    Underscore,
}
