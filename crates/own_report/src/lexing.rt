//! What is said of a text that has no tokens or no tree.

use crate::diagnostic::Diagnostic;

pub(crate) const NOT_UTF8: Diagnostic = Diagnostic {
    code: "X1",
    text: "not UTF-8",
};

pub(crate) const BAD_CHAR: Diagnostic = Diagnostic {
    code: "X2",
    text: "unexpected character",
};

pub(crate) const OPEN_COMMENT: Diagnostic = Diagnostic {
    code: "X3",
    text: "comment is not closed",
};

pub(crate) const OPEN_TEXT: Diagnostic = Diagnostic {
    code: "X4",
    text: "text is not closed",
};

pub(crate) const WIDE_NUMBER: Diagnostic = Diagnostic {
    code: "X5",
    text: "number is too wide",
};

pub(crate) const SYNTAX: Diagnostic = Diagnostic {
    code: "S1",
    text: "syntax",
};
