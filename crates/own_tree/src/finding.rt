use crate::place::Place;
use crate::span::Span;

/// A rule of ownership (SE-0366, SE-0377, SE-0390, SE-0429, SE-0432). A path rule is broken at an op
/// that some path reaches in a state, a fixed one by the op itself.
#[derive(Clone, Copy, Debug, PartialEq, Eq)]
pub enum Rule {
    /// A use after a consume.
    O1,
    /// A use before there is a value.
    O2,
    /// A return with an `inout` parameter or a mutating `self` that has no value.
    O3,
    /// The end of a `self` that is neither discarded nor consumed, beside a `discard self`.
    O4,
    /// A return of `init` with a part of `self` without a value.
    O5,
    /// A second assignment to a `let` property in `init`.
    O6,
    /// A consume of what is borrowed or captured.
    O7,
    /// A consume out of a value whose type has a `deinit`.
    O8,
    /// A change of what cannot change.
    O9,
    /// A conflict of accesses within one call.
    O10,
    /// A change of the subject that a `switch` borrows.
    O11,
    /// The end of a body with a result that is reached without a return.
    F1,
}

/// A place where a rule is broken.
#[derive(Debug, Drop)]
pub struct Finding {
    pub rule: Rule,
    /// The op, the return or the brace that breaks it.
    pub span: Span,
    pub place: Place,
    /// The op or declaration that is the reason: of a path rule the one of least position.
    pub cause: Span,
}
