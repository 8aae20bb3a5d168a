//! Laws of the definitions. Each function does nothing; its contract is the law.

ghost use Rattle.own_judged.specs.Laws.{FaultIsOne, FindsTyping, NeverBoth, TypedOrRefused, TypingIsOne};

/// A text has one typing at most.
pub fn typing_is_one()
    ensures { TypingIsOne }
{}

/// One judgement at most is false of a text where all that come before it hold.
pub fn fault_is_one()
    ensures { FaultIsOne }
{}

/// A text has a typing, or a judgement is false of it.
pub fn typed_or_refused()
    ensures { TypedOrRefused }
{}

/// No judgement is false of a text that has a typing.
pub fn never_both()
    ensures { NeverBoth }
{}

/// A function finds the typing of each text that has one, and the judgement that is false of each other.
pub fn finds_typing()
    ensures { FindsTyping }
{}
