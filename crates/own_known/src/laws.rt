//! Laws of typed programs. Each function does nothing; its contract is the law.

ghost use Rattle.own_known.specs.Laws.{MatchingIsOne, TypedProgramsAreKnown};

/// What a run finds of a value and a pattern is whether the value matches it, as coverage has it.
pub fn matching_is_one()
    ensures { MatchingIsOne }
{}

/// Each part of a typed program is of the types, the bindings and the bodies of that program, each call fits
/// its target, and each declared body stands under its number.
pub fn typed_programs_are_known()
    ensures { TypedProgramsAreKnown }
{}
