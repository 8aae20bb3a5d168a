//! Laws of the definitions. Each function does nothing; its contract is the law.

ghost use Rattle.own_ways.specs.Laws.{ExactResultsAreInts, TrapCodesAreThese};

/// Of a first operand that is an `Int`, what an operation gives is one.
pub fn exact_results_are_ints()
    ensures { ExactResultsAreInts }
{}

/// The constants are the numbers that the definitions name.
pub fn trap_codes_are_these()
    ensures { TrapCodesAreThese }
{}
