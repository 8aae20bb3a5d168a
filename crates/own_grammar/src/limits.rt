ghost use Rattle.own_grammar.specs.Limits.{LimitsAreThese};

/// The most levels of patterns in each other. The pattern of a clause is at level 1, a pattern in the
/// parentheses of another one a level further, however deep the clause stands.
pub const MOST_PATTERN_LEVELS: u32 = 100;

/// The constant is the number that the definitions name.
pub fn limits_are_these()
    ensures { LimitsAreThese }
{}
