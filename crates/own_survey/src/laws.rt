//! Laws of the definitions. Each function does nothing; its contract is the law.

ghost use Rattle.own_survey.specs.Laws.{TextLimitsAreExceeded};

/// What is named as over a limit, M4 to M8, has a larger count.
pub fn text_limits_are_exceeded()
    ensures { TextLimitsAreExceeded }
{}
