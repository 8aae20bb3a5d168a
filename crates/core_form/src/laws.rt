//! Laws of the definitions. Each function does nothing; its contract is the law.

ghost use Rattle.core_form.specs.Laws.{AreasAreThese, RatesAreWithin};

/// How the words of a frame and of all frames follow from the limits of a text.
pub fn areas_are_these()
    ensures { AreasAreThese }
{}

/// A machine takes at most 1,000,000 steps for each token and turn.
pub fn rates_are_within()
    ensures { RatesAreWithin }
{}
