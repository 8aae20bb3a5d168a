//! Laws of the definitions. Each function does nothing; its contract is the law.

ghost use Rattle.own_match.specs.Laws.{FirstMissingIsOne, FormsAreApart, FormsAreOrdered, FormsAreSmall, HasValueIsExact, ValuesHaveForms};

/// The types that are said to have a value are those that have one.
pub fn has_value_is_exact()
    ensures { HasValueIsExact }
{}

/// Each value of a type has a form that stands for it.
pub fn values_have_forms()
    ensures { ValuesHaveForms }
{}

/// Of two forms of a type that differ, one comes before the other.
pub fn forms_are_ordered()
    ensures { FormsAreOrdered }
{}

/// No form comes before itself.
pub fn forms_are_apart()
    ensures { FormsAreApart }
{}

/// A list of patterns has one first form that is missing.
pub fn first_missing_is_one()
    ensures { FirstMissingIsOne }
{}

/// A form of a declared type has at most as many places as a type may have slots (M8).
pub fn forms_are_small()
    ensures { FormsAreSmall }
{}
