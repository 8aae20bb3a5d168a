//! A row of the tables of texts.

/// A code of the language, and what is said beside it where it is refused.
#[derive(Clone, Copy, Debug, PartialEq, Eq)]
pub(crate) struct Diagnostic {
    pub code: &'static str,
    pub text: &'static str,
}

impl Diagnostic {
    ghost use Rattle.std.specs.Prelude.{◌≡◌};
    ghost use Rattle.own_report.specs.Lines.{said_as};

    pub(crate) fn new(code: &'static str, text: &'static str) -> Diagnostic
        ensures { said_as result.code.now result.text.now ≡ said_as code.now text.now }
    {
        Diagnostic { code, text }
    }
}
