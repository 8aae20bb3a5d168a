//! The codes of the rules of ownership, and what is said of a finding.

ghost use Rattle.std.specs.Prelude.{◌≡◌, ◌++◌, ℕ, List};
ghost use Rattle.own_report.specs.Rules.{rule_code, rule_text};
ghost use Rattle.own_report.specs.RuleTexts.{subject_text, text_by};

use own_tree::Rule;

/// What the text of a finding begins with.
#[derive(Clone, Copy, Debug, PartialEq, Eq)]
pub(crate) enum Subject {
    Nothing,
    /// The binding of the place, in quotes.
    Binding,
    /// The place with its properties, in quotes.
    Place,
}

/// The code of a rule, and what is said of its findings: after the subject, and then, where the line and
/// the column of the cause are named, after these.
#[derive(Clone, Copy, Debug, PartialEq, Eq)]
pub(crate) struct RuleText {
    pub code: &'static str,
    pub subject: Subject,
    pub says: &'static str,
    pub names_cause: bool,
    pub ends: &'static str,
}

/// A rule whose findings name no cause.
fn plain(code: &'static str, subject: Subject, says: &'static str) -> RuleText
    ensures code { result.code.now ≡ code.now }
    ensures text { (place binding cause : List ℕ) → text_by result place binding cause
        ≡ subject_text subject place binding ++ says.now }
{
    RuleText {
        code,
        subject,
        says,
        names_cause: false,
        ends: "",
    }
}

/// A rule whose findings end with their cause.
fn with_cause(code: &'static str, subject: Subject, says: &'static str) -> RuleText
    ensures code { result.code.now ≡ code.now }
    ensures text { (place binding cause : List ℕ) → text_by result place binding cause
        ≡ subject_text subject place binding ++ says.now ++ cause }
{
    RuleText {
        code,
        subject,
        says,
        names_cause: true,
        ends: "",
    }
}

/// The row of a rule.
pub(crate) fn rule_text(rule: Rule) -> RuleText
    ensures code { result.code.now ≡ rule_code rule }
    ensures text { (place binding cause : List ℕ) → text_by result place binding cause
        ≡ rule_text rule place binding cause }
{
    use Subject::{Binding, Nothing, Place};
    match rule {
        Rule::O1 => with_cause("O1", Place, " is used after it was consumed at "),
        Rule::O2 => with_cause(
            "O2",
            Place,
            " is used before it has a value; it was declared at ",
        ),
        Rule::O3 => with_cause(
            "O3",
            Binding,
            " has no value at this return; it was consumed at ",
        ),
        Rule::O4 => plain(
            "O4",
            Nothing,
            "'self' is neither discarded nor consumed on a path to this return",
        ),
        Rule::O5 => plain("O5", Place, " has no value at this return of init"),
        Rule::O6 => with_cause("O6", Place, " is assigned again; it was assigned at "),
        Rule::O7 => plain("O7", Place, " is borrowed here and cannot be consumed"),
        Rule::O8 => plain(
            "O8",
            Place,
            " cannot be consumed out of a value whose type has a deinit",
        ),
        Rule::O9 => plain("O9", Place, " cannot be changed here"),
        Rule::O10 => with_cause("O10", Place, " conflicts with what the same call holds at "),
        Rule::O11 => RuleText {
            code: "O11",
            subject: Place,
            says: " is changed while the switch at ",
            names_cause: true,
            ends: " borrows it",
        },
        Rule::F1 => plain(
            "F1",
            Nothing,
            "the end of the body is reached without a return",
        ),
    }
}
