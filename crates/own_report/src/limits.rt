//! The codes of the limits and their names.

ghost use Rattle.std.specs.Prelude.{◌≡◌};
ghost use Rattle.own_report.specs.Lines.{said_as};
ghost use Rattle.own_report.specs.Limits.{limit_said};

use crate::diagnostic::Diagnostic;
use own_tree::LimitKind;

/// The code of a limit and its name.
pub(crate) fn limit_diagnostic(which: LimitKind) -> Diagnostic
    ensures { said_as result.code.now result.text.now ≡ limit_said which }
{
    match which {
        LimitKind::TextBytes => Diagnostic::new("M1", "text bytes"),
        LimitKind::Tokens => Diagnostic::new("M2", "tokens"),
        LimitKind::Nesting => Diagnostic::new("M3", "nesting"),
        LimitKind::Types => Diagnostic::new("M4", "types"),
        LimitKind::Fields => Diagnostic::new("M5", "fields or cases of a type"),
        LimitKind::Bodies => Diagnostic::new("M6", "bodies"),
        LimitKind::Parameters => Diagnostic::new("M7", "parameters of a body, payloads of a case"),
        LimitKind::TypeSlots => Diagnostic::new("M8", "slots of a type"),
        LimitKind::BodySlots => Diagnostic::new("M9", "slots of a body"),
        LimitKind::BodyOps => Diagnostic::new("M10", "ops of a body"),
        LimitKind::BodyLeaves => Diagnostic::new("M11", "leaves of a body"),
        LimitKind::BodyMakers => Diagnostic::new("M12", "makers of a body"),
        LimitKind::Ops => Diagnostic::new("M13", "ops of all bodies"),
    }
}
