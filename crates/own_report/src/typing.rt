//! The codes of the judgements of the typing, and what is said where one is false.

ghost use Rattle.std.specs.Prelude.{◌≡◌};
ghost use Rattle.own_report.specs.Lines.{said_as};
ghost use Rattle.own_report.specs.Typing.{types_said, bodies_said, typing_said};

use crate::diagnostic::Diagnostic;

/// The least code of a judgement of bodies.
const FIRST_OF_BODIES: u8 = 10;

/// A judgement of the types of a text, T01 to T08.
fn types_diagnostic(code: u8) -> Diagnostic
    ensures { said_as result.code.now result.text.now ≡ types_said code }
{
    match code {
        1 => Diagnostic::new("T01", "unknown type"),
        2 => Diagnostic::new("T02", "name declared twice"),
        3 => Diagnostic::new("T03", "type contains itself"),
        4 => Diagnostic::new("T04", "noncopyable part in a copyable type"),
        5 => Diagnostic::new("T05", "deinit or init is not allowed here"),
        6 => Diagnostic::new("T06", "parameter modifier"),
        7 => Diagnostic::new("T07", "method modifier"),
        _ => Diagnostic::new("T08", "reserved name or no main"),
    }
}

/// A judgement of bodies, T10 to T32.
fn bodies_diagnostic(code: u8) -> Diagnostic
    ensures { said_as result.code.now result.text.now ≡ bodies_said code }
{
    match code {
        10 => Diagnostic::new("T10", "unknown name"),
        11 => Diagnostic::new("T11", "unknown member"),
        12 => Diagnostic::new("T12", "type differs"),
        13 => Diagnostic::new("T13", "arguments differ"),
        14 => Diagnostic::new("T14", "literal out of range"),
        15 => Diagnostic::new("T15", "operands"),
        16 => Diagnostic::new("T16", "not a place"),
        18 => Diagnostic::new("T18", "return value"),
        19 => Diagnostic::new("T19", "jump outside a loop"),
        20 => Diagnostic::new("T20", "switch does not cover"),
        21 => Diagnostic::new("T21", "pattern does not fit"),
        22 => Diagnostic::new("T22", "discard is not allowed here"),
        23 => Diagnostic::new("T23", "unused value"),
        24 => Diagnostic::new("T24", "function as a value"),
        25 => Diagnostic::new("T25", "no type or no value"),
        26 => Diagnostic::new("T26", "whole self in init"),
        27 => Diagnostic::new("T27", "part of a temporary"),
        28 => Diagnostic::new("T28", "consume of a copyable part"),
        29 => Diagnostic::new("T29", "print item"),
        31 => Diagnostic::new("T31", "binding in several patterns"),
        _ => Diagnostic::new("T32", "no value"),
    }
}

/// A judgement of the typing, by its number.
pub(crate) fn typing_diagnostic(code: u8) -> Diagnostic
    ensures { said_as result.code.now result.text.now ≡ typing_said code }
{
    if code < FIRST_OF_BODIES {
        types_diagnostic(code)
    } else {
        bodies_diagnostic(code)
    }
}
