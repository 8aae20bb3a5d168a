//! The lines of the error output.

ghost use Rattle.std.specs.Prelude.{◌≡◌, ◌≤◌, ◌++◌, length, IfOk, OnOk, string_bytes};
ghost use Rattle.std.specs.Fmt.{decimal};
ghost use Rattle.own_report.specs.Place.{place_at};
ghost use Rattle.own_report.specs.Lines.{place_after};
ghost use Rattle.own_tool.specs.Texts.{read_line, too_long_line, flags_line, steps_line};
ghost use Rattle.own_tool.specs.Texts.{trap_after, trap_line, trap_text, exec_trap_line};
ghost use Rattle.own_tool.specs.Texts.{too_long_module_line, outside_text, limit_text, fault_after, bad_module_line};

use own_report::{LineColumn, place_in};
use std::alloc::{AllocError, Global};
use wasm_form::limits::{ModuleLimit, Outside};
use wasm_read::ReadError;

pub(crate) fn read_line(alloc: Global, file: &str) -> Result<String, AllocError>
    ensures { IfOk result (λ line. string_bytes line ≡ read_line file.now) }
{
    format!(in alloc; "cannot read {file}\n")
}

pub(crate) fn too_long_line(alloc: Global, file: &str) -> Result<String, AllocError>
    ensures { IfOk result (λ line. string_bytes line ≡ too_long_line file.now) }
{
    format!(in alloc; "{file}: error[M1]: text bytes: more than 1048576\n")
}

pub(crate) fn flags_line(alloc: Global, flags: usize) -> Result<String, AllocError>
    ensures { IfOk result (λ line. string_bytes line ≡ flags_line flags) }
{
    format!(in alloc; "flags {flags}\n")
}

pub(crate) fn steps_line(alloc: Global) -> Result<String, AllocError>
    ensures { IfOk result (λ line. string_bytes line ≡ steps_line) }
{
    String::from_str(alloc, "out of steps\n")
}

/// The trap code of one level too many, which has no place.
const TOO_MANY_LEVELS: u32 = 3;

/// What a trap of a run is.
fn trap_text(code: u32) -> &'static str
    ensures { result.now ≡ trap_text code }
{
    match code {
        1 => "arithmetic overflow",
        2 => "division by zero",
        3 => "too many levels",
        _ => "range ends before it begins",
    }
}

/// Adds a number in decimal.
fn push_number(alloc: Global, line: &mut String, number: u32) -> Result<(), AllocError>
    ensures { OnOk result (string_bytes line.new ≡ string_bytes line.old ++ decimal number) }
{
    let digits = number.to_string(alloc)?;
    line.push_str(digits.as_str())
}

/// Adds what a line says of a trap after its place.
fn push_trap(alloc: Global, line: &mut String, code: u32, what: &str) -> Result<(), AllocError>
    ensures { OnOk result (string_bytes line.new ≡ trap_after (string_bytes line.old) code what.now) }
{
    line.push_str(": trap ")?;
    push_number(alloc, line, code)?;
    line.push_str(": ")?;
    line.push_str(what)?;
    line.push_str("\n")
}

/// Adds a place.
fn push_place(alloc: Global, line: &mut String, place: LineColumn) -> Result<(), AllocError>
    ensures { OnOk result (string_bytes line.new ≡ place_after (string_bytes line.old) place) }
{
    line.push_str(":")?;
    push_number(alloc, line, place.line)?;
    line.push_str(":")?;
    push_number(alloc, line, place.column)
}

/// The line of a trap at an offset of a text. One of code 3 has no place.
pub(crate) fn trap_line(
    alloc: Global,
    file: &str,
    text: &[u8],
    code: u32,
    at: u32,
) -> Result<String, AllocError>
    requires { length text.now ≤ 1048576 }
    ensures { IfOk result (λ line. string_bytes line ≡ trap_line file.now text.now code at) }
{
    let mut line = String::from_str(alloc, file)?;
    if code == TOO_MANY_LEVELS {
        push_trap(alloc, &mut line, code, trap_text(code))?;
        return Ok(line);
    }
    push_place(alloc, &mut line, place_in(text, at))?;
    push_trap(alloc, &mut line, code, trap_text(code))?;
    Ok(line)
}

/// The line of a trap of a module.
pub(crate) fn exec_trap_line(
    alloc: Global,
    file: &str,
    code: u32,
    at: u32,
) -> Result<String, AllocError>
    ensures { IfOk result (λ line. string_bytes line ≡ exec_trap_line file.now code at) }
{
    let mut line = String::from_str(alloc, file)?;
    line.push_str(": trap ")?;
    push_number(alloc, &mut line, code)?;
    line.push_str(" at ")?;
    push_number(alloc, &mut line, at)?;
    line.push_str("\n")?;
    Ok(line)
}

pub(crate) fn too_long_module_line(alloc: Global, file: &str) -> Result<String, AllocError>
    ensures { IfOk result (λ line. string_bytes line ≡ too_long_module_line file.now) }
{
    format!(in alloc; "{file}: bad module: too long\n")
}

/// What the profile has not.
fn outside_text(what: Outside) -> &'static str
    ensures { result.now ≡ outside_text what }
{
    match what {
        Outside::Float => "float",
        Outside::Start => "start",
        Outside::Import => "import",
        Outside::Global => "global",
    }
}

/// The name of a limit.
fn limit_text(which: ModuleLimit) -> &'static str
    ensures { result.now ≡ limit_text which }
{
    match which {
        ModuleLimit::Types => "types",
        ModuleLimit::Functions => "functions",
        ModuleLimit::Globals => "globals",
        ModuleLimit::Exports => "exports",
        ModuleLimit::Parameters => "parameters",
        ModuleLimit::Locals => "locals",
        ModuleLimit::Labels => "labels",
        ModuleLimit::Targets => "targets",
        ModuleLimit::Table => "table",
        ModuleLimit::Pages => "pages",
    }
}

/// Adds why bytes are no module that is taken. Want of memory is no such reason, and is answered elsewhere.
fn push_fault(alloc: Global, line: &mut String, error: ReadError) -> Result<(), AllocError>
    ensures { OnOk result (string_bytes line.new ≡ fault_after (string_bytes line.old) error) }
{
    match error {
        ReadError::NotModule { at } => {
            line.push_str("not a module at ")?;
            push_number(alloc, line, at)?;
            Ok(())
        }
        ReadError::OutsideProfile { at, what } => {
            line.push_str("outside the profile at ")?;
            push_number(alloc, line, at)?;
            line.push_str(": ")?;
            line.push_str(outside_text(what))
        }
        ReadError::Limit { which } => {
            line.push_str("limit: ")?;
            line.push_str(limit_text(which))
        }
        ReadError::NoMain => line.push_str("no function main"),
        ReadError::Memory => line.push_str("out of memory"),
    }
}

/// The line of bytes that are no module that is taken.
pub(crate) fn bad_module_line(
    alloc: Global,
    file: &str,
    error: ReadError,
) -> Result<String, AllocError>
    ensures { IfOk result (λ line. string_bytes line ≡ bad_module_line file.now error) }
{
    let mut line = String::from_str(alloc, file)?;
    line.push_str(": bad module: ")?;
    push_fault(alloc, &mut line, error)?;
    line.push_str("\n")?;
    Ok(line)
}
