//! Parts of lines.

ghost use Rattle.std.specs.Prelude.{◌≡◌, ◌++◌, IfOk, OnOk, string_bytes};
ghost use Rattle.std.specs.Fmt.{decimal};
ghost use Rattle.own_report.specs.Lines.{head_at};

use crate::place::LineColumn;
use std::alloc::{AllocError, Global};

/// The beginning of a line: the file, where in it the line speaks of, and the code.
pub(crate) fn head(
    alloc: Global,
    file: &str,
    place: LineColumn,
    code: &str,
) -> Result<String, AllocError>
    ensures { IfOk result (λ line. string_bytes line ≡ head_at file.now place code.now) }
{
    format!(in alloc; "{file}:{place}: error[{code}]: ")
}

/// Adds a number in decimal.
pub(crate) fn push_number(alloc: Global, line: &mut String, number: u64) -> Result<(), AllocError>
    ensures { OnOk result (string_bytes line.new ≡ string_bytes line.old ++ decimal number) }
{
    let digits = number.to_string(alloc)?;
    line.push_str(digits.as_str())
}
