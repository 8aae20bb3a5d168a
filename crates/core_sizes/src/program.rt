//! The count of a whole core.

ghost use Rattle.std.specs.Prelude.{◌≡◌, ◌+◌, ◌≤◌, OnOk, map};
ghost use Rattle.std.specs.Bool.{OnTrue};
ghost use Rattle.core_form.specs.CoreView.{core_view, function_view};
ghost use Rattle.core_form.specs.Sizes.{AreLow, BytesFit, FunctionFits, FunctionsFit, IsFitting, all_bytes, bytes, height};
ghost use Rattle.core_form.specs.declared.limits.TheConstants.{MOST_HEIGHT};

use crate::code::count_forms;
use crate::room::{Room, TooLarge, spend, within};
use core_form::limits::{
    MOST_CODE_BYTES, MOST_CORE_TEXTS, MOST_DEPTH, MOST_FUNCTIONS, MOST_HEIGHT, MOST_LOCAL_WORDS,
};
use core_form::{Core, CoreFunction};

/// Counts a function.
fn count_function(left: &mut u64, function: &CoreFunction) -> Result<(), TooLarge>
    ensures fits { OnOk result (FunctionFits (function_view function.now)) }
    ensures height { OnOk result (height (function_view function.now).code ≤ MOST_HEIGHT) }
    ensures bytes { OnOk result (left.new + (bytes (function_view function.now).code + 56) ≡ left.old) }
{
    let room = Room {
        labels: MOST_DEPTH,
        operands: MOST_HEIGHT,
    };
    within(function.locals, MOST_LOCAL_WORDS)?;
    count_forms(left, room, function.code.as_slice())?;
    spend(left, 56)
}

/// Counts functions, one after another.
fn count_functions(left: &mut u64, functions: &[CoreFunction]) -> Result<(), TooLarge>
    ensures fits { OnOk result (FunctionsFit (map function_view functions.now)) }
    ensures low { OnOk result (AreLow (map function_view functions.now)) }
    ensures bytes { OnOk result (left.new + all_bytes (map function_view functions.now) ≡ left.old) }
{
    for function in functions {
        count_function(left, function)?;
    }
    Ok(())
}

/// What is known of each byte that is read.
fn are_bytes(texts: &[u8])
    ensures { BytesFit texts.now }
{
    for byte in texts {
        let _byte = *byte;
    }
}

/// Counts a whole core.
fn count_core(core: &Core) -> Result<(), TooLarge>
    ensures { OnOk result (IsFitting (core_view core.now)) }
{
    let functions = core.functions.as_slice();
    let texts = core.texts.as_slice();
    if functions.len() > MOST_FUNCTIONS as usize || texts.len() > MOST_CORE_TEXTS as usize {
        return Err(TooLarge);
    }
    within(core.main, MOST_FUNCTIONS)?;
    are_bytes(texts);
    let mut left = u64::from(MOST_CODE_BYTES);
    count_functions(&mut left, functions)
}

/// Whether a core keeps to what its module has room for: true only where it does. The walk takes no memory.
pub fn fits(core: &Core) -> bool
    ensures { OnTrue result (IsFitting (core_view core.now)) }
{
    count_core(core).is_ok()
}
