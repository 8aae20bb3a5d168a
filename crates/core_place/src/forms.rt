//! Single forms.

use crate::spot::Spot;
use core_form::{CoreForm, CoreWord};
use sqlite_items::Items;
use std::alloc::{AllocError, Global};

/// A number as a word.
pub fn constant(number: u32) -> CoreWord {
    CoreWord::Constant(i64::from(number))
}

/// Adds the store of a word.
pub fn push_store(
    alloc: Global,
    code: &mut Vec<CoreForm>,
    to: Spot,
    word: CoreWord,
) -> Result<(), AllocError> {
    let to = to.at(alloc)?;
    code.push(CoreForm::Store(to, word))?;
    Ok(())
}

/// Adds the copy of so many words, if there are any and they are to stand elsewhere.
pub fn push_copy(
    alloc: Global,
    code: &mut Vec<CoreForm>,
    words: u32,
    from: Spot,
    to: Spot,
) -> Result<(), AllocError> {
    if words > 0 && from != to {
        let from = from.at(alloc)?;
        let to = to.at(alloc)?;
        code.push(CoreForm::Copy(words - 1, from, to))?;
    }
    Ok(())
}

/// Adds a choice of forms.
pub fn push_when(
    code: &mut Vec<CoreForm>,
    test: CoreWord,
    first: Vec<CoreForm>,
    second: Vec<CoreForm>,
) -> Result<(), AllocError> {
    let first = Items::from_vec(first);
    let second = Items::from_vec(second);
    code.push(CoreForm::When(test, first, second))?;
    Ok(())
}
