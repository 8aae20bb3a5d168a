//! What a binding has in the frame of its body: a value, or the address of one.

ghost use Rattle.std.specs.Prelude.{◌≡◌};
ghost use Rattle.core_layout.specs.Words.{is_alias, mode_words};
ghost use Rattle.own_table.specs.Table.{types_in};

use crate::types::slots;
use own_table::TypeTable;
use own_tree::{Mode, Ty};

/// Whether a binding stands for a place that another one owns. Its word is the address of that place.
pub fn is_alias(mode: Mode) -> bool
    ensures { result ≡ is_alias mode }
{
    match mode {
        Mode::Borrowing
        | Mode::Inout
        | Mode::PatternBorrowed
        | Mode::SelfBorrowing
        | Mode::SelfMutating
        | Mode::SelfDeinit => true,
        Mode::Let
        | Mode::Var
        | Mode::Plain
        | Mode::Consuming
        | Mode::Turn
        | Mode::PatternOwned
        | Mode::SelfConsuming
        | Mode::SelfInit
        | Mode::Closure => false,
    }
}

/// The words of a binding. A closure is the number of its function and the address of the frame that made it.
pub fn words_of_mode(table: &TypeTable, mode: Mode, ty: Ty) -> u32
    ensures { result ≡ mode_words (types_in table.now) mode ty }
{
    if is_alias(mode) { 1 } else { slots(table, ty) }
}
