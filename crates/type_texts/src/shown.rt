//! A table of types, or why there is none, in one line.

use own_table::{TableError, TypeTable};
use own_tree::{LimitKind, Span, Ty};
use std::alloc::AllocError;
use std::fmt::Write;

/// How many types are shown.
const MOST_SHOWN: u32 = 8;

fn put_name(out: &mut String, name: &[u8]) -> Result<(), AllocError> {
    for byte in name {
        out.push(*byte as char)?;
    }
    Ok(())
}

fn put_word(out: &mut String, holds: bool, word: &str) -> Result<(), AllocError> {
    if holds {
        out.push_str(word)?;
    }
    Ok(())
}

/// A declared type.
fn put_type(out: &mut String, table: &TypeTable, number: u32) -> Result<(), AllocError> {
    if number >= table.count() {
        return Ok(());
    }
    let ty = Ty::Named(number);
    out.push_str("; ")?;
    put_name(out, table.name(ty))?;
    write!(
        out,
        " slots {} leaves {}",
        table.slots(ty),
        table.leaf_count(ty)
    )?;
    put_word(out, table.copyable(ty), " copyable")?;
    put_word(out, table.is_enum(ty), " enum")?;
    put_word(out, table.tracked(ty), " tracked")?;
    put_word(out, table.holds_tracked(ty), " holds")
}

/// The number of types, and the first of them.
pub fn put_table(out: &mut String, table: &TypeTable) -> Result<(), AllocError> {
    let count = table.count();
    write!(out, "types {count}")?;
    for number in 0..count.min(MOST_SHOWN) {
        put_type(out, table, number)?;
    }
    Ok(())
}

/// The number of a limit of the table: 4 for M4, and so on, and 0 of others.
fn limit_number(which: LimitKind) -> u32 {
    match which {
        LimitKind::Types => 4,
        LimitKind::Fields => 5,
        LimitKind::Bodies => 6,
        LimitKind::Parameters => 7,
        LimitKind::TypeSlots => 8,
        _ => 0,
    }
}

/// The word at a place, and the byte that it begins at.
fn put_place(out: &mut String, text: &str, at: Span) -> Result<(), AllocError> {
    let start = at.start;
    write!(out, " at {start} ")?;
    match text.as_bytes().get(at.start as usize..at.end as usize) {
        Some(word) => put_name(out, word),
        None => Ok(()),
    }
}

/// Why there is no table.
pub fn put_refusal(out: &mut String, text: &str, refused: TableError) -> Result<(), AllocError> {
    match refused {
        TableError::Limit { which, count, at } => {
            let number = limit_number(which);
            write!(out, "M{number} {count}")?;
            put_place(out, text, at)
        }
        TableError::BadType { code, at } => {
            write!(out, "T{code:02}")?;
            put_place(out, text, at)
        }
        TableError::Memory => out.push_str("memory"),
    }
}
