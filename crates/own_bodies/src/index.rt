//! The bindings of all bodies.

ghost use Rattle.std.specs.Prelude.{◌≡◌, ℕ, ◌<◌, [], IfOk, OnOk, get_or, length};
ghost use Rattle.own_bodies.specs.Numbers.{IsIndexOf, with_number, numbers_in};

use own_tree::{Binding, Row};
use std::alloc::{AllocError, Global};

/// The numbers of the bindings that each body of a text declares.
#[derive(Debug, Drop)]
pub struct BodyBindings {
    rows: Vec<Row<u32>>,
}

/// So many empty lists.
fn empty_rows(alloc: Global, count: usize) -> Result<Vec<Row<u32>>, AllocError>
    ensures len { IfOk result (λ rows. length rows.items ≡ count) }
    ensures none { IfOk result (λ rows. (k : ℕ) → get_or rows.items k [] ≡ []) }
{
    let mut rows = Vec::new(alloc);
    for _ in 0..count {
        rows.push(Row::new(alloc))?;
    }
    Ok(rows)
}

/// Adds a number to the list of a body, if there is one.
fn push_number(rows: &mut Vec<Row<u32>>, body: u32, number: u32) -> Result<(), AllocError>
    ensures len { OnOk result (length rows.new.items ≡ length rows.old.items) }
    ensures each { OnOk result ((k : ℕ) → k < length rows.old.items → get_or rows.new.items k []
        ≡ with_number k body number (get_or rows.old.items k [])) }
{
    let at = body as usize;
    if at < rows.len() {
        rows[at].push(number)?;
    }
    Ok(())
}

impl BodyBindings {
    /// Of a text of so many bodies: goes once over its bindings, so that what asks for those of each body
    /// takes linear time. More bindings than a `u32` numbers, which no text within the limits has, answer
    /// want of memory.
    pub fn new(
        alloc: Global,
        bindings: &[Binding],
        bodies: usize,
    ) -> Result<BodyBindings, AllocError>
        ensures { IfOk result (λ index. IsIndexOf bindings.now bodies index) }
    {
        let mut rows = empty_rows(alloc, bodies)?;
        for (number, binding) in bindings.iter().enumerate() {
            if number > u32::MAX as usize {
                return Err(AllocError);
            }
            push_number(&mut rows, binding.body, number as u32)?;
        }
        Ok(BodyBindings { rows })
    }

    /// Those that a body declares, its parameters and `self` included, in order. A body that the text does
    /// not have declares none.
    pub fn numbers(&self, body: u32) -> &[u32]
        ensures { result.now ≡ numbers_in self.now body }
    {
        match self.rows.get(body as usize) {
            Some(row) => row.as_slice(),
            None => &[],
        }
    }
}
