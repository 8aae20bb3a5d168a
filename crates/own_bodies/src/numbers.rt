//! The bindings that one body declares.

ghost use Rattle.std.specs.Prelude.{◌≡◌, IfOk};
ghost use Rattle.own_bodies.specs.Numbers.{numbers_declared};

use own_tree::{Binding, Row};
use std::alloc::{AllocError, Global};

/// The numbers of the bindings that a body declares, its parameters and `self` included, in order. It goes
/// over all bindings of the text. More of them than a `u32` numbers, which no text within the limits has,
/// answer want of memory.
pub fn bindings_of(alloc: Global, bindings: &[Binding], body: u32) -> Result<Row<u32>, AllocError>
    ensures { IfOk result (λ numbers. numbers ≡ numbers_declared body 0 bindings.now) }
{
    let mut numbers = Row::new(alloc);
    for (number, binding) in bindings.iter().enumerate() {
        if number > u32::MAX as usize {
            return Err(AllocError);
        }
        if binding.body == body {
            numbers.push(number as u32)?;
        }
    }
    Ok(numbers)
}
