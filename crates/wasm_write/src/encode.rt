//! Lists of what can be spelled, and sections of them.

ghost use Rattle.std.specs.Prelude.{◌≡◌, ℕ, List, ◌∷◌, ◌++◌, OnOk};
ghost use Rattle.wasm_form.specs.Shortest.{list_shortest, section_shortest, sized};

use crate::number::push_unsigned;
use std::alloc::{AllocError, Global};

/// What has a shortest spelling.
pub(crate) trait Encode {
    ghost spelling: { Self → List ℕ };

    /// Writes it at the end.
    fn encode(&self, alloc: Global, out: &mut Vec<u8>) -> Result<(), AllocError>
        ensures { OnOk result (out.new.items ≡ out.old.items ++ spelling self.now) };
}

/// Writes the number of the items, and they (Core 1.0, 5.1.3).
pub(crate) fn push_list<T: Encode>(
    alloc: Global,
    out: &mut Vec<u8>,
    items: &[T],
) -> Result<(), AllocError>
    ensures { OnOk result (out.new.items ≡ out.old.items ++ list_shortest T.spelling items.now) }
{
    push_unsigned(out, items.len() as u64)?;
    for item in items {
        item.encode(alloc, out)?;
    }
    Ok(())
}

/// Writes the number of the bytes, and they.
pub(crate) fn push_sized(out: &mut Vec<u8>, bytes: &[u8]) -> Result<(), AllocError>
    ensures { OnOk result (out.new.items ≡ out.old.items ++ sized bytes.now) }
{
    push_unsigned(out, bytes.len() as u64)?;
    out.extend_from_slice(bytes)
}

/// Writes a section (Core 1.0, 5.5.2), or nothing where it has no items.
#[tactic(auto, unfolding(wasm_form::specs::Shortest::section_shortest))]
pub(crate) fn push_section<T: Encode>(
    alloc: Global,
    out: &mut Vec<u8>,
    id: u8,
    items: &[T],
) -> Result<(), AllocError>
    ensures { OnOk result (out.new.items ≡ out.old.items ++ section_shortest id T.spelling items.now) }
{
    if items.is_empty() {
        return Ok(());
    }
    let mut content = Vec::new(alloc);
    push_list(alloc, &mut content, items)?;
    out.push(id)?;
    push_sized(out, &content)
}
