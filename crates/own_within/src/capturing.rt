//! What a closure captures.

ghost use Rattle.std.specs.Prelude.{◌≡◌, ℕ, ◌<◌, length, get_or, None, IfOk};
ghost use Rattle.own_tree.specs.TypedView.{program_view};
ghost use Rattle.own_paths.specs.Captures.{captures};
ghost use Rattle.own_within.specs.Marks.{said, noted, found_from};
ghost use Rattle.own_within.specs.View.{captured_seen};

use crate::captured::Captured;
use crate::outer::outer_mentions;
use own_tree::{Row, Typed};
use std::alloc::{AllocError, Global};

/// Notes a mention in what is known of each binding: whether it is mentioned, and then whether it is
/// changed.
fn note(seen: &mut Vec<Option<bool>>, mention: Captured)
    ensures each { length seen.new.items ≡ length seen.old.items }
    ensures noted { (k : ℕ) → k < length seen.old.items → get_or seen.new.items k None
        ≡ noted k mention (get_or seen.old.items k None) }
{
    let at = mention.binding as usize;
    if at < seen.len() {
        let changed = mention.change || seen[at] == Some(true);
        seen[at] = Some(changed);
    }
}

/// What mentions say of each of so many bindings.
fn noted(
    alloc: Global,
    count: usize,
    mentions: &[Captured],
) -> Result<Vec<Option<bool>>, AllocError>
    ensures each { IfOk result (λ seen. length seen.items ≡ count) }
    ensures said { IfOk result (λ seen. (k : ℕ) → k < count → get_or seen.items k None
        ≡ said k (captured_seen mentions.now)) }
{
    let mut seen = vec![in alloc; None; count]?;
    let mut left = mentions.len();
    while 0 < left {
        left -= 1;
        note(&mut seen, mentions[left]);
    }
    Ok(seen)
}

/// The bindings that are mentioned, in order of number. More than a `u32` counts have no room.
fn found(alloc: Global, seen: &[Option<bool>]) -> Result<Row<Captured>, AllocError>
    ensures { IfOk result (λ row. captured_seen row ≡ found_from 0 seen.now) }
{
    let mut row = Row::new(alloc);
    for (number, known) in seen.iter().enumerate() {
        if let Some(change) = *known {
            let Ok(binding) = u32::try_from(number) else {
                return Err(AllocError);
            };
            row.push(Captured { binding, change })?;
        }
    }
    Ok(row)
}

/// What a closure captures, by the number of its body: each binding that is used in it or in a closure
/// inside it and is declared in neither, once, in order of number.
pub fn captures(alloc: Global, typed: &Typed, body: u32) -> Result<Row<Captured>, AllocError>
    ensures { IfOk result (λ row. captured_seen row ≡ captures (program_view typed.now) body) }
{
    let mentions = outer_mentions(alloc, typed, typed.bodies.len(), body)?;
    let seen = noted(alloc, typed.bindings.len(), mentions.as_slice())?;
    found(alloc, seen.as_slice())
}
