//! The makers of a body by their leaves.

ghost use Rattle.std.specs.Prelude.{◌≡◌, ℕ, ◌<◌, ◌≤◌, ◌^◌, ◌↔◌, All, Contains, IfOk, [], length, slice_index_or, vec_len};
ghost use Rattle.own_walks.specs.Reaching.{IsOf};
ghost use Rattle.own_rules.specs.Bodies.{makers_of};

use own_tree::{Maker, Row};
use std::alloc::{AllocError, Global};

/// So many empty lists.
fn empty_lists(alloc: Global, count: usize) -> Result<Vec<Row<u32>>, AllocError>
    ensures len { IfOk result (λ lists. vec_len lists ≡ count) }
    ensures none { IfOk result (λ lists. (l p : ℕ) → ¬ (Contains (makers_of lists.items l) p)) }
{
    let mut lists = Vec::new(alloc);
    for _ in 0..count {
        lists.push(Row::new(alloc))?;
    }
    Ok(lists)
}

/// The makers of each leaf, by their numbers.
pub(crate) fn by_leaf(
    alloc: Global,
    leaves: usize,
    pairs: &[Maker],
) -> Result<Vec<Row<u32>>, AllocError>
    requires of_leaves { All (λ pair. pair.leaf < leaves) pairs.now }
    requires few { length pairs.now < 2 ^ 32 }
    ensures len { IfOk result (λ lists. vec_len lists ≡ leaves) }
    ensures has { IfOk result (λ lists. (l p : ℕ) → Contains (makers_of lists.items l) p ↔ IsOf pairs.now p l) }
{
    let mut lists = empty_lists(alloc, leaves)?;
    'pairs: for maker in 0..pairs.len() {
        lists[pairs[maker].leaf as usize].push(maker as u32)?;
    }
    Ok(lists)
}
