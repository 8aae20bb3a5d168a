//! The makers of a body by their nodes and by their leaves, and the rows before the first visit.

ghost use Rattle.std.specs.Prelude.{◌≡◌, ℕ, ◌*◌, ◌<◌, ◌≤◌, ◌↔◌, All, Contains, IfOk, length, slice_index_or, vec_len};
ghost use Rattle.own_walks.specs.Reaching.{IsMadeAt, IsOf};
ghost use Rattle.own_flow.specs.Facts.{words_for};
ghost use Rattle.own_flow.specs.Flow.{HasAt, made_at, mask_of};
ghost use Rattle.own_flow.specs.Words.{Has};

use crate::bits::Bits;
use crate::made::Made;
use own_tree::{Maker, Row};
use std::alloc::{AllocError, Global};

/// So many sets without members.
pub fn empty_sets(alloc: Global, count: usize, words: usize) -> Result<Vec<Bits>, AllocError>
    ensures len { IfOk result (λ sets. vec_len sets ≡ count) }
    ensures long { IfOk result (λ sets. All (λ set. length set ≡ words) sets.items) }
    ensures none { IfOk result (λ sets. (u m : ℕ) → ¬ (HasAt sets.items u m)) }
{
    let mut sets = Vec::new(alloc);
    for _ in 0..count {
        sets.push(Bits::new(alloc, words)?)?;
    }
    Ok(sets)
}

/// So many empty lists.
fn empty_lists(alloc: Global, count: usize) -> Result<Vec<Row<Made>>, AllocError>
    ensures len { IfOk result (λ lists. vec_len lists ≡ count) }
    ensures none { IfOk result (λ lists. (u : ℕ) (x : Made) → ¬ (Contains (made_at lists.items u) x)) }
{
    let mut lists = Vec::new(alloc);
    for _ in 0..count {
        lists.push(Row::new(alloc))?;
    }
    Ok(lists)
}

/// The makers at each node, without those of the start.
pub fn makers_at(
    alloc: Global,
    nodes: usize,
    leaves: usize,
    pairs: &[Maker],
) -> Result<Vec<Row<Made>>, AllocError>
    requires { All (λ pair. pair.node < nodes) pairs.now }
    ensures len { IfOk result (λ at. vec_len at ≡ nodes) }
    ensures made { IfOk result (λ at. (u : ℕ) (x : Made) → Contains (made_at at.items u) x
        ↔ IsMadeAt pairs.now leaves u x.maker x.leaf) }
{
    let mut at = empty_lists(alloc, nodes)?;
    'pairs: for maker in leaves..pairs.len() {
        let pair = &pairs[maker];
        at[pair.node as usize].push(Made {
            maker,
            leaf: pair.leaf,
        })?;
    }
    Ok(at)
}

/// The makers of each leaf, those of the start among them.
pub fn masks(
    alloc: Global,
    leaves: usize,
    words: usize,
    pairs: &[Maker],
) -> Result<Vec<Bits>, AllocError>
    requires of_leaves { All (λ pair. pair.leaf < leaves) pairs.now }
    requires words { words ≡ words_for (length pairs.now) }
    ensures len { IfOk result (λ masks. vec_len masks ≡ leaves) }
    ensures long { IfOk result (λ masks. All (λ mask. length mask ≡ words) masks.items) }
    ensures has { IfOk result (λ masks. (leaf m : ℕ) → Has (mask_of masks.items leaf) m ↔ IsOf pairs.now m leaf) }
{
    let mut masks = empty_sets(alloc, leaves, words)?;
    'pairs: for maker in 0..pairs.len() {
        masks[pairs[maker].leaf as usize].insert(maker);
    }
    Ok(masks)
}

/// The rows in which the start of each leaf has reached the entry, and nothing else is set.
pub fn first_rows(
    alloc: Global,
    nodes: usize,
    entry: usize,
    leaves: usize,
    words: usize,
) -> Result<Vec<Bits>, AllocError>
    requires within { entry < nodes }
    requires words { leaves ≤ words * 64 }
    ensures len { IfOk result (λ rows. vec_len rows ≡ nodes) }
    ensures long { IfOk result (λ rows. All (λ row. length row ≡ words) rows.items) }
    ensures has { IfOk result (λ rows. (u m : ℕ) → HasAt rows.items u m ↔ ((u ≡ entry) × (m < leaves))) }
{
    let mut rows = empty_sets(alloc, nodes, words)?;
    'leaves: for leaf in 0..leaves {
        rows[entry].insert(leaf);
    }
    Ok(rows)
}
