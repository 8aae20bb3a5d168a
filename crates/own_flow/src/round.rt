//! One round over the edges of a graph, which takes no memory: what a row gives behind its node is read off
//! the pairs themselves.

ghost use Rattle.std.specs.Prelude.{◌≡◌, ℕ, ◌<◌, ◌≤◌, ◌↔◌, ◌⊎◌, length};
ghost use Rattle.own_walks.specs.Pairs.{BelongTo};
ghost use Rattle.own_walks.specs.Reaching.{EdgesLeadToNodes, IsOf};
ghost use Rattle.own_flow.specs.Facts.{AreRows, words_for};
ghost use Rattle.own_flow.specs.Flow.{Passed, Sized};
ghost use Rattle.own_flow.specs.Rounds.{IsAdded, IsLeft, RoundsTo};
ghost use Rattle.own_flow.specs.Words.{Has};

use crate::bits::Bits;
use crate::sweep::spread;
use own_tree::{Maker, Node};

/// The makers of a leaf, in place of what the set held.
fn fill(mask: &mut Bits, pairs: &[Maker], leaf: u32)
    requires { length mask.old ≡ words_for (length pairs.now) }
    ensures len { length mask.new ≡ length mask.old }
    ensures has { (m : ℕ) → Has mask.new m ↔ IsOf pairs.now m leaf }
{
    mask.clear();
    'pairs: for maker in 0..pairs.len() {
        if pairs[maker].leaf == leaf {
            mask.insert(maker);
        }
    }
}

/// What comes to a node, without the makers of the leaves that it makes.
fn leave(out: &mut Bits, mask: &mut Bits, row: &Bits, pairs: &[Maker], leaves: usize, node: usize)
    requires out { length out.old ≡ words_for (length pairs.now) }
    requires mask { length mask.old ≡ words_for (length pairs.now) }
    requires row { length row.now ≡ words_for (length pairs.now) }
    ensures len { length out.new ≡ length out.old }
    ensures mask_len { length mask.new ≡ length mask.old }
    ensures has { (m : ℕ) → Has out.new m ↔ IsLeft pairs.now leaves node row.now m }
{
    out.assign(row);
    'pairs: for maker in leaves..pairs.len() {
        let pair = &pairs[maker];
        if pair.node as usize == node {
            fill(mask, pairs, pair.leaf);
            out.remove(mask);
        }
    }
}

/// Adds each maker at a node to which some maker of its leaf comes.
fn add(out: &mut Bits, mask: &mut Bits, row: &Bits, pairs: &[Maker], leaves: usize, node: usize)
    requires out { length out.old ≡ words_for (length pairs.now) }
    requires mask { length mask.old ≡ words_for (length pairs.now) }
    requires row { length row.now ≡ words_for (length pairs.now) }
    ensures len { length out.new ≡ length out.old }
    ensures mask_len { length mask.new ≡ length mask.old }
    ensures has { (m : ℕ) → Has out.new m ↔ (Has out.old m ⊎ IsAdded pairs.now leaves node row.now m) }
{
    'pairs: for maker in leaves..pairs.len() {
        let pair = &pairs[maker];
        if pair.node as usize == node {
            fill(mask, pairs, pair.leaf);
            if row.meets(mask) {
                out.insert(maker);
            }
        }
    }
}

/// What a row gives behind its node.
fn pass_by_pairs(
    out: &mut Bits,
    mask: &mut Bits,
    row: &Bits,
    pairs: &[Maker],
    leaves: usize,
    node: usize,
)
    requires out { length out.old ≡ words_for (length pairs.now) }
    requires mask { length mask.old ≡ words_for (length pairs.now) }
    requires row { length row.now ≡ words_for (length pairs.now) }
    requires within { (m : ℕ) → Has row.now m → m < length pairs.now }
    ensures len { length out.new ≡ length out.old }
    ensures mask_len { length mask.new ≡ length mask.old }
    ensures passed { Passed pairs.now leaves node row.now out.new }
{
    leave(out, mask, row, pairs, leaves, node);
    add(out, mask, row, pairs, leaves, node);
}

/// Gives what each row gives behind its node to the rows of the nodes that come next, from the last node to
/// the first, and says whether one of them gained something.
pub fn round(
    nodes: &[Node],
    pairs: &[Maker],
    leaves: usize,
    out: &mut Bits,
    mask: &mut Bits,
    rows: &mut Vec<Bits>,
    waiting: &mut Vec<bool>,
) -> bool
    requires edges { EdgesLeadToNodes nodes.now }
    requires belong { BelongTo (length nodes.now) leaves pairs.now }
    requires out { length out.old ≡ words_for (length pairs.now) }
    requires mask { length mask.old ≡ words_for (length pairs.now) }
    requires count { length rows.old.items ≡ length nodes.now }
    requires rows { AreRows (length pairs.now) rows.old.items waiting.old.items }
    ensures len { length out.new ≡ length out.old }
    ensures mask_len { length mask.new ≡ length mask.old }
    ensures count { length rows.new.items ≡ length nodes.now }
    ensures rows { AreRows (length pairs.now) rows.new.items waiting.new.items }
    ensures rounds { RoundsTo pairs.now leaves nodes.now 0 rows.old.items rows.new.items result }
{
    let mut grown = false;
    let mut node = nodes.len();
    'nodes: while 0 < node {
        node -= 1;
        pass_by_pairs(out, mask, &rows[node], pairs, leaves, node);
        grown |= spread(out, nodes[node].next.as_slice(), rows, waiting);
    }
    grown
}
