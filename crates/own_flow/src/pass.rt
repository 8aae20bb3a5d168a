//! What a row gives behind its node.

ghost use Rattle.std.specs.Prelude.{◌≡◌, ℕ, ◌/◌, ◌<◌, ◌↔◌, ◌⊎◌, Contains, length, slice_index_or};
ghost use Rattle.own_flow.specs.Words.{Has};
ghost use Rattle.own_flow.specs.Flow.{Behind, Fits, IsKept, Meet, mask_of};

use crate::bits::Bits;
use crate::made::Made;

/// Adds a maker where a maker of its leaf comes to the node.
fn put(out: &mut Bits, row: &Bits, mask: &Bits, maker: usize)
    requires within { maker / 64 < length out.old }
    requires long { length row.now ≡ length mask.now }
    ensures len { length out.new ≡ length out.old }
    ensures has { (m : ℕ) → Has out.new m ↔ (Has out.old m ⊎ ((m ≡ maker) × Meet row.now mask.now)) }
{
    if row.meets(mask) {
        out.insert(maker);
    }
}

/// What comes to the node, without the makers of leaves that the node makes.
fn keep(out: &mut Bits, row: &Bits, made: &[Made], masks: &[Bits])
    requires len { length out.old ≡ length row.now }
    requires fits { Fits (length row.now) made.now masks.now }
    ensures len { length out.new ≡ length row.now }
    ensures has { (m : ℕ) → Has out.new m ↔ IsKept row.now made.now masks.now m }
{
    out.assign(row);
    for x in made {
        out.remove(&masks[x.leaf as usize]);
    }
}

/// What a row gives behind its node.
pub fn pass(out: &mut Bits, row: &Bits, made: &[Made], masks: &[Bits])
    requires len { length out.old ≡ length row.now }
    requires fits { Fits (length row.now) made.now masks.now }
    ensures len { length out.new ≡ length row.now }
    ensures behind { Behind row.now made.now masks.now out.new }
{
    keep(out, row, made, masks);
    for x in made {
        put(out, row, &masks[x.leaf as usize], x.maker);
    }
}
