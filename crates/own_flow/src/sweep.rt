//! The visits of a worklist over rows of bits, one row for each node.

ghost use Rattle.std.specs.Prelude.{◌≡◌, ℕ, ◌*◌, ◌<◌, ◌≤◌, ◌↔◌, ◌⊎◌, [], ◌∷◌, All, IsTrue, false, length, vec_len};
ghost use Rattle.own_flow.specs.Words.{Has};
ghost use Rattle.own_flow.specs.Flow.{Spreads, Gains, Sized, AreWhole, KeepsFlows, Turns, Settles, IsWaiting, total};

use crate::bits::Bits;
use crate::made::Made;
use crate::pass::pass;
use own_tree::{Node, Row};

/// Gives bits to a node, which waits to be visited where it gains one, and says whether it did.
fn offer(out: &Bits, rows: &mut Vec<Bits>, waiting: &mut Vec<bool>, v: usize) -> bool
    requires sized { Sized (vec_len rows.old) (length out.now) rows.old.items waiting.old.items }
    requires within { v < vec_len rows.old }
    ensures spreads { Spreads out.now (v ∷ []) rows.old.items rows.new.items waiting.old.items waiting.new.items }
    ensures gains { Gains result rows.old.items rows.new.items waiting.old.items waiting.new.items }
    ensures sized { Sized (vec_len rows.old) (length out.now) rows.new.items waiting.new.items }
{
    if out.is_within(&rows[v]) {
        return false;
    }
    rows[v].join(out);
    waiting[v] = true;
    true
}

/// Gives bits to all nodes that come next, and says whether one of them gained something.
pub(crate) fn spread(
    out: &Bits,
    next: &[u32],
    rows: &mut Vec<Bits>,
    waiting: &mut Vec<bool>,
) -> bool
    requires sized { Sized (vec_len rows.old) (length out.now) rows.old.items waiting.old.items }
    requires within { All (λ v. v < vec_len rows.old) next.now }
    ensures spreads { Spreads out.now next.now rows.old.items rows.new.items waiting.old.items waiting.new.items }
    ensures gains { Gains result rows.old.items rows.new.items waiting.old.items waiting.new.items }
    ensures sized { Sized (vec_len rows.old) (length out.now) rows.new.items waiting.new.items }
{
    let mut grown = false;
    for v in next {
        grown |= offer(out, rows, waiting, *v as usize);
    }
    grown
}

/// Visits a node that waits, which then waits no longer: what its row gives goes to the nodes that come next.
fn visit(
    nodes: &[Node],
    at: &[Row<Made>],
    masks: &[Bits],
    out: &mut Bits,
    rows: &mut Vec<Bits>,
    waiting: &mut Vec<bool>,
    u: usize,
) -> bool
    requires whole { AreWhole nodes.now at.now masks.now (length out.old) }
    requires sized { Sized (length nodes.now) (length out.old) rows.old.items waiting.old.items }
    requires within { u < length nodes.now }
    ensures flows { KeepsFlows nodes.now at.now masks.now rows.old.items rows.new.items waiting.old.items waiting.new.items }
    ensures turns { Turns result u rows.old.items rows.new.items waiting.old.items waiting.new.items }
    ensures sized { Sized (length nodes.now) (length out.old) rows.new.items waiting.new.items }
    ensures len { length out.new ≡ length out.old }
{
    waiting[u] = false;
    pass(out, &rows[u], at[u].as_slice(), masks);
    spread(out, nodes[u].next.as_slice(), rows, waiting)
}

/// Visits a node if it waits.
fn turn(
    nodes: &[Node],
    at: &[Row<Made>],
    masks: &[Bits],
    out: &mut Bits,
    rows: &mut Vec<Bits>,
    waiting: &mut Vec<bool>,
    u: usize,
) -> bool
    requires whole { AreWhole nodes.now at.now masks.now (length out.old) }
    requires sized { Sized (length nodes.now) (length out.old) rows.old.items waiting.old.items }
    requires within { u < length nodes.now }
    ensures flows { KeepsFlows nodes.now at.now masks.now rows.old.items rows.new.items waiting.old.items waiting.new.items }
    ensures turns { Turns result u rows.old.items rows.new.items waiting.old.items waiting.new.items }
    ensures sized { Sized (length nodes.now) (length out.old) rows.new.items waiting.new.items }
    ensures len { length out.new ≡ length out.old }
{
    if waiting[u] {
        visit(nodes, at, masks, out, rows, waiting, u)
    } else {
        false
    }
}

/// Visits each node that waits once, from the last to the first, and says whether something was gained.
fn sweep(
    nodes: &[Node],
    at: &[Row<Made>],
    masks: &[Bits],
    out: &mut Bits,
    rows: &mut Vec<Bits>,
    waiting: &mut Vec<bool>,
) -> bool
    requires whole { AreWhole nodes.now at.now masks.now (length out.old) }
    requires sized { Sized (length nodes.now) (length out.old) rows.old.items waiting.old.items }
    ensures flows { KeepsFlows nodes.now at.now masks.now rows.old.items rows.new.items waiting.old.items waiting.new.items }
    ensures none { result ≡ false → (u : ℕ) → ¬ (IsWaiting waiting.new.items u) }
    ensures some { IsTrue result → total rows.new.items < total rows.old.items }
    ensures sized { Sized (length nodes.now) (length out.old) rows.new.items waiting.new.items }
    ensures len { length out.new ≡ length out.old }
{
    let mut grown = false;
    let mut u = nodes.len();
    'nodes: while 0 < u {
        u -= 1;
        grown |= turn(nodes, at, masks, out, rows, waiting, u);
    }
    grown
}

/// Visits nodes until none waits.
pub fn settle(
    nodes: &[Node],
    at: &[Row<Made>],
    masks: &[Bits],
    out: &mut Bits,
    rows: &mut Vec<Bits>,
    waiting: &mut Vec<bool>,
)
    requires whole { AreWhole nodes.now at.now masks.now (length out.old) }
    requires sized { Sized (length nodes.now) (length out.old) rows.old.items waiting.old.items }
    ensures flows { KeepsFlows nodes.now at.now masks.now rows.old.items rows.new.items waiting.old.items waiting.new.items }
    ensures none { (u : ℕ) → ¬ (IsWaiting waiting.new.items u) }
    ensures exact { Settles nodes.now at.now masks.now rows.old.items rows.new.items waiting.old.items }
    ensures sized { Sized (length nodes.now) (length out.old) rows.new.items waiting.new.items }
    ensures len { length out.new ≡ length out.old }
{
    'sweeps: while sweep(nodes, at, masks, out, rows, waiting) {}
}
