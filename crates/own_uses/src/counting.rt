//! What is counted of an op tree. The walk goes as deep as the tree is nested.

ghost use Rattle.std.specs.Prelude.{◌≡◌, map};
ghost use Rattle.own_tree.specs.OpSource.{in_order};
ghost use Rattle.own_tree.specs.OpView.{op_view};
ghost use Rattle.own_paths.specs.BodyLimits.{op_count as ops_of};
ghost use Rattle.own_uses.specs.Saturating.{held};
ghost use Rattle.own_uses.specs.Tally.{of_op, of_end, of_ends, tally, weight};

use crate::measure::Measure;
use crate::tally::Tally;
use own_tree::{Op, OpTree};

impl Measure<'_> {
    /// Of an op.
    fn of_op(&self, op: &Op) -> u64
        ensures { result ≡ held (of_op self.now op.now) }
    {
        match self {
            Measure::Ops => 1,
            Measure::Makers(builder, number) => builder.op_makers(*number, op),
        }
    }

    /// Of an End of a binding.
    fn of_end(&self, binding: u32) -> u64
        ensures { result ≡ held (of_end self.now binding) }
    {
        match self {
            Measure::Ops => 1,
            Measure::Makers(builder, number) => builder.leaves_at(*number, binding, &[]),
        }
    }

    /// Of an End of each of these.
    fn of_ends(&self, bindings: &[u32]) -> u64
        ensures { result ≡ held (of_ends (of_end self.now) bindings.now) }
    {
        let mut sum = 0u64;
        for binding in bindings {
            sum = sum.saturating_add(self.of_end(*binding));
        }
        sum
    }

    /// Of a tree.
    #[cycle(tally)]
    fn tally(&self, tree: &OpTree) -> Tally
        ensures { result ≡ tally (of_op self.now) (of_end self.now) (op_view tree.now) }
    {
        match tree {
            OpTree::Op(op) => Tally::of(self.of_op(op)),
            OpTree::Seq(parts) => self.tally_all(parts.as_slice()),
            OpTree::Either(first, second) => {
                self.tally(first.get()).and(self.tally(second.get()))
            }
            OpTree::Loop(first, second) => {
                self.tally(first.get())
                    .and(self.tally(second.get()))
                    .in_loop()
            }
            OpTree::Catch(inner) => self.tally(inner.get()).in_switch(),
            OpTree::Scope(bindings, _, inner) => {
                self.tally(inner.get())
                    .in_scope(self.of_ends(bindings.as_slice()))
            }
            OpTree::Break(_) => Tally {
                breaks: 1,
                ..Tally::of(0)
            },
            OpTree::Continue(_) => Tally {
                continues: 1,
                ..Tally::of(0)
            },
            OpTree::Return(_) => Tally {
                returns: 1,
                ..Tally::of(0)
            },
            OpTree::Halt => Tally::of(0),
        }
    }

    /// Of trees, one after the other.
    #[cycle(tally)]
    fn tally_all(&self, trees: &[OpTree]) -> Tally
        ensures { result ≡ tally (of_op self.now) (of_end self.now) (in_order (map op_view trees.now)) }
    {
        let mut all = Tally::of(0);
        let mut left = trees.len();
        while 0 < left {
            left -= 1;
            all = self.tally(&trees[left]).and(all);
        }
        all
    }

    /// What a tree counts, of which a scope has an End for each way out.
    pub(crate) fn count(&self, tree: &OpTree) -> u64
        ensures { result ≡ held (weight (of_op self.now) (of_end self.now) (op_view tree.now)) }
    {
        self.tally(tree).sum
    }
}

/// The number of ops of an op tree (M10), in which an End counts once for each way out of its scope. It
/// takes no memory. A number that is larger than a `u64` holds is given as the largest.
pub fn op_count(tree: &OpTree) -> u64
    ensures { result ≡ held (ops_of (op_view tree.now)) }
{
    Measure::Ops.count(tree)
}
