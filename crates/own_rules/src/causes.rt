//! The cause of a break: the op that made or ended a leaf last.

ghost use Rattle.std.specs.Prelude.{◌≡◌, ◌<◌, length};
ghost use Rattle.own_breaks.specs.Blaming.{cause_of};
ghost use Rattle.own_rules.specs.Bodies.{CauseIn, IsLeast, IsWhole, earlier};

use crate::asks::blames;
use crate::body::Body;
use crate::order::span_order;
use own_tree::{Maker, Rule, Span};
use std::cmp::Ordering;

/// Of two causes, each of which may be missing, the one of less position.
fn earlier(first: Option<Span>, second: Option<Span>) -> Option<Span>
    ensures { result ≡ earlier first second }
{
    match (first, second) {
        (Some(a), Some(b)) if span_order(b, a) == Ordering::Less => Some(b),
        (Some(a), _) => Some(a),
        (None, b) => b,
    }
}

impl Body<'_> {
    /// The op of a maker, where a leaf that it made or ended last breaks the rule.
    fn cause_of(&self, rule: Rule, pair: &Maker) -> Option<Span>
        ensures { result ≡ cause_of self.now.nodes.now rule pair.now }
    {
        let by = self.nodes.get(pair.node as usize)?.op.as_ref()?;
        if blames(rule, by.kind) {
            Some(by.span)
        } else {
            None
        }
    }

    /// Of the makers of a leaf that reach a node and break the rule the one of least position.
    pub(crate) fn least_cause(&self, rule: Rule, node: u32, leaf: usize) -> Option<Span>
        requires whole { IsWhole self.now }
        requires node { node < length self.now.nodes.now }
        requires leaf { leaf < length self.now.leaves.now }
        ensures { IsLeast (CauseIn self.now rule node leaf) result }
    {
        let makers = self.by_leaf[leaf].as_slice();
        let mut least = None;
        'makers: for k in 0..makers.len() {
            if self.facts.has(node, makers[k]) {
                let pair = &self.pairs[makers[k] as usize];
                least = earlier(least, self.cause_of(rule, pair));
            }
        }
        least
    }
}
