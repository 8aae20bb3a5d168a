//! The facts of a body: which makers reach which nodes.

ghost use Rattle.std.specs.Prelude.{◌≡◌, ◌<◌, [], false, IfOk, length, slice_index_or};
ghost use Rattle.own_flow.specs.Facts.{AreFactsOf, AreJoined, IsSizedFor};
ghost use Rattle.own_flow.specs.Rounds.{IsRound};

use crate::bits::Bits;
use crate::round::round;
use crate::sweep::settle;
use crate::tables::{first_rows, makers_at, masks};
use own_tree::{Graph, Makers};
use std::alloc::{AllocError, Global};
use std::marker::Model;

/// Which makers of leaves reach which nodes of a graph. A contract sees one list for each node, with one
/// truth value for each maker.
#[derive(Debug, Drop)]
pub struct Facts {
    makers: usize,
    rows: Vec<Bits>,
    /// The nodes that wait to be visited.
    waiting: Vec<bool>,
    /// What a row gives behind its node.
    out: Bits,
    /// The makers of one leaf.
    mask: Bits,
}

impl Model for Facts {
    ghost use Rattle.std.specs.Prelude.{◌≡◌, Bool, List, length};
    ghost use Rattle.own_flow.specs.Facts.{AreRows, facts_in, words_for};

    ghost Value = { List (List Bool) };

    ghost view = { λ f. facts_in f.makers f.rows.items };

    ghost invariant = { λ f. AreRows f.makers f.rows.items f.waiting.items
        × (length f.out ≡ words_for f.makers) × (length f.mask ≡ words_for f.makers) };
}

impl Facts {
    /// Whether a maker reaches a node: some walk from the entry comes there on which that maker is the last
    /// of its leaf.
    pub fn has(&self, node: u32, maker: u32) -> bool
        requires node { node < length self.now }
        requires maker { maker < length (slice_index_or self.now node []) }
        ensures { result ≡ slice_index_or (slice_index_or self.now node []) maker false }
    {
        self.rows[node as usize].has(maker as usize)
    }
}

/// The facts of a graph and the makers at its nodes.
pub fn reach(alloc: Global, graph: &Graph, makers: &Makers) -> Result<Facts, AllocError>
    requires { AreJoined graph.now makers.now }
    ensures { IfOk result (AreFactsOf graph.now makers.now) }
{
    let nodes = graph.nodes.as_slice();
    let pairs = makers.pairs.as_slice();
    let leaves = makers.leaves.len();
    let entry = graph.entry as usize;
    let words = pairs.len() / 64 + 1;
    let at = makers_at(alloc, nodes.len(), leaves, pairs)?;
    let masks = masks(alloc, leaves, words, pairs)?;
    let mut rows = first_rows(alloc, nodes.len(), entry, leaves, words)?;
    let mut out = Bits::new(alloc, words)?;
    let mask = Bits::new(alloc, words)?;
    let mut waiting = vec![in alloc; false; nodes.len()]?;
    waiting[entry] = true;
    settle(
        nodes,
        at.as_slice(),
        masks.as_slice(),
        &mut out,
        &mut rows,
        &mut waiting,
    );
    Ok(Facts {
        makers: pairs.len(),
        rows,
        waiting,
        out,
        mask,
    })
}

/// One round over the edges of the graph, in any facts of these sizes, in the rows that `reach` has taken. It
/// keeps each fact, and adds those that an edge gives from facts; it answers whether it added one.
pub fn advance(facts: &mut Facts, graph: &Graph, makers: &Makers) -> bool
    requires joined { AreJoined graph.now makers.now }
    requires sized { IsSizedFor (length graph.now.nodes) (length makers.now.pairs) facts.old }
    ensures sized { IsSizedFor (length graph.now.nodes) (length makers.now.pairs) facts.new }
    ensures round { IsRound graph.now makers.now facts.old facts.new result }
{
    round(
        graph.nodes.as_slice(),
        makers.pairs.as_slice(),
        makers.leaves.len(),
        &mut facts.out,
        &mut facts.mask,
        &mut facts.rows,
        &mut facts.waiting,
    )
}
