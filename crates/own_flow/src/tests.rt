ghost use Rattle.std.specs.Prelude.{◌≡◌, ◌<◌, ℕ, IsTrue, Some, length, slice_get};
ghost use Rattle.own_tree.specs.declared.graph.Maker.{Maker};
ghost use Rattle.own_walks.specs.Reaching.{EdgesLeadToNodes};
ghost use Rattle.own_flow.specs.Facts.{AreJoined, IsSizedFor};

use super::*;
use own_tree::{Graph, Maker, Makers, Node, Place, Row};
use std::alloc::{AllocError, Global};
use std::process::Abort;
use std::test::*;

fn are_below(next: &[u32], count: usize) -> bool
    ensures { IsTrue result → (k v : ℕ) → slice_get next.now k ≡ Some v → v < count }
{
    'next: for k in 0..next.len() {
        if next[k] as usize >= count {
            return false;
        }
    }
    true
}

fn lead_to_nodes(nodes: &[Node]) -> bool
    ensures { IsTrue result → EdgesLeadToNodes nodes.now }
{
    'nodes: for u in 0..nodes.len() {
        if !are_below(nodes[u].next.as_slice(), nodes.len()) {
            return false;
        }
    }
    true
}

fn are_starts(pairs: &[Maker], leaves: usize) -> bool
    ensures { IsTrue result → (l : ℕ) → l < leaves → (q : Maker) × (slice_get pairs.now l ≡ Some q) × (q.leaf ≡ l) }
{
    'leaves: for l in 0..leaves {
        if l >= pairs.len() || pairs[l].leaf as usize != l {
            return false;
        }
    }
    true
}

fn are_of_nodes_and_leaves(pairs: &[Maker], nodes: usize, leaves: usize) -> bool
    ensures { IsTrue result → (p : ℕ) (q : Maker) → slice_get pairs.now p ≡ Some q → (q.node < nodes) × (q.leaf < leaves) }
{
    'pairs: for p in 0..pairs.len() {
        if pairs[p].node as usize >= nodes || pairs[p].leaf as usize >= leaves {
            return false;
        }
    }
    true
}

/// Whether they are as `reach` and `advance` ask.
fn are_joined(graph: &Graph, makers: &Makers) -> bool
    ensures { IsTrue result → AreJoined graph.now makers.now }
{
    let nodes = graph.nodes.as_slice();
    let pairs = makers.pairs.as_slice();
    let leaves = makers.leaves.len();
    if !lead_to_nodes(nodes) {
        return false;
    }
    if graph.entry as usize >= nodes.len() {
        return false;
    }
    if !are_starts(pairs, leaves) {
        return false;
    }
    are_of_nodes_and_leaves(pairs, nodes.len(), leaves)
}

/// Stops where they are not.
fn join(rt: &impl Abort, graph: &Graph, makers: &Makers)
    ensures { AreJoined graph.now makers.now }
{
    assert!(rt; are_joined(graph, makers));
}

fn graph_of(alloc: Global, next: &[&[u32]], entry: u32) -> Result<Graph, AllocError> {
    let mut nodes = Row::new(alloc);
    for ways in next {
        nodes.push(Node {
            op: None,
            exit: None,
            next: Row::from_slice(alloc, *ways)?,
        })?;
    }
    Ok(Graph { nodes, entry })
}

/// Makers of so many leaves: one for each at the entry, and then these, by their nodes and leaves.
fn makers_of(
    alloc: Global,
    leaves: u32,
    entry: u32,
    made: &[(u32, u32)],
) -> Result<Makers, AllocError> {
    let mut places = Row::new(alloc);
    let mut pairs = Row::new(alloc);
    for leaf in 0..leaves {
        places.push(Place {
            binding: leaf,
            fields: Row::new(alloc),
        })?;
        pairs.push(Maker {
            node: entry,
            leaf,
            live: false,
        })?;
    }
    for (node, leaf) in made {
        pairs.push(Maker {
            node: *node,
            leaf: *leaf,
            live: true,
        })?;
    }
    Ok(Makers {
        leaves: places,
        pairs,
    })
}

/// Whether these makers reach a node, and no others.
fn expect(rt: &impl Abort, facts: &Facts, nodes: usize, makers: u32, node: u32, wanted: &[u32])
    requires sized { IsSizedFor nodes makers facts.now }
    requires within { node < nodes }
{
    for maker in 0..makers {
        assert_eq!(rt;
            facts.has(node, maker),
            wanted.contains(&maker),
            "maker {maker} at node {node}"
        );
    }
}

/// For each node the nodes that may come next; the entry; the number of leaves; the makers, by their nodes
/// and leaves; and for each node the makers that reach it.
type Reached<'r> = (&'r [&'r [u32]], u32, u32, &'r [(u32, u32)], &'r [&'r [u32]]);

/// `let f = File(fd: 1); var i = 0; while i < 2 { take(f); i += 1 }`, from its end to its begin: the return
/// at the brace, the Ends of `f` and `i`, the way back, the Assign, the Read and the Consume in the loop, its
/// condition, and the Makes of `i` and `f`. Leaf 0 is `f`. Maker 5, the Consume, reaches itself at node 7.
const TAKEN_IN_A_LOOP: Reached<'static> = (
    &[
        &[],
        &[],
        &[1],
        &[2],
        &[9],
        &[4],
        &[5],
        &[6],
        &[7, 3],
        &[8],
        &[9],
        &[10],
        &[11],
    ],
    12,
    2,
    &[(2, 0), (3, 1), (5, 1), (7, 0), (10, 1), (11, 0)],
    &[
        &[],
        &[2, 3],
        &[7, 5, 3],
        &[7, 5, 6, 4],
        &[5, 4],
        &[5, 6, 4],
        &[5, 6, 4],
        &[7, 5, 6, 4],
        &[7, 5, 6, 4],
        &[7, 5, 6, 4],
        &[7, 1],
        &[0, 1],
        &[0, 1],
    ],
);

/// A node to which nothing leads is reached by no maker, and a body without leaves has none.
const APART: Reached<'static> = (&[&[], &[0], &[0]], 2, 1, &[(1, 0)], &[&[0], &[], &[0]]);

const NO_LEAVES: Reached<'static> = (&[&[], &[0]], 1, 0, &[], &[&[], &[]]);

fn answers(rt: &impl Abort, alloc: Global, row: Reached<'_>) -> Result<(), Fail> {
    let (next, entry, leaves, made, wanted) = row;
    let graph = graph_of(alloc, next, entry)?;
    let makers = makers_of(alloc, leaves, entry, made)?;
    join(rt, &graph, &makers);
    let count = makers.pairs.len();
    assert!(rt; count < 100);
    let facts = reach(alloc, &graph, &makers)?;
    for (node, reaching) in wanted.iter().enumerate() {
        assert!(rt; node < graph.nodes.len() && node < 100);
        expect(
            rt,
            &facts,
            graph.nodes.len(),
            count as u32,
            node as u32,
            *reaching,
        );
    }
    Ok(())
}

#[test]
fn a_consume_in_a_loop_reaches_itself(rt: HostRuntime) -> Result<(), Fail> {
    answers(&rt, rt.alloc(), TAKEN_IN_A_LOOP)
}

#[test]
fn what_nothing_leads_to_is_not_reached(rt: HostRuntime) -> Result<(), Fail> {
    answers(&rt, rt.alloc(), APART)?;
    answers(&rt, rt.alloc(), NO_LEAVES)
}

#[test]
fn a_round_adds_what_an_edge_gives(rt: HostRuntime) -> Result<(), Fail> {
    let alloc = rt.alloc();
    let without_edge = graph_of(alloc, &[&[], &[0], &[]], 2)?;
    let with_edge = graph_of(alloc, &[&[], &[0], &[1]], 2)?;
    let makers = makers_of(alloc, 1, 2, &[(1, 0)])?;
    join(&rt, &without_edge, &makers);
    join(&rt, &with_edge, &makers);
    assert!(rt; with_edge.nodes.len() == 3 && without_edge.nodes.len() == 3);
    assert!(rt; makers.pairs.len() == 2);
    let mut facts = reach(alloc, &without_edge, &makers)?;
    assert!(rt; !advance(&mut facts, &without_edge, &makers));
    expect(&rt, &facts, 3, 2, 0, &[]);
    assert!(rt; advance(&mut facts, &with_edge, &makers));
    expect(&rt, &facts, 3, 2, 0, &[1]);
    expect(&rt, &facts, 3, 2, 1, &[0]);
    assert!(rt; !advance(&mut facts, &with_edge, &makers));
    Ok(())
}
