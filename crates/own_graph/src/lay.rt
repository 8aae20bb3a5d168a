//! The graph of an op tree, from its end to its begin.

ghost use Rattle.std.specs.Prelude.{◌≡◌, ◌≤◌, ◌<◌, [], ◌∷◌, ◌++◌, IfOk, OnOk, drop, length, map, reverse, slice_set, vec_len};
ghost use Rattle.own_walks.specs.Graphs.{WalksAreTraces, plain, straight, within, in_catch, ends_out};
ghost use Rattle.own_tree.specs.OpSource.{in_order};
ghost use Rattle.own_tree.specs.OpView.{op_view};
ghost use Rattle.own_walks.specs.Building.{built, chained, lay as lay_spec, graph_of};
ghost use Rattle.own_graph.specs.Scopes.{ways_of, AreRound};

use crate::nodes::{
    copy_op, plain_node, push_ends, push_exit, push_fork, push_op, push_out, push_plain,
};
use crate::targets::Targets;
use own_tree::{Graph, Node, OpTree, Row, Span};
use std::alloc::{AllocError, Global};

/// The targets of the jumps of a loop's part.
fn loop_targets(scopes: &[Row<u32>], break_to: u32, continue_to: u32) -> Targets
    ensures round { AreRound scopes.now result }
    ensures ways { ways_of scopes.now result
        ≡ record { breaking = straight break_to; continuing = straight continue_to; returning = reverse scopes.now } }
{
    Targets {
        break_to,
        break_scopes: scopes.len(),
        continue_to,
        continue_scopes: scopes.len(),
    }
}

/// The targets inside a `switch`.
fn switch_targets(scopes: &[Row<u32>], to: Targets, next: u32) -> Targets
    requires { AreRound scopes.now to }
    ensures round { AreRound scopes.now result }
    ensures ways { ways_of scopes.now result ≡ in_catch (ways_of scopes.now to) next }
{
    Targets {
        break_to: next,
        break_scopes: scopes.len(),
        continue_to: to.continue_to,
        continue_scopes: to.continue_scopes,
    }
}

/// Puts a scope round what is laid.
#[tactic(auto, using(crate::proofs::LayLaws::ways_within))]
fn open_scope(
    alloc: Global,
    scopes: &mut Vec<Row<u32>>,
    bindings: &[u32],
    to: Targets,
) -> Result<(), AllocError>
    requires { AreRound scopes.old.items to }
    ensures pushed { OnOk result (scopes.new.items ≡ scopes.old.items ++ bindings.now ∷ []) }
    ensures round { OnOk result (AreRound scopes.new.items to) }
    ensures ways { OnOk result (ways_of scopes.new.items to ≡ within bindings.now (ways_of scopes.old.items to)) }
{
    let _ = to;
    let scope = Row::from_slice(alloc, bindings)?;
    scopes.push(scope)?;
    Ok(())
}

/// A jump out of the scopes from a number on.
fn jump(
    alloc: Global,
    nodes: &mut Vec<Node>,
    span: Span,
    scopes: &[Row<u32>],
    from: usize,
    to: u32,
) -> Result<u32, AllocError>
    requires { from ≤ length scopes.now }
    ensures { IfOk result (λ e. built nodes.new.items e
        ≡ chained (ends_out span (reverse (drop from scopes.now))) (built nodes.old.items to)) }
{
    push_out(alloc, nodes, span, &scopes[from..], to)
}

/// Leads a node to where its loop begins.
fn lead_back(alloc: Global, nodes: &mut Vec<Node>, back: u32, begin: u32) -> Result<u32, AllocError>
    requires { back < vec_len nodes.old }
    ensures { IfOk result (λ e. built nodes.new.items e ≡ built (slice_set nodes.old.items back (plain (begin ∷ []))) begin) }
{
    nodes[back as usize] = plain_node(alloc, &[begin])?;
    Ok(begin)
}

/// Adds the nodes of a tree before node `next`, and answers the node at which it begins.
#[cycle(lay)]
fn lay(
    alloc: Global,
    nodes: &mut Vec<Node>,
    scopes: &mut Vec<Row<u32>>,
    to: Targets,
    tree: &OpTree,
    next: u32,
) -> Result<u32, AllocError>
    requires { AreRound scopes.old.items to }
    ensures laid { IfOk result (λ e. built nodes.new.items e
        ≡ lay_spec (op_view tree.now) (ways_of scopes.old.items to) (built nodes.old.items next)) }
    ensures scopes { OnOk result (scopes.new.items ≡ scopes.old.items) }
{
    match tree {
        OpTree::Op(op) => push_op(alloc, nodes, copy_op(alloc, op)?, next),
        OpTree::Seq(items) => lay_all(alloc, nodes, scopes, to, items.as_slice(), next),
        OpTree::Either(first, second) => {
            let one = lay(alloc, nodes, scopes, to, first.get(), next)?;
            let other = lay(alloc, nodes, scopes, to, second.get(), next)?;
            push_fork(alloc, nodes, one, other)
        }
        OpTree::Loop(first, second) => {
            let back = push_plain(alloc, nodes, &[])?;
            let after = loop_targets(scopes.as_slice(), next, back);
            let middle = lay(alloc, nodes, scopes, after, second.get(), back)?;
            let before = loop_targets(scopes.as_slice(), next, middle);
            let begin = lay(alloc, nodes, scopes, before, first.get(), middle)?;
            lead_back(alloc, nodes, back, begin)
        }
        OpTree::Catch(inner) => {
            let inside = switch_targets(scopes.as_slice(), to, next);
            lay(alloc, nodes, scopes, inside, inner.get(), next)
        }
        OpTree::Scope(bindings, span, inner) => {
            let end = push_ends(alloc, nodes, *span, bindings.as_slice(), next)?;
            open_scope(alloc, scopes, bindings.as_slice(), to)?;
            let begin = lay(alloc, nodes, scopes, to, inner.get(), end)?;
            let _ = scopes.pop();
            Ok(begin)
        }
        OpTree::Break(span) => jump(
            alloc,
            nodes,
            *span,
            scopes.as_slice(),
            to.break_scopes,
            to.break_to,
        ),
        OpTree::Continue(span) => {
            jump(
                alloc,
                nodes,
                *span,
                scopes.as_slice(),
                to.continue_scopes,
                to.continue_to,
            )
        }
        OpTree::Return(span) => {
            let exit = push_exit(alloc, nodes, *span)?;
            push_out(alloc, nodes, *span, scopes.as_slice(), exit)
        }
        OpTree::Halt => push_plain(alloc, nodes, &[]),
    }
}

/// Adds the nodes of trees one after another before node `next`, from the last tree on.
#[cycle(lay)]
fn lay_all(
    alloc: Global,
    nodes: &mut Vec<Node>,
    scopes: &mut Vec<Row<u32>>,
    to: Targets,
    items: &[OpTree],
    next: u32,
) -> Result<u32, AllocError>
    requires { AreRound scopes.old.items to }
    ensures laid { IfOk result (λ e. built nodes.new.items e
        ≡ lay_spec (in_order (map op_view items.now)) (ways_of scopes.old.items to) (built nodes.old.items next)) }
    ensures scopes { OnOk result (scopes.new.items ≡ scopes.old.items) }
{
    let mut at = next;
    let mut i = items.len();
    'items: while 0 < i {
        i -= 1;
        at = lay(alloc, nodes, scopes, to, &items[i], at)?;
    }
    Ok(at)
}

/// The flow graph of an op tree. Its walks from the entry are the ways through the tree: their ops are
/// the prefixes of its traces, with any number of turns of each loop. More than 4,294,967,296 nodes, which
/// no body within the limits has, answer want of memory.
pub fn graph(alloc: Global, ops: &OpTree) -> Result<Graph, AllocError>
    ensures exact { IfOk result (λ g. built g.nodes g.entry ≡ graph_of (op_view ops.now)) }
    ensures walks { IfOk result (λ g. WalksAreTraces 0 g.nodes (op_view ops.now) g.entry) }
{
    let mut nodes = Vec::new(alloc);
    let mut scopes = Vec::new(alloc);
    let end = push_plain(alloc, &mut nodes, &[])?;
    let to = Targets {
        break_to: end,
        break_scopes: 0,
        continue_to: end,
        continue_scopes: 0,
    };
    let first = lay(alloc, &mut nodes, &mut scopes, to, ops, end)?;
    let entry = push_plain(alloc, &mut nodes, &[first])?;
    Ok(Graph {
        nodes: Row::from_vec(nodes),
        entry,
    })
}
