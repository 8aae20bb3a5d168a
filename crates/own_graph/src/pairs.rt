//! The makers of the leaves of a body.

ghost use Rattle.std.specs.Prelude.{◌≡◌, ◌≤◌, ◌^◌, ◌++◌, IfOk, OnOk, length};
ghost use Rattle.std.specs.List.Sorted.{IsNonDecreasingBy};
ghost use Rattle.own_tree.specs.TypedSource.{TBody};
ghost use Rattle.own_tree.specs.TypedView.{program_view};
ghost use Rattle.own_paths.specs.Makers.{uses_of};
ghost use Rattle.own_table.specs.Table.{types_in};
ghost use Rattle.own_leaves.specs.Bindings.{AreTyped};
ghost use Rattle.own_walks.specs.Pairs.{covered_pairs, lives_by, node_pairs, pairs_from, starts_from};
ghost use Rattle.own_graph.specs.Makers.{AreMakersOf, ends_nothing_in};

use own_leaves::{body_leaves, covers, ends_nothing, is_maker};
use own_table::TypeTable;
use own_tree::{Binding, Graph, Maker, Makers, Node, Op, OpKind, Place, Row, Typed};
use std::alloc::{AllocError, Global};

/// Adds a maker for each leaf at the entry.
fn push_starts(pairs: &mut Row<Maker>, entry: u32, leaves: &[Place]) -> Result<(), AllocError>
    requires { length leaves.now ≤ 2 ^ 32 }
    ensures { OnOk result (pairs.new ≡ pairs.old ++ starts_from entry 0 leaves.now) }
{
    for leaf in 0..leaves.len() {
        pairs.push(Maker {
            node: entry,
            leaf: leaf as u32,
            live: false,
        })?;
    }
    Ok(())
}

/// Whether the leaves that an op of this kind makes, ends or declares have a value after it.
fn lives_by(op: &Op) -> bool
    ensures { result ≡ lives_by op.now }
{
    match op.kind {
        OpKind::Make | OpKind::Assign => true,
        OpKind::Declare
        | OpKind::Read
        | OpKind::Borrow
        | OpKind::Inout
        | OpKind::Consume
        | OpKind::Discard
        | OpKind::Capture
        | OpKind::End => false,
    }
}

/// Adds a maker for each leaf at the place of an op or below it. The leaves are in order of their
/// bindings, so that only those of the op's own are looked at.
fn push_covered(
    pairs: &mut Row<Maker>,
    leaves: &[Place],
    node: u32,
    op: &Op,
) -> Result<(), AllocError>
    requires few { length leaves.now ≤ 2 ^ 32 }
    requires sorted { IsNonDecreasingBy (λ leaf. leaf.binding) leaves.now }
    ensures { OnOk result (pairs.new ≡ pairs.old ++ covered_pairs node op.now 0 leaves.now) }
{
    let binding = op.place.binding;
    let first = leaves.partition_point(|leaf| leaf.binding < binding);
    let live = lives_by(op);
    'leaves: for leaf in first..leaves.len() {
        let place = &leaves[leaf];
        if place.binding != binding {
            return Ok(());
        }
        if covers(&op.place, place) {
            pairs.push(Maker {
                node,
                leaf: leaf as u32,
                live,
            })?;
        }
    }
    Ok(())
}

/// Adds the makers at a node.
fn push_node(
    pairs: &mut Row<Maker>,
    table: &TypeTable,
    bindings: &[Binding],
    body: u32,
    leaves: &[Place],
    node: u32,
    op: &Option<Op>,
) -> Result<(), AllocError>
    requires typed { AreTyped table.now bindings.now }
    requires few { length leaves.now ≤ 2 ^ 32 }
    requires sorted { IsNonDecreasingBy (λ leaf. leaf.binding) leaves.now }
    ensures { OnOk result (pairs.new
        ≡ pairs.old ++ node_pairs (ends_nothing_in (types_in table.now) bindings.now body) leaves.now node op.now) }
{
    match op {
        Some(op) if is_maker(op.kind) && !ends_nothing(table, bindings, body, op) => {
            push_covered(pairs, leaves, node, op)
        }
        _ => Ok(()),
    }
}

/// Adds the makers at each node, in order.
fn push_nodes(
    pairs: &mut Row<Maker>,
    table: &TypeTable,
    bindings: &[Binding],
    body: u32,
    leaves: &[Place],
    nodes: &[Node],
) -> Result<(), AllocError>
    requires typed { AreTyped table.now bindings.now }
    requires few { length leaves.now ≤ 2 ^ 32 }
    requires few_nodes { length nodes.now ≤ 2 ^ 32 }
    requires sorted { IsNonDecreasingBy (λ leaf. leaf.binding) leaves.now }
    ensures { OnOk result (pairs.new ≡ pairs.old
        ++ pairs_from (ends_nothing_in (types_in table.now) bindings.now body) leaves.now 0 nodes.now) }
{
    for (number, node) in nodes.iter().enumerate() {
        push_node(
            pairs,
            table,
            bindings,
            body,
            leaves,
            number as u32,
            &node.op,
        )?;
    }
    Ok(())
}

/// The leaves of the bindings that a body declares, and their makers at the nodes of its graph: first one
/// for each leaf at the entry, which is not live, and then, in order of the nodes, one for each leaf that
/// the op of a node makes, ends or declares. More than 4,294,967,296 leaves or nodes, which no body within
/// the limits has, answer want of memory.
pub fn makers(
    alloc: Global,
    graph: &Graph,
    typed: &Typed,
    table: &TypeTable,
    body: u32,
) -> Result<Makers, AllocError>
    requires { AreTyped table.now typed.now.bindings }
    ensures { IfOk result (λ m. (b : TBody)
        → AreMakersOf (uses_of (types_in table.now) (program_view typed.now) body b) graph.now m) }
{
    let bindings = typed.bindings.as_slice();
    let leaves = body_leaves(alloc, table, bindings, body)?;
    if leaves.len() > u32::MAX as usize || graph.nodes.len() > u32::MAX as usize {
        return Err(AllocError);
    }
    let mut pairs = Row::new(alloc);
    push_starts(&mut pairs, graph.entry, leaves.as_slice())?;
    push_nodes(
        &mut pairs,
        table,
        bindings,
        body,
        leaves.as_slice(),
        graph.nodes.as_slice(),
    )?;
    Ok(Makers { leaves, pairs })
}
