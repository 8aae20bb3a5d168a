//! The flow of a body.

ghost use Rattle.std.specs.Prelude.{◌≡◌, ℕ, ◌↔◌, IfOk};
ghost use Rattle.own_tree.specs.OpView.{op_view};
ghost use Rattle.own_tree.specs.TypedSource.{TBody};
ghost use Rattle.own_tree.specs.TypedView.{program_view};
ghost use Rattle.own_table.specs.Table.{types_in};
ghost use Rattle.own_paths.specs.Makers.{uses_of};
ghost use Rattle.own_walks.specs.Building.{built, graph_of};
ghost use Rattle.own_walks.specs.Graphs.{WalksAreTraces};
ghost use Rattle.own_leaves.specs.Bindings.{AreTyped};
ghost use Rattle.own_graph.specs.Makers.{AreMakersOf};
ghost use Rattle.own_flow.specs.Facts.{AreFactsOf, IsFactAt};
ghost use Rattle.own_reached.specs.LastMakers.{IsLastOnTrace};

use own_flow::{Facts, reach};
use own_graph::{graph, makers};
use own_table::TypeTable;
use own_tree::{Graph, Makers, OpTree, Typed};
use std::alloc::{AllocError, Global};

/// The graph of a body, the makers of its leaves, and which of them reach which nodes.
#[derive(Debug, Drop)]
pub struct Flow {
    pub graph: Graph,
    pub makers: Makers,
    pub facts: Facts,
}

/// The flow of the body of that number, by its op tree. Its facts say of each node and each maker whether
/// some trace comes to the node on which that maker is the last of its leaf.
pub fn flow_of(
    alloc: Global,
    tree: &OpTree,
    typed: &Typed,
    table: &TypeTable,
    body: u32,
) -> Result<Flow, AllocError>
    requires { AreTyped table.now typed.now.bindings }
    ensures exact { IfOk result (λ flow. built flow.graph.nodes flow.graph.entry ≡ graph_of (op_view tree.now)) }
    ensures walks { IfOk result (λ flow. WalksAreTraces 0 flow.graph.nodes (op_view tree.now) flow.graph.entry) }
    ensures makers { IfOk result (λ flow. (b : TBody)
        → AreMakersOf (uses_of (types_in table.now) (program_view typed.now) body b) flow.graph flow.makers) }
    ensures facts { IfOk result (λ flow. AreFactsOf flow.graph flow.makers flow.facts) }
    ensures traces { IfOk result (λ flow. (v p : ℕ) → IsFactAt flow.facts v p
        ↔ IsLastOnTrace (op_view tree.now) flow.graph flow.makers v p) }
{
    let graph = graph(alloc, tree)?;
    let makers = makers(alloc, &graph, typed, table, body)?;
    let facts = reach(alloc, &graph, &makers)?;
    Ok(Flow {
        graph,
        makers,
        facts,
    })
}
