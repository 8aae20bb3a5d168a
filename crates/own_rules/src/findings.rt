//! The findings of the path rules of a body.

ghost use Rattle.std.specs.Prelude.{◌≡◌, ◌<◌, IfOk, Some, length, slice_get};
ghost use Rattle.own_tree.specs.TypedSource.{TBody};
ghost use Rattle.own_tree.specs.TypedView.{program_view};
ghost use Rattle.own_paths.specs.Findings.{ArePathFindings};
ghost use Rattle.own_paths.specs.Makers.{uses_of};
ghost use Rattle.own_table.specs.Table.{types_in};
ghost use Rattle.own_leaves.specs.Bindings.{AreTyped};
ghost use Rattle.own_rules.specs.Flow.{IsFlowOf};

use crate::best::best;
use crate::body::Body;
use crate::by_leaf::by_leaf;
use crate::falls::push_fall;
use own_flow::Facts;
use own_table::TypeTable;
use own_tree::{Finding, Graph, Makers, Row, Typed};
use std::alloc::{AllocError, Global};

/// The findings of the rules O1 to O6 and F1 of a body, each with its least cause, in order of their spans,
/// then of their rules, then of their places. More than 4,294,967,295 nodes or makers, which no body within
/// the limits has, answer want of memory.
pub fn path_findings(
    alloc: Global,
    graph: &Graph,
    makers: &Makers,
    facts: &Facts,
    typed: &Typed,
    table: &TypeTable,
    body: u32,
) -> Result<Row<Finding>, AllocError>
    requires typed { AreTyped table.now typed.now.bindings }
    requires body { body < length typed.now.bodies }
    requires flow { (b : TBody) → slice_get (program_view typed.now).bodies body ≡ Some b
        → IsFlowOf (uses_of (types_in table.now) (program_view typed.now) body b) graph.now makers.now facts.now }
    ensures { IfOk result (λ findings. (b : TBody) → slice_get (program_view typed.now).bodies body ≡ Some b
        → ArePathFindings (uses_of (types_in table.now) (program_view typed.now) body b) findings) }
{
    let source = &typed.bodies.as_slice()[body as usize];
    let nodes = graph.nodes.as_slice();
    let pairs = makers.pairs.as_slice();
    if nodes.len() > u32::MAX as usize || pairs.len() > u32::MAX as usize {
        return Err(AllocError);
    }
    let lists = by_leaf(alloc, makers.leaves.len(), pairs)?;
    let asked = Body {
        nodes,
        leaves: makers.leaves.as_slice(),
        pairs,
        facts,
        by_leaf: lists.as_slice(),
        bindings: typed.bindings.as_slice(),
        table,
        discards: source.discards,
    };
    let mut found = asked.all_breaks(alloc)?;
    push_fall(alloc, &mut found, graph, source.result, source.close)?;
    best(alloc, found)
}
