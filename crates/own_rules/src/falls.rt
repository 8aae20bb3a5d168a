//! Whether a body falls off its end (F1).

ghost use Rattle.std.specs.Prelude.{◌≡◌, ◌<◌, ◌↔◌, IfOk, IsTrue, OnOk, length};
ghost use Rattle.own_tree.specs.declared.finding.Rule.TheVariants as rule;
ghost use Rattle.own_paths.specs.Fixed.{broken};
ghost use Rattle.own_paths.specs.Ops.{has_result};
ghost use Rattle.own_shapes.specs.Places.{whole};
ghost use Rattle.own_walks.specs.Reaching.{EdgesLeadToNodes};
ghost use Rattle.own_breaks.specs.Settling.{Gathers};
ghost use Rattle.own_rules.specs.Falling.{Falls, FallsHere, alone};

use crate::offer::offer;
use own_flow::reach;
use own_tree::{Finding, Graph, Maker, Makers, Place, Row, Rule, Span, Ty};
use std::alloc::{AllocError, Global};

/// No place in particular.
fn no_place(alloc: Global) -> Place
    ensures { result ≡ whole 0 }
{
    Place {
        binding: 0,
        fields: Row::new(alloc),
    }
}

/// One leaf that no op makes: its maker at the start reaches each node to which a walk comes.
fn start_alone(alloc: Global, entry: u32) -> Result<Makers, AllocError>
    ensures { IfOk result (λ m. m ≡ alone entry) }
{
    let mut leaves = Row::new(alloc);
    leaves.push(no_place(alloc))?;
    let mut pairs = Row::new(alloc);
    pairs.push(Maker {
        node: entry,
        leaf: 0,
        live: false,
    })?;
    Ok(Makers { leaves, pairs })
}

/// Whether a walk from the entry comes to the return at the closing brace.
fn falls_off(alloc: Global, graph: &Graph) -> Result<bool, AllocError>
    requires edges { EdgesLeadToNodes graph.now.nodes }
    requires entry { graph.now.entry < length graph.now.nodes }
    ensures { IfOk result (λ falls. IsTrue falls ↔ Falls graph.now) }
{
    if graph.nodes.len() < 2 {
        return Ok(false);
    }
    let makers = start_alone(alloc, graph.entry)?;
    let facts = reach(alloc, graph, &makers)?;
    Ok(facts.has(1, 0))
}

/// Whether a body gives a value.
fn has_result(ty: Ty) -> bool
    ensures { result ≡ has_result ty }
{
    match ty {
        Ty::Unit => false,
        Ty::Int | Ty::Bool | Ty::Named(_) | Ty::Fun(_) => true,
    }
}

/// Adds the end of a body with a result where it is reached: the brace is its own cause, and it names no
/// place.
pub(crate) fn push_fall(
    alloc: Global,
    found: &mut Vec<Finding>,
    graph: &Graph,
    result_type: Ty,
    close: Span,
) -> Result<(), AllocError>
    requires edges { EdgesLeadToNodes graph.now.nodes }
    requires entry { graph.now.entry < length graph.now.nodes }
    ensures { OnOk result (Gathers (FallsHere graph.now result_type close) found.old.items found.new.items) }
{
    if !has_result(result_type) {
        return Ok(());
    }
    if !falls_off(alloc, graph)? {
        return Ok(());
    }
    offer(
        found,
        Finding {
            rule: Rule::F1,
            span: close,
            place: no_place(alloc),
            cause: close,
        },
    )?;
    Ok(())
}
