//! The bodies of a typed program: their limits, and their findings.

ghost use Rattle.std.specs.Prelude.{◌≡◌, ◌<◌, Some, length, slice_get, true};
ghost use Rattle.own_leaves.specs.Bindings.{AreTyped};
ghost use Rattle.own_table.specs.Table.{types_in};
ghost use Rattle.own_tree.specs.OpView.{op_view};
ghost use Rattle.own_tree.specs.TypedView.{program_view};
ghost use Rattle.own_uses.specs.Answers.{tree_by};

use crate::order::first_of_each;
use crate::text::Refused;
use own_excl::fixed_findings;
use own_reached::flow_of;
use own_rules::path_findings;
use own_scope::types::is_type;
use own_table::TypeTable;
use own_tree::limits::MOST_OPS;
use own_tree::{Binding, Finding, LimitKind, OpTree, Refusal, Row, Span, Typed};
use own_uses::{UsesError, op_count, op_tree};
use std::alloc::{AllocError, Global};

/// Whether each binding is of a type of the table. Those of a typed program are; the graphs ask for it.
fn are_typed(table: &TypeTable, bindings: &[Binding]) -> bool
    ensures { result ≡ true → AreTyped table.now bindings.now }
{
    bindings.iter().all(|binding| is_type(table, binding.ty))
}

fn uses_refusal(error: UsesError) -> Refused {
    match error {
        UsesError::Limit { which, count, at } => {
            Refused::Refusal(Refusal::Limit { which, count, at })
        }
        UsesError::Memory => Refused::Memory,
    }
}

/// What is known after some bodies: their ops, the place of the body at which these passed M13, and what
/// breaks rules in those before it.
#[derive(Drop)]
struct Judged {
    ops: u64,
    over: Option<Span>,
    found: Vec<Finding>,
}

impl Judged {
    /// Counts the ops of a body that stands at that place.
    fn count(&mut self, ops: u64, at: Span) {
        self.ops = self.ops.saturating_add(ops);
        if self.ops > MOST_OPS && self.over.is_none() {
            self.over = Some(at);
        }
    }

    fn add(&mut self, more: Row<Finding>) -> Result<(), AllocError> {
        for finding in more.into_vec() {
            self.found.push(finding)?;
        }
        Ok(())
    }
}

/// The findings of the path rules in a body, by its op tree. Its graph and facts are let go at the end.
fn paths_of(
    alloc: Global,
    tree: &OpTree,
    typed: &Typed,
    table: &TypeTable,
    body: u32,
) -> Result<Row<Finding>, AllocError>
    requires typed { AreTyped table.now typed.now.bindings }
    requires body { body < length typed.now.bodies }
    requires tree { tree_by (types_in table.now) (program_view typed.now) (slice_get (program_view typed.now).bodies body)
        ≡ Some (op_view tree.now) }
{
    let flow = flow_of(alloc, tree, typed, table, body)?;
    path_findings(
        alloc,
        &flow.graph,
        &flow.makers,
        &flow.facts,
        typed,
        table,
        body,
    )
}

/// Judges a body. Its op tree is let go at the end, so that those of all bodies never stand at once.
fn judge_body(
    alloc: Global,
    judged: &mut Judged,
    typed: &Typed,
    table: &TypeTable,
    body: u32,
) -> Result<(), Refused>
    requires typed { AreTyped table.now typed.now.bindings }
    requires body { body < length typed.now.bodies }
{
    let tree = match op_tree(alloc, typed, table, body) {
        Ok(tree) => tree,
        Err(error) => return Err(uses_refusal(error)),
    };
    judged.count(op_count(&tree), typed.bodies.as_slice()[body as usize].span);
    if judged.over.is_none() {
        judged.add(paths_of(alloc, &tree, typed, table, body)?)?;
        judged.add(fixed_findings(alloc, typed, table, body)?)?;
    }
    Ok(())
}

/// The findings of a program, or the first of M9 to M12 that a body passes, body by body, or M13.
pub(crate) fn findings(
    alloc: Global,
    typed: &Typed,
    table: &TypeTable,
) -> Result<Row<Finding>, Refused> {
    if !are_typed(table, typed.bindings.as_slice()) {
        return Err(Refused::Memory);
    }
    let Ok(count) = u32::try_from(typed.bodies.len()) else {
        return Err(Refused::Memory);
    };
    let mut judged = Judged {
        ops: 0,
        over: None,
        found: Vec::new(alloc),
    };
    for body in 0..count {
        judge_body(alloc, &mut judged, typed, table, body)?;
    }
    match judged.over {
        Some(at) => Err(Refused::Refusal(Refusal::Limit {
            which: LimitKind::Ops,
            count: judged.ops,
            at,
        })),
        None => Ok(first_of_each(alloc, judged.found)?),
    }
}
