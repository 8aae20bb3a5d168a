//! Nodes that are added at the end of a graph.

ghost use Rattle.std.specs.Prelude.{◌≡◌, [], ◌∷◌, IfOk, reverse};
ghost use Rattle.own_paths.specs.Traces.{ends_at};
ghost use Rattle.own_walks.specs.Building.{built, pushed, chained, forked};
ghost use Rattle.own_walks.specs.Graphs.{plain, doing, leaving, ends_out};

use own_tree::{Node, Op, OpKind, Place, Row, Span};
use std::alloc::{AllocError, Global};

/// Adds a node, and answers its number.
pub(crate) fn push(nodes: &mut Vec<Node>, node: Node) -> Result<u32, AllocError>
    ensures { IfOk result (λ e. built nodes.new.items e ≡ pushed node nodes.old.items) }
{
    let at = nodes.len();
    if at > u32::MAX as usize {
        return Err(AllocError);
    }
    nodes.push(node)?;
    Ok(at as u32)
}

/// A node without op, and what comes next.
pub(crate) fn plain_node(alloc: Global, next: &[u32]) -> Result<Node, AllocError>
    ensures { IfOk result (λ node. node ≡ plain next.now) }
{
    Ok(Node {
        op: None,
        exit: None,
        next: Row::from_slice(alloc, next)?,
    })
}

/// Adds a node without op.
pub(crate) fn push_plain(
    alloc: Global,
    nodes: &mut Vec<Node>,
    next: &[u32],
) -> Result<u32, AllocError>
    ensures { IfOk result (λ e. built nodes.new.items e ≡ pushed (plain next.now) nodes.old.items) }
{
    let node = plain_node(alloc, next)?;
    push(nodes, node)
}

/// Adds the node of an op.
pub(crate) fn push_op(
    alloc: Global,
    nodes: &mut Vec<Node>,
    op: Op,
    next: u32,
) -> Result<u32, AllocError>
    ensures { IfOk result (λ e. built nodes.new.items e ≡ pushed (doing op next) nodes.old.items) }
{
    let node = Node {
        op: Some(op),
        exit: None,
        next: Row::from_slice(alloc, &[next])?,
    };
    push(nodes, node)
}

/// Adds the node of a return.
pub(crate) fn push_exit(alloc: Global, nodes: &mut Vec<Node>, span: Span) -> Result<u32, AllocError>
    ensures { IfOk result (λ e. built nodes.new.items e ≡ pushed (leaving span) nodes.old.items) }
{
    let node = Node {
        op: None,
        exit: Some(span),
        next: Row::new(alloc),
    };
    push(nodes, node)
}

/// A copy of an op.
pub(crate) fn copy_op(alloc: Global, op: &Op) -> Result<Op, AllocError>
    ensures { IfOk result (λ o. o ≡ op.now) }
{
    Ok(Op {
        kind: op.kind,
        place: Place {
            binding: op.place.binding,
            fields: Row::from_slice(alloc, op.place.fields.as_slice())?,
        },
        span: op.span,
        node: op.node,
    })
}

/// Adds the Ends of a scope, the last binding first.
pub(crate) fn push_ends(
    alloc: Global,
    nodes: &mut Vec<Node>,
    span: Span,
    bindings: &[u32],
    next: u32,
) -> Result<u32, AllocError>
    ensures { IfOk result (λ e. built nodes.new.items e ≡ chained (ends_at span bindings.now) (built nodes.old.items next)) }
{
    let mut at = next;
    for b in bindings {
        let end = Op {
            kind: OpKind::End,
            place: Place {
                binding: *b,
                fields: Row::new(alloc),
            },
            span,
            node: 0,
        };
        at = push_op(alloc, nodes, end, at)?;
    }
    Ok(at)
}

/// Adds the Ends of the scopes that a jump leaves. The outermost of these is the first here, and the last
/// to end.
pub(crate) fn push_out(
    alloc: Global,
    nodes: &mut Vec<Node>,
    span: Span,
    scopes: &[Row<u32>],
    next: u32,
) -> Result<u32, AllocError>
    ensures { IfOk result (λ e. built nodes.new.items e
        ≡ chained (ends_out span (reverse scopes.now)) (built nodes.old.items next)) }
{
    let mut at = next;
    for scope in scopes {
        at = push_ends(alloc, nodes, span, scope.as_slice(), at)?;
    }
    Ok(at)
}

/// Adds a node after which two may come, or none where both are one.
pub(crate) fn push_fork(
    alloc: Global,
    nodes: &mut Vec<Node>,
    first: u32,
    second: u32,
) -> Result<u32, AllocError>
    ensures { IfOk result (λ e. built nodes.new.items e ≡ forked first second nodes.old.items) }
{
    if first == second {
        Ok(first)
    } else {
        push_plain(alloc, nodes, &[first, second])
    }
}
