//! The open scopes of a body.

use own_tree::{Place, Placement, Plan, Row, Span};
use std::alloc::{AllocError, Global};

/// An open scope of a body, with its bindings. It is spent by `close`.
pub struct Scope {
    body: u32,
    bindings: Row<u32>,
}

impl Scope {
    /// The scope of these bindings of a body. Takes no memory.
    pub fn open(body: u32, bindings: Row<u32>) -> Scope {
        Scope { body, bindings }
    }

    /// The plans of the Ends of these bindings at the way out with that span. The last binding comes first,
    /// and the leaves of one binding are in order.
    pub fn plans(
        &self,
        alloc: Global,
        placement: &Placement,
        at: Span,
    ) -> Result<Row<Plan>, AllocError> {
        let mut found = Row::new(alloc);
        for binding in self.bindings.as_slice().iter().rev() {
            push_plans(alloc, &mut found, placement, self.body, *binding, at)?;
        }
        Ok(found)
    }

    /// Spends the scope and gives the bindings back. Takes no memory.
    pub fn close(self) -> Row<u32> {
        let Scope {
            body: _body,
            bindings,
        } = self;
        bindings
    }
}

/// A plan of its own.
fn copy_of(alloc: Global, plan: &Plan) -> Result<Plan, AllocError> {
    let fields = Row::from_slice(alloc, plan.leaf.fields.as_slice())?;
    Ok(Plan {
        body: plan.body,
        at: plan.at,
        leaf: Place {
            binding: plan.leaf.binding,
            fields,
        },
        how: plan.how,
    })
}

/// Adds the plans of a binding of a body at a span.
fn push_plans(
    alloc: Global,
    found: &mut Row<Plan>,
    placement: &Placement,
    body: u32,
    binding: u32,
    at: Span,
) -> Result<(), AllocError> {
    for plan in placement.plans.as_slice() {
        if plan.body == body && plan.at == at && plan.leaf.binding == binding {
            found.push(copy_of(alloc, plan)?)?;
        }
    }
    Ok(())
}
