//! The op tree of a body that is within the limits.

ghost use Rattle.std.specs.Prelude.{◌≡◌, ℕ, ◌-◌, ◌^◌, ◌<◌, length, IfOk, IfErr, OnOk, Some, None, slice_get};
ghost use Rattle.own_tree.specs.declared.limits.TheConstants.{MOST_BODY_SLOTS};
ghost use Rattle.own_tree.specs.declared.refusal.LimitKind.TheVariants as limit;
ghost use Rattle.own_tree.specs.OpView.{op_view};
ghost use Rattle.own_tree.specs.TypedView.{program_view, body_view};
ghost use Rattle.own_table.specs.Table.{types_in};
ghost use Rattle.own_paths.specs.BodyLimits.{over, over_M9};
ghost use Rattle.own_paths.specs.Ops.{body_ops};
ghost use Rattle.own_uses.specs.Answers.{or_else, passed_by_tree, first_passed, passed_by, tree_by, IsRefusal};
ghost use Rattle.own_uses.specs.Building.{types_for, program_for};
ghost use Rattle.own_uses.specs.Saturating.{held};

use crate::builder::Builder;
use crate::counting::op_count;
use crate::error::UsesError;
use crate::measure::Measure;
use own_table::TypeTable;
use own_tree::limits::{MOST_BODY_LEAVES, MOST_BODY_MAKERS, MOST_BODY_OPS, MOST_BODY_SLOTS};
use own_tree::typed::Body;
use own_tree::{LimitKind, OpTree, Span, Typed};
use std::alloc::{AllocError, Global};

/// The limit, where a count is larger.
fn passed(which: LimitKind, largest: u64, count: u64, at: Span) -> Option<UsesError>
    requires { largest < 2 ^ 64 - 1 }
    ensures { (n : ℕ) → count ≡ held n → result ≡ or_else which (over largest n at) None }
{
    if largest < count {
        Some(UsesError::Limit { which, count, at })
    } else {
        None
    }
}

impl Builder<'_> {
    /// M9.
    fn passed_slots(&self, number: u32, body: &Body) -> Result<Option<UsesError>, AllocError>
        ensures { IfOk result (λ found. found
            ≡ or_else limit.BodySlots (over_M9 (types_for self.now) (program_for self.now) number
            (body_view body.now)) None) }
    {
        let count = self.body_slots(number, body)?;
        Ok(passed(
            LimitKind::BodySlots,
            MOST_BODY_SLOTS as u64,
            count,
            body.span,
        ))
    }

    /// The first of M10 to M12, of a body with its op tree.
    fn passed_by_tree(&self, number: u32, body: &Body, tree: &OpTree) -> Option<UsesError>
        requires { op_view tree.now ≡ body_ops (types_for self.now) (program_for self.now) (body_view body.now) }
        ensures { result ≡ passed_by_tree (types_for self.now) (program_for self.now) number (body_view body.now) }
    {
        let at = body.span;
        let ops = passed(LimitKind::BodyOps, MOST_BODY_OPS, op_count(tree), at);
        let leaves = self.body_leaves(number, self.typed.bindings.as_slice());
        let leaves = passed(LimitKind::BodyLeaves, MOST_BODY_LEAVES as u64, leaves, at);
        let makers = Measure::Makers(self, number).count(tree);
        let makers = passed(LimitKind::BodyMakers, MOST_BODY_MAKERS as u64, makers, at);
        ops.or(leaves.or(makers))
    }

    /// The op tree of the body of that number.
    fn tree_within(&self, number: u32, body: &Body) -> Result<OpTree, UsesError>
        ensures tree { IfOk result (λ tree. op_view tree ≡ body_ops (types_for self.now) (program_for self.now)
            (body_view body.now)) }
        ensures within { OnOk result (first_passed (types_for self.now) (program_for self.now) number
            (body_view body.now) ≡ None) }
        ensures err { IfErr result (IsRefusal (first_passed (types_for self.now) (program_for self.now) number
            (body_view body.now))) }
    {
        if let Some(error) = self.passed_slots(number, body)? {
            return Err(error);
        }
        let tree = self.body_ops(body)?;
        match self.passed_by_tree(number, body, &tree) {
            Some(error) => Err(error),
            None => Ok(tree),
        }
    }
}

/// The op tree of a body, by its number. `Limit` comes exactly where the body passes one of M9 (slots),
/// M10 (ops), M11 (leaves) and M12 (makers): the first of them in this order with its count, at the place
/// by which the body is named. `Memory` comes where there is none for the tree, or where more bindings
/// are numbered than a `u32` counts.
pub fn op_tree(
    alloc: Global,
    typed: &Typed,
    table: &TypeTable,
    body: u32,
) -> Result<OpTree, UsesError>
    requires { body < length typed.now.bodies }
    ensures tree { IfOk result (λ tree.
        tree_by (types_in table.now) (program_view typed.now) (slice_get (program_view typed.now).bodies body)
        ≡ Some (op_view tree)) }
    ensures within { OnOk result
        (passed_by (types_in table.now) (program_view typed.now) body (slice_get (program_view typed.now).bodies body)
        ≡ None) }
    ensures err { IfErr result
        (IsRefusal (passed_by (types_in table.now) (program_view typed.now) body
        (slice_get (program_view typed.now).bodies body))) }
{
    let builder = Builder {
        alloc,
        typed,
        table,
    };
    builder.tree_within(body, &typed.bodies.as_slice()[body as usize])
}
