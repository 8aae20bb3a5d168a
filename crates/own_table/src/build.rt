//! The table of the types of a text: its limits and its judgements, one after the other.

ghost use Rattle.std.specs.Prelude.{◌≡◌, ◌<◌, length, slice_get, Some, None, IfOk, IfErr, OnOk};
ghost use Rattle.own_tree.specs.declared.limits.TheConstants.{MOST_FIELDS};
ghost use Rattle.own_tree.specs.View.{tree_view};
ghost use Rattle.own_shapes.specs.Counts.{first_over};
ghost use Rattle.own_shapes.specs.Types.{declared_types, resolved_types, types_of};
ghost use Rattle.own_survey.specs.declared.survey.Judgement.TheVariants as judgement;
ghost use Rattle.own_survey.specs.Judgements.{code_of};
ghost use Rattle.own_survey.specs.Limits.{over_M4, type_names};
ghost use Rattle.own_survey.specs.Names.{Knows};
ghost use Rattle.own_table.specs.declared.error.TableError.TheVariants as refused;
ghost use Rattle.own_table.specs.Building.{HasTable, IsRefused, IsSurveyed, limit_found};
ghost use Rattle.own_table.specs.Table.{types_in};
ghost use Rattle.own_table.specs.TypeLimits.{counts_of};

use crate::error::TableError;
use crate::limit::{over_parts, over_slots, over_types, type_spans};
use crate::mark::Unordered;
use crate::measure::Unmeasured;
use crate::order::containment_order;
use crate::resolve::resolved_types;
use crate::table::TypeTable;
use own_shapes::{Counted, TypeInfo};
use own_survey::names::TypeNames;
use own_survey::text::survey;
use own_survey::{Fault, Judgement, Survey};
use own_tree::tree::Tree;
use own_tree::{LimitKind, Span};
use std::alloc::Global;

/// A limit that is passed.
fn limit(which: LimitKind, passed: Counted) -> TableError
    ensures { result ≡ refused.Limit which passed.count passed.at }
{
    TableError::Limit {
        which,
        count: passed.count,
        at: passed.at,
    }
}

/// A judgement that is false.
fn misjudged(fault: Fault) -> TableError
    ensures { result ≡ refused.BadType (code_of fault.judgement) fault.at }
{
    TableError::BadType {
        code: fault.judgement.code(),
        at: fault.at,
    }
}

/// T03 at the name of a type.
fn circular(spans: &[Span], number: u32) -> Fault
    requires { number < length spans.now }
    ensures third { result.judgement ≡ judgement.FiniteType }
    ensures at { slice_get spans.now number ≡ Some result.at }
{
    Fault {
        judgement: Judgement::FiniteType,
        at: spans[number as usize],
    }
}

/// The first limit passed of M5, M7 and M6, which are tested in this order.
fn limit_passed(types: &[TypeInfo], spans: &[Span], found: &Survey) -> Option<(LimitKind, Counted)>
    ensures { result ≡ limit_found (first_over MOST_FIELDS (counts_of types.now spans.now)) found.now }
{
    if let Some(passed) = over_parts(types, spans) {
        return Some((LimitKind::Fields, passed));
    }
    if let Some(passed) = found.taken {
        return Some((LimitKind::Parameters, passed));
    }
    match found.extra_body {
        Some(at) => {
            let count = found.bodies;
            Some((LimitKind::Bodies, Counted { count, at }))
        }
        None => None,
    }
}

/// Tests M5, M7, M6 and then the judgements but T03, of a text within M4.
fn judge(
    alloc: Global,
    tree: &Tree,
    names: &TypeNames,
    types: &[TypeInfo],
    spans: &[Span],
) -> Result<(), TableError>
    requires names { Knows names.now.types.entries (declared_types (tree_view tree.now).declarations) }
    requires types { types.now ≡ resolved_types (declared_types (tree_view tree.now).declarations) }
    requires spans { spans.now ≡ type_names (declared_types (tree_view tree.now).declarations) }
    requires few { over_M4 (tree_view tree.now) ≡ None }
    ensures ok { OnOk result (IsSurveyed (tree_view tree.now)) }
    ensures err { IfErr result (IsRefused (tree_view tree.now)) }
{
    let found = survey(alloc, names, tree)?;
    // No memory holds so many bodies that their number is cut off.
    if found.bodies == u64::MAX {
        return Err(TableError::Memory);
    }
    if let Some((which, passed)) = limit_passed(types, spans, &found) {
        return Err(limit(which, passed));
    }
    match found.fault {
        Some(fault) => Err(misjudged(fault)),
        None => Ok(()),
    }
}

impl TypeTable {
    /// The table of the types of a text. M4, M5, M7 and M6 are tested first, in this order, then the
    /// judgements T01 to T08, and M8 last. Of several false judgements the one at the earliest place is
    /// named, and T03, at a type that contains itself, where all others hold. Places are in bytes from 0.
    pub fn build(alloc: Global, tree: &Tree) -> Result<TypeTable, TableError>
        ensures ok { IfOk result (λ table. types_in table ≡ types_of (tree_view tree.now)) }
        ensures whole { OnOk result (HasTable (tree_view tree.now)) }
        ensures err { IfErr result (IsRefused (tree_view tree.now)) }
    {
        let declarations = tree.declarations.as_slice();
        let spans = type_spans(alloc, declarations)?;
        if let Some(passed) = over_types(spans.as_slice()) {
            return Err(limit(LimitKind::Types, passed));
        }
        let names = TypeNames::new(alloc, declarations)?;
        let types = resolved_types(alloc, declarations, &names)?;
        judge(alloc, tree, &names, types.as_slice(), spans.as_slice())?;
        let order = match containment_order(alloc, types.as_slice()) {
            Ok(order) => order,
            Err(Unordered::ContainsItself(number)) => {
                return Err(misjudged(circular(spans.as_slice(), number)));
            }
            Err(Unordered::Memory) => return Err(TableError::Memory),
        };
        match TypeTable::from_order(alloc, types, order.as_slice()) {
            Ok(table) => Ok(table),
            Err(Unmeasured::Over(over)) => {
                let passed = over_slots(spans.as_slice(), over);
                Err(limit(LimitKind::TypeSlots, passed))
            }
            Err(Unmeasured::Memory) => Err(TableError::Memory),
        }
    }
}
