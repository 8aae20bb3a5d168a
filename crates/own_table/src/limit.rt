//! The limits of the types of a text, M4, M5 and M8, at the names of the types.

ghost use Rattle.std.specs.Prelude.{◌≡◌, ◌≤◌, ◌<◌, ◌++◌, ◌∷◌, [], length, map, slice_get, Some, IfNone, IfOk, OnOk};
ghost use Rattle.own_tree.specs.declared.limits.TheConstants.{MOST_FIELDS, MOST_TYPES};
ghost use Rattle.own_tree.specs.View.{declaration_view};
ghost use Rattle.own_shapes.specs.Counts.{first_over, too_many};
ghost use Rattle.own_shapes.specs.Types.{declared_types};
ghost use Rattle.own_survey.specs.Limits.{type_names};
ghost use Rattle.own_table.specs.TypeLimits.{counts_of, part_count};

use crate::extent::Over;
use own_shapes::{Counted, TypeInfo};
use own_tree::limits::{MOST_FIELDS, MOST_TYPES};
use own_tree::tree::Declaration;
use own_tree::{Row, Span};
use std::alloc::{AllocError, Global};

fn push_span(spans: &mut Row<Span>, declaration: &Declaration) -> Result<(), AllocError>
    ensures { OnOk result (spans.new ≡ spans.old ++ type_names (declared_types (declaration_view declaration.now ∷ []))) }
{
    match declaration {
        Declaration::Struct(tree) => {
            spans.push(tree.name.span)?;
            Ok(())
        }
        Declaration::Enum(tree) => {
            spans.push(tree.name.span)?;
            Ok(())
        }
        Declaration::Function(_) => Ok(()),
    }
}

/// The names of the declared types in order.
pub fn type_spans(alloc: Global, declarations: &[Declaration]) -> Result<Row<Span>, AllocError>
    ensures names { IfOk result (λ spans. spans ≡ type_names (declared_types (map declaration_view declarations.now))) }
    ensures each { IfOk result (λ spans. length spans ≡ length (declared_types (map declaration_view declarations.now))) }
{
    let mut spans = Row::new(alloc);
    for declaration in declarations {
        push_span(&mut spans, declaration)?;
    }
    Ok(spans)
}

/// M4: the first type past the limit, with the number of all.
pub fn over_types(spans: &[Span]) -> Option<Counted>
    ensures first { result ≡ too_many MOST_TYPES spans.now }
    ensures few { IfNone result (length spans.now ≤ MOST_TYPES) }
{
    match spans.get(MOST_TYPES) {
        Some(at) => Some(Counted {
            count: spans.len() as u64,
            at: *at,
        }),
        None => None,
    }
}

fn part_count(info: &TypeInfo) -> usize
    ensures { result ≡ part_count info.now }
{
    if info.is_enum {
        info.cases.len()
    } else {
        info.fields.len()
    }
}

/// M5: the first type with too many stored properties or cases.
pub fn over_parts(types: &[TypeInfo], spans: &[Span]) -> Option<Counted>
    ensures { result ≡ first_over MOST_FIELDS (counts_of types.now spans.now) }
{
    let mut types = types;
    let mut spans = spans;
    'left: while let [info, types_after @ ..] = types {
        let [at, spans_after @ ..] = spans else {
            return None;
        };
        let count = part_count(info);
        if count > MOST_FIELDS {
            return Some(Counted {
                count: count as u64,
                at: *at,
            });
        }
        types = types_after;
        spans = spans_after;
    }
    None
}

/// M8: what a type that is over the limit has, at its name.
pub fn over_slots(spans: &[Span], over: Over) -> Counted
    requires { over.number < length spans.now }
    ensures count { result.count ≡ over.count }
    ensures at { slice_get spans.now over.number ≡ Some result.at }
{
    Counted {
        count: u64::from(over.count),
        at: spans[over.number as usize],
    }
}
