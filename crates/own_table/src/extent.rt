//! The slots of types, from those of what they contain (M8).

ghost use Rattle.std.specs.Prelude.{◌≡◌, ◌+◌, ◌*◌, ◌≤◌, ◌<◌, All, length, Some, None, IfOk, IfSome, OnSome};
ghost use Rattle.own_tree.specs.declared.limits.TheConstants.{MOST_FIELDS, MOST_PARAMETERS, MOST_TYPES, MOST_TYPE_SLOTS};
ghost use Rattle.own_shapes.specs.Types.{NoneContainsItself, PartsAreTypes, field_types};
ghost use Rattle.own_table.specs.Extents.{HasFewParts, HaveFewParts, AreKnown, IsSmall, part_slots, sum_of_parts, most_of_cases, slots_by_parts, kept_within, beyond_M8, first_over_M8};
ghost use Rattle.own_table.specs.Order.{IsContainmentOrder};

use own_shapes::{CaseInfo, FieldInfo, TypeInfo};
use own_tree::Ty;
use own_tree::limits::MOST_TYPE_SLOTS;
use std::alloc::{AllocError, Global};

/// A type that is over M8 while all that it contains is within.
#[derive(Clone, Copy, Debug, PartialEq, Eq)]
pub struct Over {
    /// The number of the type.
    pub number: u32,
    /// Its slots.
    pub count: u32,
}

/// The slots of a part, if it is within M8.
fn part_slots(ty: Ty, known: &[Option<u32>]) -> Option<u32>
    requires { All IsSmall known.now }
    ensures value { result ≡ part_slots known.now ty }
    ensures small { IfSome result (λ n. n ≤ MOST_TYPE_SLOTS) }
{
    match ty {
        Ty::Int | Ty::Bool => Some(1),
        Ty::Unit => Some(0),
        Ty::Fun(_) => Some(2),
        Ty::Named(k) => match known.get(k as usize) {
            Some(slots) => *slots,
            None => None,
        },
    }
}

fn payloads_slots(payloads: &[Ty], known: &[Option<u32>]) -> Option<u32>
    requires few { length payloads.now ≤ MOST_PARAMETERS }
    requires small { All IsSmall known.now }
    ensures value { result ≡ sum_of_parts known.now payloads.now }
    ensures small { IfSome result (λ n. n ≤ MOST_TYPE_SLOTS * MOST_PARAMETERS) }
{
    let mut sum = 0;
    for ty in payloads {
        match part_slots(*ty, known) {
            Some(slots) => sum += slots,
            None => return None,
        }
    }
    Some(sum)
}

fn fields_slots(fields: &[FieldInfo], known: &[Option<u32>]) -> Option<u32>
    requires few { length fields.now ≤ MOST_FIELDS }
    requires small { All IsSmall known.now }
    ensures value { result ≡ sum_of_parts known.now (field_types fields.now) }
    ensures small { IfSome result (λ n. n ≤ MOST_TYPE_SLOTS * MOST_FIELDS) }
{
    let mut sum = 0;
    for field in fields {
        match part_slots(field.ty, known) {
            Some(slots) => sum += slots,
            None => return None,
        }
    }
    Some(sum)
}

fn cases_slots(cases: &[CaseInfo], known: &[Option<u32>]) -> Option<u32>
    requires few { All (λ c. length c.payloads ≤ MOST_PARAMETERS) cases.now }
    requires small { All IsSmall known.now }
    ensures value { result ≡ most_of_cases known.now cases.now }
    ensures small { IfSome result (λ n. n ≤ MOST_TYPE_SLOTS * MOST_PARAMETERS) }
{
    let mut most = 0u32;
    for case in cases {
        match payloads_slots(case.payloads.as_slice(), known) {
            Some(slots) => most = most.max(slots),
            None => return None,
        }
    }
    Some(most)
}

/// The slots of a type all parts of which are within M8.
fn type_slots(info: &TypeInfo, known: &[Option<u32>]) -> Option<u32>
    requires few { HasFewParts info.now }
    requires small { All IsSmall known.now }
    ensures value { result ≡ slots_by_parts known.now info.now }
{
    if info.is_enum {
        let most = cases_slots(info.cases.as_slice(), known)?;
        Some(1 + most)
    } else {
        let own = info.has_deinit || info.fields.is_empty();
        let sum = fields_slots(info.fields.as_slice(), known)?;
        Some(u32::from(own) + sum)
    }
}

fn kept_within(slots: Option<u32>) -> Option<u32>
    ensures { result ≡ kept_within slots }
{
    match slots {
        Some(n) if n <= MOST_TYPE_SLOTS => Some(n),
        _ => None,
    }
}

fn beyond_limit(slots: Option<u32>) -> Option<u32>
    ensures { result ≡ beyond_M8 slots }
{
    match slots {
        Some(n) if n > MOST_TYPE_SLOTS => Some(n),
        _ => None,
    }
}

/// The slots of each type that is within M8.
pub fn known_slots(
    alloc: Global,
    types: &[TypeInfo],
    order: &[u32],
) -> Result<Vec<Option<u32>>, AllocError>
    requires few { HaveFewParts types.now }
    requires order { IsContainmentOrder types.now order.now }
    ensures { IfOk result (λ known. AreKnown types.now known.items) }
{
    let mut known = vec![in alloc; None; types.len()]?;
    for number in order {
        let slots = type_slots(&types[*number as usize], known.as_slice());
        known[*number as usize] = kept_within(slots);
    }
    Ok(known)
}

/// The first type in the text that is over M8 while all that it contains is within.
pub fn first_over(types: &[TypeInfo], known: &[Option<u32>]) -> Option<Over>
    requires declared { length types.now ≤ MOST_TYPES }
    requires few { HaveFewParts types.now }
    requires apart { NoneContainsItself types.now }
    requires closed { PartsAreTypes types.now }
    requires known { AreKnown types.now known.now }
    ensures { result ≡ first_over_M8 types.now }
{
    for (number, info) in types.iter().enumerate() {
        if let Some(count) = beyond_limit(type_slots(info, known)) {
            return Some(Over {
                number: number as u32,
                count,
            });
        }
    }
    None
}
