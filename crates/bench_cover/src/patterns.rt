//! The patterns of a problem.

use crate::kind::Kind;
use crate::types::{BRANCHES, LEVELS};
use own_tree::TPattern;
use own_tree::limits::MOST_PARAMETERS;
use rand::rngs::SmallRng;
use rand::seq::index::sample;
use rand::{RngExt, SeedableRng};
use sqlite_items::Items;
use std::alloc::{AllocError, Global};

/// The literals of a clause.
const LITERALS: usize = 3;

/// The patterns of this kind and size. Those that are drawn are the same in each run.
pub fn patterns_of(alloc: Global, kind: Kind, size: u32) -> Result<Vec<TPattern>, AllocError> {
    let mut rng = SmallRng::seed_from_u64(1);
    let mut patterns = Vec::new(alloc);
    for number in 0..pattern_count(kind, size) {
        patterns.push(match kind {
            Kind::Cases => bare_case(alloc, number)?,
            Kind::Truths => case_of_truths(alloc, number)?,
            Kind::Clauses => clause(alloc, &mut rng)?,
            Kind::Nested => nested(alloc, number)?,
            Kind::Single => beside_only_case(alloc, size, number)?,
            Kind::Structs => TPattern::Case(number, Items::new(alloc)),
            Kind::Pairs => pair(alloc, size, number)?,
        })?;
    }
    Ok(patterns)
}

/// As many as the size says, save where the type asks for others.
fn pattern_count(kind: Kind, size: u32) -> u32 {
    match kind {
        Kind::Single => size.saturating_add(1),
        Kind::Structs => 2,
        Kind::Pairs => size.saturating_mul(4),
        _ => size,
    }
}

/// `_` at so many places, save for a truth at one of them.
fn truth_at(
    alloc: Global,
    count: u32,
    place: u32,
    truth: bool,
) -> Result<Vec<TPattern>, AllocError> {
    (0..count)
        .map(|at| {
            if at == place {
                TPattern::Truth(truth)
            } else {
                TPattern::Any
            }
        })
        .collect(alloc)
}

/// `true` at one of so many truths, or `false` at all, and then the only case of an enum.
fn beside_only_case(alloc: Global, count: u32, number: u32) -> Result<TPattern, AllocError> {
    let mut payloads = if number < count {
        truth_at(alloc, count, number, true)?
    } else {
        (0..count).map(|_| TPattern::Truth(false)).collect(alloc)?
    };
    let inner = Items::from_vec(vec![in alloc; TPattern::Any]?);
    payloads.push(TPattern::Case(0, inner))?;
    Ok(TPattern::Case(0, Items::from_vec(payloads)))
}

/// The same truth at a place of the first group and at one of the second group: at the same place or at
/// the next one. The last two patterns have it at the first and the last place of the second group.
fn pair(alloc: Global, count: u32, number: u32) -> Result<TPattern, AllocError> {
    let truth = number % 2 == 0;
    let first = number / 4;
    let second = first + number / 2 % 2;
    let mut groups = Items::new(alloc);
    if second < count {
        groups.push(group(truth_at(alloc, count, first, truth)?))?;
        groups.push(group(truth_at(alloc, count, second, truth)?))?;
    } else {
        let mut ends = truth_at(alloc, count, 0, truth)?;
        if let Some(last) = ends.last_mut() {
            *last = TPattern::Truth(truth);
        }
        groups.push(TPattern::Any)?;
        groups.push(group(ends))?;
    }
    Ok(TPattern::Case(0, groups))
}

/// A group with these truths.
fn group(truths: Vec<TPattern>) -> TPattern {
    TPattern::Case(0, Items::from_vec(truths))
}

/// `_` for each payload of a case.
fn bare_payloads(alloc: Global) -> Result<Vec<TPattern>, AllocError> {
    (0..MOST_PARAMETERS).map(|_| TPattern::Any).collect(alloc)
}

fn bare_case(alloc: Global, case: u32) -> Result<TPattern, AllocError> {
    Ok(TPattern::Case(case, Items::from_vec(bare_payloads(alloc)?)))
}

/// A case with `false` at each payload.
fn case_of_truths(alloc: Global, case: u32) -> Result<TPattern, AllocError> {
    let payloads = (0..MOST_PARAMETERS)
        .map(|_| TPattern::Truth(false))
        .collect(alloc)?;
    Ok(TPattern::Case(case, Items::from_vec(payloads)))
}

/// The first case with a few literals among its payloads, whose places and truths are drawn.
fn clause(alloc: Global, rng: &mut SmallRng) -> Result<TPattern, AllocError> {
    let mut payloads = bare_payloads(alloc)?;
    for place in sample(alloc, rng, MOST_PARAMETERS, LITERALS)? {
        if let Some(payload) = payloads.get_mut(place) {
            *payload = TPattern::Truth(rng.random());
        }
    }
    Ok(TPattern::Case(0, Items::from_vec(payloads)))
}

/// The form of the chain that comes after so many others.
fn nested(alloc: Global, number: u32) -> Result<TPattern, AllocError> {
    let mut left = number;
    let mut inner = Items::new(alloc);
    for _ in 1..LEVELS {
        let form = TPattern::Case(left % BRANCHES, inner);
        inner = Items::from_vec(vec![in alloc; form]?);
        left /= BRANCHES;
    }
    Ok(TPattern::Case(left % BRANCHES, inner))
}
