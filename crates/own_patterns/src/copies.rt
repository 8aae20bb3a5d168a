//! Copies of the patterns that count for coverage.

ghost use Rattle.std.specs.Prelude.{◌≡◌, ◌++◌, map, IfOk, OnOk};
ghost use Rattle.own_tree.specs.TypedView.{clause_view, clauses_of, head_view, pattern_view};
ghost use Rattle.own_judged.specs.Patterns.{all_matched as all_rule, matched as matched_rule};

use own_tree::TPattern;
use own_tree::typed::{TypedClause, TypedHead};
use sqlite_items::Items;
use std::alloc::{AllocError, Global};

/// A copy of a pattern.
#[cycle(copies)]
fn copied(alloc: Global, pattern: &TPattern) -> Result<TPattern, AllocError>
    ensures { IfOk result (λ copy. pattern_view copy ≡ pattern_view pattern.now) }
{
    match pattern {
        TPattern::Any => Ok(TPattern::Any),
        TPattern::Bind(binding) => Ok(TPattern::Bind(*binding)),
        TPattern::Number(number) => Ok(TPattern::Number(*number)),
        TPattern::Truth(truth) => Ok(TPattern::Truth(*truth)),
        TPattern::Case(number, parts) => {
            let parts = all_copied(alloc, parts.as_slice())?;
            Ok(TPattern::Case(*number, Items::from_vec(parts)))
        }
    }
}

/// Copies of patterns.
#[cycle(copies)]
fn all_copied(alloc: Global, patterns: &[TPattern]) -> Result<Vec<TPattern>, AllocError>
    ensures { IfOk result (λ copies. map pattern_view copies.items ≡ map pattern_view patterns.now) }
{
    let mut copies = Vec::new(alloc);
    for pattern in patterns {
        copies.push(copied(alloc, pattern)?)?;
    }
    Ok(copies)
}

/// Adds copies of patterns.
fn push_copies(
    alloc: Global,
    copies: &mut Vec<TPattern>,
    patterns: &[TPattern],
) -> Result<(), AllocError>
    ensures { OnOk result (map pattern_view copies.new.items
        ≡ map pattern_view copies.old.items ++ map pattern_view patterns.now) }
{
    for pattern in patterns {
        copies.push(copied(alloc, pattern)?)?;
    }
    Ok(())
}

/// Adds what a clause matches for sure: one with a guard may fail, and counts for nothing.
#[tactic(auto, using(crate::proofs::Matching::listed_back))]
fn push_matched(
    alloc: Global,
    copies: &mut Vec<TPattern>,
    head: &TypedHead,
) -> Result<(), AllocError>
    ensures { OnOk result (map pattern_view copies.new.items
        ≡ map pattern_view copies.old.items ++ matched_rule (head_view head.now)) }
{
    match head {
        TypedHead::Case(patterns) => push_copies(alloc, copies, patterns.as_slice()),
        TypedHead::Guarded(..) => Ok(()),
        TypedHead::Default => {
            copies.push(TPattern::Any)?;
            Ok(())
        }
    }
}

/// The patterns of all clauses without a guard, of which coverage is asked (T20).
pub fn all_matched(alloc: Global, clauses: &[TypedClause]) -> Result<Vec<TPattern>, AllocError>
    ensures { IfOk result (λ patterns.
        map pattern_view patterns.items ≡ all_rule (clauses_of (map clause_view clauses.now))) }
{
    let mut copies = Vec::new(alloc);
    for clause in clauses {
        push_matched(alloc, &mut copies, &clause.head)?;
    }
    Ok(copies)
}
