//! Patterns, and what they bind. It goes as deep as a pattern is nested.

ghost use Rattle.std.specs.Prelude.{◌≡◌, map};
ghost use Rattle.own_tree.specs.Source as tree;
ghost use Rattle.own_tree.specs.TypedSource.{of_case};
ghost use Rattle.own_tree.specs.View.{let_pattern_view, let_pats_of, pattern_view, pats_of};
ghost use Rattle.own_judged.specs.Refusals.{Gives};
ghost use Rattle.own_scope.specs.Making.{made_of};
ghost use Rattle.own_scope.specs.Scopes.{scope_of};
ghost use Rattle.own_scope.specs.Known.{text_in};
ghost use Rattle.own_patterns.specs.Hows.{how_of};
ghost use Rattle.own_patterns.specs.View.{let_parts_run, let_run, list_of, matched_of, parts_run, pattern_run};

use crate::how::How;
use crate::literals::{misfit, number_pattern, truth_pattern, unknown_case};
use crate::matched::{Matched, MatchedList, and_matched, no_patterns, without_names};
use crate::names::name_pattern;
use own_calls::TypeError;
use own_scope::types::{case_of_type, is_enum};
use own_scope::{Builder, Known, Scope};
use own_tree::tree::{LetPattern, Name, Pattern};
use own_tree::{Span, TPattern, Ty};
use sqlite_items::Items;
use std::alloc::Global;

/// A case with what its parts became.
fn case_of<'t>(number: u32, parts: MatchedList<'t>) -> Matched<'t>
    ensures { matched_of result ≡ (of_case number (list_of parts.entry).0, (list_of parts.entry).1) }
{
    let MatchedList { patterns, locals } = parts;
    Matched {
        pattern: TPattern::Case(number, Items::from_vec(patterns)),
        locals,
    }
}

/// A case after `let`.
#[cycle(let_patterns)]
#[tactic(auto, unfolding(crate::specs::View::let_run, crate::specs::View::let_parts_run))]
fn let_case<'t>(
    alloc: Global,
    known: &Known<'_>,
    builder: &mut Builder,
    scope: &Scope<'_>,
    parts: &'t [LetPattern],
    name: &Name,
    span: Span,
    how: How,
    ty: Ty,
) -> Result<Matched<'t>, TypeError>
    ensures { Gives (text_in known.now).types matched_of result (made_of builder.new)
        (let_run (text_in known.now) (scope_of scope.now) (how_of how)
        (tree.let_case span name.now (let_pats_of (map let_pattern_view parts.now))) ty (made_of builder.old)) }
{
    if !is_enum(known.table, ty) {
        return Err(misfit(span));
    }
    let Some((number, info)) = case_of_type(known.table, ty, name.text.as_slice()) else {
        return Err(unknown_case(name.span));
    };
    let payloads = info.payloads.as_slice();
    let found = let_parts(alloc, known, builder, scope, parts, payloads, span, how)?;
    Ok(case_of(number, found))
}

/// A pattern after `let`, in which a name binds.
#[cycle(let_patterns)]
#[tactic(auto, unfolding(crate::specs::View::let_run))]
fn let_pattern<'t>(
    alloc: Global,
    known: &Known<'_>,
    builder: &mut Builder,
    scope: &Scope<'_>,
    pattern: &'t LetPattern,
    how: How,
    ty: Ty,
) -> Result<Matched<'t>, TypeError>
    ensures { Gives (text_in known.now).types matched_of result (made_of builder.new)
        (let_run (text_in known.now) (scope_of scope.now) (how_of how) (let_pattern_view pattern.now) ty
        (made_of builder.old)) }
{
    match pattern {
        LetPattern::Any(_) => Ok(without_names(alloc, TPattern::Any)),
        LetPattern::Bind(name) => Ok(name_pattern(alloc, known, builder, scope, how, name, ty)?),
        LetPattern::Case(span, name, parts) => let_case(
            alloc,
            known,
            builder,
            scope,
            parts.as_slice(),
            name,
            *span,
            how,
            ty,
        ),
        LetPattern::Number(span, negative, number) => {
            number_pattern(alloc, known, builder, *span, *negative, *number, ty)
        }
        LetPattern::Truth(span, truth) => truth_pattern(alloc, known, builder, *span, *truth, ty),
    }
}

/// The parts of a case after `let`, by the types of its payloads. T21 comes where there are not as many.
#[cycle(let_patterns)]
fn let_parts<'t>(
    alloc: Global,
    known: &Known<'_>,
    builder: &mut Builder,
    scope: &Scope<'_>,
    parts: &'t [LetPattern],
    payloads: &[Ty],
    span: Span,
    how: How,
) -> Result<MatchedList<'t>, TypeError>
    ensures { Gives (text_in known.now).types list_of result (made_of builder.new)
        (let_parts_run (text_in known.now) (scope_of scope.now) (how_of how) span
        (let_pats_of (map let_pattern_view parts.now)) payloads.now (made_of builder.old)) }
{
    let mut found = no_patterns(alloc);
    for number in 0..parts.len() {
        if number >= payloads.len() {
            return Err(misfit(span));
        }
        let one = match let_pattern(
            alloc,
            known,
            builder,
            scope,
            &parts[number],
            how,
            payloads[number],
        ) {
            Ok(one) => one,
            Err(error) => return Err(error),
        };
        found = and_matched(found, one)?;
    }
    if parts.len() < payloads.len() {
        return Err(misfit(span));
    }
    Ok(found)
}

/// A case.
#[cycle(patterns)]
#[tactic(auto, unfolding(crate::specs::View::pattern_run, crate::specs::View::parts_run))]
fn on_case<'t>(
    alloc: Global,
    known: &Known<'_>,
    builder: &mut Builder,
    scope: &Scope<'_>,
    parts: &'t [Pattern],
    name: &Name,
    span: Span,
    how: How,
    ty: Ty,
) -> Result<Matched<'t>, TypeError>
    ensures { Gives (text_in known.now).types matched_of result (made_of builder.new)
        (pattern_run (text_in known.now) (scope_of scope.now) (how_of how)
        (tree.on_case span name.now (pats_of (map pattern_view parts.now))) ty (made_of builder.old)) }
{
    if !is_enum(known.table, ty) {
        return Err(misfit(span));
    }
    let Some((number, info)) = case_of_type(known.table, ty, name.text.as_slice()) else {
        return Err(unknown_case(name.span));
    };
    let payloads = info.payloads.as_slice();
    let found = parts_of(alloc, known, builder, scope, parts, payloads, span, how)?;
    Ok(case_of(number, found))
}

/// A pattern of that type, by how its clause takes the subject, with the names that it binds. T21 comes
/// where it does not fit the type or has not as many parts as its case, T11 where the type has no such
/// case, and T14 for a number that is none of `Int`.
#[cycle(patterns)]
#[tactic(auto, unfolding(crate::specs::View::pattern_run, crate::specs::View::let_run))]
pub fn pattern_of<'t>(
    alloc: Global,
    known: &Known<'_>,
    builder: &mut Builder,
    scope: &Scope<'_>,
    pattern: &'t Pattern,
    how: How,
    ty: Ty,
) -> Result<Matched<'t>, TypeError>
    ensures { Gives (text_in known.now).types matched_of result (made_of builder.new)
        (pattern_run (text_in known.now) (scope_of scope.now) (how_of how) (pattern_view pattern.now) ty
        (made_of builder.old)) }
{
    match pattern {
        Pattern::Any(_) => Ok(without_names(alloc, TPattern::Any)),
        Pattern::Bind(_, name) => Ok(name_pattern(alloc, known, builder, scope, how, name, ty)?),
        Pattern::BindCase(_, bound) => let_pattern(alloc, known, builder, scope, bound, how, ty),
        Pattern::Case(span, name, parts) => on_case(
            alloc,
            known,
            builder,
            scope,
            parts.as_slice(),
            name,
            *span,
            how,
            ty,
        ),
        Pattern::Number(span, negative, number) => {
            number_pattern(alloc, known, builder, *span, *negative, *number, ty)
        }
        Pattern::Truth(span, truth) => truth_pattern(alloc, known, builder, *span, *truth, ty),
    }
}

/// The parts of a case, by the types of its payloads. T21 comes where there are not as many.
#[cycle(patterns)]
fn parts_of<'t>(
    alloc: Global,
    known: &Known<'_>,
    builder: &mut Builder,
    scope: &Scope<'_>,
    parts: &'t [Pattern],
    payloads: &[Ty],
    span: Span,
    how: How,
) -> Result<MatchedList<'t>, TypeError>
    ensures { Gives (text_in known.now).types list_of result (made_of builder.new)
        (parts_run (text_in known.now) (scope_of scope.now) (how_of how) span
        (pats_of (map pattern_view parts.now)) payloads.now (made_of builder.old)) }
{
    let mut found = no_patterns(alloc);
    for number in 0..parts.len() {
        if number >= payloads.len() {
            return Err(misfit(span));
        }
        let one = match pattern_of(
            alloc,
            known,
            builder,
            scope,
            &parts[number],
            how,
            payloads[number],
        ) {
            Ok(one) => one,
            Err(error) => return Err(error),
        };
        found = and_matched(found, one)?;
    }
    if parts.len() < payloads.len() {
        return Err(misfit(span));
    }
    Ok(found)
}
