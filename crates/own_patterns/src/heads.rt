//! The patterns of a clause.

ghost use Rattle.std.specs.Prelude.{◌≡◌, map};
ghost use Rattle.own_tree.specs.View.{pattern_view, pats_of};
ghost use Rattle.own_shapes.specs.Types.{is_empty};
ghost use Rattle.own_judged.specs.Patterns.{one_or_none as one_rule};
ghost use Rattle.own_judged.specs.Refusals.{Gives};
ghost use Rattle.own_scope.specs.Locals.{local_of};
ghost use Rattle.own_scope.specs.Making.{made_of};
ghost use Rattle.own_scope.specs.Scopes.{scope_of};
ghost use Rattle.own_scope.specs.Known.{text_in};
ghost use Rattle.own_patterns.specs.Hows.{how_of};
ghost use Rattle.own_patterns.specs.View.{alternatives_run, list_of};

use crate::how::How;
use crate::matched::{MatchedList, and_matched, no_patterns};
use crate::patterns::pattern_of;
use own_calls::TypeError;
use own_scope::{Builder, Known, Local, Scope};
use own_tree::Ty;
use own_tree::tree::Pattern;
use std::alloc::Global;

/// The patterns of a clause, each of the whole subject.
pub fn alternatives<'t>(
    alloc: Global,
    known: &Known<'_>,
    builder: &mut Builder,
    scope: &Scope<'_>,
    patterns: &'t [Pattern],
    how: How,
    ty: Ty,
) -> Result<MatchedList<'t>, TypeError>
    ensures { Gives (text_in known.now).types list_of result (made_of builder.new)
        (alternatives_run (text_in known.now) (scope_of scope.now) (how_of how)
        (pats_of (map pattern_view patterns.now)) ty (made_of builder.old)) }
{
    let mut found = no_patterns(alloc);
    for number in 0..patterns.len() {
        let one = match pattern_of(alloc, known, builder, scope, &patterns[number], how, ty) {
            Ok(one) => one,
            Err(error) => return Err(error),
        };
        found = and_matched(found, one)?;
    }
    Ok(found)
}

/// Whether there are no names.
fn no_names(locals: &[Local<'_>]) -> bool
    ensures { result ≡ is_empty (map local_of locals.now) }
{
    match locals {
        [] => true,
        [_, ..] => false,
    }
}

/// Whether a clause with these patterns may bind these names: with several patterns it binds none (T31).
#[tactic(auto, using(crate::proofs::Matching::one_short, crate::proofs::Matching::one_long))]
pub fn one_or_none(patterns: &[Pattern], locals: &[Local<'_>]) -> bool
    ensures { result ≡ one_rule (pats_of (map pattern_view patterns.now)) (map local_of locals.now) }
{
    if patterns.len() <= 1 {
        return true;
    }
    no_names(locals)
}
