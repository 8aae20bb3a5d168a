//! What patterns become, with the names that they bind.

ghost use Rattle.std.specs.Prelude.{◌≡◌, ◌∷◌, ◌++◌, [], map, IfOk, OnOk};
ghost use Rattle.own_tree.specs.TypedView.{pattern_view};
ghost use Rattle.own_scope.specs.Locals.{local_of};

use own_scope::Local;
use own_tree::TPattern;
use std::alloc::{AllocError, Global};

/// What a pattern becomes, with the names that it binds.
#[derive(Drop)]
pub struct Matched<'t> {
    pub pattern: TPattern,
    pub locals: Vec<Local<'t>>,
}

/// What patterns become, with the names that they bind.
#[derive(Drop)]
pub struct MatchedList<'t> {
    pub patterns: Vec<TPattern>,
    pub locals: Vec<Local<'t>>,
}

/// A pattern that binds no name.
pub(crate) fn without_names<'t>(alloc: Global, pattern: TPattern) -> Matched<'t>
    ensures pattern { result.pattern ≡ pattern }
    ensures locals { result.locals.items ≡ [] }
{
    Matched {
        pattern,
        locals: Vec::new(alloc),
    }
}

/// No patterns.
pub(crate) fn no_patterns<'t>(alloc: Global) -> MatchedList<'t>
    ensures patterns { result.patterns.items ≡ [] }
    ensures locals { result.locals.items ≡ [] }
{
    MatchedList {
        patterns: Vec::new(alloc),
        locals: Vec::new(alloc),
    }
}

/// Names behind others.
fn append<'t>(locals: &mut Vec<Local<'t>>, more: &[Local<'t>]) -> Result<(), AllocError>
    ensures { OnOk result (map local_of locals.new.items ≡ map local_of locals.old.items ++ map local_of more.now) }
{
    for local in more {
        locals.push(*local)?;
    }
    Ok(())
}

/// Adds a pattern with its names behind those there are.
pub(crate) fn and_matched<'t>(
    list: MatchedList<'t>,
    one: Matched<'t>,
) -> Result<MatchedList<'t>, AllocError>
    ensures patterns { IfOk result (λ all.
        map pattern_view all.patterns.items
        ≡ map pattern_view list.entry.patterns.items ++ pattern_view one.entry.pattern ∷ []) }
    ensures locals { IfOk result (λ all.
        map local_of all.locals.items ≡ map local_of list.entry.locals.items ++ map local_of one.entry.locals.items) }
{
    let MatchedList {
        mut patterns,
        mut locals,
    } = list;
    let Matched {
        pattern,
        locals: more,
    } = one;
    append(&mut locals, more.as_slice())?;
    patterns.push(pattern)?;
    Ok(MatchedList { patterns, locals })
}
