//! How a clause takes the subject.

ghost use Rattle.std.specs.Prelude.{◌≡◌, map, IfOk};
ghost use Rattle.std.specs.Option.{option_copied};
ghost use Rattle.own_judged.specs.Patterns.{how_taken as taken, moved as moved_rule, next_local as next, unguarded as without_guard};
ghost use Rattle.own_scope.specs.Locals.{local_of};
ghost use Rattle.own_patterns.specs.Hows.{how_of};

use own_scope::Local;
use own_tree::typed::TypedPath;
use std::alloc::{AllocError, Global};

/// How a clause takes the subject (SE-0432).
#[derive(Clone, Copy, Debug, PartialEq, Eq)]
pub enum How {
    /// What a pattern binds is a copy, or moves.
    Owned,
    /// It lies in the subject where it is not copyable.
    Lent,
    /// It lies in the subject for the guard, and is moved for the body.
    Twice,
}

/// By whether the subject is copyable, and which place it is.
pub fn how_taken(copyable: bool, place: Option<&TypedPath>) -> How
    ensures { how_of result ≡ taken copyable (option_copied place.entry) }
{
    if copyable {
        return How::Owned;
    }
    match place {
        Some(_) => How::Lent,
        None => How::Twice,
    }
}

/// Where the clause has no guard.
pub fn unguarded(how: How) -> How
    ensures { how_of result ≡ without_guard (how_of how) }
{
    match how {
        How::Owned | How::Twice => How::Owned,
        How::Lent => How::Lent,
    }
}

/// The owned one of two bindings has the next number.
fn next_local<'t>(local: Local<'t>) -> Result<Local<'t>, AllocError>
    ensures { IfOk result (λ moved. local_of moved ≡ next (local_of local.entry)) }
{
    if local.binding == u32::MAX {
        return Err(AllocError);
    }
    Ok(Local {
        name: local.name,
        binding: local.binding + 1,
        ty: local.ty,
    })
}

/// Each name with the binding that is moved for the body.
fn next_locals<'t>(alloc: Global, locals: &[Local<'t>]) -> Result<Vec<Local<'t>>, AllocError>
    ensures { IfOk result (λ moved. map local_of moved.items ≡ map next (map local_of locals.now)) }
{
    let mut next = Vec::new(alloc);
    for local in locals {
        next.push(next_local(*local)?)?;
    }
    Ok(next)
}

/// The names that the body of a clause with a guard sees. A number that is too large counts as memory
/// that is refused.
pub fn moved<'t>(
    alloc: Global,
    how: How,
    locals: Vec<Local<'t>>,
) -> Result<Vec<Local<'t>>, AllocError>
    ensures { IfOk result (λ seen.
        map local_of seen.items ≡ moved_rule (how_of how) (map local_of locals.entry.items)) }
{
    match how {
        How::Owned | How::Lent => Ok(locals),
        How::Twice => next_locals(alloc, locals.as_slice()),
    }
}
