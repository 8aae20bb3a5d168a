//! Names that patterns bind.

ghost use Rattle.std.specs.Prelude.{◌≡◌, IfOk};
ghost use Rattle.own_judged.specs.Closures.{binding_of as binding_rule};
ghost use Rattle.own_judged.specs.Names.{local_of};
ghost use Rattle.own_tree.specs.TypedSource.{bind};
ghost use Rattle.own_judged.specs.Patterns.{name_pattern as name_rule, lent_mode as lent_rule, pattern_binding};
ghost use Rattle.own_judging.specs.Made.{made};
ghost use Rattle.own_scope.specs.Making.{made_of};
ghost use Rattle.own_scope.specs.Scopes.{scope_of};
ghost use Rattle.own_scope.specs.Known.{text_in};
ghost use Rattle.own_patterns.specs.Hows.{how_of};
ghost use Rattle.own_patterns.specs.View.{matched_of};

use crate::how::How;
use crate::matched::Matched;
use own_scope::types::copyable;
use own_scope::{Builder, Known, Local, Scope};
use own_tree::tree::Name;
use own_tree::{Binding, Bytes, Mode, TPattern, Ty};
use std::alloc::{AllocError, Global};

/// A name that is bound at its place.
fn binding_of(
    alloc: Global,
    name: &Name,
    ty: Ty,
    mode: Mode,
    body: u32,
) -> Result<Binding, AllocError>
    ensures { IfOk result (λ b. b ≡ binding_rule name.now.text ty mode name.now.span body) }
{
    Ok(Binding {
        name: Bytes::from_slice(alloc, name.text.as_slice())?,
        ty,
        mode,
        span: name.span,
        body,
    })
}

/// What is borrowed of a noncopyable subject is copied where it is copyable.
fn lent_mode(copyable: bool) -> Mode
    ensures { result ≡ lent_rule copyable }
{
    if copyable {
        Mode::PatternOwned
    } else {
        Mode::PatternBorrowed
    }
}

/// The next binding, of a pattern.
fn next_binding(
    alloc: Global,
    builder: &mut Builder,
    scope: &Scope<'_>,
    mode: Mode,
    name: &Name,
    ty: Ty,
) -> Result<u32, AllocError>
    ensures { IfOk result (λ x.
        (pattern_binding (scope_of scope.now) mode name.now ty).run (made_of builder.old)
        ≡ made x (made_of builder.new)) }
{
    builder.declare(binding_of(alloc, name, ty, mode, scope.context.body)?)
}

/// A name that is bound so.
fn bound<'t>(alloc: Global, name: &'t Name, binding: u32, ty: Ty) -> Result<Matched<'t>, AllocError>
    ensures { IfOk result (λ m. matched_of m ≡ (bind binding, local_of name.now binding ty)) }
{
    let mut locals = Vec::new(alloc);
    locals.push(Local {
        name: name.text.as_slice(),
        binding,
        ty,
    })?;
    Ok(Matched {
        pattern: TPattern::Bind(binding),
        locals,
    })
}

/// A name that a pattern binds, by how its clause takes the subject. Where a guard sees it before the body
/// does, it is two bindings (SE-0432).
pub(crate) fn name_pattern<'t>(
    alloc: Global,
    known: &Known<'_>,
    builder: &mut Builder,
    scope: &Scope<'_>,
    how: How,
    name: &'t Name,
    ty: Ty,
) -> Result<Matched<'t>, AllocError>
    ensures { IfOk result (λ m.
        (name_rule (text_in known.now) (scope_of scope.now) (how_of how) name.now ty).run (made_of builder.old)
        ≡ made (matched_of m) (made_of builder.new)) }
{
    let binding = match how {
        How::Owned => next_binding(alloc, builder, scope, Mode::PatternOwned, name, ty)?,
        How::Lent => {
            let mode = lent_mode(copyable(known.table, ty));
            next_binding(alloc, builder, scope, mode, name, ty)?
        }
        How::Twice => {
            let borrowed = next_binding(alloc, builder, scope, Mode::PatternBorrowed, name, ty)?;
            next_binding(alloc, builder, scope, Mode::PatternOwned, name, ty)?;
            borrowed
        }
    };
    bound(alloc, name, binding, ty)
}
