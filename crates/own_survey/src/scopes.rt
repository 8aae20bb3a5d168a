//! Names that have to be different.

ghost use Rattle.std.specs.Prelude.{◌≡◌, IfOk, map};
ghost use Rattle.own_survey.specs.Judgements.{repeated};

use indexmap::IndexSet;
use own_tree::Span;
use own_tree::tree::Name;
use std::alloc::{AllocError, Global};

/// The place of the first name that stood before.
pub(crate) fn first_repeated(alloc: Global, names: &[&Name]) -> Result<Option<Span>, AllocError>
    ensures { IfOk result (λ x. x ≡ repeated (map (λ n. n.now) names.now)) }
{
    let mut seen = IndexSet::new(alloc);
    for name in names {
        if !seen.insert(name.text.as_slice())? {
            return Ok(Some(name.span));
        }
    }
    Ok(None)
}
