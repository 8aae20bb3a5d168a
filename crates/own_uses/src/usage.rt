//! How a path that stands somewhere is used.

ghost use Rattle.std.specs.Prelude.{◌≡◌};
ghost use Rattle.own_paths.specs.Ops.{use_by, kind_of};
ghost use Rattle.own_uses.specs.View.{use_view};

use own_tree::{OpKind, Passing};

/// How a path is used by what it stands in.
#[derive(Clone, Copy, Debug, PartialEq, Eq)]
pub(crate) enum Use {
    /// Its value is taken.
    Value,
    /// An argument of a `borrowing` parameter, a receiver of a `borrowing` method, the subject of a
    /// `switch`.
    Borrow,
    /// A receiver of a `mutating` method.
    Inout,
}

/// How a path is used that is passed so.
pub(crate) fn use_by(passing: Passing) -> Use
    ensures { use_view result ≡ use_by passing }
{
    match passing {
        Passing::Borrow => Use::Borrow,
        Passing::Inout => Use::Inout,
        Passing::ByValue | Passing::Consume | Passing::Closure => Use::Value,
    }
}

/// What is copyable is read, and what is not is consumed (SE-0390) or borrowed (SE-0377, SE-0432).
pub(crate) fn kind_of(used: Use, is_copyable: bool) -> OpKind
    ensures { result ≡ kind_of (use_view used) is_copyable }
{
    match used {
        Use::Inout => OpKind::Inout,
        Use::Value if is_copyable => OpKind::Read,
        Use::Value => OpKind::Consume,
        Use::Borrow if is_copyable => OpKind::Read,
        Use::Borrow => OpKind::Borrow,
    }
}
