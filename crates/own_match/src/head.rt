ghost use Rattle.std.specs.Prelude.{◌≡◌};
ghost use Rattle.own_match.specs.View.{said};
ghost use Rattle.own_match.specs.Search.{accepts};

use own_tree::TPattern;

/// What a value begins with: its case, its number or its truth, or, at an `Int`, a number that no
/// pattern has at that place, and at a struct anything.
#[derive(Clone, Copy)]
pub enum Head {
    Case(u32),
    Number(i64),
    Truth(bool),
    Other,
}

/// Whether what a pattern says at a place lets it match a value that begins so.
pub fn accepts(head: Head, cell: Option<&TPattern>) -> bool
    ensures { result ≡ accepts head (said cell.entry) }
{
    match (cell, head) {
        (None | Some(TPattern::Any | TPattern::Bind(_)), _) => true,
        (Some(TPattern::Case(case, _)), Head::Case(wanted)) => *case == wanted,
        (Some(TPattern::Number(number)), Head::Number(wanted)) => *number == wanted,
        (Some(TPattern::Truth(truth)), Head::Truth(wanted)) => *truth == wanted,
        _ => false,
    }
}
