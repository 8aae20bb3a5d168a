//! Marks.
ghost use Rattle.std.specs.Prelude.{◌≡◌, ◌≤◌, IfOk, IfSome, option_map, map};
ghost use Rattle.own_lex.specs.Reading as spec;

use crate::fault::Fault;
use crate::rest::Rest;
use own_tree::{Kind, Mark};

/// A mark stands behind the longer ones that begin with it.
const MARKS: [(&str, Mark); 38] = [
    ("..<", Mark::HalfOpenRange),
    ("...", Mark::ClosedRange),
    ("->", Mark::Arrow),
    ("==", Mark::Equal),
    ("!=", Mark::NotEqual),
    ("<=", Mark::LessEqual),
    (">=", Mark::GreaterEqual),
    ("&+", Mark::WrappingPlus),
    ("&-", Mark::WrappingMinus),
    ("&*", Mark::WrappingStar),
    ("&&", Mark::And),
    ("||", Mark::Or),
    ("+=", Mark::PlusAssign),
    ("-=", Mark::MinusAssign),
    ("*=", Mark::StarAssign),
    ("/=", Mark::SlashAssign),
    ("%=", Mark::PercentAssign),
    ("(", Mark::OpenParen),
    (")", Mark::CloseParen),
    ("{", Mark::OpenBrace),
    ("}", Mark::CloseBrace),
    (",", Mark::Comma),
    (":", Mark::Colon),
    (";", Mark::Semicolon),
    (".", Mark::Dot),
    ("=", Mark::Assign),
    ("<", Mark::Less),
    (">", Mark::Greater),
    ("+", Mark::Plus),
    ("-", Mark::Minus),
    ("*", Mark::Star),
    ("/", Mark::Slash),
    ("%", Mark::Percent),
    ("!", Mark::Not),
    ("?", Mark::Question),
    ("&", Mark::Ampersand),
    ("~", Mark::Tilde),
    ("_", Mark::Underscore),
];

fn first_mark<'a>(mut table: &[(&str, Mark)], text: Rest<'a>) -> Option<(Mark, Rest<'a>)>
    ensures value { option_map (λ x. (x.0, x.1.chars.now)) result ≡ spec.first_mark (map (λ e. (e.0.now, e.1)) table.entry.now) text.entry.chars.now }
    ensures within { IfSome result (λ x. x.1.left ≤ text.entry.left) }
{
    while let [entry, others @ ..] = table {
        if text.begins(entry.0) {
            return Some((entry.1, text.skip(entry.0.len())));
        }
        table = others;
    }
    None
}

/// The longest mark at the front, and what follows.
#[tactic(auto, unfolding(crate::specs::Reading::mark_at, crate::specs::Reading::longest_mark))]
pub(crate) fn mark_at(text: Rest) -> Result<(Kind, Rest), Fault>
    ensures gives { spec.Gives (λ x. (x.0, x.1.chars.now)) result (spec.mark_at text.entry.chars.now) }
    ensures within { IfOk result (λ x. x.1.left ≤ text.entry.left) }
{
    match first_mark(&MARKS, text) {
        Some((mark, rest)) => Ok((Kind::Mark(mark), rest)),
        None => Err(Fault::BadChar(text.left)),
    }
}
