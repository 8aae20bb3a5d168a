//! Names and reserved words.
ghost use Rattle.std.specs.Prelude.{◌≡◌, ◌≤◌, map, string_bytes, IfOk, Ok};
ghost use Rattle.std.specs.Char.{encode_utf8};
ghost use Rattle.own_lex.specs.Reading as spec;

use crate::character::continues_name;
use crate::fault::Fault;
use crate::rest::Rest;
use own_tree::{Kind, Mark, Row, Word};
use std::alloc::Global;

const WORDS: [(&str, Word); 58] = [
    ("func", Word::Func),
    ("struct", Word::Struct),
    ("enum", Word::Enum),
    ("case", Word::Case),
    ("let", Word::Let),
    ("var", Word::Var),
    ("init", Word::Init),
    ("deinit", Word::Deinit),
    ("if", Word::If),
    ("else", Word::Else),
    ("while", Word::While),
    ("repeat", Word::Repeat),
    ("for", Word::For),
    ("in", Word::In),
    ("switch", Word::Switch),
    ("where", Word::Where),
    ("default", Word::Default),
    ("return", Word::Return),
    ("break", Word::Break),
    ("continue", Word::Continue),
    ("true", Word::True),
    ("false", Word::False),
    ("self", Word::SelfValue),
    ("consume", Word::Consume),
    ("borrowing", Word::Borrowing),
    ("consuming", Word::Consuming),
    ("mutating", Word::Mutating),
    ("inout", Word::Inout),
    ("discard", Word::Discard),
    ("copy", Word::Copy),
    ("class", Word::Class),
    ("protocol", Word::Protocol),
    ("extension", Word::Extension),
    ("import", Word::Import),
    ("guard", Word::Guard),
    ("defer", Word::Defer),
    ("throw", Word::Throw),
    ("throws", Word::Throws),
    ("try", Word::Try),
    ("as", Word::As),
    ("is", Word::Is),
    ("nil", Word::Nil),
    ("static", Word::Static),
    ("subscript", Word::Subscript),
    ("typealias", Word::Typealias),
    ("do", Word::Do),
    ("catch", Word::Catch),
    ("fallthrough", Word::Fallthrough),
    ("super", Word::Super),
    ("Self", Word::SelfType),
    ("Any", Word::Any),
    ("public", Word::Public),
    ("private", Word::Private),
    ("fileprivate", Word::Fileprivate),
    ("internal", Word::Internal),
    ("rethrows", Word::Rethrows),
    ("associatedtype", Word::Associatedtype),
    ("operator", Word::Operator),
];

fn lookup(mut table: &[(&str, Word)], name: &[u8]) -> Option<Word>
    ensures { result ≡ spec.lookup (map (λ e. (e.0.now, e.1)) table.entry.now) name.now }
{
    while let [entry, others @ ..] = table {
        if entry.0.as_bytes() == name {
            return Some(entry.1);
        }
        table = others;
    }
    None
}

#[tactic(auto, unfolding(crate::specs::Reading::word_of))]
fn word_of(name: &[u8]) -> Option<Word>
    ensures { result ≡ spec.word_of name.now }
{
    lookup(&WORDS, name)
}

/// The bytes of the name whose first character was just read, and what follows.
#[tactic(auto, using(crate::proofs::Steps::name_goes, crate::proofs::Steps::name_stops, crate::proofs::Steps::name_over))]
fn spelling(alloc: Global, first: char, text: Rest) -> Result<(String, Rest), Fault>
    ensures gives { spec.Gives (λ x. (string_bytes x.0, x.1.chars.now)) result (Ok (spec.name_on (encode_utf8 first) text.entry.chars.now)) }
    ensures within { IfOk result (λ x. x.1.left ≤ text.entry.left) }
{
    let mut name = String::new(alloc);
    name.push(first)?;
    let mut rest = text;
    while let Some(c) = rest.first() {
        if !continues_name(c) {
            return Ok((name, rest));
        }
        name.push(c)?;
        rest = rest.after();
    }
    Ok((name, rest))
}

/// The kind of what is spelled so.
#[tactic(auto, unfolding(crate::specs::Reading::named))]
fn named(name: String) -> Kind
    ensures { result ≡ spec.named (string_bytes name) }
{
    if name.as_str() == "_" {
        return Kind::Mark(Mark::Underscore);
    }
    match word_of(name.as_bytes()) {
        Some(word) => Kind::Word(word),
        None => Kind::Name(Row::from_vec(name.into_bytes())),
    }
}

/// The name, the word or the `_` at the front, and what follows.
#[tactic(auto, unfolding(crate::specs::Reading::name_at))]
pub(crate) fn name_at(alloc: Global, text: Rest) -> Result<(Kind, Rest), Fault>
    ensures gives { spec.Gives (λ x. (x.0, x.1.chars.now)) result (spec.name_at text.entry.chars.now) }
    ensures within { IfOk result (λ x. x.1.left ≤ text.entry.left) }
{
    let Some(first) = text.first() else {
        return Err(Fault::BadChar(text.left));
    };
    let (name, rest) = spelling(alloc, first, text.after())?;
    Ok((named(name), rest))
}
