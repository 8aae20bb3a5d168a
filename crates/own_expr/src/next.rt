//! The next token.
ghost use Rattle.std.specs.Prelude.{◌≡◌, ◌≤◌, ◌<◌, length, true, IfOk, IfSome, option_map};
ghost use Rattle.std.specs.Option.{option_copied};
ghost use Rattle.own_grammar.specs.Nesting.{nest};
ghost use Rattle.own_grammar.specs.Reading as reading;
ghost use Rattle.own_grammar.specs.Tests as spec;
ghost use Rattle.own_tree.specs.View.{expr_view};

use own_tree::tree::{ClosureName, Expr, Keyword, Name, Root};
use own_tree::{Kind, Mark, Row, Span, Token, Word};
use std::alloc::{AllocError, Global};

/// All but the first token.
pub fn after(rest: &[Token]) -> &[Token]
    ensures value { result.now ≡ spec.after rest.now }
    ensures within { length result.now ≤ length rest.now }
    ensures shorter { 0 < length rest.now → length result.now < length rest.now }
{
    match rest {
        [_, more @ ..] => more,
        [] => rest,
    }
}

/// The span of the next token.
pub fn here(rest: &[Token]) -> Span
    ensures { result ≡ spec.here rest.now }
{
    match rest {
        [token, ..] => token.span,
        [] => Span { start: 0, end: 0 },
    }
}

/// From the start of the one to the end of the other.
pub fn till(from: Span, to: Span) -> Span
    ensures { result ≡ spec.till from to }
{
    Span {
        start: from.start,
        end: to.end,
    }
}

/// What the next token is.
#[tactic(auto, unfolding(own_grammar::specs::Tests::kind_at))]
pub fn kind_at(rest: &[Token]) -> Option<&Kind>
    ensures value { option_copied result ≡ spec.kind_at rest.now }
    ensures some { IfSome result (λ _. 0 < length rest.now) }
{
    match rest {
        [token, ..] => Some(&token.kind),
        [] => None,
    }
}

/// Whether the next token is this mark.
#[tactic(auto, unfolding(own_grammar::specs::Tests::is_mark))]
pub fn is_mark(mark: Mark, rest: &[Token]) -> bool
    ensures value { result ≡ spec.is_mark mark rest.now }
    ensures some { result ≡ true → 0 < length rest.now }
{
    match kind_at(rest) {
        Some(Kind::Mark(m)) => *m == mark,
        _ => false,
    }
}

/// Whether the next token is this reserved word.
#[tactic(auto, unfolding(own_grammar::specs::Tests::is_word))]
pub fn is_word(word: Word, rest: &[Token]) -> bool
    ensures value { result ≡ spec.is_word word rest.now }
    ensures some { result ≡ true → 0 < length rest.now }
{
    match kind_at(rest) {
        Some(Kind::Word(w)) => *w == word,
        _ => false,
    }
}

fn word_truth(word: Word) -> Option<bool>
    ensures { result ≡ spec.word_truth word }
{
    match word {
        Word::True => Some(true),
        Word::False => Some(false),
        _ => None,
    }
}

/// `true` or `false`.
#[tactic(auto, unfolding(own_grammar::specs::Tests::truth_at))]
pub(crate) fn truth_at(rest: &[Token]) -> Option<bool>
    ensures value { result ≡ spec.truth_at rest.now }
    ensures some { IfSome result (λ _. 0 < length rest.now) }
{
    match kind_at(rest) {
        Some(Kind::Word(word)) => word_truth(*word),
        _ => None,
    }
}

/// NAME. A word is never one.
#[tactic(auto, unfolding(own_grammar::specs::Tests::name_at))]
pub fn name_at(alloc: Global, rest: &[Token]) -> Result<Option<Name>, AllocError>
    ensures value { IfOk result (λ name. name ≡ spec.name_at rest.now) }
    ensures some { IfOk result (λ name. IfSome name (λ _. 0 < length rest.now)) }
{
    match kind_at(rest) {
        Some(Kind::Name(text)) => {
            let text = Row::from_slice(alloc, text.as_slice())?;
            let span = here(rest);
            Ok(Some(Name { text, span }))
        }
        _ => Ok(None),
    }
}

/// NUMBER.
#[tactic(auto, unfolding(own_grammar::specs::Tests::number_at))]
pub(crate) fn number_at(rest: &[Token]) -> Option<u64>
    ensures value { result ≡ spec.number_at rest.now }
    ensures some { IfSome result (λ _. 0 < length rest.now) }
{
    match kind_at(rest) {
        Some(Kind::Number(n)) => Some(*n),
        _ => None,
    }
}

fn word_root(span: Span, word: Word) -> Option<Root>
    ensures { result ≡ spec.word_root span word }
{
    match word {
        Word::SelfValue => Some(Root::SelfWord(span)),
        _ => None,
    }
}

/// NAME or `self`.
#[tactic(auto, unfolding(own_grammar::specs::Tests::root_at))]
pub(crate) fn root_at(alloc: Global, rest: &[Token]) -> Result<Option<Root>, AllocError>
    ensures value { IfOk result (λ root. root ≡ spec.root_at rest.now) }
    ensures some { IfOk result (λ root. IfSome root (λ _. 0 < length rest.now)) }
{
    match kind_at(rest) {
        Some(Kind::Name(text)) => {
            let text = Row::from_slice(alloc, text.as_slice())?;
            let span = here(rest);
            Ok(Some(Root::Named(Name { text, span })))
        }
        Some(Kind::Word(word)) => Ok(word_root(here(rest), *word)),
        _ => Ok(None),
    }
}

fn mark_binder(mark: Mark) -> Option<Option<Name>>
    ensures { result ≡ spec.mark_binder mark }
{
    match mark {
        Mark::Underscore => Some(None),
        _ => None,
    }
}

/// NAME or `_`, the latter as None.
#[tactic(auto, unfolding(own_grammar::specs::Tests::binder_at))]
pub(crate) fn binder_at(alloc: Global, rest: &[Token]) -> Result<Option<Option<Name>>, AllocError>
    ensures value { IfOk result (λ binder. binder ≡ spec.binder_at rest.now) }
    ensures some { IfOk result (λ binder. IfSome binder (λ _. 0 < length rest.now)) }
{
    match kind_at(rest) {
        Some(Kind::Name(text)) => {
            let text = Row::from_slice(alloc, text.as_slice())?;
            let span = here(rest);
            Ok(Some(Some(Name { text, span })))
        }
        Some(Kind::Mark(mark)) => Ok(mark_binder(*mark)),
        _ => Ok(None),
    }
}

fn closure_mark(span: Span, mark: Mark) -> Option<ClosureName>
    ensures { result ≡ spec.closure_mark span mark }
{
    match mark {
        Mark::Underscore => Some(ClosureName::Any(span)),
        _ => None,
    }
}

/// A name of a closure: NAME or `_`.
#[tactic(auto, unfolding(own_grammar::specs::Tests::closure_name_at))]
pub(crate) fn closure_name_at(
    alloc: Global,
    rest: &[Token],
) -> Result<Option<ClosureName>, AllocError>
    ensures value { IfOk result (λ name. name ≡ spec.closure_name_at rest.now) }
    ensures some { IfOk result (λ name. IfSome name (λ _. 0 < length rest.now)) }
{
    match kind_at(rest) {
        Some(Kind::Name(text)) => {
            let text = Row::from_slice(alloc, text.as_slice())?;
            let span = here(rest);
            Ok(Some(ClosureName::Bind(Name { text, span })))
        }
        Some(Kind::Mark(mark)) => Ok(closure_mark(here(rest), *mark)),
        _ => Ok(None),
    }
}

fn word_keyword(word: Word) -> Option<Keyword>
    ensures { result ≡ spec.word_keyword word }
{
    match word {
        Word::Let => Some(Keyword::Let),
        Word::Var => Some(Keyword::Var),
        _ => None,
    }
}

/// `let` or `var`.
#[tactic(auto, unfolding(own_grammar::specs::Tests::keyword_at))]
pub fn keyword_at(rest: &[Token]) -> Option<Keyword>
    ensures value { result ≡ spec.keyword_at rest.now }
    ensures some { IfSome result (λ _. 0 < length rest.now) }
{
    match kind_at(rest) {
        Some(Kind::Word(word)) => word_keyword(*word),
        _ => None,
    }
}

/// NUMBER, TEXT, `true` or `false`.
#[tactic(auto, unfolding(own_grammar::specs::Reading::literal_at))]
pub(crate) fn literal_at(alloc: Global, rest: &[Token]) -> Result<Option<Expr>, AllocError>
    ensures value { IfOk result (λ literal. option_map expr_view literal ≡ reading.literal_at rest.now) }
    ensures height { IfOk result (λ literal. IfSome literal (λ e. nest (expr_view e) ≡ 1)) }
    ensures some { IfOk result (λ literal. IfSome literal (λ _. 0 < length rest.now)) }
{
    let span = here(rest);
    match kind_at(rest) {
        Some(Kind::Number(n)) => Ok(Some(Expr::Number(span, false, *n))),
        Some(Kind::Text(text)) => {
            let text = Row::from_slice(alloc, text.as_slice())?;
            Ok(Some(Expr::Text(span, text)))
        }
        Some(Kind::Word(_)) => match truth_at(rest) {
            Some(truth) => Ok(Some(Expr::Truth(span, truth))),
            None => Ok(None),
        },
        _ => Ok(None),
    }
}

/// Whether a line ends right before the next token.
#[tactic(auto, unfolding(own_grammar::specs::Tests::is_new_line))]
pub(crate) fn is_new_line(rest: &[Token]) -> bool
    ensures { result ≡ spec.is_new_line rest.now }
{
    match rest {
        [token, ..] => token.line_before,
        [] => false,
    }
}
