//! White space and comments.
ghost use Rattle.std.specs.Prelude.{◌≡◌, ◌≤◌, IfSome, IfOk, false, not, option_map};
ghost use Rattle.own_tree.specs.Characters as spec;
ghost use Rattle.own_lex.specs.Reading.{Gives, blank_at, comment_end};

use crate::character::{is_line_end, is_white};
use crate::fault::Fault;
use crate::rest::Rest;

/// Whether a line ends right here.
pub(crate) fn is_at_line_end(text: Rest) -> bool
    ensures { result ≡ spec.first_is spec.is_line_end text.entry.chars.now }
{
    text.first().is_some_and(is_line_end)
}

/// What is left after the end of the comment whose start was just read, and whether a line ends
/// in it. Comments nest.
pub(crate) fn comment_end(text: Rest) -> Option<(bool, Rest)>
    ensures value { option_map (λ x. (x.0, x.1.chars.now)) result ≡ comment_end 0 false text.entry.chars.now }
    ensures within { IfSome result (λ x. x.1.left ≤ text.entry.left) }
{
    let mut rest = text;
    let mut outer: usize = 0;
    let mut line = false;
    while !rest.is_over() {
        if rest.begins("*/") {
            let next = rest.after().after();
            if outer == 0 {
                return Some((line, next));
            }
            outer -= 1;
            rest = next;
        } else if rest.begins("/*") {
            outer += 1;
            rest = rest.after().after();
        } else {
            line |= is_at_line_end(rest);
            rest = rest.after();
        }
    }
    None
}

fn is_at_white(text: Rest) -> bool
    ensures { result ≡ spec.first_is spec.is_white text.entry.chars.now }
{
    text.first().is_some_and(is_white)
}

/// What is left at the end of the line.
#[tactic(auto, using(crate::proofs::Steps::line_goes, crate::proofs::Steps::line_stops, crate::proofs::Steps::line_over))]
fn line_end(text: Rest) -> Rest
    ensures value { result.chars.now ≡ spec.past (λ c. not (spec.is_line_end c)) text.entry.chars.now }
    ensures within { result.left ≤ text.entry.left }
{
    let mut rest = text;
    while let Some(c) = rest.first() {
        if is_line_end(c) {
            return rest;
        }
        rest = rest.after();
    }
    rest
}

/// The character of white space or the comment at the front, if there is one: whether a line ends
/// in it, and what follows.
#[tactic(auto, unfolding(crate::specs::Reading::blank_at))]
pub(crate) fn blank_at(text: Rest) -> Result<Option<(bool, Rest)>, Fault>
    ensures gives { Gives (option_map (λ x. (x.0, x.1.chars.now))) result (blank_at text.entry.chars.now) }
    ensures within { IfOk result (λ o. IfSome o (λ x. x.1.left ≤ text.entry.left)) }
{
    if is_at_white(text) {
        return Ok(Some((is_at_line_end(text), text.after())));
    }
    if text.begins("//") {
        return Ok(Some((false, line_end(text.after().after()))));
    }
    if !text.begins("/*") {
        return Ok(None);
    }
    match comment_end(text.after().after()) {
        Some(x) => Ok(Some(x)),
        None => Err(Fault::OpenComment(text.left)),
    }
}
