//! Numbers.
ghost use Rattle.std.specs.Prelude.{◌≡◌, ◌≤◌, IfOk, IfSome, Some};
ghost use Rattle.own_tree.specs.Characters.{is_digit, first_is, continues_name};
ghost use Rattle.own_tree.specs.Tokens as rules;
ghost use Rattle.own_lex.specs.Reading as spec;

use crate::character;
use crate::fault::Fault;
use crate::rest::Rest;
use own_tree::Kind;

/// The largest number, 2^63: the bound of the type `Int`, which a minus may stand before.
const MOST_NUMBER: u64 = 9_223_372_036_854_775_808;

fn is_digit_at(base: u32, text: Rest) -> bool
    requires { (2 ≤ base) × (base ≤ 16) }
    ensures { result ≡ first_is (is_digit base) text.entry.chars.now }
{
    text.first().is_some_and(|c| c.is_digit(base))
}

fn prefix(text: Rest) -> Option<u32>
    ensures value { result ≡ rules.prefix text.entry.chars.now }
    ensures base { IfSome result (λ base. (2 ≤ base) × (base ≤ 16)) }
{
    if text.begins("0x") {
        Some(16)
    } else if text.begins("0o") {
        Some(8)
    } else if text.begins("0b") {
        Some(2)
    } else {
        None
    }
}

/// The base of the number at the front, and its digits.
fn digits(text: Rest) -> (u32, Rest)
    ensures value { (result.0, result.1.chars.now) ≡ rules.digits text.entry.chars.now }
    ensures base { (2 ≤ result.0) × (result.0 ≤ 16) }
    ensures within { result.1.left ≤ text.entry.left }
{
    let Some(base) = prefix(text) else {
        return (10, text);
    };
    let digits = text.after().after();
    if is_digit_at(base, digits) {
        (base, digits)
    } else {
        (10, text)
    }
}

/// The number with a digit more, or `None` where it is too large.
fn grown(base: u32, number: Option<u64>, digit: u32) -> Option<u64>
    ensures { result ≡ spec.grown base number digit }
{
    let product = number?.checked_mul(u64::from(base))?;
    let sum = product.checked_add(u64::from(digit))?;
    if sum <= MOST_NUMBER { Some(sum) } else { None }
}

fn with_digit(base: u32, number: Option<u64>, c: char) -> Option<u64>
    requires { (2 ≤ base) × (base ≤ 16) }
    ensures { result ≡ spec.with_digit base number c }
{
    match c.to_digit(base) {
        Some(digit) => grown(base, number, digit),
        None => number,
    }
}

fn is_in_number(base: u32, c: char) -> bool
    requires { (2 ≤ base) × (base ≤ 16) }
    ensures { result ≡ rules.in_number base c }
{
    c.is_digit(base) || c == '_'
}

/// The value of the digits at the front, or `None` where it is too large; and what follows.
#[tactic(auto, using(crate::proofs::Steps::number_goes, crate::proofs::Steps::number_stops, crate::proofs::Steps::number_over))]
fn number_on(base: u32, digits: Rest) -> (Option<u64>, Rest)
    requires { (2 ≤ base) × (base ≤ 16) }
    ensures value { (result.0, result.1.chars.now) ≡ spec.number_on base (Some 0) digits.entry.chars.now }
    ensures within { result.1.left ≤ digits.entry.left }
{
    let mut number = Some(0);
    let mut rest = digits;
    while let Some(c) = rest.first() {
        if !is_in_number(base, c) {
            return (number, rest);
        }
        number = with_digit(base, number, c);
        rest = rest.after();
    }
    (number, rest)
}

fn continues_name(text: Rest) -> bool
    ensures { result ≡ first_is continues_name text.entry.chars.now }
{
    text.first().is_some_and(character::continues_name)
}

/// The number at the front, and what follows.
#[tactic(auto, unfolding(crate::specs::Reading::number_at))]
pub(crate) fn number_at(text: Rest) -> Result<(Kind, Rest), Fault>
    ensures gives { spec.Gives (λ x. (x.0, x.1.chars.now)) result (spec.number_at text.entry.chars.now) }
    ensures within { IfOk result (λ x. x.1.left ≤ text.entry.left) }
{
    let (base, digits) = digits(text);
    let (number, rest) = number_on(base, digits);
    let Some(number) = number else {
        return Err(Fault::WideNumber(text.left));
    };
    if continues_name(rest) {
        return Err(Fault::BadChar(rest.left));
    }
    Ok((Kind::Number(number), rest))
}
