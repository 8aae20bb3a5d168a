//! Numbers in LEB128 (Core 1.0, 5.2.2).

ghost use Rattle.std.specs.Prelude.{◌≡◌, ◌<◌, ◌≤◌, ◌^◌, ◌+◌, ◌-◌, ◌*◌, true, false, length, IfOk, IfSome};
ghost use Rattle.wasm_read.specs.Reading.{Gives, number_at, last_of, u32_at};

use crate::fault::{Fault, Stop};

/// An unsigned number of 32 bits at the front, and the bytes after it.
pub(crate) fn u32_of(bytes: &[u8]) -> Result<(u32, &[u8]), Stop>
    ensures gives { Gives (λ x. (x.0, x.1.now)) result (u32_at bytes.now) }
    ensures shorter { IfOk result (λ x. length x.1.now < length bytes.now) }
{
    let (n, rest) = number(bytes, 32, false, bytes)?;
    Ok((n as u32, rest))
}

/// The bits of a signed number of 32 bits at the front, and the bytes after it.
pub(crate) fn i32_of(bytes: &[u8]) -> Result<(u32, &[u8]), Stop>
    ensures gives { Gives (λ x. (x.0, x.1.now)) result (number_at true 32 bytes.now) }
    ensures shorter { IfOk result (λ x. length x.1.now < length bytes.now) }
{
    let (n, rest) = number(bytes, 32, true, bytes)?;
    Ok((n as u32, rest))
}

/// The bits of a signed number of 64 bits at the front, and the bytes after it.
pub(crate) fn i64_of(bytes: &[u8]) -> Result<(u64, &[u8]), Stop>
    ensures gives { Gives (λ x. (x.0, x.1.now)) result (number_at true 64 bytes.now) }
    ensures shorter { IfOk result (λ x. length x.1.now < length bytes.now) }
{
    number(bytes, 64, true, bytes)
}

/// The bits of a number of so many at the front, and the bytes after it. The whole of the number
/// begins at `start`.
#[tactic(auto, unfolding(crate::specs::Reading::number_at))]
fn number<'a>(
    bytes: &'a [u8],
    bits: u32,
    signed: bool,
    start: &[u8],
) -> Result<(u64, &'a [u8]), Stop>
    requires some { 0 < bits }
    requires few { bits ≤ 64 }
    ensures gives { Gives (λ x. (x.0, x.1.now)) result (number_at signed bits bytes.now) }
    ensures fits { IfOk result (λ x. x.0 < 2 ^ bits) }
    ensures shorter { IfOk result (λ x. length x.1.now < length bytes.now) }
{
    match bytes {
        [] => Err(Stop::at(Fault::NotModule, bytes)),
        [byte, rest @ ..] => {
            let byte = u64::from(*byte);
            if byte < 128 {
                return match last(byte, bits, signed) {
                    None => Err(Stop::at(Fault::NotModule, start)),
                    Some(n) => Ok((n, rest)),
                };
            }
            if bits <= 7 {
                return Err(Stop::at(Fault::NotModule, start));
            }
            let (high, rest) = number(rest, bits - 7, signed, start)?;
            Ok((joined(byte, high, bits), rest))
        }
    }
}

/// What a last byte stands for, if its unused bits are zero, or copies of its sign.
fn last(byte: u64, bits: u32, signed: bool) -> Option<u64>
    requires byte { byte < 128 }
    requires some { 0 < bits }
    requires few { bits ≤ 64 }
    ensures value { result ≡ last_of signed bits byte }
    ensures fits { IfSome result (λ n. n < 2 ^ bits) }
{
    if signed {
        last_signed(byte, bits)
    } else {
        last_unsigned(byte, bits)
    }
}

fn last_unsigned(byte: u64, bits: u32) -> Option<u64>
    requires byte { byte < 128 }
    requires some { 0 < bits }
    requires few { bits ≤ 64 }
    ensures value { result ≡ last_of false bits byte }
    ensures fits { IfSome result (λ n. n < 2 ^ bits) }
{
    let half = 1u64 << (bits - 1);
    if byte / 2 < half { Some(byte) } else { None }
}

fn last_signed(byte: u64, bits: u32) -> Option<u64>
    requires byte { byte < 128 }
    requires some { 0 < bits }
    requires few { bits ≤ 64 }
    ensures value { result ≡ last_of true bits byte }
    ensures fits { IfSome result (λ n. n < 2 ^ bits) }
{
    let half = 1u64 << (bits - 1);
    if byte < 64 {
        if byte < half { Some(byte) } else { None }
    } else if 128 - byte <= half {
        Some(half - (128 - byte) + half)
    } else {
        None
    }
}

/// The number of a byte that goes on, and of the bytes after it.
fn joined(byte: u64, high: u64, bits: u32) -> u64
    requires low { 128 ≤ byte }
    requires byte { byte < 256 }
    requires many { 7 < bits }
    requires few { bits ≤ 64 }
    requires high { high < 2 ^ (bits - 7) }
    ensures value { result ≡ byte - 128 + 128 * high }
    ensures fits { result < 2 ^ bits }
{
    byte - 128 + 128 * high
}
