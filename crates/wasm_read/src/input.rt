//! Parts of the bytes that stand in many places.

ghost use Rattle.std.specs.Prelude.{◌≡◌, ◌<◌, ◌≤◌, length, take, IfOk};
ghost use Rattle.std.specs.Str.{is_utf8};
ghost use Rattle.wasm_read.specs.Reading.{Gives, name_at, index_at, closed_at, end_at, zero_at};

use crate::fault::{Fault, Stop};
use crate::number::u32_of;

/// The `0B` at the front, which ends instructions.
pub(crate) fn end_of(bytes: &[u8]) -> Result<&[u8], Stop>
    ensures gives { Gives (λ x. x.now) result (end_at bytes.now) }
    ensures shorter { IfOk result (λ x. length x.now < length bytes.now) }
{
    match bytes {
        [0x0b, rest @ ..] => Ok(rest),
        _ => Err(Stop::at(Fault::NotModule, bytes)),
    }
}

/// The `00` at the front, which names the memory or the table.
pub(crate) fn zero_of(bytes: &[u8]) -> Result<&[u8], Stop>
    ensures gives { Gives (λ x. x.now) result (zero_at bytes.now) }
    ensures shorter { IfOk result (λ x. length x.now < length bytes.now) }
{
    match bytes {
        [0x00, rest @ ..] => Ok(rest),
        _ => Err(Stop::at(Fault::NotModule, bytes)),
    }
}

/// An index below `limit` at the front.
pub(crate) fn index_of(bytes: &[u8], limit: usize) -> Result<(u32, &[u8]), Stop>
    ensures { Gives (λ x. (x.0, x.1.now)) result (index_at limit bytes.now) }
{
    let (index, rest) = u32_of(bytes)?;
    if (index as usize) < limit {
        Ok((index, rest))
    } else {
        Err(Stop::at(Fault::NotModule, bytes))
    }
}

/// A name at the front (Core 1.0, 5.2.4).
#[tactic(auto, unfolding(crate::specs::Reading::name_at))]
pub(crate) fn name_of(bytes: &[u8]) -> Result<(&[u8], &[u8]), Stop>
    ensures { Gives (λ x. (x.0.now, x.1.now)) result (name_at bytes.now) }
{
    let (size, rest) = u32_of(bytes)?;
    let size = size as usize;
    if rest.len() < size {
        return Err(Stop::at(Fault::NotModule, &rest[text_len(rest)..]));
    }
    let (name, rest) = rest.split_at(size);
    if is_text(name) {
        Ok((name, rest))
    } else {
        let bad = Stop::at(Fault::NotModule, &name[text_len(name)..]);
        Err(bad.before(rest.len()))
    }
}

/// Whether the bytes are UTF-8.
fn is_text(bytes: &[u8]) -> bool
    ensures { result ≡ is_utf8 bytes.now }
{
    std::str::from_utf8(bytes).is_ok()
}

/// How many bytes at the front are UTF-8.
fn text_len(bytes: &[u8]) -> usize
    ensures { result ≤ length bytes.now }
{
    match std::str::from_utf8(bytes) {
        Ok(_) => bytes.len(),
        Err(error) => error.valid_up_to().min(bytes.len()),
    }
}

/// The bytes of a part of this size, or what there is of them.
pub(crate) fn front_of(bytes: &[u8], size: u32) -> &[u8]
    ensures { result.now ≡ take size bytes.now }
{
    let size = size as usize;
    if size < bytes.len() {
        &bytes[..size]
    } else {
        bytes
    }
}

/// What follows a part of this size, of which `left` was not read.
pub(crate) fn closed<'a>(bytes: &'a [u8], size: u32, left: &[u8]) -> Result<&'a [u8], Stop>
    ensures { Gives (λ x. x.now) result (closed_at size bytes.now left.now) }
{
    let size = size as usize;
    if !left.is_empty() {
        let over = Stop::at(Fault::NotModule, left);
        return Err(over.before(bytes.len().saturating_sub(size)));
    }
    if bytes.len() < size {
        return Err(Stop::at(Fault::NotModule, &[]));
    }
    Ok(&bytes[size..])
}

/// How many bytes follow a part of this size.
pub(crate) fn behind(bytes: &[u8], size: u32) -> usize {
    bytes.len().saturating_sub(size as usize)
}
