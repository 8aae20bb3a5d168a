//! Numbers in LEB128 (Core 1.0, 5.2.2), each in the fewest bytes.

ghost use Rattle.std.specs.Prelude.{◌≡◌, ◌++◌, ◌<◌, ◌^◌, OnOk};
ghost use Rattle.wasm_form.specs.Leb.{unsigned_shortest, signed_shortest, i32_shortest, i64_shortest, group_of};

use std::alloc::AllocError;

/// Writes an unsigned number.
pub(crate) fn push_unsigned(out: &mut Vec<u8>, n: u64) -> Result<(), AllocError>
    ensures { OnOk result (out.new.items ≡ out.old.items ++ unsigned_shortest n) }
{
    let mut rest = n;
    while rest >= 128 {
        out.push((rest % 128 + 128) as u8)?;
        rest /= 128;
    }
    out.push(rest as u8)?;
    Ok(())
}

/// Writes an i32, given as its two's complement.
#[tactic(auto, unfolding(wasm_form::specs::Leb::i32_shortest))]
pub(crate) fn push_i32(out: &mut Vec<u8>, bits: u32) -> Result<(), AllocError>
    ensures { OnOk result (out.new.items ≡ out.old.items ++ i32_shortest bits) }
{
    if bits < 1 << 31 {
        push_signed(out, false, u64::from(bits))
    } else {
        push_signed(out, true, u64::from(u32::MAX - bits))
    }
}

/// Writes an i64, given as its two's complement.
#[tactic(auto, unfolding(wasm_form::specs::Leb::i64_shortest))]
pub(crate) fn push_i64(out: &mut Vec<u8>, bits: u64) -> Result<(), AllocError>
    ensures { OnOk result (out.new.items ≡ out.old.items ++ i64_shortest bits) }
{
    if bits < 1 << 63 {
        push_signed(out, false, bits)
    } else {
        push_signed(out, true, u64::MAX - bits)
    }
}

/// Writes the signed number `n`, or `-1 - n`, whose bits are the complement of those of `n`.
fn push_signed(out: &mut Vec<u8>, negative: bool, n: u64) -> Result<(), AllocError>
    ensures { OnOk result (out.new.items ≡ out.old.items ++ signed_shortest negative n) }
{
    let mut rest = n;
    while rest >= 64 {
        out.push(group(negative, rest) + 128)?;
        rest /= 128;
    }
    out.push(group(negative, rest))?;
    Ok(())
}

/// The lowest seven bits, or their complement.
fn group(negative: bool, n: u64) -> u8
    ensures value { result ≡ group_of negative n }
    ensures small { result < 128 }
{
    let low = (n % 128) as u8;
    if negative { 127 - low } else { low }
}
