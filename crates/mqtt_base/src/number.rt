//! Integers of one, two and four bytes (1.5.1 to 1.5.3).

ghost use Rattle.std.specs.Prelude.{◌≡◌, ◌++◌, OnOk, OnErr};
ghost use Rattle.std.specs.Int.{w16, w32};
ghost use Rattle.mqtt_base.specs.Values.{two_bytes};
ghost use Rattle.mqtt_base.specs.Reading.{Reads, u8_at, number_at};

use crate::fault::ReadFault;
use std::alloc::AllocError;

/// Reads the byte at the front. `Short` (1) is its only refusal. Takes no memory.
#[inline(always)]
pub fn u8_read(bytes: &[u8]) -> Result<(u8, usize), ReadFault>
    ensures { Reads (λ n. n) result bytes.now (u8_at bytes.now) }
{
    match bytes {
        [] => Err(ReadFault::Short),
        [b, ..] => Ok((*b, 1)),
    }
}

/// Reads the big-endian number of two bytes at the front (1.5.2). `Short` (1) is its only refusal.
/// Takes no memory.
#[inline(always)]
pub fn u16_read(bytes: &[u8]) -> Result<(u16, usize), ReadFault>
    ensures { Reads (λ n. n) result bytes.now (number_at w16 bytes.now) }
{
    match bytes {
        [a, b, ..] => Ok((u16::from_be_bytes([*a, *b]), 2)),
        _ => Err(ReadFault::Short),
    }
}

/// Reads the big-endian number of four bytes at the front (1.5.3). `Short` (1) is its only
/// refusal. Takes no memory.
#[inline(always)]
pub fn u32_read(bytes: &[u8]) -> Result<(u32, usize), ReadFault>
    ensures { Reads (λ n. n) result bytes.now (number_at w32 bytes.now) }
{
    match bytes {
        [a, b, c, d, ..] => Ok((u32::from_be_bytes([*a, *b, *c, *d]), 4)),
        _ => Err(ReadFault::Short),
    }
}

/// Writes the two bytes of a number at the end, the high one first (1.5.2).
pub fn u16_push(out: &mut Vec<u8>, value: u16) -> Result<(), AllocError>
    ensures ok { OnOk result (out.new.items ≡ out.old.items ++ two_bytes value) }
    ensures err { OnErr result (out.new.items ≡ out.old.items) }
{
    out.extend_from_slice(&value.to_be_bytes())
}
