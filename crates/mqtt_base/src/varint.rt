//! Variable byte integers (1.5.5).

ghost use Rattle.std.specs.Prelude.{◌≡◌, ◌≤◌, ◌<◌, ◌^◌, ◌++◌, ◌↔◌, List, ℕ, Ok, length, take};
ghost use Rattle.std.specs.Prelude.{IfOk, OnOk, OnErr, IsErrOf};
ghost use Rattle.mqtt_base.specs.declared.fault.ReadFault.{ReadFault};
ghost use Rattle.mqtt_base.specs.Values.{IsVarInt, varint};
ghost use Rattle.mqtt_base.specs.Reading.{Reads, groups_at, varint_at};
ghost use Rattle.mqtt_base.specs.Refusals.{VarIntRefused};

use crate::fault::ReadFault;
use std::alloc::AllocError;

/// Reads the variable byte integer at the front, at most 268,435,455, and how many bytes it takes,
/// one to four (1.5.5). Takes no memory.
///
/// It answers `Short` (1) if the input ends inside the integer and `Overlong` (2) if its last
/// byte of two or more is 00 or its fourth byte has the high bit; never `BadText`.
#[inline(always)]
pub fn varint_read(bytes: &[u8]) -> Result<(u32, usize), ReadFault>
    ensures exact { Reads (λ n. n) result bytes.now (varint_at bytes.now) }
    ensures below { IfOk result (λ x. x.0 < 2 ^ 28) }
    ensures few { IfOk result (λ x. x.1 ≤ 4) }

    // What is read is spelled so.
    ensures found { IfOk result (λ x. IsVarInt x.0 (take x.1 bytes.now)) }

    // What is spelled so is read, whatever follows it.
    ensures only { (n : ℕ) (v rest : List ℕ) → IsVarInt n v → bytes.now ≡ v ++ rest
        → Reads (λ n. n) result bytes.now (Ok (n, rest)) }

    // Each refusal comes where it is due, and only there.
    ensures refused { (fault : ReadFault) → IsErrOf result fault ↔ VarIntRefused fault bytes.now }
{
    varint_by_groups(bytes)
}

#[inline(always)]
#[tactic(auto, unfolding(crate::specs::Reading::varint_at))]
fn varint_by_groups(bytes: &[u8]) -> Result<(u32, usize), ReadFault>
    ensures { Reads (λ n. n) result bytes.now (varint_at bytes.now) }
{
    match bytes {
        [] => Err(ReadFault::Short),
        [a, ..] if *a < 128 => Ok((u32::from(*a), 1)),
        [a, rest @ ..] => {
            let (high, taken) = groups_read(rest)?;
            Ok((u32::from(*a - 128) + 128 * high, taken + 1))
        }
    }
}

/// The groups behind a first byte that has the high bit.
#[inline(never)]
#[tactic(auto, unfolding(crate::specs::Reading::groups_at))]
fn groups_read(bytes: &[u8]) -> Result<(u32, usize), ReadFault>
    ensures exact { Reads (λ n. n) result bytes.now (groups_at 2 bytes.now) }
    ensures below { IfOk result (λ x. x.0 < 2 ^ 21) }
{
    match bytes {
        [] => Err(ReadFault::Short),
        [0, ..] => Err(ReadFault::Overlong),
        [a, ..] if *a < 128 => Ok((u32::from(*a), 1)),
        [a, rest @ ..] => {
            let (high, taken) = last_two_groups_read(rest)?;
            Ok((u32::from(*a - 128) + 128 * high, taken + 1))
        }
    }
}

/// The groups behind two bytes that have the high bit.
#[inline(always)]
#[tactic(auto, unfolding(crate::specs::Reading::groups_at))]
fn last_two_groups_read(bytes: &[u8]) -> Result<(u32, usize), ReadFault>
    ensures exact { Reads (λ n. n) result bytes.now (groups_at 1 bytes.now) }
    ensures below { IfOk result (λ x. x.0 < 2 ^ 14) }
{
    match bytes {
        [] => Err(ReadFault::Short),
        [a, ..] if *a == 0 => Err(ReadFault::Overlong),
        [a, ..] if *a < 128 => Ok((u32::from(*a), 1)),
        [a, rest @ ..] => {
            let (high, taken) = last_group_read(rest)?;
            Ok((u32::from(*a - 128) + 128 * high, taken + 1))
        }
    }
}

/// The group behind three bytes that have the high bit: the last there may be.
#[inline(always)]
#[tactic(auto, unfolding(crate::specs::Reading::groups_at))]
fn last_group_read(bytes: &[u8]) -> Result<(u32, usize), ReadFault>
    ensures exact { Reads (λ n. n) result bytes.now (groups_at 0 bytes.now) }
    ensures below { IfOk result (λ x. x.0 < 2 ^ 7) }
{
    match bytes {
        [] => Err(ReadFault::Short),
        [a, ..] if 0 < *a && *a < 128 => Ok((u32::from(*a), 1)),
        _ => Err(ReadFault::Overlong),
    }
}

/// How many bytes the variable byte integer takes, one to four.
#[tactic(auto, unfolding(crate::specs::Values::varint))]
pub fn varint_len(value: u32) -> usize
    requires { value < 2 ^ 28 }
    ensures value { result ≡ length (varint value) }
    ensures bound { result ≤ 4 }
{
    match value {
        0..=127 => 1,
        128..=16_383 => 2,
        16_384..=2_097_151 => 3,
        _ => 4,
    }
}

/// Writes the variable byte integer to the front, and answers how many bytes it takes, one to
/// four. What stands behind it is no part of it.
pub fn varint_write(value: u32, out: &mut [u8; 4]) -> usize
    requires { value < 2 ^ 28 }
    ensures len { result ≡ length (varint value) }
    ensures spelled { take result out.new ≡ varint value }
    ensures lawful { IsVarInt value (take result out.new) }
{
    groups_write(value, out)
}

#[tactic(auto, unfolding(crate::specs::Values::varint))]
fn groups_write(value: u32, out: &mut [u8; 4]) -> usize
    requires { value < 2 ^ 28 }
    ensures len { result ≡ length (varint value) }
    ensures spelled { take result out.new ≡ varint value }
{
    if value < 128 {
        *out = [value as u8, 0, 0, 0];
        1
    } else if value < 16_384 {
        *out = [(value % 128 + 128) as u8, (value / 128) as u8, 0, 0];
        2
    } else if value < 2_097_152 {
        *out = [
            (value % 128 + 128) as u8,
            (value / 128 % 128 + 128) as u8,
            (value / 128 / 128) as u8,
            0,
        ];
        3
    } else {
        *out = [
            (value % 128 + 128) as u8,
            (value / 128 % 128 + 128) as u8,
            (value / 128 / 128 % 128 + 128) as u8,
            (value / 128 / 128 / 128) as u8,
        ];
        4
    }
}

/// Writes the variable byte integer at the end.
pub fn varint_push(out: &mut Vec<u8>, value: u32) -> Result<(), AllocError>
    requires { value < 2 ^ 28 }
    ensures ok { OnOk result (out.new.items ≡ out.old.items ++ varint value) }
    ensures err { OnErr result (out.new.items ≡ out.old.items) }
{
    let mut bytes = [0; 4];
    let len = varint_write(value, &mut bytes);
    out.extend_from_slice(&bytes[..len])
}
