//! One property, read from bytes and written to them (2.2.2.2).

ghost use Rattle.std.specs.Prelude.{◌≡◌, ◌<◌, ◌≤◌, ◌++◌, ℕ, length, slice_index, IfOk, OnOk};
ghost use Rattle.mqtt_base.specs.Reading.{Reads};
ghost use Rattle.mqtt_props.specs.Properties.{FitsValue, IsProp, value, prop};
ghost use Rattle.mqtt_props.specs.Reading.{value_at, prop_at};
ghost use Rattle.mqtt_props.specs.Views.{value_of, prop_of};

use crate::fault::PropFault;
use crate::table::PropName;
use crate::value::{PropRef, ValueKind, ValueRef};
use mqtt_base::{
    ReadFault, blob_push, blob_read, text_read, u8_read, u16_push, u16_read, u32_read, varint_push,
    varint_read,
};
use std::alloc::AllocError;

/// Reads the value of that kind at the front, and how many bytes it takes.
#[tactic(auto, unfolding(crate::specs::Reading::value_at))]
fn value_read(kind: ValueKind, bytes: &[u8]) -> Result<(ValueRef<'_>, usize), ReadFault>
    ensures { Reads value_of result bytes.now (value_at kind bytes.now) }
{
    match kind {
        ValueKind::Byte => {
            let (n, taken) = u8_read(bytes)?;
            Ok((ValueRef::Byte(n), taken))
        }
        ValueKind::U16 => {
            let (n, taken) = u16_read(bytes)?;
            Ok((ValueRef::U16(n), taken))
        }
        ValueKind::U32 => {
            let (n, taken) = u32_read(bytes)?;
            Ok((ValueRef::U32(n), taken))
        }
        ValueKind::VarInt => {
            let (n, taken) = varint_read(bytes)?;
            Ok((ValueRef::VarInt(n), taken))
        }
        ValueKind::Text => {
            let (text, taken) = text_read(bytes)?;
            Ok((ValueRef::Text(text), taken))
        }
        ValueKind::Binary => {
            let (blob, taken) = blob_read(bytes)?;
            Ok((ValueRef::Binary(blob), taken))
        }
        ValueKind::Pair => pair_read(bytes),
    }
}

/// Reads the pair of texts at the front, and how many bytes it takes.
#[inline(always)]
#[tactic(auto, unfolding(crate::specs::Reading::value_at))]
fn pair_read(bytes: &[u8]) -> Result<(ValueRef<'_>, usize), ReadFault>
    ensures { Reads value_of result bytes.now (value_at ValueKind.Pair bytes.now) }
{
    let (key, first) = text_read(bytes)?;
    let (text, second) = text_read(&bytes[first..])?;
    Ok((ValueRef::Pair(key, text), first + second))
}

/// Reads the property at the front, and how many bytes it takes.
#[tactic(auto, unfolding(crate::specs::Reading::prop_at))]
pub(crate) fn prop_read(bytes: &[u8]) -> Result<(PropRef<'_>, usize), PropFault>
    ensures exact { Reads prop_of result bytes.now (prop_at bytes.now) }
    ensures progress { IfOk result (λ x. 0 < x.1) }
{
    match bytes {
        [] => Err(PropFault::Malformed),
        [id, rest @ ..] => {
            let Some(name) = PropName::from_id(u32::from(*id)) else {
                return Err(PropFault::Malformed);
            };
            let (value, taken) = value_read(name.kind(), rest)?;
            Ok((PropRef { name, value }, taken + 1))
        }
    }
}

/// Writes the value at the end.
fn value_push(out: &mut Vec<u8>, v: ValueRef<'_>) -> Result<(), AllocError>
    requires { FitsValue (value_of v) }
    ensures { OnOk result (out.new.items ≡ out.old.items ++ value (value_of v.entry)) }
{
    match v {
        ValueRef::Byte(n) => {
            out.push(n)?;
            Ok(())
        }
        ValueRef::U16(n) => u16_push(out, n),
        ValueRef::U32(n) => out.extend_from_slice(&n.to_be_bytes()),
        ValueRef::VarInt(n) => varint_push(out, n),
        ValueRef::Text(text) => blob_push(out, text.as_bytes()),
        ValueRef::Binary(blob) => blob_push(out, blob),
        ValueRef::Pair(key, text) => {
            blob_push(out, key.as_bytes())?;
            blob_push(out, text.as_bytes())
        }
    }
}

/// Writes the property at the end: its identifier, then its value (2.2.2.2).
pub fn prop_push(out: &mut Vec<u8>, p: PropRef<'_>) -> Result<(), AllocError>
    requires { IsProp (prop_of p) }
    ensures ok { OnOk result (out.new.items ≡ out.old.items ++ prop (prop_of p.entry)) }
    ensures bytes { (i : ℕ) → slice_index out.new.items i < 256 }
{
    out.push(p.name.id())?;
    value_push(out, p.value)
}
