//! Answers without properties: PUBACK to PUBCOMP, SUBACK, UNSUBACK, PINGRESP, DISCONNECT (3.4 to 3.14).
ghost use Rattle.std.specs.Prelude.{◌≡◌, ◌∷◌, ◌++◌, ◌+◌, ◌<◌, ◌^◌, ℕ, List, [], length, IfOk, OnOk};
ghost use Rattle.mqtt_base.specs.Values.{two_bytes};
ghost use Rattle.mqtt_packet.specs.codec.Tails.{tail};
ghost use Rattle.mqtt_packet.specs.codec.Packets.{shortest_of};
ghost use Rattle.mqtt_packet.specs.declared.codec.packet.Packet.TheVariants.{Pingresp};
ghost use Rattle.mqtt_rules.specs.step.Packets.{puback, pubrec, pubrel, pubcomp, suback, unsuback, disconnect, size_of};
ghost use Rattle.mqtt_broker_looks.specs.sent.Frames.{frame};

use crate::sent::frame::{frame_begin, frame_end};
use bytes::Bytes;
use mqtt_base::{Reason, u16_push, varint_len};
use std::alloc::{AllocError, Global};

/// Writes a reason code at the end, if it isn't 00, which goes without (3.4.2.1).
fn code_push(out: &mut Vec<u8>, code: Reason) -> Result<(), AllocError>
    ensures { OnOk result (out.new.items ≡ out.old.items ++ tail code.0 []) }
{
    if code.0 != 0 {
        out.push(code.0)?;
    }
    Ok(())
}

/// How many bytes a reason code takes.
fn code_len(code: Reason) -> usize
    ensures value { result ≡ length (tail code.0 []) }
    ensures bound { result < 2 }
{
    if code.0 == 0 { 0 } else { 1 }
}

/// Writes a packet identifier and a reason code at the end.
fn ack_push(out: &mut Vec<u8>, identifier: u16, code: Reason) -> Result<(), AllocError>
    ensures { OnOk result (out.new.items ≡ out.old.items ++ (two_bytes identifier ++ tail code.0 [])) }
{
    u16_push(out, identifier)?;
    code_push(out, code)
}

/// A packet of a handshake with that first byte (3.4 to 3.7).
fn ack(alloc: Global, first: u8, identifier: u16, code: Reason) -> Result<Bytes, AllocError>
    ensures { IfOk result (λ bytes. bytes ≡ frame first (two_bytes identifier ++ tail code.0 [])) }
{
    let mut out = frame_begin(alloc, first, 2 + code_len(code))?;
    let written = ack_push(&mut out, identifier, code);
    frame_end(out, written)
}

/// PUBACK with a code (3.4).
pub fn puback(alloc: Global, identifier: u16, code: Reason) -> Result<Bytes, AllocError>
    ensures { IfOk result (λ bytes. bytes ≡ shortest_of (puback identifier code.0)) }
{
    ack(alloc, 0x40, identifier, code)
}

/// PUBREC with a code (3.5).
pub fn pubrec(alloc: Global, identifier: u16, code: Reason) -> Result<Bytes, AllocError>
    ensures { IfOk result (λ bytes. bytes ≡ shortest_of (pubrec identifier code.0)) }
{
    ack(alloc, 0x50, identifier, code)
}

/// PUBREL with a code (3.6).
pub fn pubrel(alloc: Global, identifier: u16, code: Reason) -> Result<Bytes, AllocError>
    ensures { IfOk result (λ bytes. bytes ≡ shortest_of (pubrel identifier code.0)) }
{
    ack(alloc, 0x62, identifier, code)
}

/// PUBCOMP with a code (3.7).
pub fn pubcomp(alloc: Global, identifier: u16, code: Reason) -> Result<Bytes, AllocError>
    ensures { IfOk result (λ bytes. bytes ≡ shortest_of (pubcomp identifier code.0)) }
{
    ack(alloc, 0x70, identifier, code)
}

/// Writes a packet identifier, a block of no properties and a code for each filter at the end.
fn codes_push(out: &mut Vec<u8>, identifier: u16, codes: &[u8]) -> Result<(), AllocError>
    ensures { OnOk result (out.new.items ≡ out.old.items ++ (two_bytes identifier ++ 0 ∷ codes.now)) }
{
    u16_push(out, identifier)?;
    out.push(0)?;
    out.extend_from_slice(codes)
}

/// A SUBACK or UNSUBACK with that first byte (3.9, 3.11).
fn ack_all(alloc: Global, first: u8, identifier: u16, codes: &[u8]) -> Result<Bytes, AllocError>
    requires { length codes.now + 3 < 2 ^ 28 }
    ensures { IfOk result (λ bytes. bytes ≡ frame first (two_bytes identifier ++ 0 ∷ codes.now)) }
{
    let mut out = frame_begin(alloc, first, 3 + codes.len())?;
    let written = codes_push(&mut out, identifier, codes);
    frame_end(out, written)
}

/// SUBACK with a code for each filter (3.9).
#[tactic(auto, unfolding(mqtt_base::specs::Values::varint))]
pub fn suback(alloc: Global, identifier: u16, codes: &[u8]) -> Result<Bytes, AllocError>
    requires { length codes.now + 3 < 2 ^ 28 }
    ensures { IfOk result (λ bytes. bytes ≡ shortest_of (suback identifier codes.now)) }
{
    ack_all(alloc, 0x90, identifier, codes)
}

/// UNSUBACK with a code for each filter (3.11).
#[tactic(auto, unfolding(mqtt_base::specs::Values::varint))]
pub fn unsuback(alloc: Global, identifier: u16, codes: &[u8]) -> Result<Bytes, AllocError>
    requires { length codes.now + 3 < 2 ^ 28 }
    ensures { IfOk result (λ bytes. bytes ≡ shortest_of (unsuback identifier codes.now)) }
{
    ack_all(alloc, 0xb0, identifier, codes)
}

/// How many bytes the SUBACK, and the UNSUBACK, to so many filters takes (3.9, 3.11). Takes no memory.
pub fn suback_len(filters: usize) -> usize
    requires { filters + 3 < 2 ^ 28 }
    ensures suback { (id : ℕ) (codes : List ℕ) → length codes ≡ filters
        → result ≡ size_of (suback id codes) }
    ensures unsuback { (id : ℕ) (codes : List ℕ) → length codes ≡ filters
        → result ≡ size_of (unsuback id codes) }
{
    let remaining = 3 + filters;
    1 + varint_len(remaining as u32) + remaining
}

/// DISCONNECT with a code (3.14).
pub fn disconnect(alloc: Global, code: Reason) -> Result<Bytes, AllocError>
    ensures { IfOk result (λ bytes. bytes ≡ shortest_of (disconnect code.0)) }
{
    let mut out = frame_begin(alloc, 0xe0, code_len(code))?;
    let written = code_push(&mut out, code);
    frame_end(out, written)
}
