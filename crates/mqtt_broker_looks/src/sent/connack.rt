//! CONNACK: a refusal, or what is granted (3.2).
ghost use Rattle.std.specs.Prelude.{◌≡◌, ◌++◌, ◌<◌, ◌^◌, [], length, true, false, IfOk, OnOk};
ghost use Rattle.mqtt_base.specs.Codes.{success};
ghost use Rattle.mqtt_props.specs.Properties.{props};
ghost use Rattle.mqtt_packet.specs.codec.Connack.{connack_body};
ghost use Rattle.mqtt_packet.specs.codec.Packets.{shortest_of};
ghost use Rattle.mqtt_rules.specs.step.Packets.{connack, reason};
ghost use Rattle.mqtt_rules.specs.step.Connect.{assigned, connack_properties};

use crate::sent::frame::{frame_begin, frame_end};
use bytes::Bytes;
use mqtt_base::{
    ALIAS_LIMIT, OPEN_LIMIT, PACKET_LIMIT, Reason, Text, blob_push, u16_push, varint_len,
    varint_push,
};
use mqtt_props::PropName;
use std::alloc::{AllocError, Global};

/// Bytes of the properties that each client is granted.
const GRANTED_LEN: usize = 11;

/// CONNACK that refuses with a code (3.2.2.2).
#[tactic(auto, unfolding(mqtt_base::specs::Values::varint))]
pub fn connack_refused(alloc: Global, code: Reason) -> Result<Bytes, AllocError>
    ensures { IfOk result (λ bytes. bytes ≡ shortest_of (connack false code.0 [])) }
{
    Bytes::copy_from_slice(alloc, &[0x20, 3, 0, code.0, 0])
}

/// Writes the properties that each client is granted at the end: Receive Maximum, Topic Alias
/// Maximum, Maximum Packet Size (3.2.2.3).
fn granted_push(out: &mut Vec<u8>) -> Result<(), AllocError>
    ensures { OnOk result (out.new.items ≡ out.old.items ++ props (connack_properties false [])) }
{
    out.push(PropName::ReceiveMaximum.id())?;
    u16_push(out, OPEN_LIMIT as u16)?;
    out.push(PropName::TopicAliasMaximum.id())?;
    u16_push(out, ALIAS_LIMIT)?;
    out.push(PropName::MaximumPacketSize.id())?;
    out.extend_from_slice(&(PACKET_LIMIT as u32).to_be_bytes())
}

/// Writes the body of a CONNACK 00 without an assigned client identifier at the end.
fn body_push(out: &mut Vec<u8>, session_present: bool) -> Result<(), AllocError>
    ensures { OnOk result (out.new.items
        ≡ out.old.items ++ connack_body (record {
          session_present = session_present;
          reason = reason success;
          properties = connack_properties false [];
        })) }
{
    out.push(u8::from(session_present))?;
    out.push(0)?;
    varint_push(out, GRANTED_LEN as u32)?;
    granted_push(out)
}

/// CONNACK 00 with what the broker grants, for a client that named itself (3.2.2.1.1, 3.2.2.3).
#[tactic(auto, unfolding(mqtt_base::specs::Values::varint))]
pub fn connack_granted(alloc: Global, session_present: bool) -> Result<Bytes, AllocError>
    ensures { IfOk result (λ bytes. bytes
        ≡ shortest_of (connack session_present success (connack_properties false []))) }
{
    let mut out = frame_begin(alloc, 0x20, 3 + GRANTED_LEN)?;
    let written = body_push(&mut out, session_present);
    frame_end(out, written)
}

/// Writes the body of a CONNACK 00 with an assigned client identifier at the end.
fn named_push(out: &mut Vec<u8>, client: &str, pairs: usize) -> Result<(), AllocError>
    requires fits { length client.now < 2 ^ 16 }
    requires pairs { pairs ≡ length (props (connack_properties true client.now)) }
    ensures { OnOk result (out.new.items
        ≡ out.old.items ++ connack_body (record {
          session_present = false;
          reason = reason success;
          properties = connack_properties true client.now;
        })) }
{
    out.push(0)?;
    out.push(0)?;
    varint_push(out, pairs as u32)?;
    out.push(PropName::AssignedClientIdentifier.id())?;
    blob_push(out, client.as_bytes())?;
    granted_push(out)
}

/// CONNACK 00 with what the broker grants, and the client identifier that it assigned (3.2.2.3.7).
pub fn connack_assigned(alloc: Global, client: &Text) -> Result<Bytes, AllocError>
    ensures { IfOk result (λ bytes. bytes
        ≡ shortest_of (connack false success (connack_properties true client.now))) }
{
    let client = client.as_str();
    let pairs = 3 + client.len() + GRANTED_LEN;
    let mut out = frame_begin(alloc, 0x20, 2 + varint_len(pairs as u32) + pairs)?;
    let written = named_push(&mut out, client, pairs);
    frame_end(out, written)
}
