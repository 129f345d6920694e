//! Packets read from frames and written to them (2.1, 4.13).

ghost use Rattle.std.specs.Prelude.{◌≡◌, ◌<◌, ◌+◌, ◌^◌, ◌⊎◌, ◌↔◌, ◌++◌, ◌∷◌, ℕ, List, length, true, IfOk, IfErr, IsTrue, OnOk, OnErr, Ok};
ghost use Rattle.mqtt_base.specs.Values.{varint};
ghost use Rattle.mqtt_packet.specs.declared.parts.fault.Fault.TheVariants as faults;
ghost use Rattle.mqtt_packet.specs.declared.codec.packet.Packet.{Packet};
ghost use Rattle.mqtt_packet.specs.codec.Heads.{first};
ghost use Rattle.mqtt_packet.specs.parts.Reading.{Gives};
ghost use Rattle.mqtt_packet.specs.parts.Writing.{KeepsFront};
ghost use Rattle.mqtt_packet.specs.codec.Packets.{head, Fits, Spells, Refusal, is_lawful, shortest_body, shortest_of, HasSpelling, IsShortest};
ghost use Rattle.mqtt_packet.specs.codec.Frames.{sized_at, frame_at, empty_at, versioned_at, version_at, IsAck, IsOfSubscriptions, judged_at, lawful_at, packet_at, packet_of};

use crate::codec::head::{Head, head_read};
use crate::codec::judged::{
    ack_judged, auth_judged, connack_judged, connect_judged, disconnect_judged, publish_judged,
    suback_judged, subscribe_judged, unsubscribe_judged,
};
use crate::codec::packet::{Packet, PacketRef};
use crate::connect::is_version_5;
use crate::parts::Fault;
use mqtt_base::{
    Kind, ReadFault, VARINT_LIMIT, text_read, u8_read, varint_len, varint_push, varint_read,
};
use mqtt_props::Place;
use std::alloc::{AllocError, Global};

/// The bytes that follow, as many as the Remaining Length says (2.1.4).
#[inline(always)]
fn sized_read(bytes: &[u8]) -> Result<&[u8], Fault>
    ensures { Gives (λ body. body.now) result (sized_at bytes.now) }
{
    let (len, taken) = varint_read(bytes)?;
    let (_, body) = bytes.split_at(taken);
    if body.len() != len as usize {
        return Err(Fault::Malformed);
    }
    Ok(body)
}

#[inline(always)]
#[tactic(auto, unfolding(crate::specs::codec::Frames::frame_at))]
fn frame_read(frame: &[u8]) -> Result<(Head, &[u8]), Fault>
    ensures { Gives (λ x. (x.0, x.1.now)) result (frame_at frame.now) }
{
    let [first, rest @ ..] = frame else {
        return Err(Fault::Malformed);
    };
    let Some(head) = head_read(*first) else {
        return Err(Fault::Malformed);
    };
    let body = sized_read(rest)?;
    Ok((head, body))
}

#[inline(always)]
#[tactic(auto, unfolding(crate::specs::codec::Frames::empty_at))]
fn empty_read(body: &[u8]) -> Result<(), Fault>
    ensures { Gives (λ u. u) result (empty_at body.now) }
{
    match body {
        [] => Ok(()),
        _ => Err(Fault::Malformed),
    }
}

/// Whether a CONNECT's body begins with the protocol's name and the version.
#[inline(always)]
#[tactic(auto, unfolding(crate::specs::codec::Frames::versioned_at))]
fn versioned_read(body: &[u8]) -> Result<bool, ReadFault>
    ensures { Gives (λ b. b) result (versioned_at body.now) }
{
    let (protocol, taken) = text_read(body)?;
    let (_, rest) = body.split_at(taken);
    let (version, _) = u8_read(rest)?;
    Ok(is_version_5(protocol, version))
}

#[inline(always)]
fn version_read(head: Head, body: &[u8]) -> Result<(), Fault>
    ensures { Gives (λ u. u) result (version_at head body.now) }
{
    match head {
        Head::Connect => match versioned_read(body) {
            Ok(false) => Err(Fault::Version),
            _ => Ok(()),
        },
        _ => Ok(()),
    }
}

#[inline(always)]
#[tactic(auto, unfolding(crate::specs::codec::Frames::lawful_at))]
fn lawful_read(head: Head, body: &[u8]) -> Result<PacketRef<'_>, Fault>
    ensures { Gives packet_of result (lawful_at head body.now) }
{
    version_read(head, body)?;
    judged_read(head, body)
}

/// Each kind is read, judged and made by itself, so that no packet is moved.
#[inline(always)]
#[tactic(auto, unfolding(crate::specs::codec::Frames::judged_at))]
fn judged_read(head: Head, body: &[u8]) -> Result<PacketRef<'_>, Fault>
    ensures { Gives packet_of result (judged_at head body.now) }
{
    match head {
        Head::Connect => connect_judged(body).map(PacketRef::Connect),
        Head::Connack => connack_judged(body).map(PacketRef::Connack),
        Head::Publish { dup, qos, retain } => {
            publish_judged(dup, qos, retain, body).map(PacketRef::Publish)
        }
        Head::Puback | Head::Pubrec | Head::Pubrel | Head::Pubcomp => acks_read(head, body),
        Head::Subscribe | Head::Suback | Head::Unsubscribe | Head::Unsuback => {
            subscriptions_read(head, body)
        }
        Head::Pingreq => match empty_read(body) {
            Ok(()) => Ok(PacketRef::Pingreq),
            Err(_) => Err(Fault::Malformed),
        },
        Head::Pingresp => match empty_read(body) {
            Ok(()) => Ok(PacketRef::Pingresp),
            Err(_) => Err(Fault::Malformed),
        },
        Head::Disconnect => disconnect_judged(body).map(PacketRef::Disconnect),
        Head::Auth => auth_judged(body).map(PacketRef::Auth),
    }
}

/// Each of the four acks.
#[inline(always)]
#[tactic(auto, unfolding(crate::specs::codec::Frames::judged_at))]
fn acks_read(head: Head, body: &[u8]) -> Result<PacketRef<'_>, Fault>
    requires { IsAck head }
    ensures { Gives packet_of result (judged_at head body.now) }
{
    match head {
        Head::Puback => ack_judged(Kind::Puback, Place::Puback, body).map(PacketRef::Puback),
        Head::Pubrec => ack_judged(Kind::Pubrec, Place::Pubrec, body).map(PacketRef::Pubrec),
        Head::Pubrel => ack_judged(Kind::Pubrel, Place::Pubrel, body).map(PacketRef::Pubrel),
        _ => ack_judged(Kind::Pubcomp, Place::Pubcomp, body).map(PacketRef::Pubcomp),
    }
}

/// Each of the four packets that ask for subscriptions or answer that.
#[inline(always)]
#[tactic(auto, unfolding(crate::specs::codec::Frames::judged_at))]
fn subscriptions_read(head: Head, body: &[u8]) -> Result<PacketRef<'_>, Fault>
    requires { IsOfSubscriptions head }
    ensures { Gives packet_of result (judged_at head body.now) }
{
    match head {
        Head::Subscribe => subscribe_judged(body).map(PacketRef::Subscribe),
        Head::Suback => suback_judged(Kind::Suback, Place::Suback, body).map(PacketRef::Suback),
        Head::Unsubscribe => unsubscribe_judged(body).map(PacketRef::Unsubscribe),
        _ => suback_judged(Kind::Unsuback, Place::Unsuback, body).map(PacketRef::Unsuback),
    }
}

#[inline(always)]
#[tactic(auto, unfolding(crate::specs::codec::Frames::packet_at))]
fn packet_read(frame: &[u8]) -> Result<PacketRef<'_>, Fault>
    ensures { Gives packet_of result (packet_at frame.now) }
{
    let Ok((head, body)) = frame_read(frame) else {
        return Err(Fault::Malformed);
    };
    lawful_read(head, body)
}

/// Reads the packet that the whole frame spells (2.1, 4.13). Takes no memory.
///
/// `Malformed` (1) if the bytes have no layout, `Protocol` (2) if they have one and a law is
/// broken, `Version` (4) if they are a CONNECT of another protocol or version; never `TooLarge`
/// or `Memory`.
#[inline(always)]
pub fn look_at(frame: &[u8]) -> Result<PacketRef<'_>, Fault>
    ensures exact { Gives packet_of result (packet_at frame.now) }
    // What is read is spelled so, and keeps its laws.
    ensures found { IfOk result (λ packet. Spells (packet_of packet) frame.now) }
    // What is spelled so is read.
    ensures only { (p : Packet) → Spells p frame.now → Gives packet_of result (Ok p) }
    ensures refused { IfErr result (λ fault. Refusal fault frame.now) }
{
    packet_read(frame)
}

/// Reads the packet that the whole frame spells, owned (2.1, 4.13).
///
/// The faults are those of `look_at`, and `Memory` (5).
pub fn decode(alloc: Global, frame: &[u8]) -> Result<Packet, Fault>
    ensures found { IfOk result (λ packet. Spells packet frame.now) }
    // What is spelled so is read, or memory is wanting.
    ensures only { (p : Packet) → Spells p frame.now → (result ≡ Ok p) ⊎ (result ≡ Err faults.Memory) }
    ensures refused { IfErr result (λ fault. (fault ≡ faults.Memory) ⊎ Refusal fault frame.now) }
{
    let packet = look_at(frame)?;
    let owned = packet.to_packet(alloc);
    drop(packet);
    Ok(owned?)
}

impl PacketRef<'_> {
    /// The first byte.
    #[inline(always)]
    fn first_byte(&self) -> u8
        ensures { result ≡ first (head (packet_of self.now)) }
    {
        match self {
            PacketRef::Connect(_) => 0x10,
            PacketRef::Connack(_) => 0x20,
            PacketRef::Publish(publish) => publish.first_byte(),
            PacketRef::Puback(_) => 0x40,
            PacketRef::Pubrec(_) => 0x50,
            PacketRef::Pubrel(_) => 0x62,
            PacketRef::Pubcomp(_) => 0x70,
            PacketRef::Subscribe(_) => 0x82,
            PacketRef::Suback(_) => 0x90,
            PacketRef::Unsubscribe(_) => 0xa2,
            PacketRef::Unsuback(_) => 0xb0,
            PacketRef::Pingreq => 0xc0,
            PacketRef::Pingresp => 0xd0,
            PacketRef::Disconnect(_) => 0xe0,
            PacketRef::Auth(_) => 0xf0,
        }
    }

    /// How many bytes the shortest body takes.
    #[inline(always)]
    fn body_len(&self) -> usize
        requires { Fits (packet_of self.now) }
        ensures { result ≡ length (shortest_body (packet_of self.now)) }
    {
        match self {
            PacketRef::Connect(connect) => connect.len(),
            PacketRef::Connack(connack) => connack.len(),
            PacketRef::Publish(publish) => publish.len(),
            PacketRef::Puback(ack)
            | PacketRef::Pubrec(ack)
            | PacketRef::Pubrel(ack)
            | PacketRef::Pubcomp(ack) => ack.len(),
            PacketRef::Subscribe(subscribe) => subscribe.len(),
            PacketRef::Suback(suback) | PacketRef::Unsuback(suback) => suback.len(),
            PacketRef::Unsubscribe(unsubscribe) => unsubscribe.len(),
            PacketRef::Pingreq | PacketRef::Pingresp => 0,
            PacketRef::Disconnect(notice) => notice.disconnect_len(),
            PacketRef::Auth(notice) => notice.auth_len(),
        }
    }

    /// Writes the shortest body at the end.
    #[inline(always)]
    fn push_body(&self, out: &mut Vec<u8>) -> Result<(), AllocError>
        requires { Fits (packet_of self.now) }
        ensures ok { OnOk result (out.new.items ≡ out.old.items ++ shortest_body (packet_of self.now)) }
        ensures front { OnErr result (KeepsFront out.old.items out.new.items) }
    {
        match self {
            PacketRef::Connect(connect) => connect.push(out),
            PacketRef::Connack(connack) => connack.push(out),
            PacketRef::Publish(publish) => publish.push(out),
            PacketRef::Puback(ack)
            | PacketRef::Pubrec(ack)
            | PacketRef::Pubrel(ack)
            | PacketRef::Pubcomp(ack) => ack.push(out),
            PacketRef::Subscribe(subscribe) => subscribe.push(out),
            PacketRef::Suback(suback) | PacketRef::Unsuback(suback) => suback.push(out),
            PacketRef::Unsubscribe(unsubscribe) => unsubscribe.push(out),
            PacketRef::Pingreq | PacketRef::Pingresp => Ok(()),
            PacketRef::Disconnect(notice) => notice.push_disconnect(out),
            PacketRef::Auth(notice) => notice.push_auth(out),
        }
    }
}

/// Whether the packet keeps the laws and has a layout (1.2). Takes no memory.
pub fn lawful(packet: &Packet) -> bool
    ensures { IsTrue result ↔ HasSpelling packet.now }
{
    if !packet.fits() {
        return false;
    }
    let lent = packet.lend();
    lent.body_len() < VARINT_LIMIT as usize && lent.is_lawful()
}

/// How many bytes the shortest spelling of the packet takes (2.1). Takes no memory.
#[inline(always)]
pub fn spelled_len(packet: &PacketRef<'_>) -> usize
    requires { HasSpelling (packet_of packet.now) }
    ensures exact { result ≡ length (shortest_of (packet_of packet.now)) }
    ensures within { result < 2 ^ 28 + 5 }
{
    let len = packet.body_len();
    1 + varint_len(len as u32) + len
}

/// Writes the shortest spelling of the packet (2.1) at the end; `Memory` (5) is its only refusal, and
/// leaves the bytes as they were.
#[inline(always)]
pub fn encode_into(packet: &PacketRef<'_>, out: &mut Vec<u8>) -> Result<(), Fault>
    requires { HasSpelling (packet_of packet.now) }
    ensures ok { OnOk result (out.new.items ≡ out.old.items ++ shortest_of (packet_of packet.now)) }
    ensures fault { IfErr result (λ fault. fault ≡ faults.Memory) }
    ensures err { OnErr result (out.new.items ≡ out.old.items) }
{
    let start = out.len();
    let len = packet.body_len();
    if out.reserve(5 + len).is_err() {
        return Err(Fault::Memory);
    }
    match frame_push(packet, len, out) {
        Ok(()) => Ok(()),
        Err(_) => {
            out.truncate(start);
            Err(Fault::Memory)
        }
    }
}

/// Writes the shortest spelling of the packet (2.1); `Memory` (5) is its only refusal.
pub fn encode(alloc: Global, packet: &Packet) -> Result<Vec<u8>, Fault>
    requires { HasSpelling packet.now }
    ensures exact { IfOk result (λ frame. frame.items ≡ shortest_of packet.now) }
    // It spells the packet, and no fewer bytes do.
    ensures shortest { IfOk result (λ frame. IsShortest packet.now frame.items) }
    ensures fault { IfErr result (λ fault. fault ≡ faults.Memory) }
{
    let lent = packet.lend();
    let frame = encode_lent(alloc, &lent);
    drop(lent);
    Ok(frame?)
}

#[inline(always)]
fn encode_lent(alloc: Global, packet: &PacketRef<'_>) -> Result<Vec<u8>, AllocError>
    requires { HasSpelling (packet_of packet.now) }
    ensures { IfOk result (λ frame. frame.items ≡ shortest_of (packet_of packet.now)) }
{
    let len = packet.body_len();
    let mut frame = Vec::with_capacity(alloc, 5 + len)?;
    match frame_push(packet, len, &mut frame) {
        Ok(()) => Ok(frame),
        Err(error) => {
            drop(frame);
            Err(error)
        }
    }
}

/// Writes the shortest spelling at the end, whose body takes so many bytes.
#[inline(always)]
#[tactic(auto, using(std::proofs::lemmas::List::append_assoc, crate::proofs::parts_lemmas::Fronts::begins_same, crate::proofs::parts_lemmas::Fronts::begins_less))]
fn frame_push(packet: &PacketRef<'_>, len: usize, out: &mut Vec<u8>) -> Result<(), AllocError>
    requires spelling { HasSpelling (packet_of packet.now) }
    requires len { len ≡ length (shortest_body (packet_of packet.now)) }
    ensures ok { OnOk result (out.new.items ≡ out.old.items ++ shortest_of (packet_of packet.now)) }
    ensures front { OnErr result (KeepsFront out.old.items out.new.items) }
{
    out.push(packet.first_byte())?;
    varint_push(out, len as u32)?;
    packet.push_body(out)
}
