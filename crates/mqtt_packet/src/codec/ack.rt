//! PUBACK, PUBREC, PUBREL and PUBCOMP: the packets of the handshakes (3.4 to 3.7).

ghost use Rattle.std.specs.Prelude.{◌≡◌, ◌<◌, ◌^◌, ◌++◌, IfOk, OnOk, OnErr, IsTrue, ◌↔◌, length};
ghost use Rattle.mqtt_packet.specs.parts.Reading.{Gives};
ghost use Rattle.mqtt_packet.specs.parts.Writing.{KeepsFront};
ghost use Rattle.mqtt_packet.specs.codec.Ack.{ack_at, ack_of, ack_body, FitsAck, lawful_ack};

use crate::codec::tail::{tail_len, tail_push, tail_read};
use crate::parts::{Fault, stands};
use mqtt_base::{Kind, Reason, u16_push, u16_read};
use mqtt_props::{Place, PropList, PropsRef};
use std::alloc::{AllocError, Global};

/// A packet of a handshake (3.4 to 3.7).
#[derive(Debug, Drop)]
pub struct Ack {
    /// The packet identifier; lawful from 1 (2.2.1).
    pub identifier: u16,
    /// The reason code: one of the packet's set (2.4).
    pub reason: Reason,
    /// The properties of its block, in their order (2.2.2).
    pub properties: PropList,
}

/// A packet of a handshake that stands in a frame.
#[derive(Debug, Drop)]
pub struct AckRef<'a> {
    /// The packet identifier; lawful from 1 (2.2.1).
    pub identifier: u16,
    /// The reason code: one of the packet's set (2.4).
    pub reason: Reason,
    /// The properties of its block, in their order (2.2.2).
    pub properties: PropsRef<'a>,
}

#[inline(always)]
#[tactic(auto, unfolding(crate::specs::codec::Ack::ack_at))]
pub(crate) fn ack_read(kind: Kind, place: Place, body: &[u8]) -> Result<AckRef<'_>, Fault>
    ensures { Gives ack_of result (ack_at kind place body.now) }
{
    let (identifier, taken) = u16_read(body)?;
    let (_, rest) = body.split_at(taken);
    let (code, properties) = tail_read(place, rest)?;
    let reason = Reason(code);
    if !reason.allowed(kind) {
        return Err(Fault::Malformed);
    }
    Ok(AckRef {
        identifier,
        reason,
        properties,
    })
}

impl AckRef<'_> {
    /// Whether the laws hold.
    #[inline(always)]
    pub(crate) fn is_lawful(&self, place: Place) -> bool
        ensures { result ≡ lawful_ack place (ack_of self.now) }
    {
        self.properties.is_lawful(place) && self.identifier > 0
    }

    /// Writes the shortest body at the end.
    #[inline(always)]
    #[tactic(auto, using(std::proofs::lemmas::List::append_assoc, crate::proofs::parts_lemmas::Fronts::begins_same, crate::proofs::parts_lemmas::Fronts::begins_less))]
    pub(crate) fn push(&self, out: &mut Vec<u8>) -> Result<(), AllocError>
        ensures ok { OnOk result (out.new.items ≡ out.old.items ++ ack_body (ack_of self.now)) }
        ensures front { OnErr result (KeepsFront out.old.items out.new.items) }
    {
        u16_push(out, self.identifier)?;
        tail_push(out, self.reason.0, &self.properties)
    }

    /// How many bytes the shortest body takes.
    #[inline(always)]
    pub(crate) fn len(&self) -> usize
        ensures value { result ≡ length (ack_body (ack_of self.now)) }
        ensures bound { result < 2 ^ 31 }
    {
        2 + tail_len(self.reason.0, &self.properties)
    }

    /// An owned copy.
    #[inline(never)]
    pub(crate) fn to_ack(&self, alloc: Global) -> Result<Ack, AllocError>
        ensures { IfOk result (λ a. a ≡ ack_of self.now) }
    {
        Ok(Ack {
            identifier: self.identifier,
            reason: self.reason,
            properties: self.properties.to_list(alloc)?,
        })
    }
}

impl Ack {
    /// The same, lent.
    #[inline(always)]
    pub(crate) fn lend(&self) -> AckRef<'_>
        ensures { ack_of result ≡ self.now }
    {
        AckRef {
            identifier: self.identifier,
            reason: self.reason,
            properties: self.properties.lend(),
        }
    }

    /// Whether its parts have a spelling.
    #[inline(always)]
    pub(crate) fn fits(&self, kind: Kind, place: Place) -> bool
        ensures { IsTrue result ↔ FitsAck kind place self.now }
    {
        // This shows that the number fits into its two bytes.
        let _identifier = self.identifier;
        let lent = self.properties.lend();
        self.reason.allowed(kind) && stands(&lent, place)
    }
}
