//! CONNACK: the answer to CONNECT (3.2).

ghost use Rattle.std.specs.Prelude.{◌≡◌, ◌<◌, ◌^◌, ◌++◌, IfOk, OnOk, OnErr, IsTrue, ◌↔◌, length};
ghost use Rattle.mqtt_packet.specs.parts.Reading.{Gives};
ghost use Rattle.mqtt_packet.specs.parts.Writing.{KeepsFront};
ghost use Rattle.mqtt_packet.specs.codec.Connack.{connack_at, connack_of, connack_body, session_present_of, FitsConnack, lawful_connack};

use crate::parts::{Fault, stands};
use mqtt_base::{Kind, Reason, u8_read};
use mqtt_props::{Place, PropList, PropsRef, layout_read};
use std::alloc::{AllocError, Global};

/// The answer to a CONNECT (3.2).
#[derive(Debug, Drop)]
pub struct Connack {
    /// Whether the session was resumed (3.2.2.1.1).
    pub session_present: bool,
    /// The reason code: one of the packet's set (2.4).
    pub reason: Reason,
    /// The properties of its block, in their order (2.2.2).
    pub properties: PropList,
}

/// A CONNACK that stands in a frame.
#[derive(Debug, Drop)]
pub struct ConnackRef<'a> {
    /// Whether the session was resumed (3.2.2.1.1).
    pub session_present: bool,
    /// The reason code: one of the packet's set (2.4).
    pub reason: Reason,
    /// The properties of its block, in their order (2.2.2).
    pub properties: PropsRef<'a>,
}

#[inline(always)]
fn session_present_read(flags: u8) -> Option<bool>
    ensures { result ≡ session_present_of flags }
{
    match flags {
        0 => Some(false),
        1 => Some(true),
        _ => None,
    }
}

#[inline(always)]
#[tactic(auto, unfolding(crate::specs::codec::Connack::connack_at))]
pub(crate) fn connack_read(body: &[u8]) -> Result<ConnackRef<'_>, Fault>
    ensures { Gives connack_of result (connack_at body.now) }
{
    let (flags, taken) = u8_read(body)?;
    let (_, rest) = body.split_at(taken);
    let Some(session_present) = session_present_read(flags) else {
        return Err(Fault::Malformed);
    };
    let (code, taken) = u8_read(rest)?;
    let (_, rest) = rest.split_at(taken);
    let Ok((properties, taken)) = layout_read(rest, Place::Connack) else {
        return Err(Fault::Malformed);
    };
    let reason = Reason(code);
    if taken != rest.len() || !reason.allowed(Kind::Connack) {
        return Err(Fault::Malformed);
    }
    Ok(ConnackRef {
        session_present,
        reason,
        properties,
    })
}

impl ConnackRef<'_> {
    /// Whether the laws hold.
    #[inline(always)]
    pub(crate) fn is_lawful(&self) -> bool
        ensures { result ≡ lawful_connack (connack_of self.now) }
    {
        self.properties.is_lawful(Place::Connack) && (self.reason.0 == 0 || !self.session_present)
    }

    /// Writes the body at the end.
    #[inline(always)]
    #[tactic(auto, using(std::proofs::lemmas::List::append_assoc, crate::proofs::parts_lemmas::Fronts::begins_same, crate::proofs::parts_lemmas::Fronts::begins_less))]
    pub(crate) fn push(&self, out: &mut Vec<u8>) -> Result<(), AllocError>
        ensures ok { OnOk result (out.new.items ≡ out.old.items ++ connack_body (connack_of self.now)) }
        ensures front { OnErr result (KeepsFront out.old.items out.new.items) }
    {
        out.push(u8::from(self.session_present))?;
        out.push(self.reason.0)?;
        self.properties.push_block(out)
    }

    /// How many bytes the body takes.
    #[inline(always)]
    pub(crate) fn len(&self) -> usize
        ensures value { result ≡ length (connack_body (connack_of self.now)) }
        ensures bound { result < 2 ^ 31 }
    {
        2 + self.properties.block_len()
    }

    /// An owned copy.
    #[inline(never)]
    pub(crate) fn to_connack(&self, alloc: Global) -> Result<Connack, AllocError>
        ensures { IfOk result (λ c. c ≡ connack_of self.now) }
    {
        Ok(Connack {
            session_present: self.session_present,
            reason: self.reason,
            properties: self.properties.to_list(alloc)?,
        })
    }
}

impl Connack {
    /// The same, lent.
    #[inline(always)]
    pub(crate) fn lend(&self) -> ConnackRef<'_>
        ensures { connack_of result ≡ self.now }
    {
        ConnackRef {
            session_present: self.session_present,
            reason: self.reason,
            properties: self.properties.lend(),
        }
    }

    /// Whether its parts have a spelling.
    #[inline(always)]
    pub(crate) fn fits(&self) -> bool
        ensures { IsTrue result ↔ FitsConnack self.now }
    {
        let lent = self.properties.lend();
        self.reason.allowed(Kind::Connack) && stands(&lent, Place::Connack)
    }
}
