//! SUBACK and UNSUBACK: a code for each filter (3.9, 3.11).

ghost use Rattle.std.specs.Prelude.{◌≡◌, ◌<◌, ◌^◌, ◌++◌, IfOk, OnOk, OnErr, IsTrue, ◌↔◌, length};
ghost use Rattle.mqtt_packet.specs.parts.Reading.{Gives};
ghost use Rattle.mqtt_packet.specs.parts.Writing.{KeepsFront};
ghost use Rattle.mqtt_packet.specs.codec.Suback.{are_codes, suback_at, suback_of, suback_body, FitsSuback, lawful_suback};

use crate::parts::{Fault, both, stands};
use bytes::Bytes;
use mqtt_base::{Kind, Reason, u16_push, u16_read};
use mqtt_props::{Place, PropList, PropsRef, layout_read};
use std::alloc::{AllocError, Global};

/// A SUBACK or an UNSUBACK (3.9, 3.11).
#[derive(Debug, Drop)]
pub struct Suback {
    /// The packet identifier; lawful from 1 (2.2.1).
    pub identifier: u16,
    /// The properties of its block, in their order (2.2.2).
    pub properties: PropList,
    /// A reason code a byte, one for each filter in their order; lawful from one on.
    pub codes: Bytes,
}

/// A SUBACK or an UNSUBACK that stands in a frame.
#[derive(Debug, Drop)]
pub struct SubackRef<'a> {
    /// The packet identifier; lawful from 1 (2.2.1).
    pub identifier: u16,
    /// The properties of its block, in their order (2.2.2).
    pub properties: PropsRef<'a>,
    /// A reason code a byte, one for each filter in their order; lawful from one on.
    pub codes: &'a [u8],
}

#[inline(always)]
fn are_codes(kind: Kind, codes: &[u8]) -> bool
    ensures { result ≡ are_codes kind codes.now }
{
    codes.iter().all(|code| Reason(*code).allowed(kind))
}

#[inline(always)]
#[tactic(auto, unfolding(crate::specs::codec::Suback::suback_at))]
pub(crate) fn suback_read(kind: Kind, place: Place, body: &[u8]) -> Result<SubackRef<'_>, Fault>
    ensures { Gives suback_of result (suback_at kind place body.now) }
{
    let (identifier, taken) = u16_read(body)?;
    let (_, rest) = body.split_at(taken);
    let Ok((properties, taken)) = layout_read(rest, place) else {
        return Err(Fault::Malformed);
    };
    let (_, codes) = rest.split_at(taken);
    if !are_codes(kind, codes) {
        return Err(Fault::Malformed);
    }
    Ok(SubackRef {
        identifier,
        properties,
        codes,
    })
}

impl SubackRef<'_> {
    /// Whether the laws hold.
    #[inline(always)]
    pub(crate) fn is_lawful(&self, place: Place) -> bool
        ensures { result ≡ lawful_suback place (suback_of self.now) }
    {
        self.properties.is_lawful(place) && self.identifier > 0 && !self.codes.is_empty()
    }

    /// Writes the body at the end.
    #[inline(always)]
    #[tactic(auto, using(std::proofs::lemmas::List::append_assoc, crate::proofs::parts_lemmas::Fronts::begins_same, crate::proofs::parts_lemmas::Fronts::begins_less))]
    pub(crate) fn push(&self, out: &mut Vec<u8>) -> Result<(), AllocError>
        ensures ok { OnOk result (out.new.items ≡ out.old.items ++ suback_body (suback_of self.now)) }
        ensures front { OnErr result (KeepsFront out.old.items out.new.items) }
    {
        u16_push(out, self.identifier)?;
        self.properties.push_block(out)?;
        out.extend_from_slice(self.codes)
    }

    /// How many bytes the body takes.
    #[inline(always)]
    pub(crate) fn len(&self) -> usize
        ensures { result ≡ length (suback_body (suback_of self.now)) }
    {
        2 + (self.properties.block_len() + self.codes.len())
    }

    /// An owned copy.
    #[inline(never)]
    pub(crate) fn to_suback(&self, alloc: Global) -> Result<Suback, AllocError>
        ensures { IfOk result (λ s. s ≡ suback_of self.now) }
    {
        let properties = self.properties.to_list(alloc)?;
        let (properties, codes) = both(properties, Bytes::copy_from_slice(alloc, self.codes))?;
        Ok(Suback {
            identifier: self.identifier,
            properties,
            codes,
        })
    }
}

impl Suback {
    /// The same, lent.
    #[inline(always)]
    pub(crate) fn lend(&self) -> SubackRef<'_>
        ensures { suback_of result ≡ self.now }
    {
        SubackRef {
            identifier: self.identifier,
            properties: self.properties.lend(),
            codes: self.codes.as_slice(),
        }
    }

    /// Whether its parts have a spelling.
    #[inline(always)]
    pub(crate) fn fits(&self, kind: Kind, place: Place) -> bool
        ensures { IsTrue result ↔ FitsSuback kind place self.now }
    {
        // This shows that the number fits into its two bytes.
        let _identifier = self.identifier;
        let lent = self.properties.lend();
        stands(&lent, place) && are_codes(kind, self.codes.as_slice())
    }
}
