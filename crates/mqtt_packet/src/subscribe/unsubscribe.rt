//! UNSUBSCRIBE (3.10).

ghost use Rattle.std.specs.Prelude.{◌≡◌, ◌<◌, ◌^◌, ◌++◌, IfOk, OnOk, OnErr, IsTrue, ◌↔◌, length};
ghost use Rattle.mqtt_packet.specs.parts.Reading.{Gives};
ghost use Rattle.mqtt_packet.specs.parts.Writing.{KeepsFront};
ghost use Rattle.mqtt_packet.specs.subscribe.Unsubscribe.{unsubscribe_at, unsubscribe_of, unsubscribe_body, FitsUnsubscribe, lawful_unsubscribe};

use crate::parts::{Fault, both, stands};
use crate::subscribe::filters::{Filters, FiltersRef, filters_read};
use mqtt_base::{u16_push, u16_read};
use mqtt_props::{Place, PropList, PropsRef, layout_read};
use std::alloc::{AllocError, Global};

/// An UNSUBSCRIBE (3.10).
#[derive(Debug, Drop)]
pub struct Unsubscribe {
    /// The packet identifier; lawful from 1 (2.2.1).
    pub identifier: u16,
    /// The properties of its block, in their order (2.2.2).
    pub properties: PropList,
    /// The filters; lawful from one on (3.10.3).
    pub filters: Filters,
}

/// An UNSUBSCRIBE that stands in a frame.
#[derive(Debug, Drop)]
pub struct UnsubscribeRef<'a> {
    /// The packet identifier; lawful from 1 (2.2.1).
    pub identifier: u16,
    /// The properties of its block, in their order (2.2.2).
    pub properties: PropsRef<'a>,
    /// The filters; lawful from one on (3.10.3).
    pub filters: FiltersRef<'a>,
}

/// Reads a body (3.10.2, 3.10.3); `Malformed` (1) is its only refusal. Takes no memory.
#[inline(always)]
#[tactic(auto, unfolding(crate::specs::subscribe::Unsubscribe::unsubscribe_at))]
pub fn unsubscribe_read(body: &[u8]) -> Result<UnsubscribeRef<'_>, Fault>
    ensures { Gives unsubscribe_of result (unsubscribe_at body.now) }
{
    let (identifier, taken) = u16_read(body)?;
    let (_, rest) = body.split_at(taken);
    let Ok((properties, taken)) = layout_read(rest, Place::Unsubscribe) else {
        return Err(Fault::Malformed);
    };
    let (_, rest) = rest.split_at(taken);
    let filters = filters_read(rest)?;
    Ok(UnsubscribeRef {
        identifier,
        properties,
        filters,
    })
}

impl UnsubscribeRef<'_> {
    /// Whether its block keeps its laws, and there is a filter (3.10.3). Takes no memory.
    #[inline(always)]
    pub fn is_lawful(&self) -> bool
        ensures { result ≡ lawful_unsubscribe (unsubscribe_of self.now) }
    {
        self.properties.is_lawful(Place::Unsubscribe)
            && self.identifier > 0
            && !self.filters.is_empty()
    }

    /// Writes the body (3.10.2, 3.10.3) at the end; want of memory is its only refusal.
    #[inline(always)]
    #[tactic(auto, using(std::proofs::lemmas::List::append_assoc, crate::proofs::parts_lemmas::Fronts::begins_same, crate::proofs::parts_lemmas::Fronts::begins_less))]
    pub fn push(&self, out: &mut Vec<u8>) -> Result<(), AllocError>
        ensures ok { OnOk result (out.new.items ≡ out.old.items ++ unsubscribe_body (unsubscribe_of self.now)) }
        ensures front { OnErr result (KeepsFront out.old.items out.new.items) }
    {
        u16_push(out, self.identifier)?;
        self.properties.push_block(out)?;
        self.filters.push(out)
    }

    /// How many bytes the body takes. Takes no memory.
    #[inline(always)]
    pub fn len(&self) -> usize
        ensures { result ≡ length (unsubscribe_body (unsubscribe_of self.now)) }
    {
        2 + (self.properties.block_len() + self.filters.len())
    }

    /// An owned copy; want of memory is its only refusal.
    #[inline(never)]
    pub fn to_unsubscribe(&self, alloc: Global) -> Result<Unsubscribe, AllocError>
        ensures { IfOk result (λ s. s ≡ unsubscribe_of self.now) }
    {
        let properties = self.properties.to_list(alloc)?;
        let (properties, filters) = both(properties, self.filters.to_list(alloc))?;
        Ok(Unsubscribe {
            identifier: self.identifier,
            properties,
            filters,
        })
    }
}

impl Unsubscribe {
    /// The same, lent. Takes no memory.
    #[inline(always)]
    pub fn lend(&self) -> UnsubscribeRef<'_>
        ensures { unsubscribe_of result ≡ self.now }
    {
        UnsubscribeRef {
            identifier: self.identifier,
            properties: self.properties.lend(),
            filters: self.filters.lend(),
        }
    }

    /// Whether its parts have a spelling. Takes no memory.
    #[inline(always)]
    pub fn fits(&self) -> bool
        ensures { IsTrue result ↔ FitsUnsubscribe self.now }
    {
        // This shows that the number fits into its two bytes.
        let _identifier = self.identifier;
        let filters = self.filters.lend();
        // This shows that each filter has a spelling.
        let _len = filters.len();
        let lent = self.properties.lend();
        stands(&lent, Place::Unsubscribe)
    }
}
