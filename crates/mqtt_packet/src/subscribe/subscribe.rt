//! SUBSCRIBE (3.8).

ghost use Rattle.std.specs.Prelude.{◌≡◌, ◌<◌, ◌^◌, ◌++◌, IfOk, OnOk, OnErr, IsTrue, ◌↔◌, length};
ghost use Rattle.mqtt_packet.specs.parts.Reading.{Gives};
ghost use Rattle.mqtt_packet.specs.parts.Writing.{KeepsFront};
ghost use Rattle.mqtt_packet.specs.subscribe.Subscribe.{subscribe_at, subscribe_of, subscribe_body, FitsSubscribe, lawful_subscribe};

use crate::parts::{Fault, both, stands};
use crate::subscribe::subscriptions::{Subscriptions, SubscriptionsRef, subscriptions_read};
use mqtt_base::{u16_push, u16_read};
use mqtt_props::{Place, PropList, PropsRef, layout_read};
use std::alloc::{AllocError, Global};

/// A SUBSCRIBE (3.8).
#[derive(Debug, Drop)]
pub struct Subscribe {
    /// The packet identifier; lawful from 1 (2.2.1).
    pub identifier: u16,
    /// The properties of its block, in their order (2.2.2).
    pub properties: PropList,
    /// The filters with their options; lawful from one on (3.8.3).
    pub subscriptions: Subscriptions,
}

/// A SUBSCRIBE that stands in a frame.
#[derive(Debug, Drop)]
pub struct SubscribeRef<'a> {
    /// The packet identifier; lawful from 1 (2.2.1).
    pub identifier: u16,
    /// The properties of its block, in their order (2.2.2).
    pub properties: PropsRef<'a>,
    /// The filters with their options; lawful from one on (3.8.3).
    pub subscriptions: SubscriptionsRef<'a>,
}

/// Reads a body (3.8.2, 3.8.3); `Malformed` (1) is its only refusal. Takes no memory.
#[inline(always)]
#[tactic(auto, unfolding(crate::specs::subscribe::Subscribe::subscribe_at))]
pub fn subscribe_read(body: &[u8]) -> Result<SubscribeRef<'_>, Fault>
    ensures { Gives subscribe_of result (subscribe_at body.now) }
{
    let (identifier, taken) = u16_read(body)?;
    let (_, rest) = body.split_at(taken);
    let Ok((properties, taken)) = layout_read(rest, Place::Subscribe) else {
        return Err(Fault::Malformed);
    };
    let (_, rest) = rest.split_at(taken);
    let subscriptions = subscriptions_read(rest)?;
    Ok(SubscribeRef {
        identifier,
        properties,
        subscriptions,
    })
}

impl SubscribeRef<'_> {
    /// Whether its block and its filters keep their laws, and there is a filter (3.8.3). Takes no memory.
    #[inline(always)]
    pub fn is_lawful(&self) -> bool
        ensures { result ≡ lawful_subscribe (subscribe_of self.now) }
    {
        self.properties.is_lawful(Place::Subscribe)
            && self.identifier > 0
            && !self.subscriptions.is_empty()
            && self.subscriptions.all_lawful()
    }

    /// Writes the body (3.8.2, 3.8.3) at the end; want of memory is its only refusal.
    #[inline(always)]
    #[tactic(auto, using(std::proofs::lemmas::List::append_assoc, crate::proofs::parts_lemmas::Fronts::begins_same, crate::proofs::parts_lemmas::Fronts::begins_less))]
    pub fn push(&self, out: &mut Vec<u8>) -> Result<(), AllocError>
        ensures ok { OnOk result (out.new.items ≡ out.old.items ++ subscribe_body (subscribe_of self.now)) }
        ensures front { OnErr result (KeepsFront out.old.items out.new.items) }
    {
        u16_push(out, self.identifier)?;
        self.properties.push_block(out)?;
        self.subscriptions.push(out)
    }

    /// How many bytes the body takes. Takes no memory.
    #[inline(always)]
    pub fn len(&self) -> usize
        ensures { result ≡ length (subscribe_body (subscribe_of self.now)) }
    {
        2 + (self.properties.block_len() + self.subscriptions.len())
    }

    /// An owned copy; want of memory is its only refusal.
    #[inline(never)]
    pub fn to_subscribe(&self, alloc: Global) -> Result<Subscribe, AllocError>
        ensures { IfOk result (λ s. s ≡ subscribe_of self.now) }
    {
        let properties = self.properties.to_list(alloc)?;
        let (properties, subscriptions) = both(properties, self.subscriptions.to_list(alloc))?;
        Ok(Subscribe {
            identifier: self.identifier,
            properties,
            subscriptions,
        })
    }
}

impl Subscribe {
    /// The same, lent. Takes no memory.
    #[inline(always)]
    pub fn lend(&self) -> SubscribeRef<'_>
        ensures { subscribe_of result ≡ self.now }
    {
        SubscribeRef {
            identifier: self.identifier,
            properties: self.properties.lend(),
            subscriptions: self.subscriptions.lend(),
        }
    }

    /// Whether its parts have a spelling. Takes no memory.
    #[inline(always)]
    pub fn fits(&self) -> bool
        ensures { IsTrue result ↔ FitsSubscribe self.now }
    {
        // This shows that the number fits into its two bytes.
        let _identifier = self.identifier;
        let subscriptions = self.subscriptions.lend();
        // This shows that each filter has a spelling.
        let _len = subscriptions.len();
        let lent = self.properties.lend();
        stands(&lent, Place::Subscribe)
    }
}
