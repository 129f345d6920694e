//! Filters with their options, as a SUBSCRIBE has them (3.8.3).

ghost use Rattle.std.specs.Prelude.{◌≡◌, ◌==◌, ◌<◌, ◌^◌, ◌∷◌, ◌++◌, [], ℕ, length, slice_index, Some, MatchOption, IfSome, IfOk, OnOk, OnErr};
ghost use Rattle.std.specs.List.{list_all, flat_map, AllByRecursion};
ghost use Rattle.mqtt_base.specs.declared.session.SubscriptionOptions.{SubscriptionOptions};
ghost use Rattle.mqtt_base.specs.Values.{blob, FitsText};
ghost use Rattle.mqtt_base.specs.Reading.{Reads};
ghost use Rattle.mqtt_base.specs.Items.{items_at, Answers};
ghost use Rattle.mqtt_packet.specs.declared.parts.fault.Fault.TheVariants.{Malformed};
ghost use Rattle.mqtt_packet.specs.parts.Reading.{Gives};
ghost use Rattle.mqtt_packet.specs.parts.Writing.{KeepsFront};
ghost use Rattle.mqtt_packet.specs.subscribe.Subscriptions.{subscription, IsSubscription, lawful_subscription, subscription_at, is_shared};
ghost use Rattle.mqtt_packet.specs.subscribe.Options.{options_byte};
ghost use Rattle.mqtt_packet.specs.subscribe.SubscriptionViews.{subscription_of, asked};

use crate::parts::Fault;
use crate::subscribe::options::{options_byte, options_read};
use bytes::Bytes;
use mqtt_base::{SubscriptionOptions, Text, blob_push, text_read, u8_read};
use std::alloc::{AllocError, Global};
use std::marker::Model;

/// A filter that stands in a frame, with its options (3.8.3.1).
#[derive(Clone, Copy, Debug)]
pub struct SubscriptionRef<'a> {
    /// The topic filter, or shared filter (4.7, 4.8.2).
    pub filter: &'a str,
    /// A byte below 64: bits 0 and 1 the maximum QoS, 2 No Local, 3 Retain As Published, 4 and 5 Retain Handling.
    pub options: u8,
}

/// Filters that stand in a frame, one after the other, with their options.
#[derive(Debug, Drop)]
pub struct SubscriptionsRef<'a> {
    bytes: &'a [u8],
}

impl<'a> Model for SubscriptionsRef<'a> {
    ghost use Rattle.std.specs.Prelude.{List};
    ghost use Rattle.mqtt_base.specs.Items.{items_of, AreItems};
    ghost use Rattle.mqtt_packet.specs.declared.parts.fault.Fault.TheVariants.{Malformed};
    ghost use Rattle.mqtt_packet.specs.subscribe.Subscriptions.{Subscription, subscription_at};

    ghost Value = { List Subscription };

    ghost view = { λ a. items_of Malformed subscription_at a.bytes.now };

    ghost invariant = { λ a. AreItems Malformed subscription_at a.bytes.now };
}

/// The filter at the front with its options, and how many bytes they take.
#[inline(always)]
#[tactic(auto, unfolding(crate::specs::subscribe::Subscriptions::subscription_at))]
fn subscription_read(bytes: &[u8]) -> Result<(SubscriptionRef<'_>, usize), Fault>
    ensures exact { Reads subscription_of result bytes.now (subscription_at bytes.now) }
    ensures progress { IfOk result (λ x. 0 < x.1) }
{
    let (filter, taken) = text_read(bytes)?;
    let (_, rest) = bytes.split_at(taken);
    let (options, one) = u8_read(rest)?;
    if options >= 64 {
        return Err(Fault::Malformed);
    }
    Ok((SubscriptionRef { filter, options }, taken + one))
}

impl SubscriptionRef<'_> {
    /// What its options say; none if they break a law, as a maximum QoS of 3 (3.8.3.1). Takes no
    /// memory.
    pub fn options(&self) -> Option<SubscriptionOptions>
        ensures found { IfSome result (λ options. self.now.options ≡ options_byte options) }
        ensures only { (options : SubscriptionOptions) → self.now.options ≡ options_byte options
            → result ≡ Some options }
    {
        options_read(self.options)
    }

    #[inline(always)]
    fn is_shared(&self) -> bool
        ensures { result ≡ is_shared self.now.filter.now }
    {
        self.filter.as_bytes().starts_with(b"$share/")
    }

    #[inline(always)]
    fn is_lawful(&self) -> bool
        ensures { result ≡ lawful_subscription (subscription_of self.now) }
    {
        self.options % 4 < 3
            && self.options / 16 < 3
            && (self.options / 4 % 2 == 0 || !self.is_shared())
    }
}

/// Whether the bytes are filters with options.
fn walk(bytes: &[u8]) -> Result<(), Fault>
    ensures { Answers result (items_at Malformed subscription_at bytes.now) }
{
    let mut rest = bytes;
    while !rest.is_empty() {
        let (_, taken) = subscription_read(rest)?;
        rest = &rest[taken..];
    }
    Ok(())
}

/// The filters with options that are the bytes.
#[inline(always)]
pub(crate) fn subscriptions_read(bytes: &[u8]) -> Result<SubscriptionsRef<'_>, Fault>
    ensures { Gives (λ ws. ws) result (items_at Malformed subscription_at bytes.now) }
{
    walk(bytes)?;
    Ok(SubscriptionsRef { bytes })
}

impl<'a> SubscriptionsRef<'a> {
    /// The same list, lent once more. Takes no memory.
    #[inline(always)]
    pub fn again(&self) -> SubscriptionsRef<'a>
        ensures { result ≡ self.now }
    {
        SubscriptionsRef { bytes: self.bytes }
    }

    /// The first and those after it; none if the list is empty. Takes no memory.
    pub fn split_first(&self) -> Option<(SubscriptionRef<'a>, SubscriptionsRef<'a>)>
        ensures { MatchOption result (self.now ≡ []) (λ x. self.now ≡ subscription_of x.0 ∷ x.1) }
    {
        match subscription_read(self.bytes) {
            Ok((first, taken)) => Some((
                first,
                SubscriptionsRef {
                    bytes: &self.bytes[taken..],
                },
            )),
            Err(_) => None,
        }
    }

    /// Whether there is none. Takes no memory.
    #[inline(always)]
    pub fn is_empty(&self) -> bool
        ensures { result ≡ (length self.now == 0) }
    {
        self.split_first().is_none()
    }

    /// Whether each keeps its laws.
    #[inline(always)]
    pub(crate) fn all_lawful(&self) -> bool
        ensures { result ≡ list_all lawful_subscription self.now }
    {
        let mut rest = self.again();
        while let Some((first, after)) = rest.split_first() {
            if !first.is_lawful() {
                return false;
            }
            rest = after;
        }
        true
    }

    /// How many bytes they take.
    pub(crate) fn len(&self) -> usize
        ensures value { result ≡ length (flat_map subscription self.now) }
        ensures bound { result < 2 ^ 63 }
        // They have a spelling.
        ensures each { AllByRecursion IsSubscription self.now }
    {
        self.bytes.len()
    }

    /// Writes them at the end.
    #[tactic(auto, using(crate::proofs::parts_lemmas::Fronts::begins_same))]
    pub(crate) fn push(&self, out: &mut Vec<u8>) -> Result<(), AllocError>
        ensures ok { OnOk result (out.new.items ≡ out.old.items ++ flat_map subscription self.now) }
        ensures front { OnErr result (KeepsFront out.old.items out.new.items) }
    {
        out.extend_from_slice(self.bytes)
    }

    /// An owned copy.
    pub(crate) fn to_list(&self, alloc: Global) -> Result<Subscriptions, AllocError>
        ensures { IfOk result (λ list. list ≡ self.now) }
    {
        let bytes = Bytes::copy_from_slice(alloc, self.bytes)?;
        Ok(Subscriptions { bytes })
    }
}

/// Writes a filter with its options at the end.
#[tactic(auto, using(std::proofs::lemmas::List::append_assoc))]
fn subscription_push(out: &mut Vec<u8>, filter: &str, options: u8) -> Result<(), AllocError>
    requires { FitsText filter.now }
    ensures ok { OnOk result (out.new.items ≡ out.old.items ++ (blob filter.now ++ options ∷ [])) }
    ensures bytes { (i : ℕ) → slice_index out.new.items i < 256 }
{
    blob_push(out, filter.as_bytes())?;
    out.push(options)?;
    Ok(())
}

/// The bytes, and a filter with its options behind them.
fn joined(alloc: Global, bytes: &[u8], filter: &str, options: u8) -> Result<Bytes, AllocError>
    requires { FitsText filter.now }
    ensures exact { IfOk result (λ all. all ≡ bytes.now ++ (blob filter.now ++ options ∷ [])) }
    ensures each { IfOk result (λ all. (i : ℕ) → slice_index all i < 256) }
{
    let mut all = Vec::new(alloc);
    all.extend_from_slice(bytes)?;
    subscription_push(&mut all, filter, options)?;
    Ok(Bytes::from_vec(all)?)
}

/// Filters with their options, of one's own; clones share the bytes.
#[derive(Debug, Drop)]
pub struct Subscriptions {
    bytes: Bytes,
}

impl Model for Subscriptions {
    ghost use Rattle.std.specs.Prelude.{List};
    ghost use Rattle.mqtt_base.specs.Items.{items_of, AreItems};
    ghost use Rattle.mqtt_packet.specs.declared.parts.fault.Fault.TheVariants.{Malformed};
    ghost use Rattle.mqtt_packet.specs.subscribe.Subscriptions.{Subscription, subscription_at};

    ghost Value = { List Subscription };

    ghost view = { λ a. items_of Malformed subscription_at a.bytes };

    ghost invariant = { λ a. AreItems Malformed subscription_at a.bytes };
}

impl Subscriptions {
    /// No filters. Takes no memory.
    pub fn new() -> Subscriptions
        ensures { result ≡ [] }
    {
        Subscriptions {
            bytes: Bytes::new(),
        }
    }

    /// The same list, lent. Takes no memory.
    pub fn lend(&self) -> SubscriptionsRef<'_>
        ensures { result ≡ self.now }
    {
        SubscriptionsRef {
            bytes: self.bytes.as_slice(),
        }
    }

    /// Adds a filter with its options at the end. The bytes are copied, so that lists which share
    /// them stay as they are.
    pub fn push(
        &mut self,
        alloc: Global,
        filter: &Text,
        options: SubscriptionOptions,
    ) -> Result<(), AllocError>
        ensures ok { OnOk result (self.new ≡ self.old ++ asked filter.now options ∷ []) }
        ensures err { OnErr result (self.new ≡ self.old) }
    {
        let byte = options_byte(options);
        self.bytes = joined(alloc, self.bytes.as_slice(), filter.as_str(), byte)?;
        Ok(())
    }
}

impl Clone for Subscriptions {
    ghost is_clone = { λ list copy. copy ≡ list };

    /// Another owner of the same bytes.
    fn clone(&self) -> Result<Subscriptions, AllocError> {
        Ok(Subscriptions {
            bytes: self.bytes.clone()?,
        })
    }
}
