//! Filters one after the other, as an UNSUBSCRIBE has them (3.10.3).

ghost use Rattle.std.specs.Prelude.{◌≡◌, ◌==◌, ◌<◌, ◌^◌, ◌∷◌, ◌++◌, [], ℕ, length, slice_index, MatchOption, IfOk, OnOk, OnErr};
ghost use Rattle.std.specs.List.{flat_map, AllByRecursion};
ghost use Rattle.mqtt_base.specs.Values.{blob, FitsText};
ghost use Rattle.mqtt_base.specs.Reading.{Reads};
ghost use Rattle.mqtt_base.specs.Items.{items_at, Answers};
ghost use Rattle.mqtt_packet.specs.declared.parts.fault.Fault.TheVariants.{Malformed};
ghost use Rattle.mqtt_packet.specs.parts.Reading.{Gives};
ghost use Rattle.mqtt_packet.specs.parts.Writing.{KeepsFront};
ghost use Rattle.mqtt_packet.specs.subscribe.Filters.{filter_at};

use crate::parts::Fault;
use bytes::Bytes;
use mqtt_base::{Text, blob_push, text_read};
use std::alloc::{AllocError, Global};
use std::marker::Model;

/// Filters that stand in a frame, one after the other.
#[derive(Debug, Drop)]
pub struct FiltersRef<'a> {
    bytes: &'a [u8],
}

impl<'a> Model for FiltersRef<'a> {
    ghost use Rattle.std.specs.Prelude.{List, ℕ};
    ghost use Rattle.mqtt_base.specs.Items.{items_of, AreItems};
    ghost use Rattle.mqtt_packet.specs.declared.parts.fault.Fault.TheVariants.{Malformed};
    ghost use Rattle.mqtt_packet.specs.subscribe.Filters.{filter_at};

    ghost Value = { List (List ℕ) };

    ghost view = { λ a. items_of Malformed filter_at a.bytes.now };

    ghost invariant = { λ a. AreItems Malformed filter_at a.bytes.now };
}

/// The filter at the front, and how many bytes it takes.
#[inline(always)]
#[tactic(auto, unfolding(crate::specs::subscribe::Filters::filter_at))]
fn filter_read(bytes: &[u8]) -> Result<(&str, usize), Fault>
    ensures exact { Reads (λ t. t.now) result bytes.now (filter_at bytes.now) }
    ensures progress { IfOk result (λ x. 0 < x.1) }
{
    let (filter, taken) = text_read(bytes)?;
    Ok((filter, taken))
}

/// Whether the bytes are filters.
fn walk(bytes: &[u8]) -> Result<(), Fault>
    ensures { Answers result (items_at Malformed filter_at bytes.now) }
{
    let mut rest = bytes;
    while !rest.is_empty() {
        let (_, taken) = filter_read(rest)?;
        rest = &rest[taken..];
    }
    Ok(())
}

/// The filters that are the bytes.
#[inline(always)]
pub(crate) fn filters_read(bytes: &[u8]) -> Result<FiltersRef<'_>, Fault>
    ensures { Gives (λ fs. fs) result (items_at Malformed filter_at bytes.now) }
{
    walk(bytes)?;
    Ok(FiltersRef { bytes })
}

impl<'a> FiltersRef<'a> {
    /// The same list, lent once more. Takes no memory.
    #[inline(always)]
    pub fn again(&self) -> FiltersRef<'a>
        ensures { result ≡ self.now }
    {
        FiltersRef { bytes: self.bytes }
    }

    /// The first and those after it; none if the list is empty. Takes no memory.
    pub fn split_first(&self) -> Option<(&'a str, FiltersRef<'a>)>
        ensures { MatchOption result (self.now ≡ []) (λ x. self.now ≡ x.0.now ∷ x.1) }
    {
        match filter_read(self.bytes) {
            Ok((first, taken)) => Some((
                first,
                FiltersRef {
                    bytes: &self.bytes[taken..],
                },
            )),
            Err(_) => None,
        }
    }

    /// Whether there is none. Takes no memory.
    #[inline(always)]
    pub fn is_empty(&self) -> bool
        ensures { result ≡ (length self.now == 0) }
    {
        self.split_first().is_none()
    }

    /// How many bytes they take.
    pub(crate) fn len(&self) -> usize
        ensures value { result ≡ length (flat_map blob self.now) }
        ensures bound { result < 2 ^ 63 }
        // They have a spelling.
        ensures each { AllByRecursion FitsText self.now }
    {
        self.bytes.len()
    }

    /// Writes them at the end.
    #[tactic(auto, using(crate::proofs::parts_lemmas::Fronts::begins_same))]
    pub(crate) fn push(&self, out: &mut Vec<u8>) -> Result<(), AllocError>
        ensures ok { OnOk result (out.new.items ≡ out.old.items ++ flat_map blob self.now) }
        ensures front { OnErr result (KeepsFront out.old.items out.new.items) }
    {
        out.extend_from_slice(self.bytes)
    }

    /// An owned copy.
    pub(crate) fn to_list(&self, alloc: Global) -> Result<Filters, AllocError>
        ensures { IfOk result (λ list. list ≡ self.now) }
    {
        let bytes = Bytes::copy_from_slice(alloc, self.bytes)?;
        Ok(Filters { bytes })
    }
}

/// The bytes, and a filter behind them.
fn joined(alloc: Global, bytes: &[u8], filter: &str) -> Result<Bytes, AllocError>
    requires { FitsText filter.now }
    ensures exact { IfOk result (λ all. all ≡ bytes.now ++ blob filter.now) }
    ensures each { IfOk result (λ all. (i : ℕ) → slice_index all i < 256) }
{
    let mut all = Vec::new(alloc);
    all.extend_from_slice(bytes)?;
    blob_push(&mut all, filter.as_bytes())?;
    Ok(Bytes::from_vec(all)?)
}

/// Filters of one's own; clones share the bytes.
#[derive(Debug, Drop)]
pub struct Filters {
    bytes: Bytes,
}

impl Model for Filters {
    ghost use Rattle.std.specs.Prelude.{List, ℕ};
    ghost use Rattle.mqtt_base.specs.Items.{items_of, AreItems};
    ghost use Rattle.mqtt_packet.specs.declared.parts.fault.Fault.TheVariants.{Malformed};
    ghost use Rattle.mqtt_packet.specs.subscribe.Filters.{filter_at};

    ghost Value = { List (List ℕ) };

    ghost view = { λ a. items_of Malformed filter_at a.bytes };

    ghost invariant = { λ a. AreItems Malformed filter_at a.bytes };
}

impl Filters {
    /// No filters. Takes no memory.
    pub fn new() -> Filters
        ensures { result ≡ [] }
    {
        Filters {
            bytes: Bytes::new(),
        }
    }

    /// The same list, lent. Takes no memory.
    pub fn lend(&self) -> FiltersRef<'_>
        ensures { result ≡ self.now }
    {
        FiltersRef {
            bytes: self.bytes.as_slice(),
        }
    }

    /// Adds a filter at the end. The bytes are copied, so that lists which share them stay as they
    /// are.
    pub fn push(&mut self, alloc: Global, filter: &Text) -> Result<(), AllocError>
        ensures ok { OnOk result (self.new ≡ self.old ++ filter.now ∷ []) }
        ensures err { OnErr result (self.new ≡ self.old) }
    {
        self.bytes = joined(alloc, self.bytes.as_slice(), filter.as_str())?;
        Ok(())
    }
}

impl Clone for Filters {
    ghost is_clone = { λ list copy. copy ≡ list };

    /// Another owner of the same bytes.
    fn clone(&self) -> Result<Filters, AllocError> {
        Ok(Filters {
            bytes: self.bytes.clone()?,
        })
    }
}
