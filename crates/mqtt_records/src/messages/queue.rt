//! What is kept of a copy in a session's queue (4.3, 4.6).
ghost use Rattle.std.specs.Prelude.{◌≡◌, ◌↔◌, None, false, length, IfOk, IfErr, IfSome, IsTrue};
ghost use Rattle.mqtt_props.specs.declared.table.PropName.TheVariants.{MessageExpiryInterval};
ghost use Rattle.mqtt_props.specs.Properties.{FitsBlock, props};
ghost use Rattle.mqtt_records.specs.messages.Filling.{filled_with, HasBytesOf};
ghost use Rattle.mqtt_records.specs.messages.PassedOn.{number_at, IsPassedOn};
ghost use Rattle.mqtt_records.specs.messages.Queue.{identifier_len, first_sent, IsSpelled, publish_size, AreSizes};
ghost use Rattle.mqtt_records.specs.messages.Refusals.{RefusesCopy};
ghost use Rattle.mqtt_records.specs.messages.Slim.{slim};

use crate::lists::{CloneRow, Editable, Row, Shareable};
use crate::messages::content::CopyContent;
use crate::messages::fault::CopyFault;
use crate::messages::held::{Held, Rest, clone_of, parted, share};
use crate::messages::lent::{ContentRef, CopyRef};
use crate::messages::message::MessageCopy;
use crate::messages::parts::CopyPart;
use crate::messages::sizes::{expiry_in, pairs_len, sent_len};
use mqtt_base::{CopyId, Phase, Qos, Text, VARINT_LIMIT, varint_len};
use mqtt_props::PropFault;
use std::alloc::{AllocError, Global};
use std::marker::Model;
use std::sync::Arc;

/// A copy in a session's queue (4.3, 4.6): its place, from 1, in the order in which copies are sent,
/// how far it has come, and what is sent. Its PUBLISH has a spelling, of a size that is remembered; so are
/// the bytes of its properties and of its payload, and its Message Expiry Interval. A row may be slim: then
/// Subscription Identifiers, properties and payload are not in memory.
#[derive(Drop)]
pub struct CopyRow {
    place: u64,
    phase: Phase,
    size: u32,
    pairs: u32,
    payload: u32,
    expiry: Option<u32>,
    rest: Rest,
    held: Held,
}

impl Model for CopyRow {
    ghost use Rattle.mqtt_records.specs.messages.Queue.{CopyRow as Queued};
    ghost use Rattle.mqtt_records.specs.messages.Held.{held_copy, Remembers};

    ghost Value = { Queued };

    ghost view = { λ a. record {
      place = a.place;
      phase = a.phase;
      copy = held_copy a.pairs a.payload a.expiry a.rest a.held;
    } };

    ghost invariant = { λ a. Remembers a.size a.pairs a.payload a.expiry (held_copy a.pairs a.payload a.expiry a.rest a.held) };
}

/// Bytes of the packet identifier of a PUBLISH (2.2.1).
fn identifier_len(qos: Qos) -> usize
    ensures { result ≡ identifier_len qos }
{
    match qos {
        Qos::AtMostOnce => 0,
        Qos::AtLeastOnce | Qos::ExactlyOnce => 2,
    }
}

/// Bytes of the properties of a copy that has not waited, their length left out.
fn pairs_of(alloc: Global, copy: &MessageCopy) -> Result<usize, CopyFault>
    ensures exact { IfOk result (λ len. len ≡ length (props (first_sent copy.now))) }
    ensures fits { IfOk result (λ len. FitsBlock (first_sent copy.now)) }
    ensures refused { IfErr result (RefusesCopy copy.now) }
{
    let identifiers = copy.identifiers.as_slice();
    let list = match copy.content.properties.sent(alloc, 0, identifiers) {
        Ok(list) => list,
        Err(PropFault::Memory) => return Err(CopyFault::Memory),
        Err(PropFault::Malformed | PropFault::Twice | PropFault::BadValue) => {
            return Err(CopyFault::Unspelled);
        }
    };
    let len = pairs_len(&list.lend());
    drop(list);
    Ok(len)
}

/// Bytes of the PUBLISH of a copy whose properties have so many bytes, their length left out.
fn size_of(pairs: usize, copy: &MessageCopy) -> Result<u32, CopyFault>
    requires exact { pairs ≡ length (props (first_sent copy.now)) }
    requires fits { FitsBlock (first_sent copy.now) }
    ensures exact { IfOk result (λ size. size ≡ publish_size copy.now) }
    ensures spelled { IfOk result (λ size. IsSpelled copy.now) }
    ensures refused { IfErr result (RefusesCopy copy.now) }
{
    let limit = VARINT_LIMIT as usize;
    let payload = copy.content.payload.len();
    if payload >= limit {
        return Err(CopyFault::Unspelled);
    }
    let topic = copy.content.topic.as_str().len();
    let block = varint_len(pairs as u32) + pairs;
    let remaining = 2 + topic + identifier_len(copy.qos) + block + payload;
    if remaining >= limit {
        return Err(CopyFault::Unspelled);
    }
    Ok((1 + varint_len(remaining as u32) + remaining) as u32)
}

/// Bytes of the properties of a copy, their length left out, and of its PUBLISH.
fn sizes_of(alloc: Global, copy: &MessageCopy) -> Result<(u32, u32), CopyFault>
    ensures exact { IfOk result (λ sizes. AreSizes sizes copy.now) }
    ensures refused { IfErr result (RefusesCopy copy.now) }
{
    let pairs = pairs_of(alloc, copy)?;
    let size = size_of(pairs, copy)?;
    Ok((pairs as u32, size))
}

impl CopyRow {
    /// A row at a place, with the size of its copy's PUBLISH. `Unspelled` (1) if that has no
    /// spelling: a Subscription Identifier or the whole is too large (2.1.4).
    pub fn new(
        alloc: Global,
        place: u64,
        phase: Phase,
        copy: MessageCopy,
    ) -> Result<CopyRow, CopyFault>
        ensures exact { IfOk result (λ row. row
            ≡ record { place = place; phase = phase; copy = copy }) }
        ensures refused { IfErr result (RefusesCopy copy) }
    {
        let (pairs, size) = match sizes_of(alloc, &copy) {
            Ok(sizes) => sizes,
            Err(fault) => {
                drop(copy);
                return Err(fault);
            }
        };
        let payload = copy.content.payload.len() as u32;
        let expiry = expiry_in(&copy.content.properties.lend());
        let (rest, said) = parted(copy);
        match Arc::new(alloc, said) {
            Ok(said) => Ok(CopyRow {
                place,
                phase,
                size,
                pairs,
                payload,
                expiry,
                rest,
                held: Held::Whole(said),
            }),
            Err(_) => {
                drop(rest);
                Err(CopyFault::Memory)
            }
        }
    }

    /// Its place in the queue, from 1. Takes no memory.
    pub fn place(&self) -> u64
        ensures { result ≡ self.now.place }
    {
        self.place
    }

    /// How far it has come. Takes no memory.
    pub fn phase(&self) -> Phase
        ensures { result ≡ self.now.phase }
    {
        self.phase
    }

    /// What is sent, if the row has it; a slim row hasn't. Takes no memory.
    pub fn whole(&self) -> Option<CopyRef<'_>>
        ensures exact { IfSome result (λ copy. copy ≡ self.now.copy) }
        ensures slim { result ≡ None → self.now ≡ slim self.now }
    {
        match &self.held {
            Held::Whole(said) => Some(CopyRef {
                id: &self.rest.id,
                qos: self.rest.qos,
                retain: self.rest.retain,
                identifiers: &said.identifiers,
                content: ContentRef {
                    topic: &self.rest.topic,
                    properties: &said.properties,
                    payload: &said.payload,
                    arrived: self.rest.arrived,
                },
            }),
            Held::Slim => None,
        }
    }

    /// What tells its copy from all other copies. Takes no memory.
    pub fn id(&self) -> &CopyId
        ensures { result.now ≡ self.now.copy.id }
    {
        &self.rest.id
    }

    /// The quality of service at which it is sent. Takes no memory.
    pub fn qos(&self) -> Qos
        ensures { result ≡ self.now.copy.qos }
    {
        self.rest.qos
    }

    /// Whether RETAIN is sent as 1. Takes no memory.
    pub fn retain(&self) -> bool
        ensures { result ≡ self.now.copy.retain }
    {
        self.rest.retain
    }

    /// The topic of its publication. Takes no memory.
    pub fn topic(&self) -> &Text
        ensures { result.now ≡ self.now.copy.content.topic }
    {
        &self.rest.topic
    }

    /// When its publication was accepted: a moment in milliseconds. Takes no memory.
    pub fn arrived(&self) -> u64
        ensures { result ≡ self.now.copy.content.arrived }
    {
        self.rest.arrived
    }

    /// Its Message Expiry Interval as received, in seconds, if it has one (3.3.2.3.3). Takes no memory.
    pub fn expiry(&self) -> Option<u32>
        ensures { result ≡ number_at MessageExpiryInterval self.now.copy.content.properties }
    {
        self.expiry
    }

    /// Bytes of its properties as they are sent, their length left out (3.3.2.3). Takes no memory.
    pub fn pairs(&self) -> u32
        ensures { result ≡ length (props (first_sent self.now.copy)) }
    {
        self.pairs
    }

    /// Bytes of its payload. Takes no memory.
    pub fn payload_len(&self) -> usize
        ensures { result ≡ length self.now.copy.content.payload }
    {
        self.payload as usize
    }

    /// Its properties are such as publications pass on. Takes no memory.
    pub fn passes_on(&self)
        ensures { IsPassedOn self.now.copy.content.properties }
    {
        // Of a whole row this list shows it, of a slim one the row's value.
        match &self.held {
            Held::Whole(said) => {
                let _list = said.properties.lend();
            }
            Held::Slim => {}
        }
    }

    /// Whether this may be what the copy says: it has as many bytes, and the same Message Expiry Interval.
    /// Takes no memory.
    pub fn has_bytes(&self, content: &CopyContent) -> bool
        ensures { IsTrue result ↔ HasBytesOf self.now.copy content.now }
    {
        let list = content.properties().lend();
        let Some(pairs) = sent_len(&list, content.identifiers().as_slice()) else {
            return false;
        };
        pairs == self.pairs as usize
            && content.payload().len() == self.payload_len()
            && expiry_in(&list) == self.expiry
    }

    /// Leaves out what the copy says beside its topic: Subscription Identifiers, properties but Message
    /// Expiry Interval, and payload. Takes no memory.
    pub fn make_slim(&mut self)
        ensures { self.new ≡ slim self.old }
    {
        self.held = Held::Slim;
    }

    /// Takes in what the copy says, if it has as many bytes as the row remembers, and the same Message
    /// Expiry Interval: the row is whole then. The topic stays. Takes no memory.
    pub fn fill(&mut self, content: CopyContent) -> bool
        ensures exact { IsTrue result ↔ HasBytesOf self.old.copy content }
        ensures ok { IsTrue result → self.new ≡ filled_with content self.old }
        ensures err { result ≡ false → self.new ≡ self.old }
    {
        if !self.has_bytes(&content) {
            drop(content);
            return false;
        }
        self.held = Held::Whole(content.into_said());
        true
    }

    /// Bytes of its PUBLISH in the shortest spelling, fixed header included. Takes no memory.
    pub fn size(&self) -> u32
        ensures exact { result ≡ publish_size self.now.copy }
        ensures spelled { IsSpelled self.now.copy }
    {
        self.size
    }
}

impl Row for CopyRow {
    ghost key_of = { λ row. row.place };

    fn key(&self) -> u64 {
        self.place
    }
}

impl CloneRow for CopyRow {
    ghost clone_is = { λ value copy same. same };
}

impl Editable for CopyRow {
    type Part = CopyPart;

    ghost use Rattle.mqtt_records.specs.messages.Parts.{row_changed, place_of-row_changed};

    ghost edited = { row_changed };

    fn edit(&mut self, part: CopyPart) {
        match part {
            CopyPart::SetPhase { phase } => self.phase = phase,
            CopyPart::MakeSlim => self.make_slim(),
        }
    }

    ghost key_kept = { place_of-row_changed };
}

impl Shareable for CopyRow {
    fn share(&mut self, other: &CopyRow) {
        share(&mut self.held, &other.held);
    }
}

impl Clone for CopyRow {
    ghost is_clone = { λ value copy. copy ≡ value };

    fn clone(&self) -> Result<CopyRow, AllocError> {
        Ok(CopyRow {
            place: self.place,
            phase: self.phase,
            size: self.size,
            pairs: self.pairs,
            payload: self.payload,
            expiry: self.expiry,
            rest: self.rest.clone()?,
            held: clone_of(&self.held)?,
        })
    }
}
