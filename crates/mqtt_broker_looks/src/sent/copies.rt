//! PUBLISH: a copy of a publication for a client, plain or in another form (3.3).
ghost use Rattle.std.specs.Prelude.{◌≡◌, ◌++◌, ◌+◌, ◌<◌, ◌^◌, ◌↔◌, ℕ, length, IfOk, IfSome, IsTrue, MatchOption, OnOk, OnSome};
ghost use Rattle.mqtt_base.specs.Values.{blob};
ghost use Rattle.mqtt_props.specs.Properties.{FitsBlock, block, props};
ghost use Rattle.mqtt_topic.specs.sending.Told.{alias_in, topic_in};
ghost use Rattle.mqtt_topic.specs.sending.Sizes.{alias_size};
ghost use Rattle.mqtt_packet.specs.declared.codec.packet.Packet.TheVariants as packets;
ghost use Rattle.mqtt_packet.specs.codec.Heads.{first};
ghost use Rattle.mqtt_packet.specs.codec.Packets.{shortest_of};
ghost use Rattle.mqtt_packet.specs.codec.Publish.{delivery_head};
ghost use Rattle.mqtt_records.specs.messages.Queue.{first_sent, identifier_len, IsSpelled};
ghost use Rattle.mqtt_rules.specs.step.Forms.{in_form, other_bytes, published_of, with_alias};
ghost use Rattle.mqtt_rules.specs.step.Packets.{delivery_by, properties_sent, publish_of, seconds_waited};
ghost use Rattle.mqtt_broker_looks.specs.sent.Frames.{identifier_bytes, IsSizeIn, IsSizeOf, IsSpelledIn, Measures, sent_body};

use crate::sent::frame::{frame_begin, frame_end};
use crate::sent::sent::sent_push;
use bytes::Bytes;
use mqtt_base::{Qos, Text, VARINT_LIMIT, blob_push, u16_push, varint_len, varint_push};
use mqtt_props::PropsRef;
use mqtt_records::{CopyRef, CopyRow, sent_len};
use mqtt_topic::{Form, OtherBytes, size_in};
use std::alloc::{AllocError, Global};

/// Lengths of a copy's PUBLISH in a form, in bytes.
#[derive(Clone, Copy, Debug, PartialEq, Eq)]
pub(crate) struct Lengths {
    /// Of its properties, their length left out.
    pub(crate) pairs: usize,
    /// Of all behind the fixed header.
    pub(crate) remaining: usize,
}

/// The first byte (3.3.1).
fn first_byte(qos: Qos, dup: bool, retain: bool) -> u8
    ensures { (id : ℕ) → result ≡ first (delivery_head (delivery_by qos dup id) retain) }
{
    let retain = if retain { 1 } else { 0 };
    match (qos, dup) {
        (Qos::AtMostOnce, _) => 0x30 + retain,
        (Qos::AtLeastOnce, false) => 0x32 + retain,
        (Qos::AtLeastOnce, true) => 0x3a + retain,
        (Qos::ExactlyOnce, false) => 0x34 + retain,
        (Qos::ExactlyOnce, true) => 0x3c + retain,
    }
}

/// Writes the packet identifier at the end, if the QoS has one (3.3.2.2).
fn identifier_push(out: &mut Vec<u8>, qos: Qos, identifier: u16) -> Result<(), AllocError>
    ensures { OnOk result (out.new.items ≡ out.old.items ++ identifier_bytes qos identifier) }
{
    match qos {
        Qos::AtMostOnce => Ok(()),
        Qos::AtLeastOnce | Qos::ExactlyOnce => u16_push(out, identifier),
    }
}

/// How many bytes the packet identifier takes (3.3.2.2).
fn identifier_len(qos: Qos) -> usize
    ensures value { result ≡ identifier_len qos }
    ensures bound { result < 3 }
{
    match qos {
        Qos::AtMostOnce => 0,
        Qos::AtLeastOnce | Qos::ExactlyOnce => 2,
    }
}

/// Whole seconds since the publication of a copy was accepted.
fn seconds_waited(now: u64, copy: &CopyRef<'_>) -> u64
    ensures { result ≡ seconds_waited now copy.now.content }
{
    now.saturating_sub(copy.content.arrived) / 1_000
}

/// The topic of a copy.
fn topic_of<'a>(copy: &'a CopyRef<'_>) -> &'a Text
    ensures { result.now ≡ copy.now.content.topic }
{
    copy.content.topic
}

/// The properties of a copy as they were passed on.
fn properties_of<'a>(copy: &'a CopyRef<'_>) -> PropsRef<'a>
    ensures { result ≡ copy.now.content.properties }
{
    copy.content.properties.lend()
}

/// The Subscription Identifiers of a copy.
fn identifiers_of<'a>(copy: &'a CopyRef<'_>) -> &'a [u32]
    ensures { result.now ≡ copy.now.identifiers }
{
    copy.identifiers.as_slice()
}

/// The bytes besides topic and Topic Alias, by the bytes of the properties and of the payload.
fn other_of(properties: usize, qos: Qos, payload: usize) -> OtherBytes
    requires { payload < 2 ^ 63 }
    ensures { result ≡ record { properties = properties; rest = identifier_len qos + payload } }
{
    let rest = identifier_len(qos) + payload;
    OtherBytes { properties, rest }
}

/// The bytes that a copy's PUBLISH has besides its topic and a Topic Alias, if the properties are a
/// block: the same at each moment, with DUP or without, under each identifier (3.3). Takes no memory.
pub fn other_bytes(copy: &CopyRef<'_>) -> Option<OtherBytes>
    ensures exact { MatchOption result (¬ FitsBlock (first_sent copy.now))
        (λ other. other ≡ other_bytes copy.now) }
    ensures fits { OnSome result (FitsBlock (first_sent copy.now)) }
{
    let list = copy.content.properties.lend();
    let properties = sent_len(&list, copy.identifiers.as_slice())?;
    Some(other_of(properties, copy.qos, copy.content.payload.len()))
}

/// The same of a row's copy, whose PUBLISH has a spelling: by what the row knows of it, without a look at
/// what it says. Takes no memory.
pub fn row_other_bytes(row: &CopyRow) -> OtherBytes
    ensures { result ≡ other_bytes row.now.copy }
{
    // This shows that the payload is short.
    let _spelled = row.size();
    other_of(row.pairs() as usize, row.qos(), row.payload_len())
}

/// The bytes of the topic that stands in a form, without its length (3.3.2.1).
fn topic_len(form: Form, copy: &CopyRef<'_>) -> usize
    ensures value { result ≡ length (topic_in form copy.now.content.topic) }
    ensures below { result < 2 ^ 16 }
{
    match form {
        Form::Plain | Form::Named(_) => copy.content.topic.as_str().len(),
        Form::Short(_) => 0,
    }
}

/// The bytes of the Topic Alias that stands in a form (3.3.2.3.4).
fn alias_len(form: Form) -> usize
    ensures value { result ≡ alias_size form }
    ensures below { result < 4 }
{
    match form {
        Form::Plain => 0,
        Form::Named(_) | Form::Short(_) => 3,
    }
}

/// The lengths of a copy's PUBLISH in a form, by its other bytes, if it has a spelling.
fn lengths_by(form: Form, other: OtherBytes, copy: &CopyRef<'_>) -> Option<Lengths>
    requires other { other ≡ other_bytes copy.now }
    requires fits { FitsBlock (first_sent copy.now) }
    ensures { MatchOption result (¬ IsSpelledIn form copy.now) (Measures form copy.now) }
{
    let limit = VARINT_LIMIT as usize;
    if other.rest >= limit {
        return None;
    }
    let pairs = other.properties + alias_len(form);
    if pairs >= limit {
        return None;
    }
    let block = varint_len(pairs as u32) + pairs;
    let remaining = 2 + topic_len(form, copy) + block + other.rest;
    if remaining >= limit {
        return None;
    }
    Some(Lengths { pairs, remaining })
}

/// The lengths of a copy's PUBLISH in a form, if it has a spelling.
fn lengths_in(form: Form, copy: &CopyRef<'_>) -> Option<Lengths>
    ensures { MatchOption result (¬ IsSpelledIn form copy.now) (Measures form copy.now) }
{
    let other = other_bytes(copy)?;
    lengths_by(form, other, copy)
}

/// Writes the topic of a form at the end (3.3.2.1).
fn topic_push(out: &mut Vec<u8>, form: Form, copy: &CopyRef<'_>) -> Result<(), AllocError>
    ensures { OnOk result (out.new.items
        ≡ out.old.items ++ blob (topic_in form copy.now.content.topic)) }
{
    match form {
        Form::Plain | Form::Named(_) => blob_push(out, copy.content.topic.as_str().as_bytes()),
        Form::Short(_) => u16_push(out, 0),
    }
}

/// Writes the topic of a form and the packet identifier at the end (3.3.2.1, 3.3.2.2).
fn head_push(
    out: &mut Vec<u8>,
    identifier: u16,
    form: Form,
    copy: &CopyRef<'_>,
) -> Result<(), AllocError>
    ensures { OnOk result (out.new.items ≡ out.old.items
        ++ (blob (topic_in form copy.now.content.topic) ++ identifier_bytes copy.now.qos identifier)) }
{
    topic_push(out, form, copy)?;
    identifier_push(out, copy.qos, identifier)
}

/// Writes the properties of a copy at a moment at the end, with the Topic Alias of a form; their pairs
/// have so many bytes (3.3.2.3).
fn block_push(
    out: &mut Vec<u8>,
    now: u64,
    pairs: usize,
    form: Form,
    copy: &CopyRef<'_>,
) -> Result<(), AllocError>
    requires spelled { IsSpelledIn form copy.now }
    requires pairs { pairs ≡ length (props (first_sent copy.now)) + alias_size form }
    ensures { OnOk result (out.new.items
        ≡ out.old.items ++ block (with_alias (alias_in form) (properties_sent now copy.now))) }
{
    varint_push(out, pairs as u32)?;
    let list = properties_of(copy);
    let waited = seconds_waited(now, copy);
    sent_push(out, &list, waited, identifiers_of(copy), form.alias())
}

/// Writes all behind the fixed header at the end.
fn body_push(
    out: &mut Vec<u8>,
    now: u64,
    identifier: u16,
    pairs: usize,
    form: Form,
    copy: &CopyRef<'_>,
) -> Result<(), AllocError>
    requires spelled { IsSpelledIn form copy.now }
    requires pairs { pairs ≡ length (props (first_sent copy.now)) + alias_size form }
    ensures { OnOk result (out.new.items
        ≡ out.old.items ++ sent_body now identifier form copy.now) }
{
    head_push(out, identifier, form, copy)?;
    block_push(out, now, pairs, form, copy)?;
    out.extend_from_slice(copy.content.payload.as_slice())
}

/// Whether a copy's PUBLISH has a spelling (2.1.4). Takes no memory.
pub fn has_spelling(copy: &CopyRef<'_>) -> bool
    ensures { IsTrue result ↔ IsSpelled copy.now }
{
    lengths_in(Form::Plain, copy).is_some()
}

/// How many bytes a copy's PUBLISH takes in a form, fixed header included: the same at each moment,
/// with DUP or without, under each identifier; none if it has no spelling (2.1.4, 3.3). Takes no
/// memory.
pub fn publish_in_len(form: Form, copy: &CopyRef<'_>) -> Option<usize>
    ensures exact { MatchOption result (¬ IsSpelledIn form copy.now) (IsSizeIn form copy.now) }
    ensures spelled { OnSome result (IsSpelledIn form copy.now) }
    ensures bound { IfSome result (λ size. size < 2 ^ 28 + 5) }
{
    let Some(other) = other_bytes(copy) else {
        return None;
    };
    size_in(form, topic_of(copy), other)
}

/// How many bytes a copy's PUBLISH takes, fixed header included: the same at each moment, with DUP
/// or without, under each identifier (3.3). Takes no memory.
#[tactic(auto, using(crate::proofs::sent_lemmas::Spelled::spelled_plain))]
pub fn publish_len(copy: &CopyRef<'_>) -> usize
    requires { IsSpelled copy.now }
    ensures exact { IsSizeOf copy.now result }
    ensures bound { result < 2 ^ 28 + 5 }
{
    publish_in_len(Form::Plain, copy).unwrap()
}

/// A copy's PUBLISH in a form, at a moment in milliseconds, with its DUP flag and its packet identifier;
/// at QoS 0 it has neither (3.3). Topic, properties and payload are copied into it alone.
#[tactic(auto, using(crate::proofs::sent_lemmas::Spelled::publish_spelled))]
pub fn publish_in(
    alloc: Global,
    now: u64,
    dup: bool,
    identifier: u16,
    form: Form,
    copy: &CopyRef<'_>,
) -> Result<Bytes, AllocError>
    requires { IsSpelledIn form copy.now }
    ensures { IfOk result (λ bytes. bytes
        ≡ shortest_of (packets.Publish (in_form form (published_of now dup identifier copy.now)))) }
{
    let lengths = lengths_in(form, copy).unwrap();
    let first = first_byte(copy.qos, dup, copy.retain);
    let mut out = frame_begin(alloc, first, lengths.remaining)?;
    let written = body_push(&mut out, now, identifier, lengths.pairs, form, copy);
    frame_end(out, written)
}

/// A copy's PUBLISH at a moment in milliseconds, with its DUP flag and its packet identifier; at QoS 0
/// it has neither (3.3). Topic, properties and payload are copied into it alone.
#[tactic(auto, using(crate::proofs::sent_lemmas::Spelled::spelled_plain))]
pub fn publish(
    alloc: Global,
    now: u64,
    dup: bool,
    identifier: u16,
    copy: &CopyRef<'_>,
) -> Result<Bytes, AllocError>
    requires { IsSpelled copy.now }
    ensures { IfOk result (λ bytes. bytes ≡ shortest_of (publish_of now dup identifier copy.now)) }
{
    publish_in(alloc, now, dup, identifier, Form::Plain, copy)
}

/// How many bytes the PUBLISH of a row's copy takes in a form, fixed header included, by what the row knows
/// of it; none if it has no spelling in that form (2.1.4, 3.3). Takes no memory.
pub fn row_in_len(form: Form, row: &CopyRow) -> Option<usize>
    ensures exact { MatchOption result (¬ IsSpelledIn form row.now.copy) (IsSizeIn form row.now.copy) }
    ensures spelled { OnSome result (IsSpelledIn form row.now.copy) }
    ensures bound { IfSome result (λ size. size < 2 ^ 28 + 5) }
{
    // This shows that the properties are a block.
    let _spelled = row.size();
    let other = row_other_bytes(row);
    size_in(form, row.topic(), other)
}

/// How many bytes the PUBLISH of a copy in a queue takes, fixed header included (3.3). Takes no memory.
pub fn row_len(row: &CopyRow) -> u32
    ensures { IsSizeOf row.now.copy result }
{
    row.size()
}
