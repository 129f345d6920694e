//! What the broker answers reaches the ends (MQTT 5.0, 4.2).

ghost use Rattle.std.specs.List.{AllByRecursion};
ghost use Rattle.std.specs.Prelude.{◌≡◌, [], ◌∷◌, ℕ, List, IfOk, OnOk, Some};
ghost use Rattle.mqtt_packet.specs.declared.codec.packet.Packet.{Packet as ThePacket};
ghost use Rattle.mqtt_packet.specs.codec.Packets.{HasSpelling, shortest_of};
ghost use Rattle.mqtt_world_model.specs.model.Lines.{copy_in, stands, told_by};
ghost use Rattle.mqtt_rules.specs.step.State.{Broker};
ghost use Rattle.mqtt_rules.specs.step.Step.{Outcome as Told};
ghost use Rattle.mqtt_broker.specs.stored.Calling.{Tells};
ghost use Rattle.mqtt_rules.specs.telling.Meaning.{after_reading, alias_on, on_line};
ghost use Rattle.mqtt_world_laws.specs.knowing.Knowing.{AllReadAs, IsUnderstood, as_read};
ghost use Rattle.mqtt_world.specs.clients.Telling.{AreSpelled, copy_for, spelled, with_all_read, with_read, with_told};

use bytes::Bytes;
use mqtt_base::CopyId;
use mqtt_broker::stored::{Engine, Outcome};
use mqtt_keep::Keep;
use mqtt_packet::{Delivery, Packet, Publish, decode};
use mqtt_props::{PropName, ValueRef};
use mqtt_world_ends::peers::{Down, Line};
use std::alloc::{AllocError, Global};

/// Whether the broker still has the line, if there is one. Takes no memory.
pub(crate) fn stands<K: Keep>(engine: &Engine<K>, number: Option<u64>) -> bool
    ensures { result ≡ stands number engine.now.broker }
{
    match number {
        None => false,
        Some(number) => engine.is_linked(number),
    }
}

/// The packet identifier of a PUBLISH of QoS 1 or 2. Takes no memory.
fn identifier_in(packet: &Packet) -> Option<u16>
    ensures { (number : ℕ) (b : Broker) → copy_in number b packet.now ≡ copy_for number b result }
{
    match packet {
        Packet::Publish(publish) => match publish.delivery {
            Delivery::AtMostOnce => None,
            Delivery::AtLeastOnce { identifier, .. } | Delivery::ExactlyOnce { identifier, .. } => {
                Some(identifier)
            }
        },
        Packet::Connect(_)
        | Packet::Connack(_)
        | Packet::Puback(_)
        | Packet::Pubrec(_)
        | Packet::Pubrel(_)
        | Packet::Pubcomp(_)
        | Packet::Subscribe(_)
        | Packet::Suback(_)
        | Packet::Unsubscribe(_)
        | Packet::Unsuback(_)
        | Packet::Pingreq
        | Packet::Pingresp
        | Packet::Disconnect(_)
        | Packet::Auth(_) => None,
    }
}

/// The copy that a packet to a line is of.
fn copy_of<K: Keep>(
    engine: &Engine<K>,
    number: u64,
    packet: &Packet,
) -> Result<Option<CopyId>, AllocError>
    ensures { IfOk result (λ copy. copy ≡ copy_in number engine.now.broker packet.now) }
{
    let Some(identifier) = identifier_in(packet) else {
        return Ok(None);
    };
    match engine.copy_of(number, identifier) {
        Some(copy) => Ok(Some(copy.clone()?)),
        None => Ok(None),
    }
}

/// A packet to a line, with its copy.
fn tagged<K: Keep>(engine: &Engine<K>, number: u64, packet: Packet) -> Result<Down, AllocError>
    ensures { IfOk result (λ down. down
        ≡ record { packet = packet; copy = copy_in number engine.now.broker packet }) }
{
    match copy_of(engine, number, &packet) {
        Ok(copy) => Ok(Down { packet, copy }),
        Err(error) => {
            drop(packet);
            Err(error)
        }
    }
}

/// The packet that the broker's bytes spell; there is always one.
fn packet_in(alloc: Global, bytes: &[u8]) -> Result<Packet, AllocError>
    ensures { (p : ThePacket) → HasSpelling p → bytes.now ≡ shortest_of p → IfOk result (λ packet. packet ≡ p) }
{
    match decode(alloc, bytes) {
        Ok(packet) => Ok(packet),
        Err(_) => Err(AllocError),
    }
}

/// The Topic Alias of a PUBLISH, if it has one (3.3.2.3.4). Takes no memory.
fn alias_on(publish: &Publish) -> Option<u16>
    ensures { result ≡ alias_on publish.now }
{
    let list = publish.properties.lend();
    match list.get(PropName::TopicAlias) {
        Some(prop) => match prop.value {
            ValueRef::U16(alias) => Some(alias),
            _ => None,
        },
        None => None,
    }
}

/// A PUBLISH as the end of the line reads it: of the topic that it means, without its Topic Alias (3.3.2.3.4).
fn read_publish<U: Drop>(
    alloc: Global,
    line: &mut Line<U>,
    publish: Publish,
) -> Result<Packet, AllocError>
    ensures read { IfOk result (λ packet. as_read line.entry.now.known (Packet.Publish publish) ≡ Some packet) }
    ensures line { OnOk result (line.exit.now ≡ record line.entry.now {
      known = after_reading line.entry.now.known (Packet.Publish publish);
    }) }
{
    let alias = alias_on(&publish);
    let properties = publish
        .properties
        .lend()
        .without(alloc, PropName::TopicAlias)?;
    let Ok(topic) = line.resolve(publish.topic.as_str(), alias) else {
        return Err(AllocError);
    };
    let Publish {
        delivery,
        retain,
        payload,
        ..
    } = publish;
    Ok(Packet::Publish(Publish {
        delivery,
        retain,
        topic: topic.into_text(),
        properties,
        payload,
    }))
}

/// A packet as the end of the line reads it (3.3.2.3.4).
fn read<U: Drop>(alloc: Global, line: &mut Line<U>, packet: Packet) -> Result<Packet, AllocError>
    ensures read { IfOk result (λ meant. as_read line.entry.now.known packet ≡ Some meant) }
    ensures line { OnOk result (line.exit.now
        ≡ record line.entry.now { known = after_reading line.entry.now.known packet }) }
{
    match packet {
        Packet::Publish(publish) => read_publish(alloc, line, publish),
        other => Ok(other),
    }
}

/// Bytes of the broker are read by the end of a line, and are under way to it as what they mean.
fn push_bytes<K: Keep, U: Drop>(
    alloc: Global,
    line: &mut Line<U>,
    engine: &Engine<K>,
    number: u64,
    bytes: &[u8],
) -> Result<(), AllocError>
    ensures { (p m : ThePacket) → HasSpelling p → bytes.now ≡ shortest_of p → as_read line.entry.now.known p ≡ Some m
        → OnOk result (line.exit.now ≡ with_read number engine.now.broker p m line.entry.now) }
{
    let packet = packet_in(alloc, bytes)?;
    let meant = read(alloc, line, packet)?;
    let down = tagged(engine, number, meant)?;
    line.push_down(down)
}

/// So are these, if they are for it.
fn push_if<K: Keep, U: Drop>(
    alloc: Global,
    line: &mut Line<U>,
    engine: &Engine<K>,
    number: u64,
    output: &(u64, Bytes),
) -> Result<(), AllocError>
    ensures { (x : ℕ × ThePacket) (meant : List ThePacket) → AllByRecursion HasSpelling (on_line number (x ∷ []))
        → output.now ≡ (x.0, shortest_of x.1)
        → AllReadAs line.entry.now.known (on_line number (x ∷ [])) meant
        → OnOk result (line.exit.now
        ≡ with_all_read number engine.now.broker (on_line number (x ∷ [])) meant line.entry.now) }
{
    let (at, bytes) = output;
    if *at == number {
        return push_bytes(alloc, line, engine, number, bytes);
    }
    Ok(())
}

/// And all that are for it.
fn push_all<K: Keep, U: Drop>(
    alloc: Global,
    line: &mut Line<U>,
    engine: &Engine<K>,
    number: u64,
    outputs: &[(u64, Bytes)],
) -> Result<(), AllocError>
    ensures { (packets : List (ℕ × ThePacket)) (meant : List ThePacket) → outputs.now ≡ spelled packets
        → AllByRecursion HasSpelling (on_line number packets)
        → AllReadAs line.entry.now.known (on_line number packets) meant
        → OnOk result (line.exit.now
        ≡ with_all_read number engine.now.broker (on_line number packets) meant line.entry.now) }
{
    for output in outputs {
        push_if(alloc, line, engine, number, output)?;
    }
    Ok(())
}

/// What the broker answered is under way to the end of a line, if it has one.
fn push_told<K: Keep, U: Drop>(
    alloc: Global,
    line: &mut Line<U>,
    engine: &Engine<K>,
    outputs: &[(u64, Bytes)],
) -> Result<(), AllocError>
    ensures { (told : Told) → outputs.now ≡ spelled told.wires → AreSpelled told
        → IsUnderstood told.wires told.outputs line.entry.now.number line.entry.now.known
        → OnOk result (line.exit.now ≡ with_told engine.now.broker told line.entry.now) }
{
    match line.number() {
        Some(number) => push_all(alloc, line, engine, number, outputs),
        None => Ok(()),
    }
}

/// What the broker answered reaches the end of a line: packets to it are under way, and what is under way on a line that
/// closed isn't read. The engine is as the call left it.
pub(crate) fn tell_line<K: Keep, U: Drop>(
    alloc: Global,
    line: &mut Line<U>,
    engine: &Engine<K>,
    outcome: &Outcome,
) -> Result<(), AllocError>
    ensures { (told : Told) → Tells told outcome.now → AreSpelled told
        → IsUnderstood told.wires told.outputs line.entry.now.number line.entry.now.known
        → OnOk result (line.exit.now ≡ told_by engine.now.broker told line.entry.now) }
{
    push_told(alloc, line, engine, &outcome.outputs)?;
    line.close(&outcome.closed);
    Ok(())
}
