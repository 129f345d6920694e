//! What becomes of the publishers of a name (MQTT 5.0, 4.2 to 4.4).

ghost use Rattle.std.specs.Prelude.{◌≡◌, bytes_eq, find, is_some, map, option_copied, option_map, IfOk, OnOk};
ghost use Rattle.mqtt_world_model.specs.model.World.{publisher_restarted, publisher_told, view_publisher};
ghost use Rattle.mqtt_world_ends.specs.peers.Publishers.{draft_of};
ghost use Rattle.mqtt_rules.specs.step.Step.{Outcome as Told};
ghost use Rattle.mqtt_broker.specs.stored.Calling.{Tells};
ghost use Rattle.mqtt_world.specs.clients.Ends.{asked_by, if_publisher, input_of, on_publisher_line, published_at};
ghost use Rattle.mqtt_world.specs.clients.Ends.{publisher_joined, publisher_reads_at};
ghost use Rattle.mqtt_world.specs.clients.Lines.{changed};
ghost use Rattle.mqtt_world_laws.specs.knowing.Knowing.{IsUnderstood, OnPublishers};
ghost use Rattle.mqtt_world.specs.clients.Telling.{AreSpelled};

use crate::clients::lines::{Change, change_line, number_on, paired};
use crate::clients::telling::{stands, tell_line};
use mqtt_broker::stored::{Engine, Outcome};
use mqtt_keep::Keep;
use mqtt_packet::Packet;
use mqtt_script::Draft;
use mqtt_world_ends::peers::{PublisherEnd, Sent};
use std::alloc::{AllocError, Global};

/// Whether it has the name. Takes no memory.
pub(crate) fn is_named(publisher: &PublisherEnd, client: &str) -> bool
    ensures { result ≡ bytes_eq publisher.now.client client.now }
{
    publisher.client().as_str() == client
}

/// The first of them that has the name. Takes no memory.
pub(crate) fn named<'a>(publishers: &'a [PublisherEnd], client: &str) -> Option<&'a PublisherEnd>
    ensures { option_copied result ≡ find (λ p. bytes_eq p.client client.now) publishers.now }
{
    publishers
        .iter()
        .find(|publisher| is_named(publisher, client))
}

/// Whether one of them has the name. Takes no memory.
pub(crate) fn has(publishers: &[PublisherEnd], client: &str) -> bool
    ensures { result ≡ is_some (find (λ p. bytes_eq p.client client.now) publishers.now) }
{
    named(publishers, client).is_some()
}

/// The first packet under way from it, with its line, or the line that it gave up last.
pub(crate) fn front(
    publisher: &PublisherEnd,
    old: bool,
) -> Result<Option<(u64, Packet)>, AllocError>
    ensures { IfOk result (λ x. option_map input_of x ≡ asked_by old (view_publisher publisher.now)) }
{
    let packet = publisher.front(old)?;
    Ok(paired(number_on(&publisher.line, old), packet))
}

fn change_if(publisher: &mut PublisherEnd, client: &str, change: Change)
    ensures { publisher.new
        ≡ if_publisher client.now (on_publisher_line (changed change)) publisher.old }
{
    if is_named(publisher, client) {
        change_line(&mut publisher.line, change);
    }
}

/// Changes the line of each that has the name. Takes no memory.
pub(crate) fn change_named(publishers: &mut Vec<PublisherEnd>, client: &str, change: Change)
    ensures { publishers.new.items
        ≡ map (if_publisher client.now (on_publisher_line (changed change))) publishers.old.items }
{
    for publisher in publishers.iter_mut() {
        change_if(publisher, client, change);
    }
}

fn restart_one(publisher: &mut PublisherEnd)
    ensures { publisher.new ≡ publisher_restarted publisher.old }
{
    publisher.line.restart();
}

/// Of each the line is lost, since the broker was restarted. Takes no memory.
pub(crate) fn restart(publishers: &mut Vec<PublisherEnd>)
    ensures { publishers.new.items ≡ map publisher_restarted publishers.old.items }
{
    for publisher in publishers.iter_mut() {
        restart_one(publisher);
    }
}

fn join_if(
    publisher: &mut PublisherEnd,
    client: &str,
    number: u64,
    clean: bool,
) -> Result<(), AllocError>
    ensures { OnOk result (publisher.new
        ≡ if_publisher client.now (publisher_joined number clean) publisher.old) }
{
    if is_named(publisher, client) {
        publisher.line.join(Sent::connect(clean), number, clean)?;
    }
    Ok(())
}

/// Each that has the name joins by CONNECT on a new line (3.1).
pub(crate) fn join_named(
    publishers: &mut Vec<PublisherEnd>,
    client: &str,
    number: u64,
    clean: bool,
) -> Result<(), AllocError>
    ensures { OnOk result (publishers.new.items
        ≡ map (if_publisher client.now (publisher_joined number clean)) publishers.old.items) }
{
    for publisher in publishers.iter_mut() {
        join_if(publisher, client, number, clean)?;
    }
    Ok(())
}

fn publish_if<K: Keep>(
    publisher: &mut PublisherEnd,
    client: &str,
    draft: &Draft,
    engine: &Engine<K>,
) -> Result<(), AllocError>
    ensures { OnOk result (publisher.new ≡ if_publisher client.now
        (published_at (draft_of draft.now) engine.now.broker) publisher.old) }
{
    if !is_named(publisher, client) {
        return Ok(());
    }
    let draft = draft.clone()?;
    let stands = stands(engine, publisher.line.number());
    publisher.publish(draft, stands)
}

/// Each that has the name has a new message (3.3).
pub(crate) fn publish_named<K: Keep>(
    publishers: &mut Vec<PublisherEnd>,
    client: &str,
    draft: &Draft,
    engine: &Engine<K>,
) -> Result<(), AllocError>
    ensures { OnOk result (publishers.new.items ≡ map (if_publisher client.now
        (published_at (draft_of draft.now) engine.now.broker)) publishers.old.items) }
{
    for publisher in publishers.iter_mut() {
        publish_if(publisher, client, draft, engine)?;
    }
    Ok(())
}

fn read_if<K: Keep>(
    publisher: &mut PublisherEnd,
    client: &str,
    engine: &Engine<K>,
) -> Result<(), AllocError>
    ensures { OnOk result (publisher.new
        ≡ if_publisher client.now (publisher_reads_at engine.now.broker) publisher.old) }
{
    if !is_named(publisher, client) {
        return Ok(());
    }
    let stands = stands(engine, publisher.line.number());
    publisher.read(stands)
}

/// Each that has the name reads the first packet under way to it.
pub(crate) fn read_named<K: Keep>(
    publishers: &mut Vec<PublisherEnd>,
    client: &str,
    engine: &Engine<K>,
) -> Result<(), AllocError>
    ensures { OnOk result (publishers.new.items ≡ map
        (if_publisher client.now (publisher_reads_at engine.now.broker)) publishers.old.items) }
{
    for publisher in publishers.iter_mut() {
        read_if(publisher, client, engine)?;
    }
    Ok(())
}

fn tell_one<K: Keep>(
    alloc: Global,
    publisher: &mut PublisherEnd,
    engine: &Engine<K>,
    outcome: &Outcome,
) -> Result<(), AllocError>
    ensures { (told : Told) → Tells told outcome.now → AreSpelled told
        → IsUnderstood told.wires told.outputs publisher.old.line.number publisher.old.line.known
        → OnOk result (publisher.new ≡ publisher_told engine.now.broker told publisher.old) }
{
    tell_line(alloc, &mut publisher.line, engine, outcome)
}

/// What the broker answered reaches all.
pub(crate) fn tell<K: Keep>(
    alloc: Global,
    publishers: &mut Vec<PublisherEnd>,
    engine: &Engine<K>,
    outcome: &Outcome,
) -> Result<(), AllocError>
    ensures { (told : Told) → Tells told outcome.now → AreSpelled told
        → OnPublishers (λ e. IsUnderstood told.wires told.outputs e.number e.known) publishers.old.items
        → OnOk result (publishers.new.items
        ≡ map (publisher_told engine.now.broker told) publishers.old.items) }
{
    for publisher in publishers.iter_mut() {
        tell_one(alloc, publisher, engine, outcome)?;
    }
    Ok(())
}
