//! What becomes of the receivers of a name (MQTT 5.0, 4.2 to 4.4).

ghost use Rattle.std.specs.Prelude.{◌≡◌, bytes_eq, find, is_some, map, option_copied, option_map, IfOk, OnOk};
ghost use Rattle.mqtt_world_model.specs.model.World.{may_ask_on, receiver_restarted, receiver_told, view_receiver};
ghost use Rattle.mqtt_world_ends.specs.peers.Receivers.{wish_of};
ghost use Rattle.mqtt_rules.specs.step.Step.{Outcome as Told};
ghost use Rattle.mqtt_broker.specs.stored.Calling.{Tells};
ghost use Rattle.mqtt_world.specs.clients.Ends.{asked_by, asks_at, if_receiver, input_of, on_receiver_line};
ghost use Rattle.mqtt_world.specs.clients.Ends.{receiver_joined, receiver_reads_at};
ghost use Rattle.mqtt_world.specs.clients.Lines.{changed};
ghost use Rattle.mqtt_world_laws.specs.knowing.Knowing.{IsUnderstood, OnReceivers};
ghost use Rattle.mqtt_world.specs.clients.Telling.{AreSpelled};

use crate::clients::lines::{Change, change_line, number_on, paired};
use crate::clients::telling::{stands, tell_line};
use mqtt_broker::stored::{Engine, Outcome};
use mqtt_keep::Keep;
use mqtt_packet::Packet;
use mqtt_script::Wish;
use mqtt_world_ends::peers::{Back, Link, ReceiverEnd};
use std::alloc::{AllocError, Global};

/// Whether it has the name. Takes no memory.
pub(crate) fn is_named(receiver: &ReceiverEnd, client: &str) -> bool
    ensures { result ≡ bytes_eq receiver.now.client client.now }
{
    receiver.client().as_str() == client
}

/// The first of them that has the name. Takes no memory.
pub(crate) fn named<'a>(receivers: &'a [ReceiverEnd], client: &str) -> Option<&'a ReceiverEnd>
    ensures { option_copied result ≡ find (λ r. bytes_eq r.client client.now) receivers.now }
{
    receivers.iter().find(|receiver| is_named(receiver, client))
}

/// Whether one of them has the name. Takes no memory.
pub(crate) fn has(receivers: &[ReceiverEnd], client: &str) -> bool
    ensures { result ≡ is_some (find (λ r. bytes_eq r.client client.now) receivers.now) }
{
    named(receivers, client).is_some()
}

/// The first packet under way from it, with its line, or the line that it gave up last.
pub(crate) fn front(receiver: &ReceiverEnd, old: bool) -> Result<Option<(u64, Packet)>, AllocError>
    ensures { IfOk result (λ x. option_map input_of x ≡ asked_by old (view_receiver receiver.now)) }
{
    let packet = receiver.front(old)?;
    Ok(paired(number_on(&receiver.line, old), packet))
}

/// Whether it may send SUBSCRIBE (3.8). Takes no memory.
pub(crate) fn may_ask(receiver: &ReceiverEnd) -> bool
    ensures { result ≡ may_ask_on receiver.now.line.link receiver.now.asking }
{
    match receiver.line.link() {
        Link::Away | Link::Asked => false,
        Link::Live => !receiver.is_asking(),
    }
}

fn change_if(receiver: &mut ReceiverEnd, client: &str, change: Change)
    ensures { receiver.new
        ≡ if_receiver client.now (on_receiver_line (changed change)) receiver.old }
{
    if is_named(receiver, client) {
        change_line(&mut receiver.line, change);
    }
}

/// Changes the line of each that has the name. Takes no memory.
pub(crate) fn change_named(receivers: &mut Vec<ReceiverEnd>, client: &str, change: Change)
    ensures { receivers.new.items
        ≡ map (if_receiver client.now (on_receiver_line (changed change))) receivers.old.items }
{
    for receiver in receivers.iter_mut() {
        change_if(receiver, client, change);
    }
}

fn restart_one(receiver: &mut ReceiverEnd)
    ensures { receiver.new ≡ receiver_restarted receiver.old }
{
    receiver.line.restart();
}

/// Of each the line is lost, since the broker was restarted. Takes no memory.
pub(crate) fn restart(receivers: &mut Vec<ReceiverEnd>)
    ensures { receivers.new.items ≡ map receiver_restarted receivers.old.items }
{
    for receiver in receivers.iter_mut() {
        restart_one(receiver);
    }
}

fn join_if(
    receiver: &mut ReceiverEnd,
    client: &str,
    number: u64,
    clean: bool,
) -> Result<(), AllocError>
    ensures { OnOk result (receiver.new
        ≡ if_receiver client.now (receiver_joined number clean) receiver.old) }
{
    if is_named(receiver, client) {
        receiver.line.join(Back::connect(clean), number, clean)?;
    }
    Ok(())
}

/// Each that has the name joins by CONNECT on a new line (3.1).
pub(crate) fn join_named(
    receivers: &mut Vec<ReceiverEnd>,
    client: &str,
    number: u64,
    clean: bool,
) -> Result<(), AllocError>
    ensures { OnOk result (receivers.new.items
        ≡ map (if_receiver client.now (receiver_joined number clean)) receivers.old.items) }
{
    for receiver in receivers.iter_mut() {
        join_if(receiver, client, number, clean)?;
    }
    Ok(())
}

fn ask_if<K: Keep>(
    receiver: &mut ReceiverEnd,
    client: &str,
    wish: &Wish,
    engine: &Engine<K>,
) -> Result<(), AllocError>
    ensures { OnOk result (receiver.new ≡ if_receiver client.now
        (asks_at (wish_of wish.now) engine.now.broker) receiver.old) }
{
    if !is_named(receiver, client) {
        return Ok(());
    }
    let wish = wish.clone()?;
    let stands = stands(engine, receiver.line.number());
    receiver.ask(wish, stands)
}

/// Each that has the name sends SUBSCRIBE (3.8).
pub(crate) fn ask_named<K: Keep>(
    receivers: &mut Vec<ReceiverEnd>,
    client: &str,
    wish: &Wish,
    engine: &Engine<K>,
) -> Result<(), AllocError>
    ensures { OnOk result (receivers.new.items ≡ map (if_receiver client.now
        (asks_at (wish_of wish.now) engine.now.broker)) receivers.old.items) }
{
    for receiver in receivers.iter_mut() {
        ask_if(receiver, client, wish, engine)?;
    }
    Ok(())
}

fn read_if<K: Keep>(
    receiver: &mut ReceiverEnd,
    client: &str,
    engine: &Engine<K>,
) -> Result<(), AllocError>
    ensures { OnOk result (receiver.new
        ≡ if_receiver client.now (receiver_reads_at engine.now.broker) receiver.old) }
{
    if !is_named(receiver, client) {
        return Ok(());
    }
    let stands = stands(engine, receiver.line.number());
    receiver.read(stands)
}

/// Each that has the name reads the first packet under way to it.
pub(crate) fn read_named<K: Keep>(
    receivers: &mut Vec<ReceiverEnd>,
    client: &str,
    engine: &Engine<K>,
) -> Result<(), AllocError>
    ensures { OnOk result (receivers.new.items ≡ map
        (if_receiver client.now (receiver_reads_at engine.now.broker)) receivers.old.items) }
{
    for receiver in receivers.iter_mut() {
        read_if(receiver, client, engine)?;
    }
    Ok(())
}

fn tell_one<K: Keep>(
    alloc: Global,
    receiver: &mut ReceiverEnd,
    engine: &Engine<K>,
    outcome: &Outcome,
) -> Result<(), AllocError>
    ensures { (told : Told) → Tells told outcome.now → AreSpelled told
        → IsUnderstood told.wires told.outputs receiver.old.line.number receiver.old.line.known
        → OnOk result (receiver.new ≡ receiver_told engine.now.broker told receiver.old) }
{
    tell_line(alloc, &mut receiver.line, engine, outcome)
}

/// What the broker answered reaches all.
pub(crate) fn tell<K: Keep>(
    alloc: Global,
    receivers: &mut Vec<ReceiverEnd>,
    engine: &Engine<K>,
    outcome: &Outcome,
) -> Result<(), AllocError>
    ensures { (told : Told) → Tells told outcome.now → AreSpelled told
        → OnReceivers (λ e. IsUnderstood told.wires told.outputs e.number e.known) receivers.old.items
        → OnOk result (receivers.new.items
        ≡ map (receiver_told engine.now.broker told) receivers.old.items) }
{
    for receiver in receivers.iter_mut() {
        tell_one(alloc, receiver, engine, outcome)?;
    }
    Ok(())
}
