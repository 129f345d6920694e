//! Whether the broker takes a packet, and the messages and subscriptions that ends may have for it (MQTT 5.0, 3.3, 3.8).

ghost use Rattle.std.specs.Prelude.{◌≡◌, ◌↔◌, IfOk, IsTrue};
ghost use Rattle.mqtt_packet.specs.codec.Packets.{Fits};
ghost use Rattle.mqtt_rules.specs.step.Contents.{IsTaken};
ghost use Rattle.mqtt_world_model.specs.model.World.{delivery_at, fits_number, is_input, is_message, is_wish};
ghost use Rattle.mqtt_world_ends.specs.peers.Publishers.{draft_of};
ghost use Rattle.mqtt_world_ends.specs.peers.Receivers.{wish_of};

use crate::peers::wire::{publish, subscribe};
use mqtt_base::{PACKET_LIMIT, Qos, VARINT_LIMIT};
use mqtt_packet::{Delivery, Packet, lawful, spelled_len};
use mqtt_script::{Draft, Wish};
use std::alloc::{AllocError, Global};

/// Whether the broker takes the packet.
fn is_taken(packet: &Packet) -> bool
    ensures { IsTrue result ↔ IsTaken packet.now }
{
    if !lawful(packet) {
        return false;
    }
    let lent = packet.lend();
    spelled_len(&lent) <= PACKET_LIMIT
}

/// Whether the broker takes the packet: it has a spelling, which is no longer than a packet may be (2.1.4, 3.2.2.3.6).
/// Takes no memory.
#[tactic(auto, using(crate::proofs::peers_lemmas::Inputs::fitting_is))]
pub fn is_input(packet: &Packet) -> bool
    ensures taken { IsTrue result ↔ IsTaken packet.now }
    ensures fitting { Fits packet.now → result ≡ is_input packet.now }
{
    is_taken(packet)
}

/// How a message is delivered that has not gone out: under an identifier if it needs one (2.2.1).
fn delivery_at(qos: Qos) -> Delivery
    ensures { result ≡ delivery_at qos }
{
    match qos {
        Qos::AtMostOnce => Delivery::AtMostOnce,
        Qos::AtLeastOnce => Delivery::AtLeastOnce {
            dup: false,
            identifier: 1,
        },
        Qos::ExactlyOnce => Delivery::ExactlyOnce {
            dup: false,
            identifier: 1,
        },
    }
}

/// Whether the broker takes the PUBLISH of a message (3.3).
#[tactic(auto, using(crate::proofs::peers_lemmas::Inputs::message_is))]
pub fn is_message(draft: &Draft) -> Result<bool, AllocError>
    ensures { IfOk result (λ is. is ≡ is_message (draft_of draft.now)) }
{
    // This shows that the topic is a text, and has a spelling.
    let _topic = draft.content.topic.as_str();
    let packet = publish(delivery_at(draft.qos), &draft.content)?;
    let is = is_taken(&packet);
    drop(packet);
    Ok(is)
}

/// Whether a Subscription Identifier fits a Variable Byte Integer (1.5.5).
fn fits_number(identifier: Option<u32>) -> bool
    ensures { result ≡ fits_number identifier }
{
    match identifier {
        None => true,
        Some(identifier) => identifier < VARINT_LIMIT,
    }
}

/// Whether the broker takes the SUBSCRIBE for a subscription (3.8).
#[tactic(auto, using(crate::proofs::peers_lemmas::Inputs::wish_is))]
pub fn is_wish(alloc: Global, wish: &Wish) -> Result<bool, AllocError>
    ensures { IfOk result (λ is. is ≡ is_wish (wish_of wish.now)) }
{
    if !fits_number(wish.identifier) {
        return Ok(false);
    }
    // This shows that the filter is a text, and has a spelling.
    let _filter = wish.filter.as_str();
    let packet = subscribe(alloc, wish)?;
    let is = is_taken(&packet);
    drop(packet);
    Ok(is)
}
