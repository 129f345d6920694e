//! What a conforming publisher sends (MQTT 5.0, 3.1, 3.3, 3.6).

ghost use Rattle.std.specs.Prelude.{◌≡◌, map, IfOk};
ghost use Rattle.mqtt_world_ends.specs.handshakes.Fates.{packet_of};
ghost use Rattle.mqtt_flow.specs.inbound.Publisher.{CONNECT};
ghost use Rattle.mqtt_world_model.specs.model.Ends.{plain, shake, wire};
ghost use Rattle.mqtt_world_ends.specs.peers.Publishers.{content_of};

use crate::handshakes::Shake;
use crate::peers::wire::{ack, connect, publish, publish_at};
use mqtt_base::{Reason, Text};
use mqtt_packet::{Delivery, Packet};
use mqtt_script::Content;
use std::alloc::{AllocError, Global};
use std::marker::Model;

/// The packets of a publisher.
#[derive(Debug, Drop)]
pub(crate) enum SentPacket {
    /// CONNECT, PUBREL, or a PUBLISH of QoS 1 or 2.
    Shake(Shake),
    /// A PUBLISH of QoS 0 (3.3).
    Plain(Content),
}

/// A packet that a publisher sends.
#[derive(Debug, Drop)]
pub struct Sent {
    packet: SentPacket,
}

impl Model for Sent {
    ghost use Rattle.mqtt_world_model.specs.model.Ends as ends;

    ghost Value = { ends.Sent };

    ghost use Rattle.mqtt_world_ends.specs.peers.Publishers.{sent_of};

    ghost view = { λ s. sent_of s.packet };
}

impl Sent {
    /// CONNECT (3.1).
    pub fn connect(clean_start: bool) -> Sent
        ensures { result ≡ shake (CONNECT clean_start) }
    {
        Sent::shake(Shake::Connect { clean_start })
    }

    /// A packet of a publisher's handshakes.
    pub(crate) fn shake(packet: Shake) -> Sent
        ensures { result ≡ shake (packet_of packet) }
    {
        Sent {
            packet: SentPacket::Shake(packet),
        }
    }

    /// A message of QoS 0.
    pub(crate) fn plain(content: Content) -> Sent
        ensures { result ≡ plain (content_of content) }
    {
        Sent {
            packet: SentPacket::Plain(content),
        }
    }

    /// The packet on the wire, of the publisher with that client identifier and these numbered messages.
    pub(crate) fn to_packet(
        &self,
        alloc: Global,
        client: &Text,
        contents: &[Content],
    ) -> Result<Packet, AllocError>
        ensures { IfOk result (λ packet. packet ≡ wire client.now (map content_of contents.now) self.now) }
    {
        match &self.packet {
            SentPacket::Shake(packet) => shake_packet(alloc, client, contents, *packet),
            SentPacket::Plain(content) => publish(Delivery::AtMostOnce, content),
        }
    }
}

/// A packet of a publisher's handshakes on the wire.
fn shake_packet(
    alloc: Global,
    client: &Text,
    contents: &[Content],
    packet: Shake,
) -> Result<Packet, AllocError>
    ensures { IfOk result (λ made. made
        ≡ wire client.now (map content_of contents.now) (shake (packet_of packet))) }
{
    match packet {
        Shake::Connect { clean_start } => connect(alloc, client, clean_start, None, 0),
        Shake::PublishOnce {
            identifier,
            message,
            dup,
        } => publish_at(
            alloc,
            Delivery::AtLeastOnce { dup, identifier },
            contents,
            message,
        ),
        Shake::PublishTwice {
            identifier,
            message,
            dup,
        } => publish_at(
            alloc,
            Delivery::ExactlyOnce { dup, identifier },
            contents,
            message,
        ),
        Shake::Pubrel { identifier } => Ok(Packet::Pubrel(ack(identifier, Reason::SUCCESS.0))),
    }
}
