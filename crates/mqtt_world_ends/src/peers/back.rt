//! What a conforming receiver sends (MQTT 5.0, 3.1, 3.4, 3.5, 3.7, 3.8).

ghost use Rattle.std.specs.Prelude.{◌≡◌, IfOk};
ghost use Rattle.mqtt_flow.specs.outbound.Receiver as flow;
ghost use Rattle.mqtt_world_model.specs.model.Ends.{answers, asks_for, wire_back};
ghost use Rattle.mqtt_world_ends.specs.peers.Receivers.{wish_of};

use crate::peers::wire::{ack, connect, subscribe};
use mqtt_base::Text;
use mqtt_packet::Packet;
use mqtt_script::Wish;
use std::alloc::{AllocError, Global};
use std::marker::Model;

/// The packets of a receiver.
#[derive(Debug, Drop)]
pub(crate) enum BackPacket {
    /// CONNECT (3.1).
    Connect {
        /// Its Clean Start.
        clean_start: bool,
    },
    /// PUBACK (3.4).
    Puback {
        /// The packet identifier.
        identifier: u16,
        /// The reason code.
        code: u8,
    },
    /// PUBREC (3.5).
    Pubrec {
        /// The packet identifier.
        identifier: u16,
        /// The reason code.
        code: u8,
    },
    /// PUBCOMP (3.7).
    Pubcomp {
        /// The packet identifier.
        identifier: u16,
        /// The reason code.
        code: u8,
    },
    /// SUBSCRIBE (3.8).
    Subscribe(Wish),
}

/// A packet that a receiver sends.
#[derive(Debug, Drop)]
pub struct Back {
    packet: BackPacket,
}

impl Model for Back {
    ghost use Rattle.mqtt_world_model.specs.model.Ends as ends;

    ghost Value = { ends.Back };

    ghost use Rattle.mqtt_world_ends.specs.peers.Receivers.{back_of};

    ghost view = { λ b. back_of b.packet };
}

impl Back {
    /// CONNECT (3.1).
    pub fn connect(clean_start: bool) -> Back
        ensures { result ≡ answers (flow.connect clean_start) }
    {
        Back {
            packet: BackPacket::Connect { clean_start },
        }
    }

    /// PUBACK (3.4).
    pub(crate) fn puback(identifier: u16, code: u8) -> Back
        ensures { result ≡ answers (flow.puback identifier code) }
    {
        Back {
            packet: BackPacket::Puback { identifier, code },
        }
    }

    /// PUBREC (3.5).
    pub(crate) fn pubrec(identifier: u16, code: u8) -> Back
        ensures { result ≡ answers (flow.pubrec identifier code) }
    {
        Back {
            packet: BackPacket::Pubrec { identifier, code },
        }
    }

    /// PUBCOMP (3.7).
    pub(crate) fn pubcomp(identifier: u16, code: u8) -> Back
        ensures { result ≡ answers (flow.pubcomp identifier code) }
    {
        Back {
            packet: BackPacket::Pubcomp { identifier, code },
        }
    }

    /// SUBSCRIBE (3.8).
    pub(crate) fn subscribe(wish: Wish) -> Back
        ensures { result ≡ asks_for (wish_of wish) }
    {
        Back {
            packet: BackPacket::Subscribe(wish),
        }
    }

    /// The packet on the wire, of the receiver with that client identifier, Receive Maximum and Topic Alias Maximum.
    pub(crate) fn to_packet(
        &self,
        alloc: Global,
        client: &Text,
        window: u16,
        aliases: u16,
    ) -> Result<Packet, AllocError>
        ensures { IfOk result (λ packet. packet ≡ wire_back client.now window aliases self.now) }
    {
        match &self.packet {
            BackPacket::Connect { clean_start } => connect(
                alloc,
                client,
                *clean_start,
                Some(window),
                aliases,
            ),
            BackPacket::Puback { identifier, code } => Ok(Packet::Puback(ack(*identifier, *code))),
            BackPacket::Pubrec { identifier, code } => Ok(Packet::Pubrec(ack(*identifier, *code))),
            BackPacket::Pubcomp { identifier, code } => Ok(Packet::Pubcomp(ack(
                *identifier,
                *code,
            ))),
            BackPacket::Subscribe(wish) => subscribe(alloc, wish),
        }
    }
}
