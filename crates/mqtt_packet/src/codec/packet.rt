//! Control packets, owned and lent out of a frame (2.1.2).

ghost use Rattle.std.specs.Prelude.{◌≡◌, ◌↔◌, IfOk, IsTrue};
ghost use Rattle.mqtt_packet.specs.codec.Packets.{Fits, is_lawful, kind_of, IsAckKind, properties_of};
ghost use Rattle.mqtt_packet.specs.codec.Frames.{packet_of};

use crate::codec::ack::{Ack, AckRef};
use crate::codec::connack::{Connack, ConnackRef};
use crate::codec::notice::{Notice, NoticeRef};
use crate::codec::publish::{Publish, PublishRef};
use crate::codec::suback::{Suback, SubackRef};
use crate::connect::{Connect, ConnectRef};
use crate::subscribe::{Subscribe, SubscribeRef, Unsubscribe, UnsubscribeRef};
use mqtt_base::Kind;
use mqtt_props::{Place, PropsRef};
use std::alloc::{AllocError, Global};

/// A control packet (2.1.2).
#[derive(Debug, Drop)]
pub enum Packet {
    /// A client asks for a connection (3.1).
    Connect(Connect),
    /// The connection is acknowledged (3.2).
    Connack(Connack),
    /// A message is published (3.3).
    Publish(Publish),
    /// A QoS 1 message is acknowledged (3.4).
    Puback(Ack),
    /// A QoS 2 message is received (3.5).
    Pubrec(Ack),
    /// A QoS 2 message is released (3.6).
    Pubrel(Ack),
    /// A QoS 2 message is complete (3.7).
    Pubcomp(Ack),
    /// A client asks for subscriptions (3.8).
    Subscribe(Subscribe),
    /// Subscriptions are acknowledged (3.9).
    Suback(Suback),
    /// A client gives subscriptions up (3.10).
    Unsubscribe(Unsubscribe),
    /// Giving subscriptions up is acknowledged (3.11).
    Unsuback(Suback),
    /// A client asks for a sign of life (3.12).
    Pingreq,
    /// The sign of life (3.13).
    Pingresp,
    /// The last packet of a connection (3.14).
    Disconnect(Notice),
    /// A step of an authentication (3.15).
    Auth(Notice),
}

/// A control packet that stands in a frame, and lends its parts out of it (2.1.2).
#[derive(Debug, Drop)]
pub enum PacketRef<'a> {
    /// A client asks for a connection (3.1).
    Connect(ConnectRef<'a>),
    /// The connection is acknowledged (3.2).
    Connack(ConnackRef<'a>),
    /// A message is published (3.3).
    Publish(PublishRef<'a>),
    /// A QoS 1 message is acknowledged (3.4).
    Puback(AckRef<'a>),
    /// A QoS 2 message is received (3.5).
    Pubrec(AckRef<'a>),
    /// A QoS 2 message is released (3.6).
    Pubrel(AckRef<'a>),
    /// A QoS 2 message is complete (3.7).
    Pubcomp(AckRef<'a>),
    /// A client asks for subscriptions (3.8).
    Subscribe(SubscribeRef<'a>),
    /// Subscriptions are acknowledged (3.9).
    Suback(SubackRef<'a>),
    /// A client gives subscriptions up (3.10).
    Unsubscribe(UnsubscribeRef<'a>),
    /// Giving subscriptions up is acknowledged (3.11).
    Unsuback(SubackRef<'a>),
    /// A client asks for a sign of life (3.12).
    Pingreq,
    /// The sign of life (3.13).
    Pingresp,
    /// The last packet of a connection (3.14).
    Disconnect(NoticeRef<'a>),
    /// A step of an authentication (3.15).
    Auth(NoticeRef<'a>),
}

impl PacketRef<'_> {
    /// Its control packet type (2.1.2). Takes no memory.
    pub fn kind(&self) -> Kind
        ensures { result ≡ kind_of (packet_of self.now) }
    {
        match self {
            PacketRef::Connect(_) => Kind::Connect,
            PacketRef::Connack(_) => Kind::Connack,
            PacketRef::Publish(_) => Kind::Publish,
            PacketRef::Puback(_) => Kind::Puback,
            PacketRef::Pubrec(_) => Kind::Pubrec,
            PacketRef::Pubrel(_) => Kind::Pubrel,
            PacketRef::Pubcomp(_) => Kind::Pubcomp,
            PacketRef::Subscribe(_) => Kind::Subscribe,
            PacketRef::Suback(_) => Kind::Suback,
            PacketRef::Unsubscribe(_) => Kind::Unsubscribe,
            PacketRef::Unsuback(_) => Kind::Unsuback,
            PacketRef::Pingreq => Kind::Pingreq,
            PacketRef::Pingresp => Kind::Pingresp,
            PacketRef::Disconnect(_) => Kind::Disconnect,
            PacketRef::Auth(_) => Kind::Auth,
        }
    }

    /// The properties of its own block, and not of a Will's; PINGREQ and PINGRESP have none (2.2.2).
    /// Takes no memory.
    pub fn properties(&self) -> PropsRef<'_>
        ensures { result ≡ properties_of (packet_of self.now) }
    {
        match self {
            PacketRef::Connect(connect) => connect.properties.reborrow(),
            PacketRef::Connack(connack) => connack.properties.reborrow(),
            PacketRef::Publish(publish) => publish.properties.reborrow(),
            PacketRef::Puback(ack)
            | PacketRef::Pubrec(ack)
            | PacketRef::Pubrel(ack)
            | PacketRef::Pubcomp(ack) => ack.properties.reborrow(),
            PacketRef::Subscribe(subscribe) => subscribe.properties.reborrow(),
            PacketRef::Suback(suback) | PacketRef::Unsuback(suback) => suback.properties.reborrow(),
            PacketRef::Unsubscribe(unsubscribe) => unsubscribe.properties.reborrow(),
            PacketRef::Pingreq | PacketRef::Pingresp => PropsRef::empty(),
            PacketRef::Disconnect(notice) | PacketRef::Auth(notice) => notice.properties.reborrow(),
        }
    }

    /// Whether the laws hold.
    #[inline(always)]
    pub(crate) fn is_lawful(&self) -> bool
        ensures { result ≡ is_lawful (packet_of self.now) }
    {
        match self {
            PacketRef::Connect(connect) => connect.is_lawful(),
            PacketRef::Connack(connack) => connack.is_lawful(),
            PacketRef::Publish(publish) => publish.is_lawful(),
            PacketRef::Puback(ack) => ack.is_lawful(Place::Puback),
            PacketRef::Pubrec(ack) => ack.is_lawful(Place::Pubrec),
            PacketRef::Pubrel(ack) => ack.is_lawful(Place::Pubrel),
            PacketRef::Pubcomp(ack) => ack.is_lawful(Place::Pubcomp),
            PacketRef::Subscribe(subscribe) => subscribe.is_lawful(),
            PacketRef::Suback(suback) => suback.is_lawful(Place::Suback),
            PacketRef::Unsubscribe(unsubscribe) => unsubscribe.is_lawful(),
            PacketRef::Unsuback(suback) => suback.is_lawful(Place::Unsuback),
            PacketRef::Pingreq => true,
            PacketRef::Pingresp => true,
            PacketRef::Disconnect(notice) => notice.is_lawful_disconnect(),
            PacketRef::Auth(notice) => notice.is_lawful_auth(),
        }
    }

    /// An owned copy; want of memory is its only refusal.
    #[inline(always)]
    pub fn to_packet(&self, alloc: Global) -> Result<Packet, AllocError>
        requires { Fits (packet_of self.now) }
        ensures { IfOk result (λ p. p ≡ packet_of self.now) }
    {
        match self {
            PacketRef::Connect(connect) => connect.to_connect(alloc).map(Packet::Connect),
            PacketRef::Connack(connack) => connack.to_connack(alloc).map(Packet::Connack),
            PacketRef::Publish(publish) => publish.to_publish(alloc).map(Packet::Publish),
            PacketRef::Puback(_)
            | PacketRef::Pubrec(_)
            | PacketRef::Pubrel(_)
            | PacketRef::Pubcomp(_) => self.ack_to_packet(alloc),
            PacketRef::Subscribe(subscribe) => subscribe.to_subscribe(alloc).map(Packet::Subscribe),
            PacketRef::Suback(suback) => suback.to_suback(alloc).map(Packet::Suback),
            PacketRef::Unsubscribe(unsubscribe) => unsubscribe
                .to_unsubscribe(alloc)
                .map(Packet::Unsubscribe),
            PacketRef::Unsuback(suback) => suback.to_suback(alloc).map(Packet::Unsuback),
            PacketRef::Pingreq => Ok(Packet::Pingreq),
            PacketRef::Pingresp => Ok(Packet::Pingresp),
            PacketRef::Disconnect(notice) => notice.to_notice(alloc).map(Packet::Disconnect),
            PacketRef::Auth(notice) => notice.to_notice(alloc).map(Packet::Auth),
        }
    }

    /// An owned copy of an ack.
    #[inline(always)]
    fn ack_to_packet(&self, alloc: Global) -> Result<Packet, AllocError>
        requires { IsAckKind (kind_of (packet_of self.now)) }
        ensures { IfOk result (λ p. p ≡ packet_of self.now) }
    {
        match self {
            PacketRef::Puback(ack) => ack.to_ack(alloc).map(Packet::Puback),
            PacketRef::Pubrec(ack) => ack.to_ack(alloc).map(Packet::Pubrec),
            PacketRef::Pubrel(ack) => ack.to_ack(alloc).map(Packet::Pubrel),
            PacketRef::Pubcomp(ack) => ack.to_ack(alloc).map(Packet::Pubcomp),
            _ => unreachable!(),
        }
    }
}

impl Packet {
    /// The same packet, lent. Takes no memory.
    #[inline(always)]
    pub fn lend(&self) -> PacketRef<'_>
        ensures { packet_of result ≡ self.now }
    {
        match self {
            Packet::Connect(connect) => PacketRef::Connect(connect.lend()),
            Packet::Connack(connack) => PacketRef::Connack(connack.lend()),
            Packet::Publish(publish) => PacketRef::Publish(publish.lend()),
            Packet::Puback(ack) => PacketRef::Puback(ack.lend()),
            Packet::Pubrec(ack) => PacketRef::Pubrec(ack.lend()),
            Packet::Pubrel(ack) => PacketRef::Pubrel(ack.lend()),
            Packet::Pubcomp(ack) => PacketRef::Pubcomp(ack.lend()),
            Packet::Subscribe(subscribe) => PacketRef::Subscribe(subscribe.lend()),
            Packet::Suback(suback) => PacketRef::Suback(suback.lend()),
            Packet::Unsubscribe(unsubscribe) => PacketRef::Unsubscribe(unsubscribe.lend()),
            Packet::Unsuback(suback) => PacketRef::Unsuback(suback.lend()),
            Packet::Pingreq => PacketRef::Pingreq,
            Packet::Pingresp => PacketRef::Pingresp,
            Packet::Disconnect(notice) => PacketRef::Disconnect(notice.lend()),
            Packet::Auth(notice) => PacketRef::Auth(notice.lend()),
        }
    }

    /// Whether its parts have a spelling.
    #[inline(always)]
    pub(crate) fn fits(&self) -> bool
        ensures { IsTrue result ↔ Fits self.now }
    {
        match self {
            Packet::Connect(connect) => connect.fits(),
            Packet::Connack(connack) => connack.fits(),
            Packet::Publish(publish) => publish.fits(),
            Packet::Puback(ack) => ack.fits(Kind::Puback, Place::Puback),
            Packet::Pubrec(ack) => ack.fits(Kind::Pubrec, Place::Pubrec),
            Packet::Pubrel(ack) => ack.fits(Kind::Pubrel, Place::Pubrel),
            Packet::Pubcomp(ack) => ack.fits(Kind::Pubcomp, Place::Pubcomp),
            Packet::Subscribe(subscribe) => subscribe.fits(),
            Packet::Suback(suback) => suback.fits(Kind::Suback, Place::Suback),
            Packet::Unsubscribe(unsubscribe) => unsubscribe.fits(),
            Packet::Unsuback(suback) => suback.fits(Kind::Unsuback, Place::Unsuback),
            Packet::Pingreq => true,
            Packet::Pingresp => true,
            Packet::Disconnect(notice) => notice.fits(Kind::Disconnect, Place::Disconnect),
            Packet::Auth(notice) => notice.fits(Kind::Auth, Place::Auth),
        }
    }
}
