//! Bodies that are read and judged by their laws, a kind each (1.2, 4.13).

ghost use Rattle.mqtt_packet.specs.parts.Reading.{Gives};
ghost use Rattle.mqtt_packet.specs.connect.Connect.{connect_at, connect_of, lawful_connect};
ghost use Rattle.mqtt_packet.specs.subscribe.Subscribe.{subscribe_at, subscribe_of, lawful_subscribe};
ghost use Rattle.mqtt_packet.specs.subscribe.Unsubscribe.{unsubscribe_at, unsubscribe_of, lawful_unsubscribe};
ghost use Rattle.mqtt_packet.specs.codec.Ack.{ack_at, ack_of, lawful_ack};
ghost use Rattle.mqtt_packet.specs.codec.Connack.{connack_at, connack_of, lawful_connack};
ghost use Rattle.mqtt_packet.specs.codec.Notice.{disconnect_at, auth_at, notice_of, lawful_disconnect, lawful_auth};
ghost use Rattle.mqtt_packet.specs.codec.Publish.{publish_at, publish_of, lawful_publish};
ghost use Rattle.mqtt_packet.specs.codec.Suback.{suback_at, suback_of, lawful_suback};
ghost use Rattle.mqtt_packet.specs.codec.Frames.{judged};

use crate::codec::ack::{AckRef, ack_read};
use crate::codec::connack::{ConnackRef, connack_read};
use crate::codec::notice::{NoticeRef, auth_read, disconnect_read};
use crate::codec::publish::{PublishRef, publish_read};
use crate::codec::suback::{SubackRef, suback_read};
use crate::connect::{ConnectRef, connect_read};
use crate::parts::Fault;
use crate::subscribe::{SubscribeRef, UnsubscribeRef, subscribe_read, unsubscribe_read};
use mqtt_base::{Kind, Qos};
use mqtt_props::Place;

/// The part that was read, if its test says that it keeps its laws.
macro_rules! judged {
    ($read:expr, $test:ident($($place:expr)?)) => {
        match $read {
            Ok(part) => {
                if part.$test($($place)?) {
                    Ok(part)
                } else {
                    drop(part);
                    Err(Fault::Protocol)
                }
            }
            Err(_) => Err(Fault::Malformed),
        }
    };
}

#[inline(always)]
pub(crate) fn connect_judged(body: &[u8]) -> Result<ConnectRef<'_>, Fault>
    ensures { Gives connect_of result (judged lawful_connect (connect_at body.now)) }
{
    judged!(connect_read(body), is_lawful())
}

#[inline(always)]
pub(crate) fn connack_judged(body: &[u8]) -> Result<ConnackRef<'_>, Fault>
    ensures { Gives connack_of result (judged lawful_connack (connack_at body.now)) }
{
    judged!(connack_read(body), is_lawful())
}

#[inline(always)]
pub(crate) fn publish_judged(
    dup: bool,
    qos: Qos,
    retain: bool,
    body: &[u8],
) -> Result<PublishRef<'_>, Fault>
    ensures { Gives publish_of result (judged lawful_publish (publish_at dup qos retain body.now)) }
{
    judged!(publish_read(dup, qos, retain, body), is_lawful())
}

#[inline(always)]
pub(crate) fn ack_judged(kind: Kind, place: Place, body: &[u8]) -> Result<AckRef<'_>, Fault>
    ensures { Gives ack_of result (judged (lawful_ack place) (ack_at kind place body.now)) }
{
    judged!(ack_read(kind, place, body), is_lawful(place))
}

#[inline(always)]
pub(crate) fn subscribe_judged(body: &[u8]) -> Result<SubscribeRef<'_>, Fault>
    ensures { Gives subscribe_of result (judged lawful_subscribe (subscribe_at body.now)) }
{
    judged!(subscribe_read(body), is_lawful())
}

#[inline(always)]
pub(crate) fn suback_judged(kind: Kind, place: Place, body: &[u8]) -> Result<SubackRef<'_>, Fault>
    ensures { Gives suback_of result (judged (lawful_suback place) (suback_at kind place body.now)) }
{
    judged!(suback_read(kind, place, body), is_lawful(place))
}

#[inline(always)]
pub(crate) fn unsubscribe_judged(body: &[u8]) -> Result<UnsubscribeRef<'_>, Fault>
    ensures { Gives unsubscribe_of result (judged lawful_unsubscribe (unsubscribe_at body.now)) }
{
    judged!(unsubscribe_read(body), is_lawful())
}

#[inline(always)]
pub(crate) fn disconnect_judged(body: &[u8]) -> Result<NoticeRef<'_>, Fault>
    ensures { Gives notice_of result (judged lawful_disconnect (disconnect_at body.now)) }
{
    judged!(disconnect_read(body), is_lawful_disconnect())
}

#[inline(always)]
pub(crate) fn auth_judged(body: &[u8]) -> Result<NoticeRef<'_>, Fault>
    ensures { Gives notice_of result (judged lawful_auth (auth_at body.now)) }
{
    judged!(auth_read(body), is_lawful_auth())
}
