//! What the copies of a publication have in common, and the PUBLISH that those of QoS 0 share (MQTT 5.0, 3.3, 3.3.4).
ghost use Rattle.std.specs.Prelude.{◌≡◌, ℕ, Bool, false, IfOk, IfSome, IsTrue, OnOk, OnErr};
ghost use Rattle.mqtt_packet.specs.codec.Packets.{shortest_of};
ghost use Rattle.mqtt_records.specs.messages.Queue.{IsSpelled};
ghost use Rattle.mqtt_rules.specs.step.Packets.{publish_of};
ghost use Rattle.mqtt_broker_queue.specs.publications.Copies.{InCommon, copy_for};
ghost use Rattle.mqtt_broker_queue.specs.publications.Sharing.{IsEncoded, in_common, said_to};

use crate::publications::copies::{Addressed, Addressee};
use bytes::Bytes;
use mqtt_base::{Cause, CopyId, Qos};
use mqtt_broker_looks::sent::publish;
use mqtt_records::{Content, MessageCopy, SubscriptionIdentifiers};
use std::alloc::{AllocError, Global};
use std::marker::Model;
use std::mem;

/// A PUBLISH of QoS 0 as it was encoded at a moment in milliseconds.
#[derive(Drop)]
struct Encoded {
    moment: u64,
    bytes: Bytes,
}

/// What all copies of a publication have in common, and the PUBLISH that was encoded last.
#[derive(Drop)]
pub(crate) struct Common {
    /// The copy that was encoded last, or is to be. Its number and its content are those of all.
    said: MessageCopy,
    last: Option<Encoded>,
}

impl Model for Common {
    ghost use Rattle.std.specs.Prelude.{IfSome};
    ghost use Rattle.mqtt_broker_queue.specs.publications.Copies.{InCommon};
    ghost use Rattle.mqtt_broker_queue.specs.publications.Sharing.{IsEncoded, in_common};

    ghost Value = { InCommon };

    ghost view = { λ a. in_common a.said };

    ghost invariant = { λ a. IfSome a.last (λ last. IsEncoded last.moment a.said last.bytes) };
}

/// Whether the PUBLISH of a copy is that of its publication's copy for a session: all that may differ is looked at
/// (3.3). Takes no memory.
fn says_the_same<T: Addressed>(copy: &MessageCopy, to: &T) -> bool
    ensures { IsTrue result → (p : InCommon) (now id : ℕ) (dup : Bool) → copy.now.content ≡ p.content
        → publish_of now dup id copy.now ≡ publish_of now dup id (copy_for p (T.addressee to.now)) }
{
    copy.qos == to.qos()
        && copy.retain == to.retain()
        && copy.identifiers.as_slice() == to.identifiers()
}

/// Whether what was encoded last is the PUBLISH of the copy for a session at a moment. Takes no memory.
fn is_for<T: Addressed>(last: &Encoded, said: &MessageCopy, moment: u64, to: &T) -> bool
    ensures { IsTrue result → (p : InCommon) → said.now.content ≡ p.content
        → IsEncoded last.now.moment said.now last.now.bytes → last.now.bytes
        ≡ shortest_of (publish_of moment false 0 (copy_for p (T.addressee to.now))) }
{
    last.moment == moment && says_the_same(said, to)
}

/// A copy is sent as that for a session is. Want of memory changes nothing.
fn say<T: Addressed>(alloc: Global, copy: &mut MessageCopy, to: &T) -> Result<(), AllocError>
    ensures ok { OnOk result (copy.new ≡ said_to (T.addressee to.now) copy.old) }
    ensures err { OnErr result (copy.new ≡ copy.old) }
{
    let identifiers = SubscriptionIdentifiers::from_slice(alloc, to.identifiers())?;
    copy.qos = to.qos();
    copy.retain = to.retain();
    copy.identifiers = identifiers;
    Ok(())
}

/// The PUBLISH of a copy of QoS 0, which has a spelling, is encoded at a moment in milliseconds.
fn spell(alloc: Global, moment: u64, copy: &MessageCopy) -> Result<Encoded, AllocError>
    requires { IsSpelled copy.now }
    ensures { IfOk result (λ made. IsEncoded made.moment copy.now made.bytes
        × (made.bytes ≡ shortest_of (publish_of moment false 0 copy.now))) }
{
    let bytes = publish(alloc, moment, false, 0, &copy.lend())?;
    Ok(Encoded { moment, bytes })
}

/// A copy is sent as that for a session is, and its PUBLISH is encoded at a moment in milliseconds.
fn spell_to<T: Addressed>(
    alloc: Global,
    moment: u64,
    copy: &mut MessageCopy,
    to: &T,
) -> Result<Encoded, AllocError>
    requires { IsSpelled (said_to (T.addressee to.now) copy.old) }
    ensures made { IfOk result (λ made. IsEncoded made.moment copy.new made.bytes) }
    ensures bytes { IfOk result (λ made. made.bytes
        ≡ shortest_of (publish_of moment false 0 (said_to (T.addressee to.now) copy.old))) }
    ensures same { in_common copy.new ≡ in_common copy.old }
{
    say(alloc, copy, to)?;
    spell(alloc, moment, copy)
}

impl Common {
    /// What all copies of the publication with a number have in common. Takes no memory.
    pub(crate) fn new(alloc: Global, number: u64, content: Content) -> Common
        ensures { result ≡ record { number = number; content = content } }
    {
        let id = CopyId {
            publication: number,
            birth: 0,
            cause: Cause::Direct,
        };
        let said = MessageCopy {
            id,
            qos: Qos::AtMostOnce,
            retain: false,
            identifiers: SubscriptionIdentifiers::new(alloc),
            content,
        };
        Common { said, last: None }
    }

    /// The copy for a session, with its own share of what is in common.
    pub(crate) fn copy<T: Addressed>(
        &self,
        alloc: Global,
        to: &T,
    ) -> Result<MessageCopy, AllocError>
        ensures { IfOk result (λ copy. copy ≡ copy_for self.now (T.addressee to.now)) }
    {
        Ok(MessageCopy {
            id: CopyId {
                publication: self.said.id.publication,
                birth: to.birth(),
                cause: to.cause()?,
            },
            qos: to.qos(),
            retain: to.retain(),
            identifiers: SubscriptionIdentifiers::from_slice(alloc, to.identifiers())?,
            content: self.said.content.clone()?,
        })
    }

    /// The bytes that were encoded last, if they are the PUBLISH of the copy for a session at a moment. Takes no memory.
    fn known<T: Addressed>(&self, moment: u64, to: &T) -> Option<&Bytes>
        ensures { IfSome result (λ bytes. bytes.now
            ≡ shortest_of (publish_of moment false 0 (copy_for self.now (T.addressee to.now)))) }
    {
        match &self.last {
            Some(last) if is_for(last, &self.said, moment, to) => Some(&last.bytes),
            Some(_) | None => None,
        }
    }

    /// The PUBLISH of the copy for a session is encoded, and is the last then.
    fn encode<T: Addressed>(
        &mut self,
        alloc: Global,
        moment: u64,
        to: &T,
    ) -> Result<Bytes, AllocError>
        requires { IsSpelled (copy_for self.old (T.addressee to.now)) }
        ensures bytes { IfOk result (λ bytes. bytes
            ≡ shortest_of (publish_of moment false 0 (copy_for self.old (T.addressee to.now)))) }
        ensures same { self.new ≡ self.old }
    {
        drop(mem::replace(&mut self.last, None));
        say(alloc, &mut self.said, to)?;
        let last = spell(alloc, moment, &self.said)?;
        let bytes: Result<_, _> = last.bytes.clone();
        drop(mem::replace(&mut self.last, Some(last)));
        bytes
    }

    /// The PUBLISH of the copy of QoS 0 for a session, which has a spelling, at a moment in milliseconds (3.3). If the
    /// one that was encoded last is the same, both share their bytes.
    pub(crate) fn encoding<T: Addressed>(
        &mut self,
        alloc: Global,
        moment: u64,
        to: &T,
    ) -> Result<Bytes, AllocError>
        requires { IsSpelled (copy_for self.old (T.addressee to.now)) }
        ensures bytes { IfOk result (λ bytes. bytes
            ≡ shortest_of (publish_of moment false 0 (copy_for self.old (T.addressee to.now)))) }
        ensures same { self.new ≡ self.old }
    {
        if let Some(bytes) = self.known(moment, to) {
            return bytes.clone();
        }
        self.encode(alloc, moment, to)
    }
}

/// A copy that is alone: what it has in common with others of its publication, and whom it is for. Takes no memory.
pub(crate) fn apart(alloc: Global, copy: MessageCopy) -> (Common, Addressee)
    ensures { copy_for result.0 result.1 ≡ copy }
{
    let MessageCopy {
        id,
        qos,
        retain,
        identifiers,
        content,
    } = copy;
    let CopyId {
        publication,
        birth,
        cause,
    } = id;
    let common = Common::new(alloc, publication, content);
    let to = Addressee {
        birth,
        cause,
        qos,
        retain,
        identifiers,
    };
    (common, to)
}
