//! The cut of a stream of bytes into packets, however it comes (2.1).

ghost use Rattle.std.specs.Prelude.{◌≡◌, ◌≢◌, ◌-◌, ◌<◌, ◌≤◌, ◌++◌, length, take, drop, min, IfOk, IfErr, IfNone, IfSome, OnErr, OnOk, OnSome, IsOk, Ok, None, false};
ghost use Rattle.mqtt_packet.specs.declared.parts.fault.Fault.{Fault};
ghost use Rattle.mqtt_base.specs.declared.limits.TheConstants.{PACKET_LIMIT};
ghost use Rattle.mqtt_packet.specs.stream.Front.{first_of};
ghost use Rattle.mqtt_packet.specs.stream.Stream.{Framing, empty, after, first_byte, without_last, Stands, Refuses, Finds, FindsSized, Gives};
ghost use Rattle.mqtt_base.specs.Values.{FitsText};
ghost use Rattle.mqtt_packet.specs.codec.Frames.{packet_of};

use crate::codec::{Packet, PacketRef, Publish, PublishRef};
use crate::parts::Fault;
use crate::stream::front::{first_read, is_whole};
use crate::stream::store::Store;
use mqtt_base::{PACKET_LIMIT, Text};
use mqtt_props::PropList;
use std::alloc::{AllocError, Global};
use std::marker::Model;

/// Cuts a stream of bytes into packets. Each fault comes with the place, counted from 0 modulo
/// 2^64, of the packet that it stands in.
#[derive(Drop)]
pub struct Framer {
    store: Store,
    place: u64,
    alloc: Global,
}

impl Model for Framer {
    ghost Value = { Framing };

    ghost view = { λ f. record { held = f.store; place = f.place } };

    ghost invariant = { λ f. length f.store ≤ PACKET_LIMIT };
}

impl Framer {
    /// Holds nothing, at place 0. Takes no memory.
    pub fn new(alloc: Global) -> Framer
        ensures { result ≡ empty }
    {
        Framer {
            store: Store::new(alloc),
            place: 0,
            alloc,
        }
    }

    /// How many bytes are held. Takes no memory.
    pub fn held(&self) -> usize
        ensures exact { result ≡ length self.now.held }
        ensures within { result ≤ PACKET_LIMIT }
    {
        self.store.as_slice().len()
    }

    /// The place in the stream of the first byte that is held. Takes no memory.
    pub fn place(&self) -> u64
        ensures { result ≡ self.now.place }
    {
        self.place
    }

    /// The first byte that is held, which has the type of its packet in its high half (2.1.2). Takes no
    /// memory.
    pub fn first_byte(&self) -> Option<u8>
        ensures { result ≡ first_byte self.now.held }
    {
        match self.store.as_slice() {
            [] => None,
            [first, ..] => Some(*first),
        }
    }

    /// Whether a packet, or a fault, stands first. The fixed header tells it (2.1.1, 2.1.4): no packet
    /// is read, however long it is. Takes no memory.
    pub fn is_whole(&self) -> bool
        // Not exactly if nothing is whole yet.
        ensures waits { result ≡ false → first_of self.now.held ≡ Ok None }
        ensures whole { first_of self.now.held ≡ Ok None → result ≡ false }
    {
        is_whole(self.store.as_slice())
    }

    /// Takes as many bytes as fit, from the front of the piece, and answers how many.
    pub fn feed(&mut self, piece: &[u8]) -> Result<usize, (Fault, u64)>
        ensures answer { IfOk result (λ n. n ≡ min (length piece.now) (PACKET_LIMIT - length self.old.held)) }
        ensures ok { IfOk result (λ n.
            self.new ≡ record self.old { held = self.old.held ++ take n piece.now }) }

        // If a fault stands first, it is answered, and nothing is taken.
        ensures clear { OnOk result (IsOk (first_of self.old.held)) }
        ensures stands { (fault : Fault) → first_of self.old.held ≡ Err fault
            → result ≡ Err (fault, self.old.place) }
        ensures refused { IfErr result (Refuses self.old) }
        ensures err { OnErr result (self.new ≡ self.old) }
    {
        if let Err(fault) = first_read(self.store.as_slice()) {
            return Err((fault, self.place));
        }
        let count = piece.len().min(PACKET_LIMIT - self.held());
        match self.store.push(&piece[..count]) {
            Ok(()) => Ok(count),
            Err(_) => Err((Fault::Memory, self.place)),
        }
    }

    /// The first whole packet and its place, if it has come. Takes no memory.
    pub fn look(&self) -> Result<Option<(PacketRef<'_>, u64)>, (Fault, u64)>
        ensures found { IfOk result (Finds packet_of self.now) }
        ensures refused { IfErr result (Stands self.now) }
    {
        match self.look_sized() {
            Err(refusal) => Err(refusal),
            Ok(None) => Ok(None),
            Ok(Some((packet, place, _))) => Ok(Some((packet, place))),
        }
    }

    /// The first whole packet with its place and its size in bytes, if it has come. Takes no
    /// memory. `skip` of that size takes it away.
    #[inline(always)]
    pub fn look_sized(&self) -> Result<Option<(PacketRef<'_>, u64, usize)>, (Fault, u64)>
        ensures found { IfOk result (FindsSized packet_of self.now) }

        // If no packet is whole, at least one more byte fits. A packet is among the held bytes.
        ensures partial { IfOk result (λ found. IfNone found (length self.now.held < PACKET_LIMIT)) }
        ensures within { IfOk result (λ found. IfSome found (λ x.
            (0 < x.2) × (x.2 ≤ length self.now.held))) }
        ensures stands { (fault : Fault) → first_of self.now.held ≡ Err fault
            → result ≡ Err (fault, self.now.place) }
        ensures refused { IfErr result (Stands self.now) }
    {
        match first_read(self.store.as_slice()) {
            Err(fault) => Err((fault, self.place)),
            Ok(None) => Ok(None),
            Ok(Some((packet, size))) => Ok(Some((packet, self.place, size))),
        }
    }

    /// The first whole packet in memory of its own, with its place and its size in bytes, if it has
    /// come. A payload shares the memory that the framer has read it into. Nothing is taken away,
    /// whatever is answered; `skip` of that size does that, and can't fail.
    #[inline(always)]
    pub fn first(&mut self) -> Result<Option<(Packet, u64, usize)>, (Fault, u64)>
        ensures found { IfOk result (FindsSized (λ packet. packet) self.old) }
        ensures same { self.new ≡ self.old }

        // Nothing is answered exactly if no packet is whole: then no memory is wanted.
        ensures waits { first_of self.old.held ≡ Ok None → result ≡ Ok None }

        // If no packet is whole, at least one more byte fits. A packet is among the held bytes.
        ensures partial { IfOk result (λ found. IfNone found (length self.old.held < PACKET_LIMIT)) }
        ensures within { IfOk result (λ found. IfSome found (λ x.
            (0 < x.2) × (x.2 ≤ length self.old.held))) }
        ensures stands { (fault : Fault) → first_of self.old.held ≡ Err fault
            → result ≡ Err (fault, self.old.place) }
        ensures refused { IfErr result (Refuses self.old) }
    {
        match first_owned(&mut self.store, self.alloc) {
            Err(why) => Err((why, self.place)),
            Ok(None) => Ok(None),
            Ok(Some((owned, size))) => Ok(Some((owned, self.place, size))),
        }
    }

    /// Gives the first whole packet and its place, if it has come, and holds it no longer. A payload
    /// shares the memory that the framer has read it into.
    #[inline(always)]
    pub fn next(&mut self) -> Result<Option<(Packet, u64)>, (Fault, u64)>
        ensures found { IfOk result (λ found. Gives self.old found self.new) }

        // Nothing is answered exactly if no packet is whole: then no memory is wanted.
        ensures waits { first_of self.old.held ≡ Ok None → result ≡ Ok None }

        // If no packet is whole, at least one more byte fits. With a packet there is less to hold.
        ensures partial { IfOk result (λ found. IfNone found (length self.new.held < PACKET_LIMIT)) }
        ensures shorter { IfOk result (λ found. OnSome found (length self.new.held < length self.old.held)) }
        ensures stands { (fault : Fault) → first_of self.old.held ≡ Err fault
            → result ≡ Err (fault, self.old.place) }
        ensures refused { IfErr result (Refuses self.old) }
        ensures err { OnErr result (self.new ≡ self.old) }
    {
        // By `first_owned` and not by `first`: a packet that is moved once more costs its 152 bytes.
        let place = self.place;
        match first_owned(&mut self.store, self.alloc) {
            Err(refused) => Err((refused, place)),
            Ok(None) => Ok(None),
            Ok(Some((packet, size))) => {
                self.skip(size);
                Ok(Some((packet, place)))
            }
        }
    }

    /// Takes the first `count` held bytes away, and all of them if fewer are held. Takes no
    /// memory.
    #[inline(always)]
    pub fn skip(&mut self, count: usize)
        ensures { self.new ≡ after (min count (length self.old.held)) self.old }
    {
        let count = count.min(self.held());
        self.store.skip(count);
        self.place = self.place.wrapping_add(count as u64);
    }

    /// Takes the last `count` held bytes away. Takes no memory.
    pub fn give_back(&mut self, count: usize)
        requires { count ≤ length self.old.held }
        ensures { self.new ≡ record self.old { held = without_last count self.old.held } }
    {
        let len = self.held();
        self.store.truncate(len - count);
    }
}

/// The first whole packet and its size, if it has come. A payload is shared with the store.
#[inline(always)]
fn first_owned(store: &mut Store, alloc: Global) -> Result<Option<(Packet, usize)>, Fault>
    ensures found { IfOk result (λ found. first_of store.old ≡ Ok found) }
    ensures same { store.new ≡ store.old }
    ensures waits { first_of store.old ≡ Ok None → result ≡ Ok None }
    ensures partial { IfOk result (λ found. IfNone found (length store.old < PACKET_LIMIT)) }
    ensures within { IfOk result (λ found. IfSome found (λ x. (0 < x.1) × (x.1 ≤ length store.old))) }
    ensures stands { (fault : Fault) → first_of store.old ≡ Err fault → result ≡ Err fault }
    ensures refused { IfErr result (λ fault. fault ≢ Fault.Memory → first_of store.old ≡ Err fault) }
{
    let Some((packet, size)) = first_read(store.as_slice())? else {
        return Ok(None);
    };
    match packet {
        PacketRef::Publish(publish) => {
            let (delivery, retain) = (publish.delivery, publish.retain);
            let len = publish.payload.len();
            let (topic, properties) = fields_owned(alloc, &publish)?;
            match store.share(size - len, size) {
                Ok(payload) => {
                    let publish = Publish {
                        delivery,
                        retain,
                        topic,
                        properties,
                        payload,
                    };
                    Ok(Some((Packet::Publish(publish), size)))
                }
                Err(_) => {
                    drop(topic);
                    drop(properties);
                    Err(Fault::Memory)
                }
            }
        }
        other => {
            let packet = other.to_packet(alloc)?;
            Ok(Some((packet, size)))
        }
    }
}

/// The topic and the properties in memory of their own.
#[inline(always)]
fn fields_owned(alloc: Global, publish: &PublishRef<'_>) -> Result<(Text, PropList), AllocError>
    requires { FitsText publish.now.topic.now }
    ensures topic { IfOk result (λ x. x.0 ≡ publish.now.topic.now) }
    ensures properties { IfOk result (λ x. x.1 ≡ publish.now.properties) }
{
    let topic = Text::new(alloc, publish.topic)?;
    match publish.properties.to_list(alloc) {
        Ok(properties) => Ok((topic, properties)),
        Err(error) => {
            drop(topic);
            Err(error)
        }
    }
}
