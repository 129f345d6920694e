//! The handshakes of a publisher's messages (MQTT 5.0, 4.3.2, 4.3.3, 4.4, 4.9).

ghost use Rattle.std.specs.Prelude.{◌≡◌, [], ◌∷◌, ◌++◌, ◌<◌, ◌^◌, length, count_by, map, nat_lt, IfOk, OnOk, OnErr};
ghost use Rattle.std.specs.List.{list_any};
ghost use Rattle.mqtt_flow.specs.inbound.Identifiers.{free_identifier};
ghost use Rattle.mqtt_flow.specs.inbound.Publisher.{first_fate, first_packet, in_flight, pubrel_for, pubrel_if};
ghost use Rattle.mqtt_flow.specs.inbound.Publisher.{resent_from};
ghost use Rattle.mqtt_world_ends.specs.handshakes.Fates.{awaits, fates_of, has_completed, heard_by, is_completed, on_heard, packet_of, packets_of, qos_of};

use crate::handshakes::fates::{Fate, Heard, after, is_success};
use crate::handshakes::shakes::{Assurance, Shake};
use mqtt_base::OPEN_LIMIT;
use mqtt_flow::lowest_free;
use std::alloc::{AllocError, Global};
use std::marker::Model;

/// What became of the messages of QoS 1 and 2 that a publisher has sent, in the order in which they
/// went out.
#[derive(Debug, Drop)]
pub struct Handshakes {
    fates: Vec<Fate>,
}

impl Model for Handshakes {
    ghost use Rattle.std.specs.Prelude.{List};
    ghost use Rattle.mqtt_flow.specs.inbound.Publisher as publisher;
    ghost use Rattle.mqtt_world_ends.specs.handshakes.Fates.{fates_of};

    ghost Value = { List publisher.Fate };

    ghost view = { λ h. fates_of h.fates.items };
}

/// Makes of each message what is heard.
fn hear_all(fates: &mut [Fate], heard: Heard)
    ensures { fates.new ≡ map (heard_by heard) fates.old }
{
    for fate in fates.iter_mut() {
        *fate = after(*fate, heard);
    }
}

/// The packet identifiers in flight, in the order of their messages.
fn identifiers(alloc: Global, fates: &[Fate]) -> Result<Vec<u16>, AllocError>
    ensures { IfOk result (λ ids. ids.items ≡ in_flight (fates_of fates.now)) }
{
    let mut ids = Vec::new(alloc);
    for fate in fates {
        if let Some(identifier) = fate.identifier() {
            ids.push(identifier)?;
        }
    }
    Ok(ids)
}

/// How many of the handshakes ended by their last packet.
#[tactic(auto, using(std::proofs::lemmas::List::Sums::count_by_more_yes, std::proofs::lemmas::List::Sums::count_by_more_no))]
fn completed(fates: &[Fate]) -> usize
    ensures { result ≡ count_by has_completed fates.now }
{
    let mut count = 0;
    for fate in fates {
        if fate.is_completed() {
            count += 1;
        }
    }
    count
}

/// What goes out again, in the order of the messages' numbers.
fn resent(alloc: Global, fates: &[Fate]) -> Result<Vec<Shake>, AllocError>
    ensures { IfOk result (λ packets. packets_of packets.items ≡ resent_from 0 (fates_of fates.now)) }
{
    let mut packets = Vec::new(alloc);
    for message in 0..fates.len() {
        if let Some(packet) = fates[message].again(message) {
            packets.push(packet)?;
        }
    }
    Ok(packets)
}

/// Whether a PUBREC with this identifier is awaited.
fn is_awaited(fates: &[Fate], identifier: u16) -> bool
    ensures { result ≡ list_any (awaits identifier) fates.now }
{
    fates.iter().any(|fate| fate.is_sent(identifier))
}

impl Handshakes {
    /// No message was sent. Takes no memory.
    pub fn new(alloc: Global) -> Handshakes
        ensures { result ≡ [] }
    {
        Handshakes {
            fates: Vec::new(alloc),
        }
    }

    /// How many messages were sent. Takes no memory.
    pub fn len(&self) -> usize
        ensures value { result ≡ length self.now }
        ensures bound { result < 2 ^ 63 }
    {
        self.fates.len()
    }

    /// How many of the handshakes ended by their last packet (4.3.2, 4.3.3). Takes no memory.
    #[tactic(auto, using(crate::proofs::handshakes_lemmas::Hearing::all_completed))]
    pub fn completed(&self) -> usize
        ensures { result ≡ count_by is_completed self.now }
    {
        completed(&self.fates)
    }

    /// What is heard does with each message what it says (4.1, 4.3.2, 4.3.3). Takes no memory.
    pub fn hear(&mut self, heard: Heard)
        ensures { self.new ≡ map (on_heard heard) self.old }
    {
        hear_all(&mut self.fates, heard);
    }

    /// The packet identifiers in flight, in the order of their messages (4.9).
    pub fn in_flight(&self, alloc: Global) -> Result<Vec<u16>, AllocError>
        ensures { IfOk result (λ ids. ids.items ≡ in_flight self.now) }
    {
        identifiers(alloc, &self.fates)
    }

    /// Whether a message may go out: fewer than the Receive Maximum are in flight (4.9).
    pub fn may_send(&self, alloc: Global) -> Result<bool, AllocError>
        ensures { IfOk result (λ may. may ≡ nat_lt (length (in_flight self.now)) OPEN_LIMIT) }
    {
        let used = identifiers(alloc, &self.fates)?;
        Ok(used.len() < OPEN_LIMIT)
    }

    /// A message goes out: it has the lowest identifier that isn't in flight, and the next number (4.9). Without memory
    /// nothing changes.
    pub fn send(&mut self, alloc: Global, assurance: Assurance) -> Result<Shake, AllocError>
        requires few { length (in_flight self.old) < OPEN_LIMIT }
        ensures packet { IfOk result (λ packet. packet_of packet
            ≡ first_packet (qos_of assurance) (free_identifier (in_flight self.old)) (length self.old)) }
        ensures ok { OnOk result (self.new
            ≡ self.old ++ first_fate (qos_of assurance) (free_identifier (in_flight self.old)) ∷ []) }
        ensures err { OnErr result (self.new ≡ self.old) }
    {
        let used = identifiers(alloc, &self.fates)?;
        let identifier = lowest_free(alloc, &used).map_err(|_| AllocError)?;
        let message = self.fates.len();
        self.fates.push(assurance.first_fate(identifier))?;
        Ok(assurance.first_packet(identifier, message))
    }

    /// What goes out again when the session is resumed, in the order of the messages' numbers (4.4).
    pub fn resent(&self, alloc: Global) -> Result<Vec<Shake>, AllocError>
        ensures { IfOk result (λ packets. packets_of packets.items ≡ resent_from 0 self.now) }
    {
        resent(alloc, &self.fates)
    }

    /// Whether a PUBREC with this identifier and code is answered by PUBREL, before it is heard (4.3.3). Takes no memory.
    #[tactic(auto, using(crate::proofs::handshakes_lemmas::Hearing::all_await))]
    pub fn is_released(&self, identifier: u16, code: u8) -> bool
        ensures { pubrel_if result identifier ≡ pubrel_for identifier code self.now }
    {
        is_awaited(&self.fates, identifier) && is_success(code)
    }
}
