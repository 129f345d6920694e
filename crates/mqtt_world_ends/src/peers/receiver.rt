//! A conforming receiver: what it sends, and what it does with what it reads (MQTT 5.0, 4.3.2, 4.3.3, 4.4).

ghost use Rattle.std.specs.Prelude.{◌≡◌, [], ◌∷◌, ◌++◌, true, if◌then◌else◌, option_map, slice_get, IfErr, IfOk, OnOk, Some};
ghost use Rattle.mqtt_base.specs.Codes.{identifier_not_found, success};
ghost use Rattle.mqtt_flow.specs.outbound.Receiver.{kept_after, puback, pubcomp, pubrec};
ghost use Rattle.mqtt_flow.specs.inbound.Identifiers.{ids_without, is_among};
ghost use Rattle.mqtt_flow.specs.inbound.Line.{asked};
ghost use Rattle.mqtt_world_model.specs.model.Ends.{answers_with, entry_of, hears, new_receiver, reads_publish, receiver_connack};
ghost use Rattle.mqtt_world_model.specs.model.Ends.{receiver_reads, wire_back};
ghost use Rattle.mqtt_world_model.specs.model.Tellings.{handed_by};
ghost use Rattle.mqtt_world_model.specs.model.World.{asks_wish};
ghost use Rattle.mqtt_world_ends.specs.peers.Receivers.{hears_control, IsControl, publication_of, publications_of, wish_of};

use crate::peers::back::Back;
use crate::peers::line::{Down, Line, Link};
use bytes::Bytes;
use mqtt_base::{CopyId, Reason, Text};
use mqtt_packet::{Delivery, Packet, Publish};
use mqtt_script::Wish;
use std::alloc::{AllocError, Global};
use std::marker::Model;

/// What a receiver has read: the copy, and what that carries.
#[derive(Debug, Drop)]
pub struct Entry {
    copy: Option<CopyId>,
    twice: bool,
    topic: Text,
    payload: Bytes,
}

impl Model for Entry {
    ghost use Rattle.mqtt_world_model.specs.model.Ends as ends;

    ghost Value = { ends.Entry };

    ghost view = { λ e. record {
      copy = e.copy;
      body = record { twice = e.twice; topic = e.topic; payload = e.payload };
    } };
}

impl Entry {
    /// What a PUBLISH carries.
    fn new(twice: bool, copy: Option<CopyId>, publish: Publish) -> Entry
        ensures { result ≡ entry_of twice copy publish }
    {
        let Publish { topic, payload, .. } = publish;
        Entry {
            copy,
            twice,
            topic,
            payload,
        }
    }

    /// The number of the publication that it is a copy of. Takes no memory.
    fn publication(&self) -> Option<u64>
        ensures { result ≡ publication_of self.now }
    {
        match &self.copy {
            None => None,
            Some(copy) => Some(copy.publication),
        }
    }
}

/// A receiver. After a call that finds no memory it is good for nothing more.
#[derive(Drop)]
pub struct ReceiverEnd {
    client: Text,
    window: u16,
    aliases: u16,
    since: u64,
    asking: bool,
    kept: Vec<u16>,
    ledger: Vec<Entry>,
    once: Vec<Entry>,
    /// Its line.
    pub line: Line<Back>,
}

impl Model for ReceiverEnd {
    ghost use Rattle.mqtt_world_model.specs.model.Ends as ends;

    ghost Value = { ends.Receiver };

    ghost view = { λ r. record {
      client = r.client;
      window = r.window;
      aliases = r.aliases;
      since = r.since;
      asking = r.asking;
      kept = r.kept.items;
      ledger = r.ledger.items;
      once = r.once.items;
      line = r.line;
    } };
}

/// The PUBLISH, or else the packet.
fn message_in(packet: Packet) -> Result<Publish, Packet>
    ensures message { IfOk result (λ p. packet ≡ Packet.Publish p) }
    ensures other { IfErr result (λ other. (packet ≡ other) × IsControl other) }
{
    match packet {
        Packet::Publish(publish) => Ok(publish),
        other => Err(other),
    }
}

/// Forgets an identifier.
fn forget(kept: &mut Vec<u16>, identifier: u16)
    ensures { kept.new.items ≡ ids_without identifier kept.old.items }
{
    kept.retain(|other| *other != identifier);
}

/// Whether an identifier is kept.
fn is_kept(kept: &[u16], identifier: u16) -> bool
    ensures { result ≡ is_among identifier kept.now }
{
    kept.iter().any(|other| *other == identifier)
}

/// The publications of these, in order.
fn publications(alloc: Global, entries: &[Entry]) -> Result<Vec<u64>, AllocError>
    ensures { IfOk result (λ numbers. numbers.items ≡ publications_of entries.now) }
{
    let mut numbers = Vec::new(alloc);
    for entry in entries {
        if let Some(publication) = entry.publication() {
            numbers.push(publication)?;
        }
    }
    Ok(numbers)
}

impl ReceiverEnd {
    /// It has read nothing. `window` is its Receive Maximum (3.1.2.11.3), `aliases` its Topic Alias Maximum (3.1.2.11.5),
    /// `since` the last birth of a session before it was made. Takes no memory.
    pub fn new(alloc: Global, client: Text, window: u16, aliases: u16, since: u64) -> ReceiverEnd
        ensures { result ≡ new_receiver client window aliases since }
    {
        ReceiverEnd {
            client,
            window,
            aliases,
            since,
            asking: false,
            kept: Vec::new(alloc),
            ledger: Vec::new(alloc),
            once: Vec::new(alloc),
            line: Line::new(alloc, aliases),
        }
    }

    /// Its client identifier. Takes no memory.
    pub fn client(&self) -> &Text
        ensures { result.now ≡ self.now.client }
    {
        &self.client
    }

    /// Whether its SUBSCRIBE waits for its SUBACK (3.8.4). Takes no memory.
    pub fn is_asking(&self) -> bool
        ensures { result ≡ self.now.asking }
    {
        self.asking
    }

    /// The first packet under way from it, or on the line that it gave up last, as it is on the wire.
    pub fn front(&self, old: bool) -> Result<Option<Packet>, AllocError>
        ensures { IfOk result (λ packet. packet ≡ option_map (wire_back self.now.client self.now.window self.now.aliases)
            (slice_get (if old then self.now.line.old else self.now.line.up) 0)) }
    {
        let alloc = *self.kept.allocator();
        match self.line.front(old) {
            None => Ok(None),
            Some(back) => back
                .to_packet(alloc, self.client(), self.window, self.aliases)
                .map(Some),
        }
    }

    /// The publications of the copies of QoS 2 that it was handed, in order (4.3.3).
    pub fn handed(&self, alloc: Global) -> Result<Vec<u64>, AllocError>
        ensures { IfOk result (λ numbers. numbers.items ≡ handed_by (Some self.now)) }
    {
        publications(alloc, &self.ledger)
    }

    /// SUBSCRIBE goes out (3.8), and is lost if its line no longer stands.
    pub fn ask(&mut self, wish: Wish, stands: bool) -> Result<(), AllocError>
        ensures { OnOk result (self.new ≡ asks_wish stands (wish_of wish) self.old) }
    {
        self.asking = true;
        self.line.send(Back::subscribe(wish), stands)
    }

    /// It reads the first packet under way to it; its answer is lost if its line no longer stands.
    pub fn read(&mut self, stands: bool) -> Result<(), AllocError>
        ensures { OnOk result (self.new ≡ receiver_reads stands self.old.line.down self.old) }
    {
        match self.line.take_down() {
            None => Ok(()),
            Some(down) => self.hear(down, stands),
        }
    }

    fn hear(&mut self, down: Down, stands: bool) -> Result<(), AllocError>
        ensures { OnOk result (self.new ≡ hears stands down.copy down.packet self.old) }
    {
        let Down { packet, copy } = down;
        match message_in(packet) {
            Ok(publish) => self.hear_publish(publish, copy, stands),
            Err(packet) => {
                let done = self.hear_control(&packet, stands);
                drop(packet);
                drop(copy);
                done
            }
        }
    }

    /// What carries no message; a packet that it doesn't know it passes over.
    fn hear_control(&mut self, packet: &Packet, stands: bool) -> Result<(), AllocError>
        ensures { OnOk result (self.new ≡ hears_control stands packet.now self.old) }
    {
        match packet {
            Packet::Connack(ack) => {
                self.hear_connack(ack.session_present, ack.reason.0);
                Ok(())
            }
            Packet::Pubrel(ack) => self.hear_pubrel(ack.identifier, stands),
            Packet::Suback(_) => {
                self.asking = false;
                Ok(())
            }
            Packet::Disconnect(_) => {
                self.line.leave();
                Ok(())
            }
            Packet::Connect(_)
            | Packet::Publish(_)
            | Packet::Puback(_)
            | Packet::Pubrec(_)
            | Packet::Pubcomp(_)
            | Packet::Subscribe(_)
            | Packet::Unsubscribe(_)
            | Packet::Unsuback(_)
            | Packet::Pingreq
            | Packet::Pingresp
            | Packet::Auth(_) => Ok(()),
        }
    }

    /// A CONNACK that wasn't asked for is passed over (3.2).
    fn hear_connack(&mut self, present: bool, code: u8)
        ensures { self.new ≡ receiver_connack self.old.line.link present code self.old }
    {
        match self.line.link() {
            Link::Away | Link::Live => {}
            Link::Asked => self.begin(present, code),
        }
    }

    fn begin(&mut self, present: bool, code: u8)
        ensures { self.new ≡ receiver_connack asked present code self.old }
    {
        if 0 < code {
            self.line.refuse();
        } else {
            self.line.greet();
            self.asking = false;
            if !present {
                self.kept.clear();
            }
        }
    }

    fn hear_publish(
        &mut self,
        publish: Publish,
        copy: Option<CopyId>,
        stands: bool,
    ) -> Result<(), AllocError>
        ensures { OnOk result (self.new ≡ reads_publish stands copy publish publish.delivery self.old) }
    {
        match publish.delivery {
            Delivery::AtMostOnce => {
                drop(publish);
                drop(copy);
                Ok(())
            }
            Delivery::AtLeastOnce { identifier, .. } => {
                let entry = Entry::new(false, copy, publish);
                self.take_once(identifier, entry, stands)
            }
            Delivery::ExactlyOnce { identifier, .. } => {
                let entry = Entry::new(true, copy, publish);
                self.take_twice(identifier, entry, stands)
            }
        }
    }

    /// A message of QoS 1 is read, and answered by PUBACK (4.3.2).
    fn take_once(&mut self, identifier: u16, entry: Entry, stands: bool) -> Result<(), AllocError>
        ensures { OnOk result (self.new ≡ answers_with stands (puback identifier success)
            (record self.old { once = self.old.once ++ entry ∷ [] })) }
    {
        self.once.push(entry)?;
        self.line
            .send(Back::puback(identifier, Reason::SUCCESS.0), stands)
    }

    /// A message of QoS 2 is answered by PUBREC, and handed over if its identifier isn't kept (4.3.3).
    fn take_twice(&mut self, identifier: u16, entry: Entry, stands: bool) -> Result<(), AllocError>
        ensures { OnOk result (self.new ≡ answers_with stands (pubrec identifier success) (record self.old {
          kept = kept_after identifier self.old.kept;
          ledger = if is_among identifier self.old.kept then self.old.ledger else self.old.ledger ++ entry ∷ [];
        })) }
    {
        self.hand_over(identifier, entry)?;
        self.line
            .send(Back::pubrec(identifier, Reason::SUCCESS.0), stands)
    }

    fn hand_over(&mut self, identifier: u16, entry: Entry) -> Result<(), AllocError>
        ensures { OnOk result (self.new ≡ record self.old {
          kept = kept_after identifier self.old.kept;
          ledger = if is_among identifier self.old.kept then self.old.ledger else self.old.ledger ++ entry ∷ [];
        }) }
    {
        if is_kept(&self.kept, identifier) {
            drop(entry);
            return Ok(());
        }
        self.ledger.push(entry)?;
        self.kept.push(identifier)?;
        Ok(())
    }

    /// PUBREL forgets its identifier, and is answered by PUBCOMP (4.3.3).
    fn hear_pubrel(&mut self, identifier: u16, stands: bool) -> Result<(), AllocError>
        ensures { OnOk result (self.new ≡ answers_with stands
            (pubcomp identifier (if is_among identifier self.old.kept then success else identifier_not_found))
            (record self.old { kept = ids_without identifier self.old.kept })) }
    {
        let code = if is_kept(&self.kept, identifier) {
            Reason::SUCCESS
        } else {
            Reason::PACKET_IDENTIFIER_NOT_FOUND
        };
        forget(&mut self.kept, identifier);
        self.line.send(Back::pubcomp(identifier, code.0), stands)
    }
}
