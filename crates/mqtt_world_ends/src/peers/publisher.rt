//! A conforming publisher: what it sends, and what it does with what it reads (MQTT 5.0, 4.3.2, 4.3.3, 4.4, 4.9).

ghost use Rattle.std.specs.Prelude.{◌≡◌, ◌<◌, length, map, if◌then◌else◌, option_map, slice_get, IfOk, OnOk, Some};
ghost use Rattle.mqtt_base.specs.declared.limits.TheConstants.{OPEN_LIMIT};
ghost use Rattle.mqtt_world_ends.specs.handshakes.Fates.{on_heard, packets_of, qos_of};
ghost use Rattle.mqtt_flow.specs.inbound.Line.{asked};
ghost use Rattle.mqtt_flow.specs.inbound.Publisher.{in_flight, pubrel_for, resent_from};
ghost use Rattle.mqtt_world_model.specs.model.Ends.{goes, new_publisher, numbered, published, publisher_reads, reads};
ghost use Rattle.mqtt_world_model.specs.model.Ends.{reads_connack, send_all, send_unsent, shake, wire};
ghost use Rattle.mqtt_world_model.specs.model.Tellings.{done_by};
ghost use Rattle.mqtt_world_ends.specs.peers.Publishers.{content_of, draft_of, front_out, may_go, told_of};

use crate::handshakes::{Assurance, Handshakes, Heard, Shake};
use crate::peers::heard::{ToPublisher, heard};
use crate::peers::line::{Line, Link};
use crate::peers::sent::Sent;
use mqtt_base::{Qos, Text};
use mqtt_packet::Packet;
use mqtt_script::{Content, Draft};
use std::alloc::{AllocError, Global};
use std::collections::VecDeque;
use std::marker::Model;

/// A publisher; its messages of QoS 1 and 2 are numbered as they go out. After a call that finds no memory it is good
/// for nothing more.
#[derive(Drop)]
pub struct PublisherEnd {
    alloc: Global,
    client: Text,
    handshakes: Handshakes,
    contents: Vec<Content>,
    unsent: VecDeque<Draft>,
    /// Its line.
    pub line: Line<Sent>,
}

impl Model for PublisherEnd {
    ghost use Rattle.std.specs.Prelude.{map};
    ghost use Rattle.mqtt_world_model.specs.model.Ends as ends;

    ghost Value = { ends.Publisher };

    ghost use Rattle.mqtt_world_ends.specs.peers.Publishers.{content_of, draft_of};

    ghost view = { λ p. record {
      client = p.client;
      fates = p.handshakes;
      contents = map content_of p.contents.items;
      unsent = map draft_of p.unsent.items;
      line = p.line;
    } };
}

impl PublisherEnd {
    /// It has sent nothing. Takes no memory.
    pub fn new(alloc: Global, client: Text) -> PublisherEnd
        ensures { result ≡ new_publisher client }
    {
        PublisherEnd {
            alloc,
            client,
            handshakes: Handshakes::new(alloc),
            contents: Vec::new(alloc),
            unsent: VecDeque::new(alloc),
            line: Line::new(alloc, 0),
        }
    }

    /// Its client identifier. Takes no memory.
    pub fn client(&self) -> &Text
        ensures { result.now ≡ self.now.client }
    {
        &self.client
    }

    /// The first packet under way from it, or on the line that it gave up last, as it is on the wire.
    pub fn front(&self, old: bool) -> Result<Option<Packet>, AllocError>
        ensures { IfOk result (λ packet. packet ≡ option_map (wire self.now.client self.now.contents)
            (slice_get (if old then self.now.line.old else self.now.line.up) 0)) }
    {
        match self.line.front(old) {
            None => Ok(None),
            Some(sent) => sent
                .to_packet(self.alloc, &self.client, &self.contents)
                .map(Some),
        }
    }

    /// How many of its messages are done: the handshake is completed (4.3.2, 4.3.3). Takes no memory.
    #[tactic(auto, using(crate::proofs::peers_lemmas::Publishers::done_is))]
    pub fn done(&self) -> u64
        ensures { result ≡ done_by (Some self.now) }
    {
        self.handshakes.completed() as u64
    }

    /// It has a new message. What may go out goes out, and is lost if its line no longer stands.
    pub fn publish(&mut self, draft: Draft, stands: bool) -> Result<(), AllocError>
        ensures { OnOk result (self.new ≡ published stands (draft_of draft) self.old) }
    {
        self.unsent.push_back(draft)?;
        self.send_unsent(stands)
    }

    /// It reads the first packet under way to it; what goes out for it is lost if its line no longer stands.
    pub fn read(&mut self, stands: bool) -> Result<(), AllocError>
        ensures { OnOk result (self.new ≡ publisher_reads stands self.old.line.down self.old) }
    {
        let Some(down) = self.line.take_down() else {
            return Ok(());
        };
        let packet = heard(&down.packet);
        drop(down);
        match packet {
            None => Ok(()),
            Some(packet) => self.hear(packet, stands),
        }
    }

    fn hear(&mut self, packet: ToPublisher, stands: bool) -> Result<(), AllocError>
        ensures { OnOk result (self.new ≡ reads stands (told_of packet) self.old) }
    {
        match packet {
            ToPublisher::Connack { present } => self.hear_connack(present, stands),
            ToPublisher::ConnackRefused { .. } => {
                self.line.refuse();
                Ok(())
            }
            ToPublisher::Puback { identifier, code } => {
                self.go_on(Heard::Puback { identifier, code }, stands)
            }
            ToPublisher::Pubrec { identifier, code } => self.hear_pubrec(identifier, code, stands),
            ToPublisher::Pubcomp { identifier, .. } => {
                self.go_on(Heard::Pubcomp { identifier }, stands)
            }
            ToPublisher::Disconnect { .. } => {
                self.line.leave();
                Ok(())
            }
        }
    }

    /// The handshakes hear it, and what may go out now goes out.
    fn go_on(&mut self, heard: Heard, stands: bool) -> Result<(), AllocError>
        ensures { OnOk result (self.new ≡ send_unsent stands self.old.line.link (record self.old {
          fates = map (on_heard heard) self.old.fates;
        })) }
    {
        self.handshakes.hear(heard);
        self.send_unsent(stands)
    }

    fn hear_pubrec(&mut self, identifier: u16, code: u8, stands: bool) -> Result<(), AllocError>
        ensures { OnOk result (self.new ≡ reads stands (told_of (ToPublisher.Pubrec identifier code)) self.old) }
    {
        self.release(identifier, code, stands)?;
        self.go_on(Heard::Pubrec { identifier, code }, stands)
    }

    /// PUBREL goes out for a PUBREC that is awaited and tells success (4.3.3).
    fn release(&mut self, identifier: u16, code: u8, stands: bool) -> Result<(), AllocError>
        ensures { OnOk result (self.new ≡ record self.old {
          line = goes stands (map shake (pubrel_for identifier code self.old.fates)) self.old.line;
        }) }
    {
        if self.handshakes.is_released(identifier, code) {
            self.line
                .send(Sent::shake(Shake::Pubrel { identifier }), stands)?;
        }
        Ok(())
    }

    fn hear_connack(&mut self, present: bool, stands: bool) -> Result<(), AllocError>
        ensures { OnOk result (self.new ≡ reads_connack stands self.old.line.link present self.old) }
    {
        match self.line.link() {
            Link::Away | Link::Live => Ok(()),
            Link::Asked => self.begin(present, stands),
        }
    }

    /// The session is resumed, or a new one (4.4).
    fn begin(&mut self, present: bool, stands: bool) -> Result<(), AllocError>
        ensures { OnOk result (self.new ≡ reads_connack stands asked present self.old) }
    {
        self.line.greet();
        if present {
            self.resend(stands)?;
            self.send_unsent(stands)
        } else {
            self.go_on(Heard::NewSession, stands)
        }
    }

    /// What is in flight goes out again (4.4).
    fn resend(&mut self, stands: bool) -> Result<(), AllocError>
        ensures { OnOk result (self.new ≡ record self.old {
          line = goes stands (map shake (resent_from 0 self.old.fates)) self.old.line;
        }) }
    {
        let packets = self.handshakes.resent(self.alloc)?;
        send_shakes(&mut self.line, &packets, stands)
    }

    /// Unsent messages go out in order, if CONNACK was read.
    fn send_unsent(&mut self, stands: bool) -> Result<(), AllocError>
        ensures { OnOk result (self.new ≡ send_unsent stands self.old.line.link self.old) }
    {
        match self.line.link() {
            Link::Away | Link::Asked => Ok(()),
            Link::Live => self.send_all(stands),
        }
    }

    /// As many as may be in flight (4.9).
    fn send_all(&mut self, stands: bool) -> Result<(), AllocError>
        ensures { OnOk result (self.new ≡ send_all stands self.old.unsent self.old) }
    {
        while self.may_go()? {
            self.send_front(stands)?;
        }
        Ok(())
    }

    /// Whether there is a message that may go out: fewer than the Receive Maximum are in flight (4.9).
    fn may_go(&self) -> Result<bool, AllocError>
        ensures { IfOk result (λ may. may ≡ may_go self.now.unsent self.now) }
    {
        if self.unsent.is_empty() {
            return Ok(false);
        }
        self.handshakes.may_send(self.alloc)
    }

    /// The first message goes out.
    fn send_front(&mut self, stands: bool) -> Result<(), AllocError>
        requires few { length (in_flight self.old.fates) < OPEN_LIMIT }
        ensures { OnOk result (self.new ≡ front_out stands self.old.unsent self.old) }
    {
        let Some(draft) = self.unsent.pop_front() else {
            return Ok(());
        };
        let Draft { qos, content } = draft;
        match qos {
            Qos::AtMostOnce => self.line.send(Sent::plain(content), stands),
            Qos::AtLeastOnce => self.send_numbered(Assurance::AtLeastOnce, content, stands),
            Qos::ExactlyOnce => self.send_numbered(Assurance::ExactlyOnce, content, stands),
        }
    }

    fn send_numbered(
        &mut self,
        assurance: Assurance,
        content: Content,
        stands: bool,
    ) -> Result<(), AllocError>
        requires few { length (in_flight self.old.fates) < OPEN_LIMIT }
        ensures { OnOk result (self.new
            ≡ numbered stands (qos_of assurance) (content_of content) self.old.unsent self.old) }
    {
        self.contents.push(content)?;
        let packet = self.handshakes.send(self.alloc, assurance)?;
        self.line.send(Sent::shake(packet), stands)
    }
}

/// Packets of handshakes go out in order.
fn send_shakes(line: &mut Line<Sent>, packets: &[Shake], stands: bool) -> Result<(), AllocError>
    ensures { OnOk result (line.exit.now ≡ goes stands (map shake (packets_of packets.now)) line.entry.now) }
{
    for packet in packets {
        line.send(Sent::shake(*packet), stands)?;
    }
    Ok(())
}
