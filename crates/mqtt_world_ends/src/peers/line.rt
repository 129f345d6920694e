//! A line between an end and the broker as the end sees it, with the line that it gave up last (MQTT 5.0, 4.2, 4.4).

ghost use Rattle.std.specs.Prelude.{◌≡◌, [], ◌∷◌, ◌++◌, drop, false, if◌then◌else◌, length, option_copied, slice_get};
ghost use Rattle.std.specs.Prelude.{IfErr, IfOk, MatchOption, OnErr, OnOk};
ghost use Rattle.mqtt_flow.specs.inbound.Identifiers.{is_among};
ghost use Rattle.mqtt_flow.specs.inbound.Line.{live};
ghost use Rattle.mqtt_topic.specs.names.Aliases.{RefusesAlias, Resolves, after_resolve};
ghost use Rattle.mqtt_world_model.specs.model.Ends.{goes};
ghost use Rattle.mqtt_world_model.specs.model.Lines.{gives_up, is_one_of, joined, left, no_line_taking, restarted, unless_closed};
ghost use Rattle.mqtt_world_model.specs.model.World.{taken_old, taken_up};
ghost use Rattle.mqtt_world_ends.specs.peers.Lines.{link_of};

use crate::peers::known::Known;
use mqtt_base::CopyId;
use mqtt_packet::Packet;
use mqtt_topic::{TopicFault, TopicName};
use std::alloc::{AllocError, Global};
use std::collections::VecDeque;
use std::marker::Model;

/// How far an end has come with its line.
#[derive(Clone, Copy, Debug, PartialEq, Eq)]
pub enum Link {
    /// It has none.
    Away,
    /// CONNECT was sent, and its CONNACK not read (3.1, 3.2).
    Asked,
    /// Its CONNACK was read.
    Live,
}

/// A packet under way to an end; a PUBLISH of QoS 1 or 2 with its copy, which isn't on the wire.
#[derive(Debug, Drop)]
pub struct Down {
    /// The packet.
    pub packet: Packet,
    /// The copy that it is of.
    pub copy: Option<CopyId>,
}

impl Model for Down {
    ghost use Rattle.mqtt_world_model.specs.model.Lines as lines;

    ghost Value = { lines.Down };

    ghost view = { λ d. record { packet = d.packet; copy = d.copy } };
}

/// A line of an end that sends `U`, and the line that it gave up last.
#[derive(Drop)]
pub struct Line<U: Drop> {
    link: Link,
    clean: bool,
    number: Option<u64>,
    up: VecDeque<U>,
    down: VecDeque<Down>,
    old_number: Option<u64>,
    old: VecDeque<U>,
    known: Known,
}

impl<U: Drop> Model for Line<U> {
    ghost use Rattle.mqtt_world_model.specs.model.Lines as lines;

    ghost Value = { lines.Line U };

    ghost use Rattle.mqtt_world_ends.specs.peers.Lines.{link_of};

    ghost view = { λ l. record {
      link = link_of l.link;
      clean = l.clean;
      number = l.number;
      up = l.up.items;
      down = l.down.items;
      old_number = l.old_number;
      old = l.old.items;
      known = l.known;
    } };
}

impl<U: Drop> Line<U> {
    /// There is no line, of an end that takes so many topic aliases (3.1.2.11.5). Takes no memory.
    pub(crate) fn new(alloc: Global, aliases: u16) -> Line<U>
        ensures { result ≡ no_line_taking aliases }
    {
        Line {
            link: Link::Away,
            clean: false,
            number: None,
            up: VecDeque::new(alloc),
            down: VecDeque::new(alloc),
            old_number: None,
            old: VecDeque::new(alloc),
            known: Known::new(alloc, aliases),
        }
    }

    /// The broker's number of it. Takes no memory.
    pub fn number(&self) -> Option<u64>
        ensures { result ≡ self.now.number }
    {
        self.number
    }

    /// The broker's number of the line that was given up last. Takes no memory.
    pub fn old_number(&self) -> Option<u64>
        ensures { result ≡ self.now.old_number }
    {
        self.old_number
    }

    /// The first packet under way to the broker, or on the line that was given up last. Takes no memory.
    pub(crate) fn front(&self, old: bool) -> Option<&U>
        ensures { option_copied result ≡ slice_get (if old then self.now.old else self.now.up) 0 }
    {
        if old {
            self.old.front()
        } else {
            self.up.front()
        }
    }

    /// How many packets are under way to the broker. Takes no memory.
    pub fn up_len(&self) -> usize
        ensures { result ≡ length self.now.up }
    {
        self.up.len()
    }

    /// How many packets are under way to the end. Takes no memory.
    pub fn down_len(&self) -> usize
        ensures { result ≡ length self.now.down }
    {
        self.down.len()
    }

    /// How far the end has come with it. Takes no memory.
    pub fn link(&self) -> Link
        ensures { link_of result ≡ self.now.link }
    {
        self.link
    }

    /// The end leaves its line, and what is under way there is lost. Takes no memory.
    pub fn leave(&mut self)
        ensures { self.exit.now ≡ left self.entry.now }
    {
        self.link = Link::Away;
        self.number = None;
        self.up.clear();
        self.down.clear();
    }

    /// The broker was restarted. Takes no memory.
    pub fn restart(&mut self)
        ensures { self.exit.now ≡ restarted self.entry.now }
    {
        self.leave();
        self.old_number = None;
        self.old.clear();
        self.known.forget();
    }

    /// The end gives its line up, and the broker may still read what is under way there. Takes no memory.
    pub fn give_up(&mut self)
        ensures { self.exit.now ≡ gives_up self.entry.now.link self.entry.now }
    {
        match self.link {
            Link::Away => {}
            Link::Asked | Link::Live => {
                self.old_number = self.number;
                std::mem::swap(&mut self.old, &mut self.up);
                self.leave();
            }
        }
    }

    /// CONNECT goes out on a new line, on which no alias stands for anything yet (3.1). Without memory nothing changes.
    pub fn join(&mut self, connect: U, number: u64, clean: bool) -> Result<(), AllocError>
        ensures ok { OnOk result (self.exit.now ≡ joined connect number clean self.entry.now) }
        ensures err { OnErr result (self.exit.now ≡ self.entry.now) }
    {
        self.up.reserve(1)?;
        self.up.clear();
        self.up.push_back_reserved(connect);
        self.down.clear();
        self.link = Link::Asked;
        self.clean = clean;
        self.number = Some(number);
        self.known.forget();
        Ok(())
    }

    /// CONNACK was read (3.2). Takes no memory.
    pub(crate) fn greet(&mut self)
        ensures { self.exit.now ≡ record self.entry.now { link = live; clean = false } }
    {
        self.link = Link::Live;
        self.clean = false;
    }

    /// A CONNACK that refuses was read (3.2). Takes no memory.
    pub(crate) fn refuse(&mut self)
        ensures { self.exit.now ≡ left (record self.entry.now { clean = false }) }
    {
        self.clean = false;
        self.leave();
    }

    /// A packet goes out, and is lost if the line no longer stands. Without memory nothing changes.
    pub(crate) fn send(&mut self, packet: U, stands: bool) -> Result<(), AllocError>
        ensures ok { OnOk result (self.exit.now ≡ goes stands (packet ∷ []) self.entry.now) }
        ensures err { OnErr result (self.exit.now ≡ self.entry.now) }
    {
        if stands {
            self.up.push_back(packet)?;
        }
        Ok(())
    }

    /// The first packet under way to the broker is taken off. Takes no memory.
    pub fn take_up(&mut self) -> Option<U>
        ensures line { self.exit.now ≡ taken_up self.entry.now }
        ensures packet { MatchOption result (self.entry.now.up ≡ []) (λ packet. self.entry.now.up ≡ packet ∷ self.exit.now.up) }
    {
        self.up.pop_front()
    }

    /// And on the line that was given up. Takes no memory.
    pub fn take_old(&mut self) -> Option<U>
        ensures line { self.exit.now ≡ taken_old self.entry.now }
        ensures packet { MatchOption result (self.entry.now.old ≡ []) (λ packet. self.entry.now.old ≡ packet ∷ self.exit.now.old) }
    {
        self.old.pop_front()
    }

    /// The first packet under way to the end is taken off. Takes no memory.
    pub(crate) fn take_down(&mut self) -> Option<Down>
        ensures line { self.exit.now ≡ record self.entry.now { down = drop 1 self.entry.now.down } }
        ensures packet { MatchOption result (self.entry.now.down ≡ []) (λ d. self.entry.now.down ≡ d ∷ self.exit.now.down) }
    {
        self.down.pop_front()
    }

    /// A packet of the broker is under way to the end. Without memory nothing changes.
    pub fn push_down(&mut self, down: Down) -> Result<(), AllocError>
        ensures ok { OnOk result (self.exit.now ≡ record self.entry.now { down = self.entry.now.down ++ down ∷ [] }) }
        ensures err { OnErr result (self.exit.now ≡ self.entry.now) }
    {
        self.down.push_back(down)?;
        Ok(())
    }

    /// The topic that a PUBLISH with this topic and alias means to the end; a topic beside an alias is what that stands for
    /// from then on (3.3.2.3.4). If it means none, nothing changes.
    pub fn resolve(&mut self, topic: &str, alias: Option<u16>) -> Result<TopicName, TopicFault>
        ensures found { IfOk result (Resolves self.entry.now.known topic.now alias) }
        ensures ok { OnOk result (self.exit.now
            ≡ record self.entry.now { known = after_resolve self.entry.now.known topic.now alias }) }
        ensures refused { IfErr result (RefusesAlias self.entry.now.known topic.now alias) }
        ensures err { OnErr result (self.exit.now ≡ self.entry.now) }
    {
        self.known.resolve(topic, alias)
    }

    /// The broker closed these lines: what is under way to it there isn't read. Takes no memory.
    pub fn close(&mut self, closed: &[u64])
        ensures { self.exit.now ≡ record self.entry.now {
          up = unless_closed (is_one_of self.entry.now.number closed.now) self.entry.now.up;
          old = unless_closed (is_one_of self.entry.now.old_number closed.now) self.entry.now.old;
        } }
    {
        if is_one_of(self.number, closed) {
            self.up.clear();
        }
        if is_one_of(self.old_number, closed) {
            self.old.clear();
        }
    }
}

/// Whether a line is among these.
fn is_among(number: u64, lines: &[u64]) -> bool
    ensures { result ≡ is_among number lines.now }
{
    lines.iter().any(|line| *line == number)
}

/// Whether an end's line is among these, if it has one.
fn is_one_of(number: Option<u64>, lines: &[u64]) -> bool
    ensures { result ≡ is_one_of number lines.now }
{
    match number {
        None => false,
        Some(number) => is_among(number, lines),
    }
}
