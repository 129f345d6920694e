//! A line: one connection, with what holds on it alone (MQTT 5.0, 3.1.2, 3.3.2.3.4).
ghost use Rattle.std.specs.Prelude.{◌≡◌, Some, IfOk, OnOk, OnErr};
ghost use Rattle.mqtt_topic.specs.names.Aliases.{IsInRange, after_resolve, topic_of};
ghost use Rattle.mqtt_topic.specs.names.Names.{IsTopicName};
ghost use Rattle.mqtt_rules.specs.step.State.{is_of};
ghost use Rattle.mqtt_rules.specs.step.Deeds.{fresh_line};
ghost use Rattle.mqtt_broker_step.specs.Lines.{alias_restored, with_alias};

use crate::places::Places;
use mqtt_base::ALIAS_LIMIT;
use mqtt_records::{Editable, Row};
use mqtt_topic::{Aliases, TopicName};
use std::alloc::{AllocError, Global};
use std::marker::Model;

/// A line.
#[derive(Drop)]
pub struct LineState {
    number: u64,
    heard: u64,
    session: Option<u64>,
    keep_alive: u16,
    window: u16,
    largest: u32,
    aliases: Aliases,
    went: Places,
}

impl Model for LineState {
    ghost use Rattle.mqtt_rules.specs.step.State.{Line};

    ghost Value = { Line };

    ghost view = { λ a. record {
      number = a.number;
      heard = a.heard;
      session = a.session;
      keep_alive = a.keep_alive;
      window = a.window;
      largest = a.largest;
      aliases = a.aliases.table;
      went = a.went;
    } };
}

/// Makes an alias stand for a topic, and gives the one that it stood for.
fn set_in(
    aliases: &mut Aliases,
    alias: u16,
    topic: &TopicName,
) -> Result<Option<TopicName>, AllocError>
    requires { IsInRange aliases.old.table.max alias }
    ensures before { IfOk result (λ before. before ≡ topic_of alias aliases.old.table.topics) }
    ensures ok { OnOk result (aliases.new.table
        ≡ after_resolve aliases.old.table topic.now (Some alias)) }
    ensures named { OnOk result (IsTopicName topic.now) }
    ensures err { OnErr result (aliases.new.table ≡ aliases.old.table) }
{
    if aliases.make_room().is_err() {
        return Err(AllocError);
    }
    match topic.try_clone() {
        Ok(topic) => Ok(aliases.set(alias, topic)),
        Err(_) => Err(AllocError),
    }
}

/// Makes an alias that stands for a topic stand for what it stood for before.
fn restore_in(aliases: &mut Aliases, alias: u16, before: Option<TopicName>)
    ensures { aliases.new.table ≡ alias_restored alias before aliases.old.table }
{
    if aliases.look(alias).is_some() {
        aliases.restore(alias, before);
    }
}

impl LineState {
    /// A line that was linked at a moment. Takes no memory.
    pub fn new(alloc: Global, number: u64, moment: u64) -> LineState
        ensures { result ≡ fresh_line number moment }
    {
        LineState {
            number,
            heard: moment,
            session: None,
            keep_alive: 0,
            window: 0,
            largest: 0,
            aliases: Aliases::new(alloc, ALIAS_LIMIT),
            went: Places::new(alloc),
        }
    }

    /// Its number, from 1 in the order of linking. Takes no memory.
    pub fn number(&self) -> u64
        ensures { result ≡ self.now.number }
    {
        self.number
    }

    /// When it was linked, or its last whole packet came: a moment in milliseconds. Takes no memory.
    pub fn heard(&self) -> u64
        ensures { result ≡ self.now.heard }
    {
        self.heard
    }

    /// The birth of the session that is connected on it. Takes no memory.
    pub fn session(&self) -> Option<u64>
        ensures { result ≡ self.now.session }
    {
        self.session
    }

    /// Whether the session with a birth is connected on it. Takes no memory.
    pub fn is_of(&self, birth: u64) -> bool
        ensures { result ≡ is_of self.now.session birth }
    {
        match self.session {
            Some(connected) => connected == birth,
            None => false,
        }
    }

    /// Keep Alive, in seconds; 0 turns it off (3.1.2.10). Takes no memory.
    pub fn keep_alive(&self) -> u16
        ensures { result ≡ self.now.keep_alive }
    {
        self.keep_alive
    }

    /// The client's Receive Maximum (3.1.2.11.3). Takes no memory.
    pub fn window(&self) -> u16
        ensures { result ≡ self.now.window }
    {
        self.window
    }

    /// The client's Maximum Packet Size, in bytes (3.1.2.11.4). Takes no memory.
    pub fn largest(&self) -> u32
        ensures { result ≡ self.now.largest }
    {
        self.largest
    }

    /// What Topic Aliases stand for (3.3.2.3.4). Takes no memory.
    pub fn aliases(&self) -> &Aliases
        ensures { result.now.table ≡ self.now.aliases }
    {
        &self.aliases
    }

    /// Makes an alias stand for a topic, and gives the one that it stood for. Want of memory changes nothing.
    pub(crate) fn set_alias(
        &mut self,
        alias: u16,
        topic: &TopicName,
    ) -> Result<Option<TopicName>, AllocError>
        requires { IsInRange self.old.aliases.max alias }
        ensures before { IfOk result (λ before. before ≡ topic_of alias self.old.aliases.topics) }
        ensures ok { OnOk result (self.new ≡ with_alias alias topic.now self.old) }
        ensures named { OnOk result (IsTopicName topic.now) }
        ensures err { OnErr result (self.new ≡ self.old) }
    {
        set_in(&mut self.aliases, alias, topic)
    }

    /// The places of the copies whose PUBLISH went out on it. Takes no memory.
    pub fn went(&self) -> &Places
        ensures { result.now ≡ self.now.went }
    {
        &self.went
    }
}

impl Row for LineState {
    ghost key_of = { λ line. line.number };

    fn key(&self) -> u64 {
        self.number
    }
}

/// A change of a part of a line.
#[derive(Drop)]
pub enum LineChange {
    /// It was heard at a moment.
    Hear {
        heard: u64,
    },
    /// A session is connected on it, or none is.
    Greet {
        session: Option<u64>,
        keep_alive: u16,
        window: u16,
        largest: u32,
    },
    /// The places of the copies whose PUBLISH went out on it are these.
    SetWent {
        went: Places,
    },
    /// One place more went out, if there is room for it.
    PushWent {
        place: u64,
    },
    /// The last place didn't go out.
    PopWent,
    /// The place at an index leaves those that went out.
    RemoveWent {
        index: usize,
    },
    /// A place is at an index again, if there is room for it.
    PutWentBack {
        index: usize,
        place: u64,
    },
    /// An alias that stands for a topic stands for what it stood for before.
    RestoreAlias {
        alias: u16,
        before: Option<TopicName>,
    },
}

impl Editable for LineState {
    type Part = LineChange;

    ghost use Rattle.mqtt_broker_step.specs.Lines.{line_changed, number-line_changed};

    ghost edited = { line_changed };

    fn edit(&mut self, part: LineChange) {
        match part {
            LineChange::Hear { heard } => self.heard = heard,
            LineChange::Greet {
                session,
                keep_alive,
                window,
                largest,
            } => {
                self.session = session;
                self.keep_alive = keep_alive;
                self.window = window;
                self.largest = largest;
            }
            LineChange::SetWent { went } => self.went = went,
            LineChange::PushWent { place } => self.went.push(place),
            LineChange::PopWent => self.went.pop(),
            LineChange::RemoveWent { index } => self.went.remove(index),
            LineChange::PutWentBack { index, place } => self.went.put_back(index, place),
            LineChange::RestoreAlias { alias, before } => {
                restore_in(&mut self.aliases, alias, before);
            }
        }
    }

    ghost key_kept = { number-line_changed };
}
