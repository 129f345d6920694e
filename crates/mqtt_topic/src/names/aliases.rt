//! Topic aliases of a connection (MQTT 5.0, 3.3.2.3.4).
ghost use Rattle.std.specs.Prelude.{◌≡◌, ◌<◌, [], Some, IfErr, IfOk, IsSome, OnErr, OnOk, option_copied};
ghost use Rattle.mqtt_topic.specs.names.Names.{IsTopicName, RefusesName};
ghost use Rattle.mqtt_topic.specs.names.Aliases.{Resolves, RefusesAlias, RefusesTopic, IsInRange, topic_of, with_topic, with_topics, restored, after_resolve, no_aliases};

use crate::names::fault::TopicFault;
use crate::names::name::{TopicName, name_of};
use indexmap::IndexMap;
use mqtt_base::Text;
use std::alloc::Global;
use std::marker::Model;

/// The topics that aliases stand for, from one sender.
#[derive(Drop)]
pub struct Aliases {
    max: u16,
    alloc: Global,
    topics: IndexMap<u16, TopicName>,
}

impl Model for Aliases {
    ghost use Rattle.indexmap.specs.IndexMap.{spare};
    ghost use Rattle.mqtt_topic.specs.names.Aliases.{KeptAliases};

    ghost Value = { KeptAliases };

    ghost view = { λ a. record { table = record { max = a.max; topics = a.topics.entries }; room = spare a.topics } };
}

impl Aliases {
    /// A table in which no alias stands for a topic; `max` is the greatest alias.
    pub fn new(alloc: Global, max: u16) -> Aliases
        ensures { result.table ≡ no_aliases max }
    {
        Aliases {
            max,
            alloc,
            topics: IndexMap::new(alloc),
        }
    }

    /// The topic that an alias stands for. Takes no memory.
    pub fn look(&self, alias: u16) -> Option<&TopicName>
        ensures { option_copied result ≡ topic_of alias self.now.table.topics }
    {
        self.topics.get(&alias)
    }

    /// A copy of the topic that an alias stands for.
    fn known(&self, alias: u16) -> Result<TopicName, TopicFault>
        ensures known { IfOk result (λ name. topic_of alias self.now.table.topics ≡ Some name) }
        ensures refused { IfErr result (RefusesTopic self.now.table [] alias) }
    {
        match self.look(alias) {
            Some(known) => known.try_clone(),
            None => Err(TopicFault::AliasUnknown),
        }
    }

    /// Whether an alias may be set.
    fn check(&self, alias: u16) -> Result<(), TopicFault>
        ensures ok { OnOk result (IsInRange self.now.table.max alias) }
        ensures refused { IfErr result (λ fault. fault ≡ TopicFault.AliasRange) }
        ensures range { OnErr result (¬ IsInRange self.now.table.max alias) }
    {
        if alias == 0 || alias > self.max {
            return Err(TopicFault::AliasRange);
        }
        Ok(())
    }

    /// The topic that a PUBLISH with this text and alias would mean, if nothing is set. The name
    /// shares its bytes with the text or with the table.
    pub fn would_resolve(&self, topic: &Text, alias: Option<u16>) -> Result<TopicName, TopicFault>
        ensures found { IfOk result (Resolves self.now.table topic.now alias) }
        ensures refused { IfErr result (RefusesAlias self.now.table topic.now alias) }
    {
        if let Some(alias) = alias {
            self.check(alias)?;
            if topic.as_str().is_empty() {
                return self.known(alias);
            }
        }
        name_of(topic)
    }

    /// Makes an alias stand for a copy of a name.
    fn keep_copy(&mut self, alias: u16, name: &TopicName) -> Result<(), TopicFault>
        ensures ok { OnOk result (self.new.table
            ≡ with_topics self.old.table (with_topic alias name.now self.old.table.topics)) }
        ensures fault { IfErr result (λ fault. fault ≡ TopicFault.Memory) }
        ensures err { OnErr result (self.new.table ≡ self.old.table) }
    {
        let kept = name.try_clone()?;
        match self.topics.insert(alias, kept) {
            Ok(before) => {
                drop(before);
                Ok(())
            }
            Err(_) => Err(TopicFault::Memory),
        }
    }

    /// Reads a topic name, and makes an alias stand for it.
    fn read_and_keep(&mut self, alias: u16, topic: &str) -> Result<TopicName, TopicFault>
        ensures read { IfOk result (λ name. name ≡ topic.now) }
        ensures lawful { OnOk result (IsTopicName topic.now) }
        ensures ok { OnOk result (self.new.table
            ≡ with_topics self.old.table (with_topic alias topic.now self.old.table.topics)) }
        ensures refused { IfErr result (RefusesName topic.now) }
        ensures err { OnErr result (self.new.table ≡ self.old.table) }
    {
        let name = TopicName::parse(self.alloc, topic)?;
        match self.keep_copy(alias, &name) {
            Ok(()) => Ok(name),
            Err(fault) => Err(fault),
        }
    }

    /// The topic that a PUBLISH with this text and alias means, if a text with an alias makes
    /// the alias stand for it.
    pub fn resolve(&mut self, topic: &str, alias: Option<u16>) -> Result<TopicName, TopicFault>
        ensures found { IfOk result (Resolves self.old.table topic.now alias) }
        ensures ok { OnOk result (self.new.table ≡ after_resolve self.old.table topic.now alias) }
        ensures refused { IfErr result (RefusesAlias self.old.table topic.now alias) }
        ensures err { OnErr result (self.new.table ≡ self.old.table) }
    {
        let Some(alias) = alias else {
            return TopicName::parse(self.alloc, topic);
        };
        self.check(alias)?;
        if topic.is_empty() {
            return self.known(alias);
        }
        self.read_and_keep(alias, topic)
    }

    /// Makes room for one alias, so that the next `set` takes no memory.
    pub fn make_room(&mut self) -> Result<(), TopicFault>
        ensures same { self.new.table ≡ self.old.table }
        ensures ok { OnOk result (0 < self.new.room) }

        // Want of memory is the only refusal, and only if there was no room.
        ensures fault { IfErr result (λ fault. fault ≡ TopicFault.Memory) }
        ensures memory { OnErr result (self.old.room ≡ 0) }
    {
        self.topics.reserve(1).map_err(|_| TopicFault::Memory)
    }

    /// Makes an alias stand for a topic, and gives the one that it stood for. Takes no memory.
    pub fn set(&mut self, alias: u16, topic: TopicName) -> Option<TopicName>
        requires range { IsInRange self.old.table.max alias }
        requires room { 0 < self.old.room }
        ensures before { result ≡ topic_of alias self.old.table.topics }
        ensures after { self.new.table
            ≡ with_topics self.old.table (with_topic alias topic self.old.table.topics) }
        ensures stands { topic_of alias self.new.table.topics ≡ Some topic }
    {
        self.topics.insert(alias, topic).unwrap()
    }

    /// Makes an alias stand for what it stood for before, as `set` gave it. Takes no memory.
    pub fn restore(&mut self, alias: u16, before: Option<TopicName>)
        requires { IsSome (topic_of alias self.old.table.topics) }
        ensures { self.new.table
            ≡ with_topics self.old.table (restored alias before self.old.table.topics) }
    {
        match before {
            Some(topic) => drop(self.topics.insert(alias, topic).unwrap()),
            None => drop(self.topics.shift_remove(&alias)),
        }
    }
}
