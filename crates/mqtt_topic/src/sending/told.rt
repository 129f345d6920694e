//! The topics that a client was told by an alias (MQTT 5.0, 3.1.2.11.5, 3.3.2.3.4).
ghost use Rattle.std.specs.Prelude.{◌≡◌, ◌≤◌, None, IfErr, IfOk, IsSome, OnErr, OnOk, length};
ghost use Rattle.mqtt_topic.specs.sending.Told.{IsTelling, alias_of, after_send, most_of, next_alias, none_told, place_from, shortened, told_if};
ghost use Rattle.mqtt_topic.specs.sending.Sizes.{form_for};

use crate::names::TopicFault;
use crate::sending::form::Form;
use crate::sending::sizes::{OtherBytes, if_plain, or_plain};
use mqtt_base::Text;
use std::alloc::{AllocError, Global};
use std::marker::Model;

/// How many aliases a client is told at most (ours).
pub const ALIAS_LIMIT: u16 = 10;

/// How many aliases a client is told, by its CONNECT's Topic Alias Maximum, if it has one
/// (3.1.2.11.5): the lesser of that and `ALIAS_LIMIT`.
pub fn most_of(asked: Option<u16>) -> u16
    ensures { result ≡ most_of asked }
{
    match asked {
        Some(most) => most.min(ALIAS_LIMIT),
        None => 0,
    }
}

/// The topics that a client was told by an alias on its connection, in order: the alias of each is
/// its place, from 1 (3.3.2.3.4). They share their bytes with what was sent.
#[derive(Drop)]
pub struct OutAliases {
    max: u16,
    topics: Vec<Text>,
}

impl Model for OutAliases {
    ghost use Rattle.std.specs.Prelude.{◌≤◌, length};
    ghost use Rattle.mqtt_topic.specs.sending.Told.{ToldTopics};

    ghost Value = { ToldTopics };

    ghost view = { λ a. record { max = a.max; topics = a.topics.items } };

    ghost invariant = { λ a. length a.topics.items ≤ a.max };
}

impl OutAliases {
    /// What a client was told of whom nothing was sent yet; `max` is the most aliases. Takes no
    /// memory.
    pub fn new(alloc: Global, max: u16) -> OutAliases
        ensures { result ≡ none_told max }
    {
        OutAliases {
            max,
            topics: Vec::new(alloc),
        }
    }

    /// How many topics were told. Takes no memory.
    pub fn count(&self) -> usize
        ensures { result ≡ length self.now.topics }
    {
        self.topics.len()
    }

    /// The alias that the client was told of a topic. Takes no memory.
    pub fn look(&self, topic: &str) -> Option<u16>
        ensures { result ≡ alias_of topic.now self.now }
    {
        place(self.max, &self.topics, topic)
    }

    /// The alias that the next topic gets, if one is free. Takes no memory.
    fn next(&self) -> Option<u16>
        ensures { result ≡ next_alias self.now }
    {
        let count = self.count();
        if count < usize::from(self.max) {
            Some(count as u16 + 1)
        } else {
            None
        }
    }

    /// Tells a further topic, and answers its alias; none if none is free.
    pub fn add(&mut self, topic: &Text) -> Result<Option<u16>, TopicFault>
        requires new { alias_of topic.now self.old ≡ None }
        ensures number { IfOk result (λ number. number ≡ next_alias self.old) }
        ensures ok { OnOk result (self.new ≡ told_if (next_alias self.old) topic.now self.old) }

        // Want of memory is the only refusal, only if an alias is free, and changes nothing.
        ensures fault { IfErr result (λ fault. fault ≡ TopicFault.Memory) }
        ensures only { OnErr result (IsSome (next_alias self.old)) }
        ensures err { OnErr result (self.new ≡ self.old) }
    {
        self.tell(topic)
    }

    /// Tells a topic, whether it was told or not: the alias is the next one; none if none is free.
    pub fn tell(&mut self, topic: &Text) -> Result<Option<u16>, TopicFault>
        ensures number { IfOk result (λ number. number ≡ next_alias self.old) }
        ensures ok { OnOk result (self.new ≡ told_if (next_alias self.old) topic.now self.old) }

        // Want of memory is the only refusal, only if an alias is free, and changes nothing.
        ensures fault { IfErr result (λ fault. fault ≡ TopicFault.Memory) }
        ensures only { OnErr result (IsSome (next_alias self.old)) }
        ensures err { OnErr result (self.new ≡ self.old) }
    {
        let Some(alias) = self.next() else {
            return Ok(None);
        };
        let Ok(kept) = topic.clone() else {
            return Err(TopicFault::Memory);
        };
        match self.topics.push(kept) {
            Ok(()) => Ok(Some(alias)),
            Err(_) => Err(TopicFault::Memory),
        }
    }

    /// Another table of the same topics; they share their bytes.
    pub fn copied(&self, alloc: Global) -> Result<OutAliases, TopicFault>
        ensures ok { IfOk result (λ copy. copy ≡ self.now) }
        ensures fault { IfErr result (λ fault. fault ≡ TopicFault.Memory) }
    {
        match same_texts(alloc, &self.topics) {
            Ok(topics) => Ok(OutAliases {
                max: self.max,
                topics,
            }),
            Err(_) => Err(TopicFault::Memory),
        }
    }

    /// Forgets the topics behind the first so many. Takes no memory.
    pub fn shorten(&mut self, count: usize)
        ensures { self.new ≡ shortened count self.old }
    {
        self.topics.truncate(count);
    }

    /// The form in which a PUBLISH goes out, to a client that takes so many bytes (3.1.2.11.4): the
    /// first that is within; none if it is too large in each. Takes no memory.
    pub fn form_for(&self, largest: u32, topic: &Text, other: OtherBytes) -> Option<Form>
        ensures { result ≡ form_for largest self.now topic.now other }
    {
        match self.look(topic.as_str()) {
            Some(alias) => or_plain(largest, topic, other, Form::Short(alias)),
            None => match self.next() {
                Some(alias) => or_plain(largest, topic, other, Form::Named(alias)),
                None => if_plain(largest, topic, other),
            },
        }
    }

    /// The same for a PUBLISH that is sent now: what it tells is told from then on. One that is too
    /// large isn't sent, and tells nothing.
    pub fn send(
        &mut self,
        largest: u32,
        topic: &Text,
        other: OtherBytes,
    ) -> Result<Option<Form>, TopicFault>
        ensures form { IfOk result (λ form. form ≡ form_for largest self.old topic.now other) }
        ensures ok { OnOk result (self.new
            ≡ after_send (form_for largest self.old topic.now other) topic.now self.old) }

        // Want of memory is the only refusal, only of a packet that tells, and changes nothing.
        ensures fault { IfErr result (λ fault. fault ≡ TopicFault.Memory) }
        ensures only { OnErr result (IsTelling (form_for largest self.old topic.now other)) }
        ensures err { OnErr result (self.new ≡ self.old) }
    {
        let form = self.form_for(largest, topic, other);
        if let Some(Form::Named(_)) = form {
            self.add(topic)?;
        }
        Ok(form)
    }
}

/// The same topics, in the same order; they share their bytes.
fn same_texts(alloc: Global, topics: &[Text]) -> Result<Vec<Text>, AllocError>
    ensures { IfOk result (λ copy. copy.items ≡ topics.now) }
{
    let mut copy = Vec::with_capacity(alloc, topics.len())?;
    for topic in topics {
        copy.push(topic.clone()?)?;
    }
    Ok(copy)
}

/// Where a topic stands among others, from 1; they are at most so many.
fn place(max: u16, topics: &[Text], topic: &str) -> Option<u16>
    requires { length topics.now ≤ max }
    ensures { result ≡ place_from 1 topic.now topics.now }
{
    let mut alias: u16 = 0;
    for told in topics {
        alias += 1;
        if told.as_str() == topic {
            return Some(alias);
        }
    }
    None
}
