//! Topic names (MQTT 5.0, 4.7.1, 4.7.3).
ghost use Rattle.std.specs.Prelude.{◌≡◌, IfErr, IfOk, IsOk, OnOk};
ghost use Rattle.mqtt_base.specs.Values.{FitsText};
ghost use Rattle.mqtt_topic.specs.names.Levels.{levels};
ghost use Rattle.mqtt_topic.specs.names.Names.{IsTopicName, RefusesName, has_wildcard};

use crate::names::fault::TopicFault;
use crate::names::levels::Levels;
use crate::names::text::text_of;
use mqtt_base::Text;
use std::alloc::Global;
use std::marker::Model;

/// Whether a text has `+` or `#` in it.
pub(crate) fn has_wildcard(text: &str) -> bool
    ensures { result ≡ has_wildcard text.now }
{
    text.as_bytes().iter().any(|c| *c == b'+' || *c == b'#')
}

/// Whether a text is a topic name.
fn check_name(text: &str) -> Result<(), TopicFault>
    ensures lawful { OnOk result (IsTopicName text.now) }
    ensures only { IsTopicName text.now → IsOk result }
    ensures refused { IfErr result (RefusesName text.now) }
{
    if text.is_empty() {
        return Err(TopicFault::Empty);
    }
    if has_wildcard(text) {
        return Err(TopicFault::WildcardInName);
    }
    Ok(())
}

/// A topic name that shares its bytes with a text.
pub(crate) fn name_of(lent: &Text) -> Result<TopicName, TopicFault>
    ensures read { IfOk result (λ name. name ≡ lent.now) }
    ensures lawful { OnOk result (IsTopicName lent.now) }
    ensures refused { IfErr result (RefusesName lent.now) }
{
    check_name(lent.as_str())?;
    let text = lent.clone().map_err(|_| TopicFault::Memory)?;
    Ok(TopicName { text })
}

/// What a publication is published to. Copies share its bytes.
#[derive(Debug, Drop)]
pub struct TopicName {
    text: Text,
}

impl Model for TopicName {
    ghost use Rattle.std.specs.Prelude.{List, ℕ};
    ghost use Rattle.mqtt_topic.specs.names.Names.{IsTopicName};

    ghost Value = { List ℕ };

    ghost view = { λ name. name.text };

    ghost invariant = { λ name. IsTopicName name.text };
}

impl TopicName {
    /// Reads a topic name (4.7.1, 4.7.3).
    pub fn parse(alloc: Global, text: &str) -> Result<TopicName, TopicFault>
        ensures read { IfOk result (λ name. name ≡ text.now) }
        ensures lawful { OnOk result (IsTopicName text.now) }
        ensures refused { IfErr result (RefusesName text.now) }
    {
        check_name(text)?;
        let text = text_of(alloc, text)?;
        Ok(TopicName { text })
    }

    /// Reads a topic name out of a packet's text, and keeps its bytes (4.7.1, 4.7.3). Takes no memory.
    pub fn from_text(text: Text) -> Result<TopicName, TopicFault>
        ensures read { IfOk result (λ name. name ≡ text) }
        ensures lawful { OnOk result (IsTopicName text) }
        ensures only { IsTopicName text → IsOk result }
        ensures refused { IfErr result (RefusesName text) }
    {
        check_name(text.as_str())?;
        Ok(TopicName { text })
    }

    /// Its text. Takes no memory.
    pub fn as_str(&self) -> &str
        ensures value { result.now ≡ self.now }
        ensures lawful { IsTopicName self.now }
        ensures fits { FitsText self.now }
    {
        self.text.as_str()
    }

    /// Its levels, from the first (4.7.1.1). Takes no memory.
    pub fn levels(&self) -> Levels<'_>
        ensures { result ≡ levels self.now }
    {
        Levels::of(self.text.as_str())
    }

    /// Its text, as packets and records have it. Takes no memory.
    pub fn text(&self) -> &Text
        ensures value { result.now ≡ self.now }
        ensures lawful { IsTopicName self.now }
    {
        &self.text
    }

    /// Gives the text back. Takes no memory.
    pub fn into_text(self) -> Text
        ensures value { result ≡ self }
        ensures lawful { IsTopicName self }
    {
        self.text
    }

    /// A copy of it, which shares its bytes.
    pub fn try_clone(&self) -> Result<TopicName, TopicFault>
        ensures copy { IfOk result (λ name. name ≡ self.now) }
        ensures lawful { IsTopicName self.now }
        ensures fault { IfErr result (λ fault. fault ≡ TopicFault.Memory) }
    {
        let text = self.text.clone().map_err(|_| TopicFault::Memory)?;
        Ok(TopicName { text })
    }
}
