//! Filters of subscriptions, plain or shared (MQTT 5.0, 4.7.1, 4.7.3, 4.8.2).
ghost use Rattle.std.specs.Prelude.{◌≡◌, ◌↔◌, false, true, IfErr, IfNone, IfOk, IfSome, IsOk, IsTrue, OnOk, OnSome};
ghost use Rattle.mqtt_topic.specs.names.Levels.{levels};
ghost use Rattle.mqtt_topic.specs.names.Matching.{is_match, Matches};
ghost use Rattle.mqtt_topic.specs.names.Filters.{begins_share, is_filter, group_of, matching_part_of, RefusesFilter};

use crate::names::fault::TopicFault;
use crate::names::filter::{check, group_of};
use crate::names::levels::Levels;
use crate::names::matching::is_match;
use crate::names::name::TopicName;
use crate::names::shared::share_parts;
use crate::names::text::text_of;
use mqtt_base::Text;
use std::alloc::Global;
use std::marker::Model;

/// The filter of a subscription, plain or shared.
#[derive(Debug, Drop)]
pub struct SubFilter {
    text: Text,
}

impl Model for SubFilter {
    ghost use Rattle.std.specs.Prelude.{◌≡◌, List, ℕ, true};
    ghost use Rattle.mqtt_topic.specs.names.Filters.{is_filter};

    ghost Value = { List ℕ };

    ghost view = { λ filter. filter.text };

    ghost invariant = { λ filter. is_filter filter.text ≡ true };
}

impl SubFilter {
    /// Reads the filter of a SUBSCRIBE or UNSUBSCRIBE (4.7.1, 4.7.3, 4.8.2).
    pub fn parse(alloc: Global, text: &str) -> Result<SubFilter, TopicFault>
        ensures read { IfOk result (λ filter. filter ≡ text.now) }
        ensures lawful { OnOk result (is_filter text.now ≡ true) }
        ensures refused { IfErr result (RefusesFilter text.now) }
    {
        check(text)?;
        let text = text_of(alloc, text)?;
        Ok(SubFilter { text })
    }

    /// Reads the filter of a SUBSCRIBE or UNSUBSCRIBE out of a packet's text, and keeps its bytes. Takes no memory.
    pub fn from_text(text: Text) -> Result<SubFilter, TopicFault>
        ensures read { IfOk result (λ filter. filter ≡ text) }
        ensures lawful { OnOk result (is_filter text ≡ true) }
        ensures only { is_filter text ≡ true → IsOk result }
        ensures refused { IfErr result (RefusesFilter text) }
    {
        check(text.as_str())?;
        Ok(SubFilter { text })
    }

    /// Its whole text, as packets and records have it. Takes no memory.
    pub fn text(&self) -> &Text
        ensures value { result.now ≡ self.now }
        ensures lawful { is_filter self.now ≡ true }
    {
        &self.text
    }

    /// Gives the text back. Takes no memory.
    pub fn into_text(self) -> Text
        ensures value { result ≡ self }
        ensures lawful { is_filter self ≡ true }
    {
        self.text
    }

    /// Its whole text. Takes no memory.
    pub fn as_str(&self) -> &str
        ensures value { result.now ≡ self.now }
        ensures lawful { is_filter self.now ≡ true }
    {
        self.text.as_str()
    }

    /// Whether it is shared. Takes no memory.
    pub fn is_shared(&self) -> bool
        ensures { result ≡ begins_share self.now }
    {
        self.group().is_some()
    }

    /// NAME/FILTER of a shared one. Takes no memory.
    pub fn group(&self) -> Option<&str>
        ensures plain { IfNone result (begins_share self.now ≡ false) }
        ensures shared { OnSome result (begins_share self.now ≡ true) }
        ensures group { IfSome result (λ group. group.now ≡ group_of self.now) }
    {
        group_of(self.text.as_str())
    }

    /// The filter that is matched: FILTER of a shared one. Takes no memory.
    pub fn filter(&self) -> &str
        ensures value { result.now ≡ matching_part_of self.now }
        ensures lawful { is_filter result.now ≡ true }
    {
        let text = self.text.as_str();
        match share_parts(text) {
            Some((_, filter)) => filter,
            None => text,
        }
    }

    /// The levels of the filter that is matched, from the first (4.7.1.1, 4.8.2). Takes no memory.
    pub fn levels(&self) -> Levels<'_>
        ensures { result ≡ levels (matching_part_of self.now) }
    {
        Levels::of(self.filter())
    }

    /// Whether it matches a topic name, a shared one by its FILTER (4.7, 4.8.2). Takes no memory.
    pub fn matches(&self, name: &TopicName) -> bool
        ensures answer { result ≡ is_match (matching_part_of self.now) name.now }
        ensures exact { IsTrue result ↔ Matches (matching_part_of self.now) name.now }
    {
        is_match(self.filter(), name.as_str())
    }
}
