//! Which texts are filters, and filters that are matched whole (MQTT 5.0, 4.7.1, 4.7.3, 4.8.2).
ghost use Rattle.std.specs.Prelude.{◌≡◌, ◌<◌, ◌∷◌, length, false, true, IfErr, IfNone, IfOk, IfSome, IsOk, OnOk};
ghost use Rattle.mqtt_topic.specs.names.Levels.{levels};
ghost use Rattle.mqtt_topic.specs.names.Names.{is_topic_name};
ghost use Rattle.mqtt_topic.specs.names.Filters.{share, begins_share, are_filter_levels, is_filter, group_of, RefusesFilter};

use crate::names::fault::TopicFault;
use crate::names::levels::Levels;
use crate::names::name::has_wildcard;
use crate::names::text::text_of;
use mqtt_base::Text;
use std::alloc::Global;
use std::marker::Model;

/// NAME/FILTER of a text that begins with `$share/`.
pub(crate) fn group_of(text: &str) -> Option<&str>
    ensures none { IfNone result (begins_share text.now ≡ false) }
    ensures begins { IfSome result (λ _. begins_share text.now ≡ true) }
    ensures levels { IfSome result (λ group. levels text.now ≡ share ∷ levels group.now) }
    ensures part { IfSome result (λ group. group.now ≡ group_of text.now) }
    ensures shorter { IfSome result (λ group. length group.now < length text.now) }
{
    let (first, group) = text.split_once('/')?;
    if first == "$share" { Some(group) } else { None }
}

/// Whether each wildcard fills a level, and `#` only the last one.
fn has_filter_levels(text: &str) -> bool
    ensures { result ≡ are_filter_levels (levels text.now) }
{
    let mut levels = Levels::of(text);
    while let Some(level) = levels.next() {
        let is_lawful = !has_wildcard(level)
            || level == "+"
            || (level == "#" && levels.is_at_end());
        if !is_lawful {
            return false;
        }
    }
    true
}

/// Whether a level is the name of a share: at least one character, and no wildcard.
fn is_share_name(level: &str) -> bool
    ensures { result ≡ is_topic_name level.now }
{
    !level.is_empty() && !has_wildcard(level)
}

/// Whether a text is a filter, shared or not.
pub(crate) fn is_filter(text: &str) -> bool
    ensures { result ≡ is_filter text.now }
{
    let mut filter = text;
    while let Some(group) = group_of(filter) {
        let Some((name, shared)) = group.split_once('/') else {
            return false;
        };
        if !is_share_name(name) {
            return false;
        }
        filter = shared;
    }
    !filter.is_empty() && has_filter_levels(filter)
}

/// Whether a text is a filter.
pub(crate) fn check(text: &str) -> Result<(), TopicFault>
    ensures lawful { OnOk result (is_filter text.now ≡ true) }
    ensures only { is_filter text.now ≡ true → IsOk result }
    ensures refused { IfErr result (RefusesFilter text.now) }
{
    if text.is_empty() {
        Err(TopicFault::Empty)
    } else if is_filter(text) {
        Ok(())
    } else if group_of(text).is_some() {
        Err(TopicFault::Share)
    } else {
        Err(TopicFault::WildcardPlace)
    }
}

/// What is matched against topic names.
#[derive(Debug, Drop)]
pub struct Filter {
    text: Text,
}

impl Model for Filter {
    ghost use Rattle.std.specs.Prelude.{◌≡◌, List, ℕ, true};
    ghost use Rattle.mqtt_topic.specs.names.Filters.{is_filter};

    ghost Value = { List ℕ };

    ghost view = { λ filter. filter.text };

    ghost invariant = { λ filter. is_filter filter.text ≡ true };
}

impl Filter {
    /// Reads a filter (4.7.1, 4.7.3, 4.8.2).
    pub fn parse(alloc: Global, text: &str) -> Result<Filter, TopicFault>
        ensures read { IfOk result (λ filter. filter ≡ text.now) }
        ensures lawful { OnOk result (is_filter text.now ≡ true) }
        ensures refused { IfErr result (RefusesFilter text.now) }
    {
        check(text)?;
        let text = text_of(alloc, text)?;
        Ok(Filter { text })
    }

    /// Reads a filter out of a packet's text, and keeps its bytes. Takes no memory.
    pub fn from_text(text: Text) -> Result<Filter, TopicFault>
        ensures read { IfOk result (λ filter. filter ≡ text) }
        ensures lawful { OnOk result (is_filter text ≡ true) }
        ensures only { is_filter text ≡ true → IsOk result }
        ensures refused { IfErr result (RefusesFilter text) }
    {
        check(text.as_str())?;
        Ok(Filter { text })
    }

    /// Its levels, from the first (4.7.1.1). Takes no memory.
    pub fn levels(&self) -> Levels<'_>
        ensures { result ≡ levels self.now }
    {
        Levels::of(self.text.as_str())
    }

    /// Its text, as packets and records have it. Takes no memory.
    pub fn text(&self) -> &Text
        ensures value { result.now ≡ self.now }
        ensures lawful { is_filter self.now ≡ true }
    {
        &self.text
    }

    /// Gives the text back. Takes no memory.
    pub fn into_text(self) -> Text
        ensures value { result ≡ self }
        ensures lawful { is_filter self ≡ true }
    {
        self.text
    }

    /// Its text. Takes no memory.
    pub fn as_str(&self) -> &str
        ensures value { result.now ≡ self.now }
        ensures lawful { is_filter self.now ≡ true }
    {
        self.text.as_str()
    }
}
