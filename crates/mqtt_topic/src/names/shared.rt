//! Shared filters (MQTT 5.0, 4.8.2).
ghost use Rattle.std.specs.Prelude.{◌≡◌, false, true, IfErr, IfNone, IfOk, IfSome, IsOk, OnOk, OnSome};
ghost use Rattle.mqtt_topic.specs.names.Filters.{begins_share, is_filter, is_shared_filter, share_name_of, shared_part_of, RefusesShared};

use crate::names::fault::TopicFault;
use crate::names::filter::{group_of, is_filter};
use crate::names::text::text_of;
use mqtt_base::Text;
use std::alloc::Global;
use std::marker::Model;

/// NAME and FILTER of a shared filter.
pub(crate) fn share_parts(text: &str) -> Option<(&str, &str)>
    ensures none { IfNone result (is_shared_filter text.now ≡ false) }
    ensures begins { OnSome result (begins_share text.now ≡ true) }
    ensures name { IfSome result (λ parts. parts.0.now ≡ share_name_of text.now) }
    ensures filter { IfSome result (λ parts. parts.1.now ≡ shared_part_of text.now) }
    ensures lawful { is_filter text.now ≡ true → IfSome result (λ parts. is_filter parts.1.now ≡ true) }
{
    let group = group_of(text)?;
    let (name, filter) = group.split_once('/')?;
    Some((name, filter))
}

/// Whether a text is a shared filter.
fn check_shared(text: &str) -> Result<(), TopicFault>
    ensures lawful { OnOk result (is_shared_filter text.now ≡ true) }
    ensures only { is_shared_filter text.now ≡ true → IsOk result }
    ensures refused { IfErr result (RefusesShared text.now) }
{
    if group_of(text).is_none() || !is_filter(text) {
        return Err(TopicFault::Share);
    }
    Ok(())
}

/// A shared filter, `$share/NAME/FILTER`.
#[derive(Debug, Drop)]
pub struct Shared {
    text: Text,
}

impl Model for Shared {
    ghost use Rattle.std.specs.Prelude.{◌≡◌, List, ℕ, true};
    ghost use Rattle.mqtt_topic.specs.names.Filters.{is_shared_filter};

    ghost Value = { List ℕ };

    ghost view = { λ shared. shared.text };

    ghost invariant = { λ shared. is_shared_filter shared.text ≡ true };
}

impl Shared {
    /// Reads a shared filter (4.8.2).
    pub fn parse(alloc: Global, text: &str) -> Result<Shared, TopicFault>
        ensures read { IfOk result (λ shared. shared ≡ text.now) }
        ensures lawful { OnOk result (is_shared_filter text.now ≡ true) }
        ensures refused { IfErr result (RefusesShared text.now) }
    {
        check_shared(text)?;
        let text = text_of(alloc, text)?;
        Ok(Shared { text })
    }

    /// Reads a shared filter out of a packet's text, and keeps its bytes. Takes no memory.
    pub fn from_text(text: Text) -> Result<Shared, TopicFault>
        ensures read { IfOk result (λ filter. filter ≡ text) }
        ensures lawful { OnOk result (is_shared_filter text ≡ true) }
        ensures only { is_shared_filter text ≡ true → IsOk result }
        ensures refused { IfErr result (RefusesShared text) }
    {
        check_shared(text.as_str())?;
        Ok(Shared { text })
    }

    /// Its whole text, as packets and records have it. Takes no memory.
    pub fn text(&self) -> &Text
        ensures value { result.now ≡ self.now }
        ensures lawful { is_shared_filter self.now ≡ true }
    {
        &self.text
    }

    /// Gives the text back. Takes no memory.
    pub fn into_text(self) -> Text
        ensures value { result ≡ self }
        ensures lawful { is_shared_filter self ≡ true }
    {
        self.text
    }

    /// Its whole text. Takes no memory.
    pub fn as_str(&self) -> &str
        ensures value { result.now ≡ self.now }
        ensures lawful { is_shared_filter self.now ≡ true }
    {
        self.text.as_str()
    }

    /// NAME. Takes no memory.
    pub fn name(&self) -> &str
        ensures { result.now ≡ share_name_of self.now }
    {
        match share_parts(self.text.as_str()) {
            Some((name, _)) => name,
            None => unreachable!(),
        }
    }

    /// FILTER. Takes no memory.
    pub fn filter(&self) -> &str
        ensures { result.now ≡ shared_part_of self.now }
    {
        match share_parts(self.text.as_str()) {
            Some((_, filter)) => filter,
            None => unreachable!(),
        }
    }
}
