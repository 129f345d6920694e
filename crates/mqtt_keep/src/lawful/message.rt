//! Topics, properties and payloads that a row may have (3.1.3, 3.3).
ghost use Rattle.std.specs.Prelude.{◌↔◌, ◌≤◌, IfOk, IsTrue};
ghost use Rattle.mqtt_base.specs.declared.limits.TheConstants.{ROW_LIMIT};
ghost use Rattle.mqtt_base.specs.Values.{FitsText};
ghost use Rattle.mqtt_props.specs.Properties.{FitsBlock};
ghost use Rattle.mqtt_topic.specs.names.Names.{IsTopicName};
ghost use Rattle.mqtt_keep.specs.lawful.Lawful.{AreProperties, HasLawfulWill, IsMessage, row_len};

use bytes::Bytes;
use mqtt_base::{ROW_LIMIT, Text};
use mqtt_props::{Place, PropsRef};
use mqtt_records::Will;
use mqtt_topic::TopicName;
use std::alloc::AllocError;

/// Whether topic, properties and payload have no more bytes than a row has.
fn is_short(topic: &Text, properties: &PropsRef<'_>, payload: &Bytes) -> bool
    ensures exact { IsTrue result ↔ (row_len topic.now properties.now payload.now ≤ ROW_LIMIT) }
    ensures text { FitsText topic.now }
    ensures spelled { FitsBlock properties.now }
{
    let payload = payload.len();
    let others = topic.as_str().len() + properties.block_len();
    payload <= ROW_LIMIT && others + payload <= ROW_LIMIT
}

/// Whether a text is a topic name.
fn is_topic(text: &Text) -> Result<bool, AllocError>
    ensures { IfOk result (λ lawful. IsTrue lawful ↔ IsTopicName text.now) }
{
    let text = text.clone()?;
    match TopicName::from_text(text) {
        Ok(name) => {
            drop(name);
            Ok(true)
        }
        Err(_) => Ok(false),
    }
}

/// Whether a row may have this message, in a packet of this kind.
pub(crate) fn is_message(
    place: Place,
    topic: &Text,
    properties: &PropsRef<'_>,
    payload: &Bytes,
) -> Result<bool, AllocError>
    ensures { IfOk result (λ lawful. IsTrue lawful
        ↔ IsMessage place topic.now properties.now payload.now) }
{
    let is_block = properties.may_stand_in(place) && properties.is_lawful(place);
    Ok(is_block && is_short(topic, properties, payload) && is_topic(topic)?)
}

/// Whether properties of a row may stand in a packet of this kind, and keep its laws.
pub(crate) fn are_properties(place: Place, properties: &PropsRef<'_>) -> bool
    ensures { IsTrue result ↔ AreProperties place properties.now }
{
    properties.block_len() <= ROW_LIMIT
        && properties.may_stand_in(place)
        && properties.is_lawful(place)
}

/// Whether a Will keeps its rules, if there is one.
pub(crate) fn has_lawful_will(will: &Option<Will>) -> Result<bool, AllocError>
    ensures { IfOk result (λ lawful. IsTrue lawful ↔ HasLawfulWill will.now) }
{
    match will {
        Some(will) => is_message(
            Place::Will,
            &will.topic,
            &will.properties.lend(),
            &will.payload,
        ),
        None => Ok(true),
    }
}
