//! The size of a PUBLISH in each of its forms (MQTT 5.0, 2.1.4, 3.1.2.11.4, 3.3).
ghost use Rattle.std.specs.Prelude.{◌≡◌, ◌<◌, ◌^◌, ◌∷◌, [], cond, Some, None, length};
ghost use Rattle.mqtt_topic.specs.declared.sending.form.Form.{Form};
ghost use Rattle.mqtt_topic.specs.sending.Told.{topic_in};
ghost use Rattle.mqtt_topic.specs.sending.Sizes.{alias_size, first_within, is_spelled, is_within, remaining_in, size_in};

use crate::sending::form::Form;
use mqtt_base::{Text, varint_len};

/// What the Remaining Length of a packet is below (2.1.4).
const REMAINING_END: usize = 268_435_456;

/// The bytes that a PUBLISH has besides its topic and its Topic Alias.
#[derive(Clone, Copy, Debug, PartialEq, Eq)]
pub struct OtherBytes {
    /// Bytes of the other properties, without the length of all.
    pub properties: usize,
    /// Bytes of identifier and payload.
    pub rest: usize,
}

/// The bytes of the topic that stands in the packet, without its length.
fn topic_len(form: Form, topic: &Text) -> usize
    ensures value { result ≡ length (topic_in form topic.now) }
    ensures below { result < 2 ^ 16 }
{
    match form {
        Form::Plain => topic.as_str().len(),
        Form::Named(_) => topic.as_str().len(),
        Form::Short(_) => 0,
    }
}

/// The bytes of the Topic Alias.
fn alias_len(form: Form) -> usize
    ensures value { result ≡ alias_size form }
    ensures below { result < 4 }
{
    match form {
        Form::Plain => 0,
        Form::Named(_) => 3,
        Form::Short(_) => 3,
    }
}

/// The Remaining Length, if the packet has a spelling.
fn remaining_in(form: Form, topic: &Text, other: OtherBytes) -> Option<u32>
    ensures { result ≡ cond (is_spelled (remaining_in form topic.now other))
        (Some (remaining_in form topic.now other)) None }
{
    if other.properties >= REMAINING_END || other.rest >= REMAINING_END {
        return None;
    }
    let properties = other.properties + alias_len(form);
    if properties >= REMAINING_END {
        return None;
    }
    let block = varint_len(properties as u32) + properties;
    let remaining = 2 + topic_len(form, topic) + block + other.rest;
    if remaining < REMAINING_END {
        Some(remaining as u32)
    } else {
        None
    }
}

/// Bytes of a PUBLISH in a form, fixed header included; none if it has no spelling, since more
/// than 268,435,455 bytes would follow the fixed header (2.1.4). Takes no memory.
pub fn size_in(form: Form, topic: &Text, other: OtherBytes) -> Option<usize>
    ensures { result ≡ size_in form topic.now other }
{
    let remaining = remaining_in(form, topic, other)?;
    Some(1 + varint_len(remaining) + remaining as usize)
}

/// Whether a PUBLISH in a form is within a Maximum Packet Size.
fn is_within(largest: u32, topic: &Text, other: OtherBytes, form: Form) -> bool
    ensures { result ≡ is_within largest topic.now other form }
{
    match size_in(form, topic, other) {
        Some(size) => size <= largest as usize,
        None => false,
    }
}

/// The plain form, if it is within.
pub(crate) fn if_plain(largest: u32, topic: &Text, other: OtherBytes) -> Option<Form>
    ensures { result ≡ first_within largest topic.now other (Form.Plain ∷ []) }
{
    if is_within(largest, topic, other, Form::Plain) {
        Some(Form::Plain)
    } else {
        None
    }
}

/// A form, or the plain one: the first that is within.
pub(crate) fn or_plain(largest: u32, topic: &Text, other: OtherBytes, form: Form) -> Option<Form>
    ensures { result ≡ first_within largest topic.now other (form ∷ Form.Plain ∷ []) }
{
    if is_within(largest, topic, other, form) {
        Some(form)
    } else {
        if_plain(largest, topic, other)
    }
}
