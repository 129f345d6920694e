//! The JSON of texts, properties, Wills and User Names (RFC 8259; ours).

ghost use Rattle.std.specs.Prelude.{◌≡◌, ◌++◌, OnOk, codes};
ghost use Rattle.std.specs.List.{flat_map};
ghost use Rattle.std.specs.Fmt.{decimal};
ghost use Rattle.std.specs.Option.{option_map};
ghost use Rattle.mqtt_packet.specs.connect.Connect.{will_of};
ghost use Rattle.mqtt_props.specs.Views.{prop_of, value_of};
ghost use Rattle.mqtt_cli.specs.viewer.JsonValues.{json_bool, json_byte, json_bytes, json_next_property, json_properties, json_property, json_property_list, json_text, json_user_name, json_value, json_will, json_will_head, json_will_message};

use crate::viewer::packet_text::{hex_digit, push_bytes, push_field, push_number};
use crate::viewer::property_text::{property_name, qos_number};
use mqtt_packet::WillRef;
use mqtt_props::{PropRef, PropsRef, ValueRef};
use std::alloc::{AllocError, Global};

/// Adds a byte of a text: itself, or escaped (RFC 8259, 7).
fn push_json_byte(text: &mut Vec<u8>, byte: u8) -> Result<(), AllocError>
    ensures { OnOk result (text.new.items ≡ text.old.items ++ json_byte byte) }
{
    if byte == b'"' || byte == b'\\' {
        text.extend_from_slice(&[b'\\', byte])
    } else if byte < 0x20 {
        text.extend_from_slice(&[
            b'\\',
            b'u',
            b'0',
            b'0',
            hex_digit(byte / 16),
            hex_digit(byte % 16),
        ])
    } else {
        text.extend_from_slice(&[byte])
    }
}

/// Adds the bytes of a text, each as itself or escaped.
#[tactic(auto, using(std::proofs::lemmas::List::append_assoc))]
fn push_json_run(text: &mut Vec<u8>, value: &str) -> Result<(), AllocError>
    ensures { OnOk result (text.new.items ≡ text.old.items ++ flat_map json_byte value.now) }
{
    let mut rest = value.as_bytes();
    while let Some((byte, after)) = rest.split_first() {
        push_json_byte(text, *byte)?;
        rest = after;
    }
    Ok(())
}

/// Adds a text between quotes.
#[tactic(auto, using(std::proofs::lemmas::List::append_assoc))]
pub(crate) fn push_json_text(text: &mut Vec<u8>, value: &str) -> Result<(), AllocError>
    ensures { OnOk result (text.new.items ≡ text.old.items ++ json_text value.now) }
{
    text.extend_from_slice(b"\"")?;
    push_json_run(text, value)?;
    text.extend_from_slice(b"\"")
}

/// Adds what stands before a text, and the text between quotes.
#[tactic(auto, using(std::proofs::lemmas::List::append_assoc))]
pub(crate) fn push_text_member(
    text: &mut Vec<u8>,
    name: &[u8],
    value: &str,
) -> Result<(), AllocError>
    ensures { OnOk result (text.new.items ≡ text.old.items ++ name.now ++ json_text value.now) }
{
    text.extend_from_slice(name)?;
    push_json_text(text, value)
}

/// `true` or `false`.
fn bool_name(value: bool) -> &'static [u8]
    ensures { result.now ≡ json_bool value }
{
    if value { b"true" } else { b"false" }
}

/// Adds what stands before a `true` or a `false`, and this.
pub(crate) fn push_bool_member(
    text: &mut Vec<u8>,
    name: &[u8],
    value: bool,
) -> Result<(), AllocError>
    ensures { OnOk result (text.new.items ≡ text.old.items ++ name.now ++ json_bool value) }
{
    text.extend_from_slice(name)?;
    text.extend_from_slice(bool_name(value))
}

/// Adds bytes in hexadecimal, between quotes.
#[tactic(auto, using(std::proofs::lemmas::List::append_assoc))]
pub(crate) fn push_json_bytes(
    alloc: Global,
    text: &mut Vec<u8>,
    bytes: &[u8],
) -> Result<(), AllocError>
    ensures { OnOk result (text.new.items ≡ text.old.items ++ json_bytes bytes.now) }
{
    text.extend_from_slice(b"\"")?;
    push_bytes(alloc, text, bytes)?;
    text.extend_from_slice(b"\"")
}

/// Adds a pair of texts.
#[tactic(auto, using(std::proofs::lemmas::List::append_assoc))]
fn push_json_pair(text: &mut Vec<u8>, key: &str, value: &str) -> Result<(), AllocError>
    ensures { OnOk result (text.new.items
        ≡ text.old.items ++ (codes "[" ++ json_text key.now ++ codes "," ++ json_text value.now ++ codes "]")) }
{
    push_text_member(text, b"[", key)?;
    push_text_member(text, b",", value)?;
    text.extend_from_slice(b"]")
}

/// Adds the value of a property.
fn push_json_value(alloc: Global, text: &mut Vec<u8>, value: ValueRef<'_>) -> Result<(), AllocError>
    ensures { OnOk result (text.new.items ≡ text.old.items ++ json_value (value_of value.entry)) }
{
    match value {
        ValueRef::Byte(number) => push_number(text, u64::from(number)),
        ValueRef::U16(number) => push_number(text, u64::from(number)),
        ValueRef::U32(number) | ValueRef::VarInt(number) => push_number(text, u64::from(number)),
        ValueRef::Text(value) => push_json_text(text, value),
        ValueRef::Binary(bytes) => push_json_bytes(alloc, text, bytes),
        ValueRef::Pair(key, value) => push_json_pair(text, key, value),
    }
}

/// Adds a property, an object of its name and its value.
#[tactic(auto, using(std::proofs::lemmas::List::append_assoc))]
fn push_json_property(
    alloc: Global,
    text: &mut Vec<u8>,
    property: &PropRef<'_>,
) -> Result<(), AllocError>
    ensures { OnOk result (text.new.items
        ≡ text.old.items ++ json_property (prop_of property.now)) }
{
    text.extend_from_slice(b"{\"name\":\"")?;
    text.extend_from_slice(property_name(property.name))?;
    text.extend_from_slice(b"\",\"value\":")?;
    push_json_value(alloc, text, property.value)?;
    text.extend_from_slice(b"}")
}

/// Adds a comma and a property.
#[tactic(auto, using(std::proofs::lemmas::List::append_assoc))]
fn push_json_next_property(
    alloc: Global,
    text: &mut Vec<u8>,
    property: &PropRef<'_>,
) -> Result<(), AllocError>
    ensures { OnOk result (text.new.items
        ≡ text.old.items ++ json_next_property (prop_of property.now)) }
{
    text.extend_from_slice(b",")?;
    push_json_property(alloc, text, property)
}

/// Adds properties with a comma before each.
#[tactic(auto, using(std::proofs::lemmas::List::append_assoc))]
fn push_json_next_properties(
    alloc: Global,
    text: &mut Vec<u8>,
    properties: &PropsRef<'_>,
) -> Result<(), AllocError>
    ensures { OnOk result (text.new.items
        ≡ text.old.items ++ flat_map json_next_property properties.now) }
{
    let mut rest = properties.reborrow();
    while let Some((first, after)) = rest.split_first() {
        push_json_next_property(alloc, text, &first)?;
        rest = after;
    }
    Ok(())
}

/// Adds properties with commas between them.
#[tactic(auto, using(std::proofs::lemmas::List::append_assoc))]
fn push_json_property_list(
    alloc: Global,
    text: &mut Vec<u8>,
    properties: &PropsRef<'_>,
) -> Result<(), AllocError>
    ensures { OnOk result (text.new.items
        ≡ text.old.items ++ json_property_list properties.now) }
{
    let Some((first, rest)) = properties.split_first() else {
        return Ok(());
    };
    push_json_property(alloc, text, &first)?;
    push_json_next_properties(alloc, text, &rest)
}

/// Adds the properties of a packet, or of a Will.
#[tactic(auto, using(std::proofs::lemmas::List::append_assoc))]
pub(crate) fn push_json_properties(
    alloc: Global,
    text: &mut Vec<u8>,
    properties: &PropsRef<'_>,
) -> Result<(), AllocError>
    ensures { OnOk result (text.new.items
        ≡ text.old.items ++ json_properties properties.now) }
{
    text.extend_from_slice(b",\"properties\":[")?;
    push_json_property_list(alloc, text, properties)?;
    text.extend_from_slice(b"]")
}

/// Adds the QoS of a Will, and whether it is to be retained.
#[tactic(auto, using(std::proofs::lemmas::List::append_assoc))]
fn push_json_will_head(text: &mut Vec<u8>, will: &WillRef<'_>) -> Result<(), AllocError>
    ensures { OnOk result (text.new.items
        ≡ text.old.items ++ json_will_head (will_of will.now)) }
{
    push_field(text, b"{\"qos\":", qos_number(will.qos))?;
    push_bool_member(text, b",\"retain\":", will.retain)
}

/// Adds the topic of a Will, how long its payload is, and its properties.
#[tactic(auto, using(std::proofs::lemmas::List::append_assoc))]
fn push_json_will_message(
    alloc: Global,
    text: &mut Vec<u8>,
    will: &WillRef<'_>,
) -> Result<(), AllocError>
    ensures { OnOk result (text.new.items
        ≡ text.old.items ++ json_will_message (will_of will.now)) }
{
    push_text_member(text, b",\"topic\":", will.topic)?;
    push_field(text, b",\"payload\":", will.payload.len() as u64)?;
    push_json_properties(alloc, text, &will.properties)
}

/// Adds the Will, or `null` if there is none.
#[tactic(auto, using(std::proofs::lemmas::List::append_assoc))]
pub(crate) fn push_json_will(
    alloc: Global,
    text: &mut Vec<u8>,
    will: &Option<WillRef<'_>>,
) -> Result<(), AllocError>
    ensures { OnOk result (text.new.items
        ≡ text.old.items ++ json_will (option_map will_of will.now)) }
{
    let Some(will) = will else {
        return text.extend_from_slice(b"null");
    };
    push_json_will_head(text, will)?;
    push_json_will_message(alloc, text, will)?;
    text.extend_from_slice(b"}")
}

/// Adds the User Name, or `null` if there is none.
pub(crate) fn push_json_user_name(text: &mut Vec<u8>, name: &Option<&str>) -> Result<(), AllocError>
    ensures { OnOk result (text.new.items
        ≡ text.old.items ++ json_user_name (option_map (λ t. t.now) name.now)) }
{
    match name {
        Some(name) => push_json_text(text, *name),
        None => text.extend_from_slice(b"null"),
    }
}
