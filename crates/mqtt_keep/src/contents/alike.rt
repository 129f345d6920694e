//! Whether contents are alike: the same topic, properties and payload (3.3).
ghost use Rattle.std.specs.Prelude.{◌≡◌, ◌↔◌, IsTrue};
ghost use Rattle.mqtt_props.specs.Views.{prop_of, value_of};
ghost use Rattle.mqtt_keep.specs.contents.Listed.{AreAlike};

use mqtt_props::{PropRef, PropsRef, ValueRef};
use mqtt_records::ContentRef;

/// Whether two values are the same.
fn is_same_value(one: ValueRef<'_>, other: ValueRef<'_>) -> bool
    ensures { IsTrue result ↔ (value_of one.entry ≡ value_of other.entry) }
{
    match (one, other) {
        (ValueRef::Byte(m), ValueRef::Byte(n)) => m == n,
        (ValueRef::U16(m), ValueRef::U16(n)) => m == n,
        (ValueRef::U32(m), ValueRef::U32(n)) | (ValueRef::VarInt(m), ValueRef::VarInt(n)) => m == n,
        (ValueRef::Text(text), ValueRef::Text(other)) => text == other,
        (ValueRef::Binary(blob), ValueRef::Binary(other)) => blob == other,
        (ValueRef::Pair(key, text), ValueRef::Pair(name, other)) => key == name && text == other,
        _ => false,
    }
}

/// Whether two properties are the same.
fn is_same_property(one: PropRef<'_>, other: PropRef<'_>) -> bool
    ensures { IsTrue result ↔ (prop_of one.entry ≡ prop_of other.entry) }
{
    one.name == other.name && is_same_value(one.value, other.value)
}

/// Whether two lists of properties are the same.
fn are_same_properties(these: &PropsRef<'_>, others: &PropsRef<'_>) -> bool
    ensures { IsTrue result ↔ (these.now ≡ others.now) }
{
    let mut rest = these.reborrow();
    let mut left = others.reborrow();
    while let Some((one, after)) = rest.split_first() {
        let Some((other, behind)) = left.split_first() else {
            return false;
        };
        if !is_same_property(one, other) {
            return false;
        }
        rest = after;
        left = behind;
    }
    left.is_empty()
}

/// Whether two contents say the same. When they were accepted is no part of it.
pub(crate) fn are_alike(one: &ContentRef<'_>, other: &ContentRef<'_>) -> bool
    ensures { IsTrue result ↔ AreAlike one.now other.now }
{
    *one.topic == *other.topic
        && are_same_properties(&one.properties.lend(), &other.properties.lend())
        && *one.payload == *other.payload
}
