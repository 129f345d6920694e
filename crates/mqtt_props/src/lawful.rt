//! The laws of a block, tested on lists (2.2.2.2 and the sections of the properties).

ghost use Rattle.std.specs.Prelude.{◌≡◌, ◌||◌, not};
ghost use Rattle.mqtt_props.specs.declared.table.PropName.TheVariants.{AuthenticationData, AuthenticationMethod};
ghost use Rattle.mqtt_props.specs.Laws.{all_may_stand, may_repeat, has_no_wildcard, is_lawful_value, is_lawful, laws_of, is_seen, see};
ghost use Rattle.mqtt_props.specs.Views.{prop_of};

use crate::fault::PropFault;
use crate::list::PropsRef;
use crate::place::Place;
use crate::table::PropName;
use crate::value::{PropRef, ValueRef};

/// Whether the property may stand more than once in that place.
fn may_repeat_in(place: Place, name: PropName) -> bool
    ensures { result ≡ may_repeat place name }
{
    match name {
        PropName::UserProperty => true,
        PropName::SubscriptionIdentifier => matches!(place, Place::Publish),
        _ => false,
    }
}

/// Whether the value keeps the law of its property.
fn has_lawful_value(prop: &PropRef<'_>) -> bool
    ensures { result ≡ is_lawful_value prop.now.name (prop_of prop.now).value }
{
    match (prop.name, prop.value) {
        (_, ValueRef::Byte(n)) => n < 2,
        (PropName::ReceiveMaximum, ValueRef::U16(n)) => n > 0,
        (PropName::MaximumPacketSize, ValueRef::U32(n)) => n > 0,
        (PropName::SubscriptionIdentifier, ValueRef::VarInt(n)) => n > 0,
        (PropName::ResponseTopic, ValueRef::Text(text)) => is_without_wildcard(text.as_bytes()),
        _ => true,
    }
}

/// Whether the topic has neither `+` nor `#` (4.7.1).
fn is_without_wildcard(topic: &[u8]) -> bool
    ensures { result ≡ has_no_wildcard topic.now }
{
    !topic.contains(&b'+') && !topic.contains(&b'#')
}

/// Whether the identifier of that name is among those seen, a bit each.
fn is_seen(name: PropName, seen: u64) -> bool
    ensures { result ≡ is_seen name seen }
{
    (seen >> name.id()) & 1 == 1
}

/// The identifiers that were seen, a bit each, and that of the name.
fn see(name: PropName, seen: u64) -> u64
    ensures { result ≡ see name seen }
{
    seen | 1 << name.id()
}

/// Whether the property may stand behind those that were seen.
fn may_follow(place: Place, name: PropName, seen: u64) -> bool
    ensures { result ≡ (not (is_seen name seen) || may_repeat place name) }
{
    !is_seen(name, seen) || may_repeat_in(place, name)
}

/// Whether Authentication Method was seen if Authentication Data was (3.1.2.11.10).
fn has_method_for_data(seen: u64) -> bool
    ensures { result ≡ (not (is_seen AuthenticationData seen) || is_seen AuthenticationMethod seen) }
{
    !is_seen(PropName::AuthenticationData, seen) || is_seen(PropName::AuthenticationMethod, seen)
}

impl<'a> PropsRef<'a> {
    /// Whether each property may stand in that place.
    pub fn may_stand_in(&self, place: Place) -> bool
        ensures { result ≡ all_may_stand place self.now }
    {
        let mut rest = self.reborrow();
        while let Some((prop, after)) = rest.split_first() {
            if !prop.name.may_stand_in(place) {
                return false;
            }
            rest = after;
        }
        true
    }

    /// Whether the list keeps the laws of a block in that place.
    #[inline(always)]
    pub fn is_lawful(&self, place: Place) -> bool
        ensures { result ≡ is_lawful place self.now }
    {
        self.is_empty() || self.reborrow().laws_test(place).is_ok()
    }

    /// Tests the laws: `Twice` if a property stands twice that may stand once, and else `BadValue`
    /// if a value breaks a law.
    pub(crate) fn laws_test(&self, place: Place) -> Result<(), PropFault>
        ensures { result ≡ laws_of place self.now }
    {
        let mut seen = 0;
        let mut good = true;
        let mut rest = self.reborrow();
        while let Some((prop, after)) = rest.split_first() {
            if !may_follow(place, prop.name, seen) {
                return Err(PropFault::Twice);
            }
            good = has_lawful_value(&prop) && good;
            seen = see(prop.name, seen);
            rest = after;
        }
        if good && has_method_for_data(seen) {
            Ok(())
        } else {
            Err(PropFault::BadValue)
        }
    }
}
