//! Numbers among properties (2.2.2).
ghost use Rattle.std.specs.Prelude.{◌≡◌};
ghost use Rattle.mqtt_props.specs.declared.value.ValueKind.TheVariants as kinds;
ghost use Rattle.mqtt_props.specs.Table.{property_row};
ghost use Rattle.mqtt_records.specs.messages.PassedOn.{number_at};

use mqtt_props::{PropName, PropsRef, ValueRef};
use mqtt_records::number_in;

/// The number of the first property with that name, if there is one (2.2.2). Takes no memory.
pub fn number_at(list: &PropsRef<'_>, name: PropName) -> Option<u32>
    ensures { result ≡ number_at name list.now }
{
    match list.get(name) {
        Some(prop) => Some(number_in(prop.value)),
        None => None,
    }
}

/// The same of a property whose value is a Two Byte Integer.
pub(crate) fn u16_at(list: &PropsRef<'_>, name: PropName) -> Option<u16>
    requires { (property_row name).kind ≡ kinds.U16 }
    ensures { result ≡ number_at name list.now }
{
    match list.get(name) {
        Some(prop) => match prop.value {
            ValueRef::U16(n) => Some(n),
            _ => None,
        },
        None => None,
    }
}
