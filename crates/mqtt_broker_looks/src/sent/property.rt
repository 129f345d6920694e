//! A property as bytes, as it is sent (2.2.2.2, 3.3.2.3.3).
ghost use Rattle.std.specs.Prelude.{◌≡◌, ◌++◌, ◌-◌, OnOk};
ghost use Rattle.mqtt_props.specs.Properties.{IsProp, U32, prop};
ghost use Rattle.mqtt_props.specs.declared.table.PropName.TheVariants.{MessageExpiryInterval};
ghost use Rattle.mqtt_props.specs.Views.{prop_of};
ghost use Rattle.mqtt_records.specs.messages.PassedOn.{aged, property};

use mqtt_props::{PropName, PropRef, prop_push};
use mqtt_records::number_in;
use std::alloc::AllocError;

/// Writes a Message Expiry Interval of so many seconds, less those waited, at the end.
fn expiry_push(out: &mut Vec<u8>, seconds: u32, waited: u64) -> Result<(), AllocError>
    ensures { OnOk result (out.new.items ≡ out.old.items ++ prop (property MessageExpiryInterval (U32 (seconds - waited)))) }
{
    let left = u64::from(seconds).saturating_sub(waited);
    out.push(PropName::MessageExpiryInterval.id())?;
    out.extend_from_slice(&(left as u32).to_be_bytes())
}

/// Writes a property as it is sent after so many seconds at the end (3.3.2.3.3).
pub(crate) fn aged_push(out: &mut Vec<u8>, p: PropRef<'_>, waited: u64) -> Result<(), AllocError>
    requires { IsProp (prop_of p) }
    ensures { OnOk result (out.new.items ≡ out.old.items ++ prop (aged waited (prop_of p.entry))) }
{
    if p.name.id() != PropName::MessageExpiryInterval.id() {
        return prop_push(out, p);
    }
    expiry_push(out, number_in(p.value), waited)
}
