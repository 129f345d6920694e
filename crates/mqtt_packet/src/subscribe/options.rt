//! The options of a subscription as a byte (3.8.3.1).

ghost use Rattle.std.specs.Prelude.{◌≡◌, ◌<◌, Some, IfSome};
ghost use Rattle.mqtt_base.specs.declared.session.SubscriptionOptions.{SubscriptionOptions};
ghost use Rattle.mqtt_packet.specs.subscribe.Options.{handling_of, options_of, options_byte};

use crate::parts::qos_of;
use mqtt_base::{Qos, RetainHandling, SubscriptionOptions};

fn handling_of(number: u8) -> Option<RetainHandling>
    ensures { result ≡ handling_of number }
{
    match number {
        0 => Some(RetainHandling::SendAlways),
        1 => Some(RetainHandling::SendIfNew),
        2 => Some(RetainHandling::DoNotSend),
        _ => None,
    }
}

fn options_of(byte: u8) -> Option<SubscriptionOptions>
    ensures { result ≡ options_of byte }
{
    let qos = qos_of(byte % 4)?;
    let retain_handling = handling_of(byte / 16)?;
    Some(SubscriptionOptions {
        qos,
        no_local: byte / 4 % 2 == 1,
        retain_as_published: byte / 8 % 2 == 1,
        retain_handling,
    })
}

/// The options that the byte says; none if a maximum QoS or a Retain Handling of 3 or one of the
/// bits 6 and 7 stands in it (3.8.3.1). Takes no memory.
pub fn options_read(byte: u8) -> Option<SubscriptionOptions>
    ensures found { IfSome result (λ options. byte ≡ options_byte options) }
    ensures only { (options : SubscriptionOptions) → byte ≡ options_byte options
        → result ≡ Some options }
{
    options_of(byte)
}

/// The byte that says the options (3.8.3.1). Takes no memory.
pub(crate) fn options_byte(options: SubscriptionOptions) -> u8
    ensures value { result ≡ options_byte options }
    ensures bound { result < 64 }
{
    let qos = match options.qos {
        Qos::AtMostOnce => 0,
        Qos::AtLeastOnce => 1,
        Qos::ExactlyOnce => 2,
    };
    let no_local = if options.no_local { 4 } else { 0 };
    let retain_as_published = if options.retain_as_published { 8 } else { 0 };
    let retain_handling = match options.retain_handling {
        RetainHandling::SendAlways => 0,
        RetainHandling::SendIfNew => 16,
        RetainHandling::DoNotSend => 32,
    };
    qos + no_local + retain_as_published + retain_handling
}
