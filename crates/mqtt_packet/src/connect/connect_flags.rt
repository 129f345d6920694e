//! The flags of a CONNECT (3.1.2.3).

ghost use Rattle.std.specs.Prelude.{◌≡◌, ◌≤◌};
ghost use Rattle.mqtt_packet.specs.connect.ConnectFlags.{will_flags, will_bits, flags_of, flags_byte};

use crate::parts::qos_of;
use mqtt_base::Qos;

/// What the flags of a CONNECT say of its Will (3.1.2.5 to 3.1.2.7).
#[derive(Clone, Copy, Debug, PartialEq, Eq)]
pub struct WillFlags {
    pub qos: Qos,
    pub retain: bool,
}

/// What the flags of a CONNECT say (3.1.2.3).
#[derive(Clone, Copy, Debug, PartialEq, Eq)]
pub struct Flags {
    pub clean_start: bool,
    pub will: Option<WillFlags>,
    pub user_name: bool,
    pub password: bool,
}

#[inline(always)]
fn will_flags(will: bool, qos: u8, retain: bool) -> Option<Option<WillFlags>>
    ensures { result ≡ will_flags will qos retain }
{
    if will {
        let qos = qos_of(qos)?;
        Some(Some(WillFlags { qos, retain }))
    } else if qos == 0 && !retain {
        Some(None)
    } else {
        None
    }
}

/// What the byte says, if it is lawful.
#[inline(always)]
pub(crate) fn flags_read(byte: u8) -> Option<Flags>
    ensures { result ≡ flags_of byte }
{
    if byte % 2 != 0 {
        return None;
    }
    let will = will_flags(byte / 4 % 2 == 1, byte / 8 % 4, byte / 32 % 2 == 1)?;
    Some(Flags {
        clean_start: byte / 2 % 2 == 1,
        will,
        user_name: byte / 128 == 1,
        password: byte / 64 % 2 == 1,
    })
}

#[inline(always)]
fn will_bits(will: Option<WillFlags>) -> u8
    ensures value { result ≡ will_bits will }
    ensures bound { result ≤ 52 }
{
    match will {
        None => 0,
        Some(will) => {
            let retain = if will.retain { 32 } else { 0 };
            match will.qos {
                Qos::AtMostOnce => 4 + retain,
                Qos::AtLeastOnce => 12 + retain,
                Qos::ExactlyOnce => 20 + retain,
            }
        }
    }
}

impl Flags {
    /// The byte that says so.
    #[inline(always)]
    pub(crate) fn byte(self) -> u8
        ensures { result ≡ flags_byte self }
    {
        let clean_start = if self.clean_start { 2 } else { 0 };
        let password = if self.password { 64 } else { 0 };
        let user_name = if self.user_name { 128 } else { 0 };
        clean_start + will_bits(self.will) + password + user_name
    }
}
