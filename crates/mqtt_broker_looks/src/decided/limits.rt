//! What a DISCONNECT may not set (3.14.2.2.2).
ghost use Rattle.std.specs.Prelude.{◌≡◌};
ghost use Rattle.mqtt_rules.specs.step.Inbound.{is_late_expiry};

/// Whether a DISCONNECT sets a Session Expiry Interval above 0 if CONNECT had 0 (3.14.2.2.2).
/// Takes no memory.
pub fn is_late_expiry(asked: Option<u32>, expiry: u32) -> bool
    ensures { result ≡ is_late_expiry asked expiry }
{
    match asked {
        Some(seconds) => seconds > 0 && expiry == 0,
        None => false,
    }
}
