//! Moments in milliseconds: their sums, what is due, what has expired (3.1.2.10, 3.3.2.3.3).
ghost use Rattle.std.specs.Prelude.{◌≡◌, ◌≤◌, ◌-◌, ◌/◌, ℕ, Option, is_some};
ghost use Rattle.mqtt_base.specs.declared.limits.TheConstants.{LAST_NUMBER};
ghost use Rattle.mqtt_flow.specs.outbound.Outbound.{is_past};
ghost use Rattle.mqtt_records.specs.messages.PassedOn.{number_at};
ghost use Rattle.mqtt_rules.specs.step.Packets.{is_expired, seconds_waited};
ghost use Rattle.mqtt_rules.specs.step.State.{Line, capped, later};
ghost use Rattle.mqtt_rules.specs.step.Closing.{is_due};
ghost use Rattle.mqtt_rules.specs.step.Tick.{is_silent, is_stale};

use crate::decided::numbers::number_at;
use mqtt_base::{CONNECT_TIME, LAST_NUMBER};
use mqtt_props::PropName;
use mqtt_records::{Content, RetainedMessage};

/// A moment, or the last one if it is above that (ours). Takes no memory.
pub fn capped(moment: u64) -> u64
    ensures { result ≡ capped moment }
{
    moment.min(LAST_NUMBER)
}

/// The moment after so many milliseconds, at most the last one (ours). Takes no memory.
pub fn later(moment: u64, wait: u64) -> u64
    ensures { result ≡ later moment wait }
{
    capped(moment.saturating_add(wait))
}

/// Whether a moment that is set has come. Takes no memory.
pub fn is_due(now: u64, moment: Option<u64>) -> bool
    ensures { result ≡ is_due now moment }
{
    match moment {
        Some(moment) => moment <= now,
        None => false,
    }
}

/// Whole seconds since a moment.
fn seconds_since(now: u64, moment: u64) -> u64
    ensures { result ≡ (now - moment) / 1000 }
{
    now.saturating_sub(moment) / 1_000
}

/// Whole seconds since the publication was accepted. Takes no memory.
pub fn seconds_waited(now: u64, content: &Content) -> u64
    ensures { result ≡ seconds_waited now content.now }
{
    seconds_since(now, content.arrived)
}

/// Whether a Message Expiry Interval, if there is one, has passed since that moment (3.3.2.3.3). Takes
/// no memory.
pub fn is_past(now: u64, arrived: u64, interval: Option<u32>) -> bool
    ensures { result ≡ is_past interval ((now - arrived) / 1000) }
{
    match interval {
        Some(interval) => u64::from(interval) <= seconds_since(now, arrived),
        None => false,
    }
}

/// Whether its Message Expiry Interval has passed (3.3.2.3.3). Takes no memory.
pub fn is_expired(now: u64, content: &Content) -> bool
    ensures { result ≡ is_expired now content.now }
{
    let list = content.properties.lend();
    let interval = number_at(&list, PropName::MessageExpiryInterval);
    is_past(now, content.arrived, interval)
}

/// When a Message Expiry Interval has passed since that moment, never without one (3.3.2.3.3). Takes no
/// memory.
pub fn interval_due(arrived: u64, interval: Option<u32>) -> Option<u64>
    ensures { (now : ℕ) → now ≤ LAST_NUMBER
        → is_due now result ≡ is_past interval ((now - arrived) / 1000) }
{
    match interval {
        Some(0) => Some(0),
        Some(interval) => Some(arrived.saturating_add(1_000 * u64::from(interval))),
        None => None,
    }
}

/// When its Message Expiry Interval has passed, never without one (3.3.2.3.3). Takes no memory.
pub fn expiry_due(content: &Content) -> Option<u64>
    ensures { (now : ℕ) → now ≤ LAST_NUMBER → is_due now result ≡ is_expired now content.now }
{
    let list = content.properties.lend();
    let interval = number_at(&list, PropName::MessageExpiryInterval);
    interval_due(content.arrived, interval)
}

/// Whether a retained message has expired (3.3.2.3.3). Takes no memory.
pub fn is_stale(now: u64, kept: &RetainedMessage) -> bool
    ensures { result ≡ is_stale now kept.now }
{
    is_expired(now, &kept.content)
}

/// When a line closes if no packet comes: ten seconds after it was linked while no session is
/// connected on it (ours), then one and a half times Keep Alive after its last packet, never if
/// that is 0 (3.1.2.10). Takes no memory.
pub fn silence_due(heard: u64, keep_alive: u16, is_connected: bool) -> Option<u64>
    ensures { (now : ℕ) (l : Line) (session : Option ℕ) → l.heard ≡ heard → l.keep_alive ≡ keep_alive
        → is_some session ≡ is_connected → is_due now result ≡ is_silent now session l }
{
    if !is_connected {
        return Some(later(heard, CONNECT_TIME));
    }
    if keep_alive == 0 {
        return None;
    }
    Some(later(heard, 1_500 * u64::from(keep_alive)))
}

/// Whether a line is silent for too long (3.1.2.10). Takes no memory.
pub fn is_silent(now: u64, heard: u64, keep_alive: u16, is_connected: bool) -> bool
    ensures { (l : Line) (session : Option ℕ) → l.heard ≡ heard → l.keep_alive ≡ keep_alive
        → is_some session ≡ is_connected → result ≡ is_silent now session l }
{
    is_due(now, silence_due(heard, keep_alive, is_connected))
}
