//! What a word of a line stands for (ours).

ghost use Rattle.std.specs.Prelude.{◌≡◌, IfOk, IfErr};
ghost use Rattle.mqtt_script.specs.Reading.{IsReadAs, is_led, name_at, flag_at, qos_at, handling_at, number_at, window_at, alias_maximum_at, identifier_at, bytes_at, payload_at};

use crate::fault::ScriptFault;
use bytes::Bytes;
use hex::FromHexError;
use mqtt_base::{Qos, RetainHandling, Text, VARINT_LIMIT};
use std::alloc::Global;

/// Reads a name, a topic or a filter: a text of one byte or more (1.5.4).
#[tactic(auto, unfolding(crate::specs::Reading::name_at))]
pub(crate) fn name_read(alloc: Global, word: &str) -> Result<Text, ScriptFault>
    ensures { IsReadAs (name_at word.now) result }
{
    if word.is_empty() || !Text::may_hold(word) {
        return Err(ScriptFault::NoEvent);
    }
    Ok(Text::new(alloc, word)?)
}

/// Reads 0 or 1.
#[tactic(auto, unfolding(crate::specs::Reading::flag_at))]
pub(crate) fn flag_read(word: &str) -> Result<bool, ScriptFault>
    ensures { IsReadAs (flag_at word.now) result }
{
    match word {
        "0" => Ok(false),
        "1" => Ok(true),
        _ => Err(ScriptFault::NoEvent),
    }
}

/// Reads a quality of service (4.3).
#[tactic(auto, unfolding(crate::specs::Reading::qos_at))]
pub(crate) fn qos_read(word: &str) -> Result<Qos, ScriptFault>
    ensures { IsReadAs (qos_at word.now) result }
{
    match word {
        "0" => Ok(Qos::AtMostOnce),
        "1" => Ok(Qos::AtLeastOnce),
        "2" => Ok(Qos::ExactlyOnce),
        _ => Err(ScriptFault::NoEvent),
    }
}

/// Reads a Retain Handling (3.8.3.1).
#[tactic(auto, unfolding(crate::specs::Reading::handling_at))]
pub(crate) fn handling_read(word: &str) -> Result<RetainHandling, ScriptFault>
    ensures { IsReadAs (handling_at word.now) result }
{
    match word {
        "0" => Ok(RetainHandling::SendAlways),
        "1" => Ok(RetainHandling::SendIfNew),
        "2" => Ok(RetainHandling::DoNotSend),
        _ => Err(ScriptFault::NoEvent),
    }
}

/// Whether a sign or a zero stands before more bytes.
fn is_led(digits: &[u8]) -> bool
    ensures { result ≡ is_led digits.now }
{
    match digits {
        [first, _, ..] => *first == b'+' || *first == b'0',
        _ => false,
    }
}

/// Reads a number: decimal, without sign or leading zeros.
pub(crate) fn number_read(word: &str) -> Result<u64, ScriptFault>
    ensures { IsReadAs (number_at word.now) result }
{
    let led = is_led(word.as_bytes());
    if led {
        return Err(ScriptFault::NoEvent);
    }
    match word.parse::<u64>() {
        Ok(number) => Ok(number),
        Err(_) => Err(ScriptFault::NoEvent),
    }
}

/// Reads a Receive Maximum, from 1 (3.1.2.11.3).
#[tactic(auto, unfolding(crate::specs::Reading::window_at))]
pub(crate) fn window_read(word: &str) -> Result<u16, ScriptFault>
    ensures { IsReadAs (window_at word.now) result }
{
    let number = number_read(word)?;
    if 0 < number && number < 1 << 16 {
        Ok(number as u16)
    } else {
        Err(ScriptFault::NoEvent)
    }
}

/// Reads a Topic Alias Maximum (3.1.2.11.5).
#[tactic(auto, unfolding(crate::specs::Reading::alias_maximum_at))]
pub(crate) fn alias_maximum_read(word: &str) -> Result<u16, ScriptFault>
    ensures { IsReadAs (alias_maximum_at word.now) result }
{
    let number = number_read(word)?;
    if number < 1 << 16 {
        Ok(number as u16)
    } else {
        Err(ScriptFault::NoEvent)
    }
}

/// Reads a Subscription Identifier, or 0 for none (3.8.2.1.2).
#[tactic(auto, unfolding(crate::specs::Reading::identifier_at))]
pub(crate) fn identifier_read(word: &str) -> Result<Option<u32>, ScriptFault>
    ensures { IsReadAs (identifier_at word.now) result }
{
    let number = number_read(word)?;
    if VARINT_LIMIT as u64 <= number {
        return Err(ScriptFault::NoEvent);
    }
    if 0 < number {
        Ok(Some(number as u32))
    } else {
        Ok(None)
    }
}

/// Bytes that can be shared.
fn shared(bytes: Vec<u8>) -> Result<Bytes, ScriptFault>
    ensures ok { IfOk result (λ shared. shared ≡ bytes.items) }
    ensures fault { IfErr result (λ fault. fault ≡ ScriptFault.Memory) }
{
    match Bytes::from_vec(bytes) {
        Ok(bytes) => Ok(bytes),
        Err(_) => Err(ScriptFault::Memory),
    }
}

/// Reads bytes, in two hexadecimal digits of either case each.
#[tactic(auto, unfolding(crate::specs::Reading::bytes_at))]
pub(crate) fn bytes_read(alloc: Global, word: &str) -> Result<Bytes, ScriptFault>
    ensures { IsReadAs (bytes_at word.now) result }
{
    if word.is_empty() {
        return Err(ScriptFault::NoEvent);
    }
    match hex::decode(alloc, word) {
        Ok(bytes) => shared(bytes),
        Err(FromHexError::OutOfMemory) => Err(ScriptFault::Memory),
        Err(_) => Err(ScriptFault::NoEvent),
    }
}

/// Reads a payload: its bytes, or `-` if it has none.
#[tactic(auto, unfolding(crate::specs::Reading::payload_at))]
pub(crate) fn payload_read(alloc: Global, word: &str) -> Result<Bytes, ScriptFault>
    ensures { IsReadAs (payload_at word.now) result }
{
    if word == "-" {
        Ok(Bytes::new())
    } else {
        bytes_read(alloc, word)
    }
}
