//! Client identifiers: 1 to 64 bytes, and those that the broker assigns (3.1.3.1).
ghost use Rattle.std.specs.Prelude.{◌↔◌, IfOk, IsTrue};
ghost use Rattle.mqtt_keep.specs.lawful.Lawful.{IsAssigned, IsClient, IsNumeralUpTo};

use crate::lawful::rows::is_up_to;
use mqtt_base::{CLIENT_LIMIT, Text};
use std::alloc::{AllocError, Global};

/// Whether bytes are the shortest decimal form of a number from 1 up to the last.
fn is_numeral(alloc: Global, text: &[u8], last: u64) -> Result<bool, AllocError>
    ensures { IfOk result (λ lawful. IsTrue lawful ↔ IsNumeralUpTo last text.now) }
{
    let Ok(digits) = str::from_utf8(text) else {
        return Ok(false);
    };
    let Ok(number) = digits.parse::<u64>() else {
        return Ok(false);
    };
    let shortest = format!(in alloc; "{number}")?;
    let is_shortest = shortest.as_str() == digits;
    drop(shortest);
    Ok(is_shortest && is_up_to(last, number))
}

/// Whether a client identifier with the front of those that the broker assigns was assigned.
fn is_assigned(alloc: Global, client: &str, autos: u64) -> Result<bool, AllocError>
    ensures { IfOk result (λ lawful. IsTrue lawful ↔ IsAssigned autos client.now) }
{
    match client.as_bytes().strip_prefix(b"auto-") {
        Some(number) => is_numeral(alloc, number, autos),
        None => Ok(true),
    }
}

/// Whether a session may have this client identifier.
pub(crate) fn is_client(alloc: Global, client: &Text, autos: u64) -> Result<bool, AllocError>
    ensures { IfOk result (λ lawful. IsTrue lawful ↔ IsClient autos client.now) }
{
    let client = client.as_str();
    let is_long = is_up_to(CLIENT_LIMIT as u64, client.len() as u64);
    Ok(is_long && is_assigned(alloc, client, autos)?)
}
