//! The values of a command line (ours).

ghost use Rattle.std.specs.Prelude.{◌≡◌, ◌==◌, ℕ, IfNone, IfSome};
ghost use Rattle.std.specs.List.{after_first};
ghost use Rattle.std.specs.declared.net.socket_addr.SocketAddrV4.{SocketAddrV4};
ghost use Rattle.mqtt_cli.specs.command.Values.{IsAddress, IsCommit, IsCount, IsFull, IsSize, is_padded};
ghost use Rattle.mqtt_flow.specs.declared.outbound.entry.Full.{Full};
ghost use Rattle.mqtt_link.specs.declared.commit.Commit.{Commit};

use mqtt_flow::Full;
use mqtt_link::Commit;
use std::net::SocketAddrV4;

/// Whether more digits stand behind a zero.
fn is_padded(digits: &[u8]) -> bool
    ensures { result ≡ is_padded digits.now }
{
    matches!(digits, [b'0', _, ..])
}

/// Whether the digits behind the first colon of a text begin with a zero, and go on.
fn has_padded_port(text: &str) -> bool
    ensures { result ≡ is_padded (after_first (λ b. b == 58) text.now) }
{
    match text.split_once(':') {
        Some((_, port)) => is_padded(port.as_bytes()),
        None => false,
    }
}

/// The address that a text is: four numbers and a port, without leading zeros.
pub(crate) fn address_read(text: &str) -> Option<SocketAddrV4>
    ensures read { IfSome result (λ address. IsAddress text.now address) }
    ensures only { IfNone result ((address : SocketAddrV4) → ¬ (IsAddress text.now address)) }
{
    if has_padded_port(text) {
        return None;
    }
    match text.parse::<SocketAddrV4>() {
        Ok(address) => Some(address),
        Err(_) => None,
    }
}

/// The number that a text is, from 1 to 2^32 - 1.
pub(crate) fn count_read(text: &str) -> Option<u32>
    ensures read { IfSome result (λ count. IsCount text.now count) }
    ensures only { IfNone result ((count : ℕ) → ¬ (IsCount text.now count)) }
{
    match text.parse::<u32>() {
        Ok(0) | Err(_) => None,
        Ok(count) => Some(count),
    }
}

/// The size of a table that a text is, from 1 to the most that the table may have.
pub(crate) fn size_read(text: &str, most: u32) -> Option<u32>
    ensures read { IfSome result (λ size. IsSize most text.now size) }
    ensures only { IfNone result ((size : ℕ) → ¬ (IsSize most text.now size)) }
{
    match count_read(text) {
        Some(size) if size <= most => Some(size),
        _ => None,
    }
}

/// What becomes of a copy for which a queue has no room, by its word.
pub(crate) fn full_read(text: &str) -> Option<Full>
    ensures read { IfSome result (λ full. IsFull text.now full) }
    ensures only { IfNone result ((full : Full) → ¬ (IsFull text.now full)) }
{
    if text == "refuse" {
        return Some(Full::Refuse);
    }
    if text == "drop" {
        return Some(Full::Drop);
    }
    None
}

/// When the steps of the broker are stored, by its word.
pub(crate) fn commit_read(text: &str) -> Option<Commit>
    ensures read { IfSome result (λ commit. IsCommit text.now commit) }
    ensures only { IfNone result ((commit : Commit) → ¬ (IsCommit text.now commit)) }
{
    if text == "turn" {
        return Some(Commit::Turn);
    }
    if text == "step" {
        return Some(Commit::Step);
    }
    None
}
