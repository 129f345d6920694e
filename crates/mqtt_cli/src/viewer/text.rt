//! The lines of `view` (ours).

ghost use Rattle.std.specs.Prelude.{◌≡◌, ◌++◌, ◌∷◌, [], OnOk};
ghost use Rattle.std.specs.Fmt.{decimal};
ghost use Rattle.mqtt_packet.specs.codec.Frames.{packet_of};
ghost use Rattle.mqtt_cli.specs.viewer.JsonPacket.{json_fault};
ghost use Rattle.mqtt_cli.specs.viewer.View.{end_line, fault_line, fault_text, line, line_feed, rest_line, text_line};

use crate::viewer::details::Details;
use crate::viewer::json_packet::{push_json_fault_line, push_json_line};
use crate::viewer::packet_text::{push_number, push_packet_text};
use mqtt_packet::{Fault, PacketRef};
use std::alloc::{AllocError, Global};

/// Adds a packet's line in words.
#[tactic(auto, using(std::proofs::lemmas::List::append_assoc))]
fn push_text_line(
    alloc: Global,
    text: &mut Vec<u8>,
    details: Details,
    place: u64,
    size: usize,
    packet: &PacketRef<'_>,
) -> Result<(), AllocError>
    ensures { OnOk result (text.new.items ≡ text.old.items ++ text_line details
        (record { place = place; size = size; packet = packet_of packet.now })) }
{
    push_number(text, place)?;
    push_packet_text(alloc, text, details, size, packet)?;
    text.extend_from_slice(b"\n")
}

/// Adds a packet's line.
pub fn push_packet(
    alloc: Global,
    text: &mut Vec<u8>,
    details: Details,
    place: u64,
    size: usize,
    packet: &PacketRef<'_>,
) -> Result<(), AllocError>
    ensures { OnOk result (text.new.items ≡ text.old.items ++ line details
        (record { place = place; size = size; packet = packet_of packet.now })) }
{
    if details.json {
        push_json_line(alloc, text, details.payload, place, size, packet)
    } else {
        push_text_line(alloc, text, details, place, size, packet)
    }
}

/// Adds a line of these words, behind a place.
#[tactic(auto, using(std::proofs::lemmas::List::append_assoc))]
fn push_text_end(text: &mut Vec<u8>, place: u64, words: &[u8]) -> Result<(), AllocError>
    ensures { OnOk result (text.new.items
        ≡ text.old.items ++ (decimal place ++ words.now ++ line_feed ∷ [])) }
{
    push_number(text, place)?;
    text.extend_from_slice(words)?;
    text.extend_from_slice(b"\n")
}

/// Adds the line of what ends a stream early: its words, or the object of its name.
fn push_end(
    text: &mut Vec<u8>,
    details: Details,
    place: u64,
    words: &[u8],
    name: &[u8],
) -> Result<(), AllocError>
    ensures { OnOk result (text.new.items
        ≡ text.old.items ++ end_line details place words.now name.now) }
{
    if details.json {
        push_json_fault_line(text, place, name)
    } else {
        push_text_end(text, place, words)
    }
}

/// What the line of a fault says in words.
fn fault_words(fault: Fault) -> &'static [u8]
    ensures { result.now ≡ fault_text fault }
{
    match fault {
        Fault::Malformed => b" fault Malformed",
        Fault::Protocol => b" fault Protocol",
        Fault::TooLarge => b" fault TooLarge",
        Fault::Version => b" fault Version",
        Fault::Memory => b"",
    }
}

/// The name of a fault.
fn fault_name(fault: Fault) -> &'static [u8]
    ensures { result.now ≡ json_fault fault }
{
    match fault {
        Fault::Malformed => b"Malformed",
        Fault::Protocol => b"Protocol",
        Fault::TooLarge => b"TooLarge",
        Fault::Version => b"Version",
        Fault::Memory => b"",
    }
}

/// Adds the line of a fault.
pub fn push_fault(
    text: &mut Vec<u8>,
    details: Details,
    place: u64,
    fault: Fault,
) -> Result<(), AllocError>
    ensures { OnOk result (text.new.items ≡ text.old.items ++ fault_line details place fault) }
{
    push_end(text, details, place, fault_words(fault), fault_name(fault))
}

/// Adds the line of an input that ends inside a packet, of which `left` bytes have come.
pub fn push_rest(
    text: &mut Vec<u8>,
    details: Details,
    place: u64,
    left: usize,
) -> Result<(), AllocError>
    ensures { OnOk result (text.new.items ≡ text.old.items ++ rest_line details place left) }
{
    if left == 0 {
        return Ok(());
    }
    push_end(text, details, place, b" short", b"short")
}
