//! The bytes that came and were not answered yet, by what they begin with (MQTT 5.0, 2.1, 2.4, 4.13).
ghost use Rattle.std.specs.Prelude.{◌≡◌, ℕ, IfOk, IfSome, OnOk, OnErr, option_map};
ghost use Rattle.mqtt_packet.specs.parts.Faults.{answer_to};
ghost use Rattle.mqtt_packet.specs.stream.Front.{first_of};
ghost use Rattle.mqtt_rules.specs.step.Piece.{begins_connect, bytes_taken, code_of, fed, first_call, is_whole, without_first};
ghost use Rattle.mqtt_broker.specs.engine.Framers.{AreBytes, BeginsWith, IsLawfulAsked, IsSizedAsked, call_asked};

use crate::engine::asked::Asked;
use mqtt_base::Reason;
use mqtt_packet::{Fault, Framer};
use std::alloc::AllocError;

/// Takes as many bytes of a piece as fit, and none behind a fault. Want of memory alone refuses, and takes none. Of a piece
/// without bytes none is taken, whatever is held, and so nothing is read.
#[tactic(auto, using(crate::proofs::engine_lemmas::FirstPackets::none_taken, crate::proofs::engine_lemmas::FirstPackets::nothing_fed))]
pub(crate) fn take(framer: &mut Framer, piece: &[u8]) -> Result<usize, AllocError>
    ensures taken { IfOk result (λ count. count ≡ bytes_taken framer.old.held piece.now) }
    ensures ok { OnOk result (framer.new ≡ fed piece.now framer.old) }
    ensures err { OnErr result (framer.new ≡ framer.old) }
{
    if piece.is_empty() {
        return Ok(0);
    }
    match framer.feed(piece) {
        Ok(count) => Ok(count),
        Err((Fault::Memory, _)) => Err(AllocError),
        Err((Fault::Malformed | Fault::Protocol | Fault::TooLarge | Fault::Version, _)) => Ok(0),
    }
}

/// Whether the first byte has the type of CONNECT in its high half (2.1.2).
fn begins_connect(framer: &Framer) -> bool
    ensures { result ≡ begins_connect framer.now.held }
{
    match framer.first_byte() {
        Some(byte) => byte / 16 == 1,
        None => false,
    }
}

/// The code with which a fault is answered; want of memory, which no bytes have, would be an unspecified error (2.4).
fn code_of(fault: Fault) -> Reason
    ensures { result.0 ≡ code_of (answer_to fault) }
{
    match fault.reason() {
        Some(reason) => reason,
        None => Reason::UNSPECIFIED_ERROR,
    }
}

/// What the first bytes that are held ask, if anything is whole.
pub(crate) fn first(framer: &mut Framer) -> Result<Option<Asked>, AllocError>
    requires { AreBytes framer.old.held }
    ensures asked { (line : ℕ) → IfOk result (λ asked. option_map (call_asked line) asked
        ≡ first_call line framer.old.held) }
    ensures lawful { IfOk result (λ asked. IfSome asked IsLawfulAsked) }
    ensures sized { IfOk result (λ asked. IfSome asked (IsSizedAsked framer.old.held)) }
    ensures same { framer.new ≡ framer.old }
{
    match framer.first() {
        Ok(Some((packet, _, size))) => Ok(Some(Asked::Whole { packet, size })),
        Ok(None) => Ok(None),
        Err((Fault::Memory, _)) => Err(AllocError),
        Err((fault, _)) => Ok(Some(Asked::Bad {
            is_connect: begins_connect(framer),
            code: code_of(fault),
        })),
    }
}

/// The first packet, of this size, is held no longer. Takes no memory.
#[tactic(auto, using(crate::proofs::engine_lemmas::FirstPackets::skipped))]
pub(crate) fn drop_first(framer: &mut Framer, size: usize)
    requires { BeginsWith size framer.old.held }
    ensures { framer.new ≡ without_first framer.old }
{
    framer.skip(size);
}

/// Whether a packet, or a fault, is whole. Takes no memory.
pub(crate) fn is_whole(framer: &Framer) -> bool
    ensures { result ≡ is_whole (first_of framer.now.held) }
{
    framer.is_whole()
}
