//! Whether this program finds of each vector what is known of it (ours).

ghost use Rattle.std.specs.Prelude.{◌≡◌, ◌≢◌, ◌<◌, ◌↔◌, false, IfOk, IfErr, OnOk, IsTrue, length};
ghost use Rattle.std.specs.String.{string_bytes};
ghost use Rattle.std.specs.Io.KnownBytes.{Appends, Keeps};
ghost use Rattle.mqtt_packet.specs.codec.Packets.{HasSpelling, shortest_of};
ghost use Rattle.mqtt_packet.specs.stream.Stream.{empty};
ghost use Rattle.mqtt_cli.specs.viewer.PacketText.{fields_alone, packet_text};
ghost use Rattle.mqtt_cli.specs.viewer.Vectors.{AreJudged, FindsWhole, IsRight, IsShown, Reports, report};

use crate::viewer::details::Details;
use crate::viewer::packet_text::push_packet_text;
use crate::viewer::vectors_report::{push_report, status_of};
use crate::viewer::vectors_table::{Gives, Vector, known_vectors};
use crate::viewer::viewer::Status;
use mqtt_packet::{Fault, Framer, Packet, encode, lawful};
use std::alloc::{AllocError, Global};
use std::io::Write;
use thiserror::Error;

/// Why the report on the vectors stopped early.
#[derive(Clone, Copy, Debug, PartialEq, Eq, Error)]
pub enum VectorsFault {
    /// 2: a write failed. Nothing is said of what was written.
    #[error("a write failed")]
    Write = 2,
    /// 3: want of memory. Nothing was written.
    #[error("want of memory")]
    Memory = 3,
}

impl From<AllocError> for VectorsFault {
    ghost use Rattle.mqtt_cli.specs.declared.viewer.vectors_checker.VectorsFault.TheVariants.{Memory};

    ghost from_gives = { λ _ e. e ≡ Memory };

    fn from(_error: AllocError) -> VectorsFault {
        VectorsFault::Memory
    }
}

/// Checks each vector in one piece and byte by byte, and writes a line for each and one that counts
/// the right ones. The status is `Whole` exactly if all are right.
pub fn vectors<W: Write>(alloc: Global, writer: &mut W) -> Result<Status, VectorsFault>
    ensures ok { IfOk result (λ status. Reports (W.contents writer.old) (W.contents writer.new) status) }
    ensures memory { IfErr result (λ fault. fault ≢ VectorsFault.Write
        → Keeps (W.contents writer.old) (W.contents writer.new)) }
{
    let rights = checked(alloc, known_vectors())?;
    let status = status_of(rights.as_slice());
    let text = report_text(alloc, rights.as_slice());
    drop(rights);
    write_report(writer, text?)?;
    Ok(status)
}

/// The text of the report on vectors of which these are right.
fn report_text(alloc: Global, rights: &[bool]) -> Result<String, AllocError>
    requires { length rights.now < 1000 }
    ensures { IfOk result (λ text. string_bytes text ≡ report rights.now) }
{
    let mut text = String::new(alloc);
    match push_report(&mut text, rights) {
        Ok(()) => Ok(text),
        Err(error) => {
            drop(text);
            Err(error)
        }
    }
}

/// Writes the text of a report, which is needed no longer.
fn write_report<W: Write>(writer: &mut W, text: String) -> Result<(), VectorsFault>
    ensures ok { OnOk result (Appends (W.contents writer.old) (W.contents writer.new) (string_bytes text)) }
    ensures fault { IfErr result (λ fault. fault ≡ VectorsFault.Write) }
{
    let written = writer.write_all(text.as_str().as_bytes());
    drop(text);
    match written {
        Ok(()) => Ok(()),
        Err(_) => Err(VectorsFault::Write),
    }
}

/// Whether each vector is right.
#[tactic(auto, using(crate::proofs::viewer_lemmas::RightVectors::judged_first, crate::proofs::viewer_lemmas::RightVectors::judged_next, crate::proofs::viewer_lemmas::RightVectors::judged_all))]
fn checked(alloc: Global, vectors: &[Vector]) -> Result<Vec<bool>, AllocError>
    ensures judged { IfOk result (λ rights. AreJudged vectors.now rights.items) }
    ensures count { IfOk result (λ rights. length rights.items ≡ length vectors.now) }
{
    let mut rights = Vec::new(alloc);
    let mut rest = vectors;
    while let Some((first, after)) = rest.split_first() {
        rights.push(is_right(alloc, first)?)?;
        rest = after;
    }
    Ok(rights)
}

/// Whether a frame gives what is known of it, in one piece and byte by byte.
pub fn is_right(alloc: Global, vector: &Vector) -> Result<bool, AllocError>
    ensures { IfOk result (λ right. IsTrue right ↔ IsRight vector.now.frame.now vector.now.gives) }
{
    if is_right_in_pieces(alloc, vector, usize::MAX)? {
        is_right_in_pieces(alloc, vector, 1)
    } else {
        Ok(false)
    }
}

/// The same, in pieces of so many bytes.
#[tactic(auto, using(crate::proofs::viewer_lemmas::RightVectors::refused_right, crate::proofs::viewer_lemmas::RightVectors::none_right, crate::proofs::viewer_lemmas::RightVectors::shown_right))]
fn is_right_in_pieces(alloc: Global, vector: &Vector, step: usize) -> Result<bool, AllocError>
    requires { 0 < step }
    ensures { IfOk result (λ right. IsTrue right ↔ IsRight vector.now.frame.now vector.now.gives) }
{
    let mut framer = Framer::new(alloc);
    let found = whole_of(&mut framer, vector.frame, step);
    drop(framer);
    match found {
        Err(Fault::Memory) => Err(AllocError),
        Err(fault) => Ok(is_refusal(&vector.gives, fault)),
        Ok(None) => Ok(false),
        Ok(Some(packet)) => {
            let is_shown = is_shown(alloc, &vector.gives, vector.frame.len(), &packet);
            drop(packet);
            is_shown
        }
    }
}

/// The packet that a frame is by a framer that holds nothing, in pieces of so many bytes; none if it
/// ends inside a packet or goes on behind one.
fn whole_of(framer: &mut Framer, frame: &[u8], step: usize) -> Result<Option<Packet>, Fault>
    requires start { framer.old ≡ empty }
    requires some { 0 < step }
    ensures { FindsWhole frame.now result }
{
    let mut rest = frame;
    while !rest.is_empty() {
        let (piece, _) = rest.split_at(step.min(rest.len()));
        let count = match framer.feed(piece) {
            Ok(count) => count,
            Err((fault, _)) => return Err(fault),
        };
        let (_, after) = rest.split_at(count);
        match framer.next() {
            Ok(None) => rest = after,
            Ok(Some((packet, _))) => {
                if after.len() + framer.held() == 0 {
                    return Ok(Some(packet));
                }
                drop(packet);
                return Ok(None);
            }
            Err((fault, _)) => return Err(fault),
        }
    }
    Ok(None)
}

/// Whether a frame is known to be refused so.
fn is_refusal(gives: &Gives, fault: Fault) -> bool
    ensures { IsTrue result ↔ (gives.now ≡ Gives.Refusal fault) }
{
    match gives {
        Gives::Packet { .. } => false,
        Gives::Refusal(known) => *known == fault,
    }
}

/// Whether a frame is known to give this packet of this size.
fn is_shown(alloc: Global, gives: &Gives, size: usize, packet: &Packet) -> Result<bool, AllocError>
    ensures { IfOk result (λ shown. IsTrue shown ↔ IsShown gives.now size packet.now) }
{
    let Gives::Packet { line, shortest } = *gives else {
        return Ok(false);
    };
    if !lawful(packet) {
        return Ok(false);
    }
    Ok(has_line(alloc, packet, size, line)? && has_spelling(alloc, packet, shortest)?)
}

/// Whether this is the line of a packet of this size, without its place.
fn has_line(alloc: Global, packet: &Packet, size: usize, line: &[u8]) -> Result<bool, AllocError>
    ensures { IfOk result (λ is. IsTrue is ↔ (line.now ≡ packet_text fields_alone size packet.now)) }
{
    let mut text = Vec::new(alloc);
    let details = Details {
        payload: false,
        properties: false,
        json: false,
    };
    let pushed = push_packet_text(alloc, &mut text, details, size, &packet.lend());
    let is_line = text.as_slice() == line;
    drop(text);
    pushed?;
    Ok(is_line)
}

/// Whether this is the shortest spelling of a packet.
fn has_spelling(alloc: Global, packet: &Packet, shortest: &[u8]) -> Result<bool, AllocError>
    requires { HasSpelling packet.now }
    ensures { IfOk result (λ is. IsTrue is ↔ (shortest.now ≡ shortest_of packet.now)) }
{
    match encode(alloc, packet) {
        Ok(frame) => Ok(frame.as_slice() == shortest),
        Err(_) => Err(AllocError),
    }
}
