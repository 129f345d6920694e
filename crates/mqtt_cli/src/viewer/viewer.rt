//! The view of a stream of packets, a line each (ours).

ghost use Rattle.std.specs.Prelude.{◌≡◌, ◌≢◌, ◌==◌, if◌then◌else◌, ◌+◌, ◌<◌, ◌≤◌, ◌++◌, [], length, OnOk, IfOk, IfErr, IfSome, Ok};
ghost use Rattle.std.specs.Io.KnownBytes.{Appends, Keeps};
ghost use Rattle.mqtt_packet.specs.stream.Front.{first_of};
ghost use Rattle.mqtt_packet.specs.stream.Stream.{empty};
ghost use Rattle.mqtt_cli.specs.viewer.View.{line, fault_line, rest_line};
ghost use Rattle.mqtt_cli.specs.viewer.Viewing.{IsDrained, AddsLines, WritesLines, Views, WritesFront};

use crate::viewer::details::Details;
use crate::viewer::text::{push_fault, push_packet, push_rest};
use mqtt_base::PACKET_LIMIT;
use mqtt_packet::{Fault, Framer};
use std::alloc::{AllocError, Global};
use std::io::{ErrorKind, Read, Write};
use thiserror::Error;

/// The most bytes that one read takes.
const CHUNK_SIZE: usize = 4_096;

/// Room for the lines of one read, so that they seldom have to move.
const LINES_SIZE: usize = 5 * CHUNK_SIZE;

/// What a stream ended with.
#[derive(Clone, Copy, Debug, PartialEq, Eq)]
pub enum Status {
    /// A whole packet, or it was empty.
    Whole,
    /// A fault, or less than a packet.
    Faulty,
}

/// Why a view stopped early.
#[derive(Clone, Copy, Debug, PartialEq, Eq, Error)]
pub enum ViewFault {
    /// 1: a read failed. Whole lines were written, a beginning of the view.
    #[error("a read failed")]
    Read = 1,
    /// 2: a write failed. Nothing is said of what was written.
    #[error("a write failed")]
    Write = 2,
    /// 3: want of memory. Whole lines were written, a beginning of the view.
    #[error("want of memory")]
    Memory = 3,
}

impl From<AllocError> for ViewFault {
    ghost use Rattle.mqtt_cli.specs.declared.viewer.viewer.ViewFault.TheVariants.{Memory};

    ghost from_gives = { λ _ e. e ≡ Memory };

    fn from(_error: AllocError) -> ViewFault {
        ViewFault::Memory
    }
}

/// Writes the view of what a reader gives to its end: a line for each packet, and one for a fault
/// or for an input that ends inside a packet. The details say what the lines show beside the fields.
/// A read that was interrupted is tried again. However long the input is, at most a packet and the
/// lines of one read are held.
pub fn view<R: Read, W: Write>(
    alloc: Global,
    reader: &mut R,
    writer: &mut W,
    details: Details,
) -> Result<Status, ViewFault>
    ensures ok { IfOk result (λ status. IfSome (R.remaining reader.old) (λ input.
        Views details input (W.contents writer.old) (W.contents writer.new) status)) }
    ensures err { IfErr result (λ fault. fault ≢ ViewFault.Write
        → IfSome (R.remaining reader.old) (λ input.
        WritesFront details input (W.contents writer.old) (W.contents writer.new))) }
{
    let mut chunk = [0u8; CHUNK_SIZE];
    let mut framer = Framer::new(alloc);
    let status = view_by(alloc, reader, writer, details, &mut chunk, &mut framer);
    drop(framer);
    status
}

/// The same, by reads of at most a chunk, over a framer that holds nothing.
fn view_by<R: Read, W: Write>(
    alloc: Global,
    reader: &mut R,
    writer: &mut W,
    details: Details,
    chunk: &mut [u8],
    framer: &mut Framer,
) -> Result<Status, ViewFault>
    requires room { 0 < length chunk.old }
    requires start { framer.old ≡ empty }
    ensures ok { IfOk result (λ status. IfSome (R.remaining reader.old) (λ input.
        Views details input (W.contents writer.old) (W.contents writer.new) status)) }
    ensures err { IfErr result (λ fault. fault ≢ ViewFault.Write
        → IfSome (R.remaining reader.old) (λ input.
        WritesFront details input (W.contents writer.old) (W.contents writer.new))) }
{
    for _ in 0..u64::MAX {
        let room = chunk.len().min(PACKET_LIMIT - framer.held());
        let count = match reader.read(&mut chunk[..room]) {
            Ok(count) => count,
            Err(error) if error.kind() == ErrorKind::Interrupted => continue,
            Err(_) => return Err(ViewFault::Read),
        };
        if count == 0 {
            return end_view(alloc, writer, details, framer);
        }
        let piece = &chunk[..count];
        if let Some((fault, place)) = write_packets(alloc, framer, piece, writer, details)? {
            write_fault(alloc, writer, details, place, fault)?;
            return Ok(Status::Faulty);
        }
    }
    Err(ViewFault::Read)
}

/// Writes the line of what is left at the end of the input, and tells how the stream ended.
fn end_view<W: Write>(
    alloc: Global,
    writer: &mut W,
    details: Details,
    framer: &Framer,
) -> Result<Status, ViewFault>
    ensures ok { OnOk result (Appends (W.contents writer.old) (W.contents writer.new)
        (rest_line details framer.now.place (length framer.now.held))) }
    ensures status { IfOk result (λ status. status
        ≡ (if length framer.now.held == 0 then Status.Whole else Status.Faulty)) }
    ensures memory { IfErr result (λ e. e ≢ ViewFault.Write
        → Keeps (W.contents writer.old) (W.contents writer.new)) }
{
    let left = framer.held();
    write_rest(alloc, writer, details, framer.place(), left)?;
    Ok(status_of(left))
}

/// Takes the next bytes of the stream, and writes a line for each packet that is whole then. The
/// fault that stands behind them, if any, with its place.
fn write_packets<W: Write>(
    alloc: Global,
    framer: &mut Framer,
    piece: &[u8],
    writer: &mut W,
    details: Details,
) -> Result<Option<(Fault, u64)>, ViewFault>
    requires waits { first_of framer.old.held ≡ Ok None }
    requires room { length framer.old.held + length piece.now ≤ PACKET_LIMIT }
    ensures lines { OnOk result (WritesLines details framer.old piece.now framer.new
        (W.contents writer.old) (W.contents writer.new)) }
    ensures drained { IfOk result (IsDrained framer.new) }
    ensures memory { IfErr result (λ fault. fault ≢ ViewFault.Write
        → Keeps (W.contents writer.old) (W.contents writer.new)) }
{
    if framer.feed(piece).is_err() {
        return Err(ViewFault::Memory);
    }
    let mut lines = Vec::with_capacity(alloc, LINES_SIZE)?;
    let fault = push_packets(alloc, framer, &mut lines, details)?;
    write_text(writer, lines.as_slice())?;
    Ok(fault)
}

/// Adds a line for each whole packet that is held, up to a fault, which it answers with its place.
/// The packets are lent, and what is shown is held no longer.
fn push_packets(
    alloc: Global,
    framer: &mut Framer,
    text: &mut Vec<u8>,
    details: Details,
) -> Result<Option<(Fault, u64)>, AllocError>
    ensures lines { OnOk result (AddsLines details framer.old [] framer.new
        text.old.items text.new.items) }
    ensures drained { IfOk result (IsDrained framer.new) }
{
    'packets: loop {
        let size = match framer.look_sized() {
            Ok(None) => return Ok(None),
            Ok(Some((packet, place, size))) => {
                push_packet(alloc, text, details, place, size, &packet)?;
                size
            }
            Err(fault) => return Ok(Some(fault)),
        };
        framer.skip(size);
    }
}

/// Writes the line of a fault.
fn write_fault<W: Write>(
    alloc: Global,
    writer: &mut W,
    details: Details,
    place: u64,
    fault: Fault,
) -> Result<(), ViewFault>
    ensures ok { OnOk result (Appends (W.contents writer.old) (W.contents writer.new)
        (fault_line details place fault)) }
    ensures memory { IfErr result (λ e. e ≢ ViewFault.Write
        → Keeps (W.contents writer.old) (W.contents writer.new)) }
{
    let mut text = Vec::new(alloc);
    push_fault(&mut text, details, place, fault)?;
    write_text(writer, text.as_slice())
}

/// Writes the line of an input that ends inside a packet, if any bytes are left.
fn write_rest<W: Write>(
    alloc: Global,
    writer: &mut W,
    details: Details,
    place: u64,
    left: usize,
) -> Result<(), ViewFault>
    ensures ok { OnOk result (Appends (W.contents writer.old) (W.contents writer.new)
        (rest_line details place left)) }
    ensures memory { IfErr result (λ e. e ≢ ViewFault.Write
        → Keeps (W.contents writer.old) (W.contents writer.new)) }
{
    let mut text = Vec::new(alloc);
    push_rest(&mut text, details, place, left)?;
    write_text(writer, text.as_slice())
}

/// Writes a text.
fn write_text<W: Write>(writer: &mut W, text: &[u8]) -> Result<(), ViewFault>
    ensures ok { OnOk result (Appends (W.contents writer.old) (W.contents writer.new) text.now) }
    ensures fault { IfErr result (λ e. e ≡ ViewFault.Write) }
{
    match writer.write_all(text) {
        Ok(()) => Ok(()),
        Err(_) => Err(ViewFault::Write),
    }
}

/// How a stream without a fault ends.
fn status_of(left: usize) -> Status
    ensures { result ≡ (if left == 0 then Status.Whole else Status.Faulty) }
{
    if left == 0 {
        Status::Whole
    } else {
        Status::Faulty
    }
}
