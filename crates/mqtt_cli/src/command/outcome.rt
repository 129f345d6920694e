//! How the program ends: its exit status, and its text on standard error (ours).

ghost use Rattle.std.specs.Prelude.{◌≡◌, Some};
ghost use Rattle.mqtt_cli.specs.command.Outcome.{exit_status, error_text};

use crate::command::line::LineFault;
use crate::viewer::{Status, VectorsFault, ViewFault};
use mqtt_link::ServeFault;
use mqtt_script::{Played, ReplayFault};
use std::fmt;

/// The exit status of a command that is done.
pub const DONE: u8 = 0;

/// The exit status if the input has a fault, or ends inside a packet, or a script has a line that is bad.
pub const FAULTY: u8 = 1;

/// The exit status of a wrong command line.
pub const USAGE: u8 = 2;

/// The exit status if a file, a socket or the store failed or memory was wanting.
pub const FAILED: u8 = 3;

/// What came of the program's work. `{}` shows it as the text for standard error, which may be empty; that takes no memory.
#[derive(Debug, Drop)]
pub enum Outcome {
    /// The input was read to its end, or the vectors were checked.
    Done(Status),
    /// The command line asks for nothing.
    Line(LineFault),
    /// The version could not be written.
    Unwritten,
    /// The file did not open.
    NoFile,
    /// The view stopped early.
    View(ViewFault),
    /// The report on the vectors stopped early.
    Vectors(VectorsFault),
    /// The script was replayed to its end, or to a line that is bad.
    Replayed(Played),
    /// The replay stopped early.
    Replay(ReplayFault),
    /// The server ended after its turns.
    Served,
    /// The server ended early.
    Serve(ServeFault),
}

/// The exit status. Takes no memory.
pub fn exit_status(outcome: &Outcome) -> u8
    ensures { result ≡ exit_status outcome.now }
{
    match outcome {
        Outcome::Done(Status::Whole)
        | Outcome::Line(LineFault::Version)
        | Outcome::Replayed(Played::Whole)
        | Outcome::Served => DONE,
        Outcome::Done(Status::Faulty) | Outcome::Replayed(Played::Bad(_)) => FAULTY,
        Outcome::Line(LineFault::Usage(_)) => USAGE,
        Outcome::Line(LineFault::Memory)
        | Outcome::Unwritten
        | Outcome::NoFile
        | Outcome::View(_)
        | Outcome::Vectors(_)
        | Outcome::Replay(_)
        | Outcome::Serve(_) => FAILED,
    }
}

impl fmt::Display for Outcome {
    ghost output = { λ outcome. Some (error_text outcome) };

    fn fmt<W: fmt::Write>(&self, f: &mut fmt::Formatter<W>) -> fmt::Result {
        match self {
            Outcome::Done(_)
            | Outcome::Line(LineFault::Version)
            | Outcome::Replayed(Played::Whole)
            | Outcome::Served => Ok(()),
            Outcome::Replayed(Played::Bad(bad)) => {
                writeln!(f, "mqtt5: line {}: {}", bad.number, bad.reason)
            }
            Outcome::Line(LineFault::Usage(text)) => f.write_str(text.as_str()),
            Outcome::Line(LineFault::Memory)
            | Outcome::View(ViewFault::Memory)
            | Outcome::Vectors(VectorsFault::Memory)
            | Outcome::Replay(ReplayFault::Memory)
            | Outcome::Serve(ServeFault::Memory) => f.write_str("mqtt5: memory\n"),
            Outcome::Unwritten
            | Outcome::NoFile
            | Outcome::View(ViewFault::Read)
            | Outcome::View(ViewFault::Write)
            | Outcome::Vectors(VectorsFault::Write)
            | Outcome::Replay(ReplayFault::Read)
            | Outcome::Replay(ReplayFault::Write)
            | Outcome::Serve(ServeFault::Write) => f.write_str("mqtt5: file\n"),
            Outcome::Replay(ReplayFault::Store) | Outcome::Serve(ServeFault::Store) => {
                f.write_str("mqtt5: store\n")
            }
            Outcome::Serve(ServeFault::Socket) => f.write_str("mqtt5: socket\n"),
        }
    }
}
