//! The program over a runtime: its arguments, its files and its streams (ours).

ghost use Rattle.std.specs.Prelude.{◌≡◌, map};
ghost use Rattle.mqtt_cli.specs.command.Line.{AskForVersion, command_of};
ghost use Rattle.mqtt_cli.specs.command.Running.{Answers, AnswersWords, IsOfView, TellsVersion, Writes};
ghost use Rattle.mqtt_rules.specs.step.Laws.{AreWithin, unasked};

use crate::command::line::{Action, LineFault};
use crate::command::outcome::Outcome;
use crate::command::version::write_version;
use crate::command::words::action;
use crate::viewer::{Details, ViewFault, vectors, view};
use mqtt_link::{Commit, ServeFault};
use mqtt_rules::{Capacity, Limits};
use mqtt_script::{Played, ReplayFault};
use std::alloc::{AllocError, Global};
use std::convert::AsStr;
use std::io::{self, ErrorKind, Read, Write};
use std::net::SocketAddrV4;
use std::{env, fs};

/// Why the process's arguments cannot be had: memory is wanting, or one of them is no text.
fn no_words(alloc: Global, error: io::Error) -> LineFault {
    if error.kind() == ErrorKind::OutOfMemory {
        return LineFault::Memory;
    }
    match String::from_str(alloc, "mqtt5: an argument is no text\n") {
        Ok(text) => LineFault::Usage(text),
        Err(AllocError) => LineFault::Memory,
    }
}

/// Writes the view of what a reader gives.
fn view_of<I: Read + Drop, W: Write>(
    alloc: Global,
    mut reader: I,
    writer: &mut W,
    details: Details,
) -> Outcome
    ensures { IsOfView result }
{
    match view(alloc, &mut reader, writer, details) {
        Ok(status) => Outcome::Done(status),
        Err(fault) => Outcome::View(fault),
    }
}

/// Serves as it was handed in; a function of its own, which asks for this one call.
fn served<F: Fn(SocketAddrV4, &str, u32, Capacity, Commit, bool) -> Result<(), ServeFault>>(
    serve: &F,
    listen: SocketAddrV4,
    db: &str,
    turns: u32,
    limits: Capacity,
    commit: Commit,
    log: bool,
) -> Result<(), ServeFault>
    requires callable { F.pre serve.now listen db turns limits commit log }
    ensures { F.post serve.now listen db.entry turns limits commit log result }
{
    serve(listen, db, turns, limits, commit, log)
}

/// Replays as it was handed in; a function of its own, which asks for this one call.
fn replayed<G: Fn(&str, Limits) -> Result<Played, ReplayFault>>(
    replay: &G,
    file: &str,
    limits: Limits,
) -> Result<Played, ReplayFault>
    requires callable { G.pre replay.now file limits }
    ensures { G.post replay.now file.entry limits result }
{
    replay(file, limits)
}

/// Does what these words ask for, the first of which names the program. The command line is looked at first, then
/// the file or the database, then the socket. What files, sockets and standard input hold no contract can say; `view`
/// and `vectors` say what is written. What serves at an address, over the database at a path, for so many turns, storing by
/// the turn or by the step, with or without a log on standard error, and what replays the script at a path, each with limits within those of the tables, are handed in:
/// so nothing of the command line stands on the server or the world.
pub fn perform<
    S: AsStr,
    W: Write,
    F: Fn(SocketAddrV4, &str, u32, Capacity, Commit, bool) -> Result<(), ServeFault>,
    G: Fn(&str, Limits) -> Result<Played, ReplayFault>,
>(rt: &HostRuntime, words: &[S], writer: &mut W, serve: &F, replay: &G) -> Outcome
    requires serves { (listen : _) (db : _) (turns : _) (limits : _) (commit : _) (log : _) → AreWithin limits
        → F.pre serve.now listen db turns limits commit log }
    requires replays { (file : _) (limits : _) → AreWithin (unasked limits) → G.pre replay.now file limits }
    ensures answers { Answers (λ listen db turns limits commit log ended. (text : _) × (text.now ≡ db)
        × F.post serve.now listen text turns limits commit log ended)
        (λ file limits ended. (text : _) × (text.now ≡ file) × G.post replay.now text limits ended)
        (command_of (map S.text words.now)) result }
    ensures version { TellsVersion result → AskForVersion (map S.text words.now) }
    ensures writes { Writes (command_of (map S.text words.now))
        (W.contents writer.old) (W.contents writer.new) result }
{
    match action(rt.alloc(), words) {
        Err(LineFault::Version) => match write_version(writer) {
            Ok(()) => Outcome::Line(LineFault::Version),
            Err(_) => Outcome::Unwritten,
        },
        Err(fault) => Outcome::Line(fault),
        Ok(Action::Vectors) => match vectors(rt.alloc(), writer) {
            Ok(status) => Outcome::Done(status),
            Err(fault) => Outcome::Vectors(fault),
        },
        Ok(
            Action::Serve {
                listen,
                db,
                turns,
                limits,
                commit,
                log,
            },
        ) => match served(serve, listen, db, turns, limits, commit, log) {
            Ok(()) => Outcome::Served,
            Err(fault) => Outcome::Serve(fault),
        },
        Ok(Action::Replay { file, limits }) => match replayed(replay, file, limits) {
            Ok(played) => Outcome::Replayed(played),
            Err(fault) => Outcome::Replay(fault),
        },
        Ok(Action::View { file: "-", details }) => {
            view_of(rt.alloc(), rt.reader(), writer, details)
        }
        Ok(Action::View { file, details }) => match fs::open(rt, file) {
            Ok(file) => view_of(rt.alloc(), file, writer, details),
            Err(error) if error.kind() == ErrorKind::OutOfMemory => {
                Outcome::View(ViewFault::Memory)
            }
            Err(_) => Outcome::NoFile,
        },
    }
}

/// Does what the process's arguments ask for, and writes it to standard output.
pub fn run<
    F: Fn(SocketAddrV4, &str, u32, Capacity, Commit, bool) -> Result<(), ServeFault>,
    G: Fn(&str, Limits) -> Result<Played, ReplayFault>,
>(rt: &HostRuntime, serve: &F, replay: &G) -> Outcome
    requires serves { (listen : _) (db : _) (turns : _) (limits : _) (commit : _) (log : _) → AreWithin limits
        → F.pre serve.now listen db turns limits commit log }
    requires replays { (file : _) (limits : _) → AreWithin (unasked limits) → G.pre replay.now file limits }
    ensures { AnswersWords (λ listen db turns limits commit log ended. (text : _) × (text.now ≡ db)
        × F.post serve.now listen text turns limits commit log ended)
        (λ file limits ended. (text : _) × (text.now ≡ file) × G.post replay.now text limits ended) result }
{
    let words = match env::args(rt) {
        Ok(words) => words.collect::<Vec<String>>(rt.alloc()),
        Err(error) => return Outcome::Line(no_words(rt.alloc(), error)),
    };
    let Ok(words) = words else {
        return Outcome::Line(LineFault::Memory);
    };
    perform(rt, words.as_slice(), &mut io::writer(rt), serve, replay)
}
