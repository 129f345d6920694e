//! Runs of the server: what it writes, and why it ends early (MQTT 5.0, 4.2).
use crate::serving::callers::{LIMITS, any_port, forget};
use mqtt_broker::{Engine, Outcome};
use mqtt_broker_step::EngineError;
use mqtt_keep::Keep;
use mqtt_serve::{Call, Cause, Commit, Journal, Quiet, SocketCause, StoreCause, Unknown, serve};
use std::io;
use std::io::{ErrorKind, Write};
use std::net::{SocketAddr, TcpListener};
use std::test::Fail;

/// A journal that counts how often a server began, and keeps how it ended.
#[derive(Drop)]
struct Heard {
    began: u32,
    ended: Option<Option<Cause>>,
}

impl Journal for Heard {
    fn began<K: Keep>(&mut self, _: u64, _: SocketAddr, _: &Engine<K>) {
        self.began = self.began.saturating_add(1);
    }

    fn accepted(&mut self, _: u64, _: u64, _: Option<SocketAddr>) {}

    fn dropped(&mut self, _: u64, _: Option<SocketAddr>) {}

    fn answered<K: Keep>(
        &mut self,
        _: u64,
        _: Call<'_>,
        _: &Engine<K>,
        _: &Result<Outcome, EngineError>,
    ) {}

    fn rested<K: Keep>(&mut self, _: u64, _: &Engine<K>) {}

    fn ended(&mut self, cause: Option<Cause>) {
        self.ended = Some(cause);
    }
}

/// What three turns at an address over a database write is `listening` and the address, and then `done`, and a journal hears that
/// they begin; or nothing was written and they end early. The journal hears how they end.
fn runs(rt: &HostRuntime, at: SocketAddr, db: &str) -> Result<bool, Cause> {
    let mut written: Vec<u8> = Vec::new(rt.alloc());
    let mut heard = Heard {
        began: 0,
        ended: None,
    };
    let ran = serve(
        rt,
        at,
        db,
        3,
        &mut written,
        LIMITS,
        Commit::Turn,
        Unknown,
        &mut heard,
    );
    let is_silent = written.is_empty();
    let begins = written.starts_with(b"listening 127.0.0.1:");
    let ends = written.ends_with(b"\ndone\n");
    drop(written);
    let (began, ended) = (heard.began, heard.ended);
    drop(heard);
    match ran {
        Ok(()) => Ok(begins && ends && began == 1 && ended == Some(None)),
        Err(cause) if is_silent && began == 0 && ended == Some(Some(cause)) => Err(cause),
        Err(_) => Ok(false),
    }
}

#[test]
fn three_turns_write_where_they_listen_and_that_they_are_done(rt: HostRuntime) {
    let (db, log) = ("three_turns.db", "three_turns.db-wal");
    forget(&rt, db, log);
    let first = runs(&rt, any_port(), db);
    let again = runs(&rt, any_port(), db);
    forget(&rt, db, log);
    assert!(rt; first == Ok(true), "the first time");
    assert!(rt; again == Ok(true), "the same again");
}

#[test]
fn a_folder_is_no_database(rt: HostRuntime) {
    assert!(rt; runs(&rt, any_port(), ".") == Err(Cause::Store(StoreCause::Folder)));
    assert!(rt; runs(&rt, any_port(), ":memory:") == Err(Cause::Store(StoreCause::NoName)));
}

#[test]
fn a_port_in_use_is_told(rt: HostRuntime) -> Result<(), Fail> {
    let other = TcpListener::bind(&rt, any_port())?;
    let at = other.local_addr()?;
    let ran = runs(&rt, at, "port_in_use.db");
    drop(other);
    forget(&rt, "port_in_use.db", "port_in_use.db-wal");
    assert!(rt; ran == Err(Cause::Socket(SocketCause::InUse)));
    Ok(())
}

/// A writer that fails.
#[derive(Drop)]
struct Broken;

impl Write for Broken {
    fn write(&mut self, _: &[u8]) -> io::Result<usize> {
        Err(io::Error::from(ErrorKind::BrokenPipe))
    }

    fn flush(&mut self) -> io::Result<()> {
        Ok(())
    }
}

#[test]
fn a_write_that_fails_is_told(rt: HostRuntime) {
    let ran = serve(
        &rt,
        any_port(),
        "broken.db",
        3,
        &mut Broken,
        LIMITS,
        Commit::Turn,
        Unknown,
        &mut Quiet,
    );
    forget(&rt, "broken.db", "broken.db-wal");
    assert!(rt; ran == Err(Cause::Write));
}
