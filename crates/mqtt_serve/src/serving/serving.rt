//! The server: turns over sockets and a database (MQTT 5.0, 4.2).
ghost use Rattle.std.specs.Prelude.{◌≡◌, [], codes, Ok, OnOk, IfOk, IfErr};
ghost use Rattle.std.specs.Io.KnownBytes.{Appends, Keeps};
ghost use Rattle.sqlite.specs.WalFiles.{image_at};
ghost use Rattle.mqtt_rules.specs.step.Laws.{AreWithin};
ghost use Rattle.mqtt_serve.specs.declared.causes.cause.StoreCause.TheVariants.{NoName};
ghost use Rattle.mqtt_serve.specs.causes.Causes.{IsOfSocket};
ghost use Rattle.mqtt_serve.specs.gathered.Gathering.{NothingWaits};
ghost use Rattle.mqtt_serve.specs.turns.Settled.{Runs, RunsAlone, SettleServed};
ghost use Rattle.mqtt_serve.specs.turns.Turns.{Begins};
ghost use Rattle.mqtt_serve.specs.serving.Announcing.{Announces, done, listening};
ghost use Rattle.mqtt_serve.specs.serving.Database.{RunsOnDatabase, RunsOnFiles};

use crate::causes::{Cause, of_engine, of_socket};
use crate::gathered::Gathered;
use crate::journal::Journal;
use crate::serving::clock::{SteadyClock, moment};
use crate::serving::store::{
    close_database, open_database, open_engine, store_over, stored_moment, told_apart,
};
use crate::turns::{Links, run_settled_turns};
use mqtt_broker::Engine;
use mqtt_keep::{Keep, Settles};
use mqtt_link::{Commit, HeldBack, PollLink};
use mqtt_rules::Capacity;
use mqtt_store::SqlKeep;
use sqlite::{Alter, Connection, FileFrom, FileStore, Start};
use std::io::Write;
use std::net::SocketAddr;

/// Listens at an address.
fn listen_at(rt: &HostRuntime, address: SocketAddr) -> Result<PollLink, Cause> {
    match PollLink::bind(rt, rt.alloc(), address) {
        Ok(link) => Ok(link),
        Err(error) => Err(of_socket(&error)),
    }
}

/// The address at which it listens, with its port.
fn address_of(link: &PollLink) -> Result<SocketAddr, Cause> {
    match link.address() {
        Ok(address) => Ok(address),
        Err(error) => Err(of_socket(&error)),
    }
}

/// A link without connections, which holds back what is written.
fn links_of(rt: &HostRuntime, link: PollLink) -> Result<Links<HeldBack<PollLink>>, Cause>
    ensures ok { IfOk result (λ links. links.wires ≡ []) }
    ensures fault { IfErr result (λ cause. cause ≡ Cause.Memory) }
{
    match Links::new(rt.alloc(), HeldBack::new(rt.alloc(), link)) {
        Ok(links) => Ok(links),
        Err(_) => Err(Cause::Memory),
    }
}

/// Sends what was written on at once, so that a program that waits for the line sees it.
fn flush<W: Write>(writer: &mut W) -> Result<(), Cause>
    ensures same { Keeps (W.contents writer.old) (W.contents writer.new) }
    ensures fault { IfErr result (λ cause. cause ≡ Cause.Write) }
{
    match writer.flush() {
        Ok(()) => Ok(()),
        Err(_) => Err(Cause::Write),
    }
}

/// Writes the line that tells an address.
fn write_listening<W: Write>(writer: &mut W, address: SocketAddr) -> Result<(), Cause>
    ensures ok { OnOk result (Appends (W.contents writer.old) (W.contents writer.new) (listening address)) }
    ensures fault { IfErr result (λ cause. cause ≡ Cause.Write) }
{
    match writeln!(writer, "listening {address}") {
        Ok(()) => flush(writer),
        Err(_) => Err(Cause::Write),
    }
}

/// Writes the line that tells the end.
fn write_done<W: Write>(writer: &mut W) -> Result<(), Cause>
    ensures ok { OnOk result (Appends (W.contents writer.old) (W.contents writer.new) done) }
    ensures fault { IfErr result (λ cause. cause ≡ Cause.Write) }
{
    match writer.write_all(b"done\n") {
        Ok(()) => flush(writer),
        Err(_) => Err(Cause::Write),
    }
}

/// The opening is stored, so that a database that can't be written is told before anybody may connect.
fn store_opening<K: Settles>(engine: &mut Engine<K>) -> Result<(), Cause>
    ensures settles { OnOk result (SettleServed K.Keep engine.old (Ok tt) engine.new) }
    ensures store { IfErr result (λ cause. ¬ IsOfSocket cause) }
{
    match engine.settle() {
        Ok(()) => Ok(()),
        Err(error) => Err(of_engine(error)),
    }
}

/// Listens, tells where, and runs turns from a moment on. A fault of the socket comes before anything is written.
fn serve_engine<K: Settles, W: Write, J: Journal>(
    rt: &HostRuntime,
    listen: SocketAddr,
    engine: &mut Engine<K>,
    turns: u32,
    begin: u64,
    writer: &mut W,
    journal: &mut J,
) -> Result<(), Cause>
    ensures ok { OnOk result (Announces (W.contents writer.old) (W.contents writer.new) []) }
    ensures ran { OnOk result (RunsAlone K.Keep begin turns engine.old engine.new) }
    ensures socket { IfErr result (λ cause. IsOfSocket cause → Keeps (W.contents writer.old) (W.contents writer.new)) }
{
    let link = listen_at(rt, listen)?;
    let address = address_of(&link)?;
    write_listening(writer, address)?;
    let mut links = links_of(rt, link)?;
    let mut timer = SteadyClock::new(rt, begin);
    journal.began(begin, address, engine);
    match run_settled_turns(&mut links, engine, &mut timer, turns, begin, journal) {
        Ok(()) => Ok(()),
        Err(error) => Err(of_engine(error)),
    }
}

/// Serves at an address, over any store, for so many turns from a moment on, and gives the store back (4.1, 4.2): the broker
/// begins with what the store holds, with these limits, and the opening is stored; then it listens, and writes `listening` and
/// the address. A cause comes with the store; if it is of the socket, nothing was written. The journal hears where it listens
/// and what happens in turns.
pub fn serve_over<K: Settles, W: Write, J: Journal>(
    rt: &HostRuntime,
    listen: SocketAddr,
    keep: K,
    begin: u64,
    turns: u32,
    writer: &mut W,
    limits: Capacity,
    journal: &mut J,
) -> Result<K, (Cause, K)>
    requires { AreWithin limits }
    ensures ok { OnOk result (Announces (W.contents writer.old) (W.contents writer.new) []) }
    ensures ran { IfOk result (λ given. Runs K.Keep limits begin turns keep given) }
    ensures order { IfErr result (λ left. IsOfSocket left.0 → (start : _) × Begins K.Keep limits begin keep start) }
    ensures socket { IfErr result (λ left. IsOfSocket left.0 → Keeps (W.contents writer.old) (W.contents writer.new)) }
{
    let mut engine = open_engine(rt, keep, begin, limits)?;
    match store_opening(&mut engine) {
        Ok(()) => {}
        Err(cause) => return Err((cause, engine.close())),
    }
    let ran = serve_engine(rt, listen, &mut engine, turns, begin, writer, journal);
    let keep = engine.close();
    match ran {
        Ok(()) => Ok(keep),
        Err(cause) => Err((cause, keep)),
    }
}

/// Serves over the database of a connection, which it gives back, from the later of the moment that it stored last and that of
/// the wall clock. A cause comes with the connection's store.
fn serve_database<S: Alter + Drop, W: Write, J: Journal>(
    rt: &HostRuntime,
    listen: SocketAddr,
    mut conn: Connection<S>,
    turns: u32,
    writer: &mut W,
    limits: Capacity,
    commit: Commit,
    journal: &mut J,
) -> Result<Connection<S>, (Cause, S)>
    requires { AreWithin limits }
    ensures ok { OnOk result (Announces (W.contents writer.old) (W.contents writer.new) []) }
    ensures ran { IfOk result (λ given. RunsOnDatabase S.Store ⟦<Gathered<SqlKeep<S>> as Keep>⟧
        (λ keep. keep.keep.conn) (λ keep. NothingWaits keep.changes.items keep.counts) limits turns conn given) }
    ensures socket { IfErr result (λ left. IsOfSocket left.0 → Keeps (W.contents writer.old) (W.contents writer.new)) }
{
    let begin = moment(rt, stored_moment(&mut conn));
    let keep = Gathered::new(rt.alloc(), store_over(rt.alloc(), conn)?, commit);
    match serve_over(rt, listen, keep, begin, turns, writer, limits, journal) {
        Ok(keep) => Ok(keep.into_inner().into_inner()),
        Err((cause, keep)) => Err((cause, keep.into_inner().into_inner().into_store())),
    }
}

/// Serves over the database in the file at a path, and writes `done` in the end.
fn serve_file<W: Write, S: Start, J: Journal>(
    rt: &HostRuntime,
    listen: SocketAddr,
    db: &str,
    turns: u32,
    writer: &mut W,
    limits: Capacity,
    commit: Commit,
    start: S,
    journal: &mut J,
) -> Result<(), Cause>
    requires { AreWithin limits }
    ensures ok { OnOk result (Announces (W.contents writer.old) (W.contents writer.new) done) }
    ensures ran { OnOk result (RunsOnFiles ⟦<Gathered<SqlKeep<FileStore<FileFrom<S>>>> as Keep>⟧
        (λ keep. keep.keep.conn) (λ keep. NothingWaits keep.changes.items keep.counts) (image_at S.Start) limits turns) }
    ensures no_file { db.now ≡ codes ":memory:" → result ≡ Err (Cause.Store NoName) }
    ensures socket { IfErr result (λ cause. IsOfSocket cause → Keeps (W.contents writer.old) (W.contents writer.new)) }
{
    let conn = open_database(rt, db, start)?;
    let conn = match serve_database(rt, listen, conn, turns, writer, limits, commit, journal) {
        Ok(conn) => conn,
        Err((cause, store)) => return Err(told_apart(cause, store)),
    };
    close_database(conn)?;
    write_done(writer)
}

/// A journal hears how the server ended.
fn tell_end<J: Journal>(journal: &mut J, ended: &Result<(), Cause>) {
    match ended {
        Ok(()) => journal.ended(None),
        Err(cause) => journal.ended(Some(*cause)),
    }
}

/// Serves MQTT 5.0 at an address, over the database in the file at a path, for so many turns, with these limits (4.1, 4.2): it
/// writes `listening` and the address, with the port that was bound, and at the end `done`. The database is opened first, then
/// the socket. What the broker did is stored by turns or by steps, and nothing of it goes out before. `S` stands for what the
/// database's files held: `main` passes `Unknown`. It answers why it ended early: if the socket is to blame, nothing was written,
/// and `:memory:` names no file. The journal hears where it listens, what happens in turns, and in the end why it ended.
pub fn serve<W: Write, S: Start, J: Journal>(
    rt: &HostRuntime,
    listen: SocketAddr,
    db: &str,
    turns: u32,
    writer: &mut W,
    limits: Capacity,
    commit: Commit,
    start: S,
    journal: &mut J,
) -> Result<(), Cause>
    requires { AreWithin limits }
    ensures ok { OnOk result (Announces (W.contents writer.old) (W.contents writer.new) done) }
    ensures ran { OnOk result (RunsOnFiles ⟦<Gathered<SqlKeep<FileStore<FileFrom<S>>>> as Keep>⟧
        (λ keep. keep.keep.conn) (λ keep. NothingWaits keep.changes.items keep.counts) (image_at S.Start) limits turns) }
    ensures no_file { db.now ≡ codes ":memory:" → result ≡ Err (Cause.Store NoName) }
    ensures socket { IfErr result (λ cause. IsOfSocket cause → Keeps (W.contents writer.old) (W.contents writer.new)) }
{
    let ended = serve_file(
        rt, listen, db, turns, writer, limits, commit, start, journal,
    );
    tell_end(journal, &ended);
    ended
}
