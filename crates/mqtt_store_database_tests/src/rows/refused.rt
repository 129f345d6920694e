//! Changes of sound rows after which they say no records, and others after which they do.

use super::database::{Refused, after, database, records_of};
use mqtt_keep::KeepError;
use std::alloc::Global;
use std::process::Abort;
use std::test::Fail;

/// Changes of a number, a session or what it has beside its queue.
fn broken_sessions() -> &'static [&'static str] {
    &[
        "DELETE FROM meta WHERE name = 'autos'",
        "INSERT INTO meta VALUES ('more', 1)",
        "UPDATE meta SET n = 1 WHERE name = 'schema'",
        "UPDATE meta SET n = 3 WHERE name = 'schema'",
        "UPDATE meta SET n = -1 WHERE name = 'births'",
        "UPDATE session SET client = '' WHERE birth = 1",
        "INSERT INTO session VALUES (0, 'zero', 60, NULL)",
        "INSERT INTO will VALUES (3, 10, 'gone', 1, 1, x'00', x'')",
        "INSERT INTO inbound VALUES (1, 0)",
        "UPDATE sub SET place = 0 WHERE birth = 1",
        "DELETE FROM session WHERE birth = 1",
        "DELETE FROM session WHERE birth = 2",
    ]
}

/// Changes of a message.
fn broken_messages() -> &'static [&'static str] {
    &[
        "UPDATE message SET pub = 0 WHERE pub = 1",
        "UPDATE message SET pub = 4611686018427387905 WHERE pub = 1",
        "UPDATE message SET topic = CAST(x'ff' AS TEXT) WHERE pub = 1",
        "UPDATE message SET topic = CAST(x'610062' AS TEXT) WHERE pub = 1",
        "UPDATE message SET props = x'' WHERE pub = 1",
        "UPDATE message SET props = x'0000' WHERE pub = 1",
        "UPDATE message SET props = x'020b01' WHERE pub = 1",
        "UPDATE message SET props = x'03230001' WHERE pub = 1",
        "UPDATE message SET props = x'0c2600016b0001760200000001' WHERE pub = 2",
    ]
}

/// Changes of a copy.
fn broken_copies() -> &'static [&'static str] {
    &[
        "UPDATE queued SET place = 0 WHERE birth = 2",
        "UPDATE queued SET place = 4611686018427387905 WHERE birth = 2",
        "UPDATE queued SET pub = 0 WHERE birth = 2",
        "UPDATE queued SET cause = 3 WHERE birth = 2",
        "UPDATE queued SET cause = 0 WHERE birth = 2",
        "UPDATE queued SET cause_text = 'g/a' WHERE birth = 2",
        "UPDATE queued SET cause_n = 0 WHERE birth = 2",
        "UPDATE queued SET pid = NULL WHERE phase = 1",
        "UPDATE queued SET pid = 0 WHERE phase = 1",
        "UPDATE queued SET pid = 65536 WHERE phase = 1",
        "UPDATE queued SET phase = 0 WHERE phase = 1",
        "UPDATE queued SET phase = 4 WHERE phase = 1",
        "UPDATE queued SET phase = 2 WHERE phase = 1",
        "UPDATE queued SET rel = 1 WHERE phase = 1",
        "UPDATE queued SET phase = 2, rel = 0 WHERE phase = 1",
        "UPDATE queued SET phase = 2, rel = 1, qos = 1 WHERE phase = 1",
        "UPDATE queued SET qos = 0 WHERE birth = 2",
        "UPDATE queued SET qos = 3 WHERE birth = 2",
        "UPDATE queued SET retain = 2 WHERE birth = 2",
        "UPDATE queued SET arrived = -1 WHERE birth = 2",
        "UPDATE queued SET arrived = 4611686018427387905 WHERE birth = 2",
    ]
}

/// Changes of the Subscription Identifiers of a copy.
fn broken_identifiers() -> &'static [&'static str] {
    &[
        "UPDATE queued SET idents = x'0b' WHERE birth = 2",
        "UPDATE queued SET idents = x'0b00' WHERE birth = 2",
        "UPDATE queued SET idents = x'0b8100' WHERE birth = 2",
        "UPDATE queued SET idents = x'0bffffffff7f' WHERE birth = 2",
        "UPDATE queued SET idents = x'020b01' WHERE birth = 2",
        "UPDATE queued SET idents = x'0b010b' WHERE birth = 2",
        "UPDATE queued SET idents = x'0b0102' WHERE birth = 2",
        "UPDATE queued SET idents = x'0200000001' WHERE birth = 2",
    ]
}

/// Changes of a retained message.
fn broken_retained() -> &'static [&'static str] {
    &[
        "UPDATE kept SET place = 0",
        "UPDATE kept SET place = 4611686018427387905",
        "UPDATE kept SET topic = CAST(x'ff' AS TEXT)",
        "UPDATE kept SET sender = CAST(x'ff' AS TEXT)",
        "UPDATE kept SET pub = 0",
        "UPDATE kept SET qos = 3",
        "UPDATE kept SET arrived = -1",
    ]
}

/// Changes after which a copy refers to no message.
fn copies_of_nothing() -> &'static [&'static str] {
    &[
        "DELETE FROM message WHERE pub = 1",
        "UPDATE queued SET pub = 3 WHERE birth = 2",
    ]
}

/// Changes after which a retained message refers to none, or to one of another topic.
fn retained_of_nothing() -> &'static [&'static str] {
    &[
        "DELETE FROM message WHERE pub = 2",
        "UPDATE kept SET pub = 3",
        "UPDATE kept SET topic = 'a/c'",
        "UPDATE kept SET pub = 1",
    ]
}

/// Changes after which nothing refers to a message.
fn unreferred() -> &'static [&'static str] {
    &[
        "DELETE FROM queued WHERE pub = 1",
        "UPDATE queued SET pub = 2 WHERE pub = 1",
        "INSERT INTO message VALUES (3, 'a/b', x'00', x'')",
    ]
}

/// Changes after which a row is of no session, behind all others or before them.
fn left_over() -> &'static [&'static str] {
    &[
        "INSERT INTO queued VALUES (3, 1, 1, 0, '', 0, NULL, 0, NULL, 1, 0, x'', 7)",
        "INSERT INTO queued VALUES (0, 1, 1, 0, '', 0, NULL, 0, NULL, 1, 0, x'', 7)",
    ]
}

/// Changes at the edge of each range, and others after which rows are still said.
fn sound() -> &'static [&'static str] {
    &[
        "UPDATE meta SET n = 4611686018427387904 WHERE name = 'publications'",
        "UPDATE queued SET pid = 65535 WHERE phase = 1",
        "UPDATE queued SET phase = 0, pid = NULL",
        "UPDATE queued SET phase = 3, rel = 4611686018427387904 WHERE phase = 1",
        "UPDATE queued SET cause = 1, cause_text = 'g/a/b', cause_n = 0 WHERE birth = 2",
        "UPDATE queued SET qos = 1 WHERE phase = 1",
        "UPDATE queued SET idents = x'0bffffff7f' WHERE birth = 2",
        "UPDATE queued SET idents = x'0b010b010b01' WHERE birth = 2",
        "UPDATE queued SET arrived = 4611686018427387904 WHERE birth = 2",
        "UPDATE message SET props = x'00', payload = x'' WHERE pub = 2",
        "UPDATE kept SET place = 4611686018427387904, arrived = 0",
        "DELETE FROM kept",
        "DELETE FROM queued WHERE birth = 2",
        "UPDATE queued SET pub = 1 WHERE birth = 1",
    ]
}

/// Tries each change, after which these rows are refused.
fn refuse(rt: &impl Abort, alloc: Global, changes: &[&str], wanted: Refused) -> Result<(), Fail> {
    let mut conn = database(alloc)?;
    for change in changes {
        let rows = after(&mut conn, alloc, change, None)?;
        let found = records_of(alloc, rows);
        assert_eq!(rt; found.err(), Some(wanted), "{change}");
    }
    drop(conn);
    Ok(())
}

#[test]
fn no_heads_have_broken_rows(rt: HostRuntime) -> Result<(), Fail> {
    let wanted = Refused::Heads(KeepError::Corrupt);
    refuse(&rt, rt.alloc(), broken_sessions(), wanted)?;
    refuse(&rt, rt.alloc(), broken_retained(), wanted)
}

#[test]
fn no_messages_have_broken_rows(rt: HostRuntime) -> Result<(), Fail> {
    let wanted = Refused::Messages(KeepError::Corrupt);
    refuse(&rt, rt.alloc(), broken_messages(), wanted)
}

#[test]
fn no_queues_have_broken_rows(rt: HostRuntime) -> Result<(), Fail> {
    let wanted = Refused::Queue(KeepError::Corrupt);
    refuse(&rt, rt.alloc(), broken_copies(), wanted)?;
    refuse(&rt, rt.alloc(), broken_identifiers(), wanted)
}

#[test]
fn rows_refer_to_messages(rt: HostRuntime) -> Result<(), Fail> {
    let wanted = Refused::Queue(KeepError::Corrupt);
    refuse(&rt, rt.alloc(), copies_of_nothing(), wanted)?;
    let wanted = Refused::Heads(KeepError::Corrupt);
    refuse(&rt, rt.alloc(), retained_of_nothing(), wanted)
}

#[test]
fn messages_are_referred_to(rt: HostRuntime) -> Result<(), Fail> {
    refuse(&rt, rt.alloc(), unreferred(), Refused::Unreferred)
}

#[test]
fn rows_of_no_session_are_left(rt: HostRuntime) -> Result<(), Fail> {
    refuse(&rt, rt.alloc(), left_over(), Refused::LeftOver)
}

#[test]
fn rows_at_the_edge_are_sound(rt: HostRuntime) -> Result<(), Fail> {
    let mut conn = database(rt.alloc())?;
    for change in sound() {
        let rows = after(&mut conn, rt.alloc(), change, None)?;
        let found = records_of(rt.alloc(), rows);
        assert_eq!(rt; found.err(), None, "{change}");
    }
    drop(conn);
    Ok(())
}

#[test]
fn a_message_has_so_many_bytes(rt: HostRuntime) -> Result<(), Fail> {
    let wanted = Refused::Messages(KeepError::Corrupt);
    let mut conn = database(rt.alloc())?;
    let change = "UPDATE message SET payload = ?1 WHERE pub = 1";
    let rows = after(&mut conn, rt.alloc(), change, Some(199_996))?;
    let found = records_of(rt.alloc(), rows);
    assert_eq!(rt; found.err(), None);
    let rows = after(&mut conn, rt.alloc(), change, Some(199_997))?;
    let found = records_of(rt.alloc(), rows);
    assert_eq!(rt; found.err(), Some(wanted));
    drop(conn);
    Ok(())
}
