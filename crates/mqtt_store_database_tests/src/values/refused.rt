//! Changes of sound rows after which they say no records, and others after which they do.

use super::database::{after, database};
use mqtt_keep::KeepError;
use std::test::Fail;

/// Changes of a number, a session or a Will.
fn broken_sessions() -> &'static [&'static str] {
    &[
        "DELETE FROM meta WHERE name = 'autos'",
        "INSERT INTO meta VALUES ('more', 1)",
        "UPDATE meta SET n = 4611686018427387905 WHERE name = 'publications'",
        "UPDATE meta SET n = 4611686018427387905 WHERE name = 'moment'",
        "UPDATE meta SET n = -1 WHERE name = 'births'",
        "UPDATE meta SET n = 2 WHERE name = 'schema'",
        "UPDATE session SET client = '' WHERE birth = 1",
        "UPDATE session SET client = '12345678901234567890123456789012345678901234567890123456789012345' WHERE birth = 1",
        "UPDATE session SET client = CAST(x'610062' AS TEXT) WHERE birth = 1",
        "UPDATE session SET client = CAST(x'ff' AS TEXT) WHERE birth = 1",
        "UPDATE session SET expiry = 4294967296 WHERE birth = 1",
        "UPDATE session SET expiry = -1 WHERE birth = 1",
        "UPDATE session SET closed = -1 WHERE birth = 1",
        "INSERT INTO session VALUES (0, 'zero', 60, NULL)",
        "UPDATE will SET delay = 4294967296",
        "UPDATE will SET qos = 3",
        "UPDATE will SET retain = 2",
        "UPDATE will SET topic = CAST(x'ff' AS TEXT)",
        "UPDATE will SET props = x'03230001'",
        "UPDATE will SET props = x'05020000000100'",
    ]
}

/// Changes of a subscription or an open identifier.
fn broken_subscriptions() -> &'static [&'static str] {
    &[
        "UPDATE sub SET place = 0",
        "UPDATE sub SET place = 4611686018427387905",
        "UPDATE sub SET qos = 3",
        "UPDATE sub SET nolocal = 2",
        "UPDATE sub SET rap = -1",
        "UPDATE sub SET handling = 3",
        "UPDATE sub SET ident = 268435456",
        "UPDATE sub SET ident = -1",
        "UPDATE sub SET filter = CAST(x'c0' AS TEXT)",
        "INSERT INTO sub VALUES (1, 'a/c', 1, 2, 0, 1, 1, 0)",
        "INSERT INTO inbound VALUES (2, 0)",
        "INSERT INTO inbound VALUES (2, 65536)",
    ]
}

/// Changes of a copy.
fn broken_copies() -> &'static [&'static str] {
    &[
        "UPDATE copy SET place = 0",
        "UPDATE copy SET place = 4611686018427387905",
        "UPDATE copy SET pub = 0",
        "UPDATE copy SET cause = 3",
        "UPDATE copy SET cause_text = 'g/a'",
        "UPDATE copy SET cause_n = 1",
        "UPDATE copy SET cause = 2, cause_n = 0",
        "UPDATE copy SET pid = NULL",
        "UPDATE copy SET pid = 0",
        "UPDATE copy SET pid = 65536",
        "UPDATE copy SET phase = 0",
        "UPDATE copy SET phase = 4",
        "UPDATE copy SET phase = 2",
        "UPDATE copy SET rel = 1",
        "UPDATE copy SET phase = 2, rel = 0",
        "UPDATE copy SET phase = 3, rel = 4611686018427387905",
        "UPDATE copy SET phase = 2, rel = 1, qos = 1",
        "UPDATE copy SET qos = 0",
        "UPDATE copy SET qos = 3",
        "UPDATE copy SET retain = 2",
        "UPDATE copy SET topic = CAST(x'ff' AS TEXT)",
        "UPDATE copy SET props = x''",
        "UPDATE copy SET props = x'0b260001780001790b010b02'",
        "UPDATE copy SET props = x'03230001'",
        "UPDATE copy SET props = x'020b00'",
        "UPDATE copy SET props = x'0a02000000010200000001'",
        "UPDATE copy SET arrived = -1",
        "UPDATE copy SET arrived = 4611686018427387905",
    ]
}

/// Changes of a retained message.
fn broken_retained() -> &'static [&'static str] {
    &[
        "UPDATE retained SET place = 0",
        "UPDATE retained SET place = 4611686018427387905",
        "UPDATE retained SET topic = CAST(x'ff' AS TEXT)",
        "UPDATE retained SET sender = CAST(x'ff' AS TEXT)",
        "UPDATE retained SET pub = 0",
        "UPDATE retained SET qos = 3",
        "UPDATE retained SET props = x'020b01'",
        "UPDATE retained SET props = x'03230001'",
        "UPDATE retained SET arrived = -1",
    ]
}

/// Changes at the edge of each range.
fn sound() -> &'static [&'static str] {
    &[
        "UPDATE meta SET n = 4611686018427387904 WHERE name = 'publications'",
        "UPDATE session SET client = '1234567890123456789012345678901234567890123456789012345678901234' WHERE birth = 1",
        "UPDATE session SET expiry = 0 WHERE birth = 1",
        "UPDATE sub SET ident = 0",
        "UPDATE copy SET pid = 65535",
        "UPDATE copy SET phase = 0, pid = NULL",
        "UPDATE copy SET phase = 3, rel = 4611686018427387904",
        "UPDATE copy SET cause = 1, cause_text = 'g/a/b'",
        "UPDATE copy SET cause = 2, cause_n = 1",
        "UPDATE copy SET qos = 1",
        "DELETE FROM session",
    ]
}

#[test]
fn no_sessions_have_broken_rows(rt: HostRuntime) -> Result<(), Fail> {
    let mut conn = database(rt.alloc())?;
    for change in broken_sessions() {
        let found = after(&mut conn, rt.alloc(), change, None)?;
        assert_eq!(rt; found.err(), Some(KeepError::Corrupt), "{change}");
    }
    for change in broken_subscriptions() {
        let found = after(&mut conn, rt.alloc(), change, None)?;
        assert_eq!(rt; found.err(), Some(KeepError::Corrupt), "{change}");
    }
    drop(conn);
    Ok(())
}

#[test]
fn no_messages_have_broken_rows(rt: HostRuntime) -> Result<(), Fail> {
    let mut conn = database(rt.alloc())?;
    for change in broken_copies() {
        let found = after(&mut conn, rt.alloc(), change, None)?;
        assert_eq!(rt; found.err(), Some(KeepError::Corrupt), "{change}");
    }
    for change in broken_retained() {
        let found = after(&mut conn, rt.alloc(), change, None)?;
        assert_eq!(rt; found.err(), Some(KeepError::Corrupt), "{change}");
    }
    drop(conn);
    Ok(())
}

#[test]
fn rows_at_the_edge_are_sound(rt: HostRuntime) -> Result<(), Fail> {
    let mut conn = database(rt.alloc())?;
    for change in sound() {
        let found = after(&mut conn, rt.alloc(), change, None)?;
        assert_eq!(rt; found.err(), None, "{change}");
    }
    drop(conn);
    Ok(())
}

/// A change of a payload of zeros, and how many of them its row takes.
const PAYLOADS: [(&str, usize); 3] = [
    ("UPDATE will SET payload = ?1", 199_990),
    ("UPDATE copy SET payload = ?1", 199_985),
    ("UPDATE retained SET payload = ?1", 199_991),
];

#[test]
fn a_row_has_so_many_bytes(rt: HostRuntime) -> Result<(), Fail> {
    let mut conn = database(rt.alloc())?;
    for (change, most) in PAYLOADS {
        let found = after(&mut conn, rt.alloc(), change, Some(most))?;
        assert_eq!(rt; found.err(), None, "{change}");
        let found = after(&mut conn, rt.alloc(), change, Some(most + 1))?;
        assert_eq!(rt; found.err(), Some(KeepError::Corrupt), "{change}");
    }
    drop(conn);
    Ok(())
}
