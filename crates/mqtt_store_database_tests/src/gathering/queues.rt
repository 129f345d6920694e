//! The queues of sessions, gathered one row after the other.

use super::database::{begun, database, message_rows, queued_rows, slim_in, tables, take_all};
use mqtt_base::{Cause, Phase, QUEUE_LIMIT, Qos};
use mqtt_keep::KeepError;
use mqtt_records::Records;
use mqtt_store_rows::gathering::{GatheredMessages, GatheredQueues};
use mqtt_store_rows::rows::{Messages, copy_of};
use sqlite::{Connection, Error, MemStore, Row, params};
use std::alloc::Global;
use std::test::Fail;

/// Three sessions more. That with birth 5 has a copy of publication 3, and one of publication 1 that was
/// sent for its subscribe; the one before it has no queue, and so has the last.
const SEVERAL: [&str; 3] = [
    "UPDATE meta SET n = 8 WHERE name = 'births'",
    "INSERT INTO session VALUES (3, 'r3', 60, 7), (5, 'r5', 60, NULL), (8, 'r8', 60, 7)",
    "INSERT INTO queued VALUES (5, 2, 3, 0, '', 0, NULL, 0, NULL, 1, 0, x'', 9), (5, 4, 1, 2, '', 1, 7, 1, NULL, 2, 1, x'', 9)",
];

/// The rows of the first session with a queue, those of the second, and no rows.
const FIRST: &str = "SELECT * FROM queued WHERE birth = 1 ORDER BY place";

const SECOND: &str = "SELECT * FROM queued WHERE birth = 5 ORDER BY place";

const NONE: &str = "SELECT * FROM queued WHERE birth = 9";

/// A database with several sessions, after a further change.
fn several(alloc: Global, change: &str) -> Result<Connection<MemStore>, Error> {
    let mut conn = database(alloc, "")?;
    for text in SEVERAL {
        conn.execute_batch(text)?;
    }
    conn.execute_batch(change)?;
    Ok(conn)
}

/// What these rows of queues say, the answers of one query behind the other, with the other rows that a
/// database has.
fn found_in(
    alloc: Global,
    conn: &mut Connection<MemStore>,
    queries: &[&str],
) -> Result<Result<Records, KeepError>, Error> {
    let rows = message_rows(conn)?;
    let tables = tables(conn)?;
    let mut queues = match begun(alloc, &rows, &tables) {
        Ok(queues) => queues,
        Err(fault) => return Ok(Err(fault)),
    };
    for query in queries {
        let part = conn.query_all(query, &[])?;
        take_all(&mut queues, &part)?;
    }
    Ok(queues.finish())
}

/// What these rows of queues say with several sessions.
fn found(alloc: Global, queries: &[&str]) -> Result<Result<Records, KeepError>, Error> {
    let mut conn = several(alloc, "")?;
    let found = found_in(alloc, &mut conn, queries);
    drop(conn);
    found
}

/// What several sessions have after a change.
fn after(alloc: Global, change: &str) -> Result<Result<Records, KeepError>, Error> {
    let mut conn = several(alloc, change)?;
    let found = slim_in(alloc, &mut conn);
    drop(conn);
    found
}

/// How many copies the queue of a session has; none if there is no such session.
fn count(records: &Records, birth: u64) -> Option<usize> {
    Some(records.sessions.get(birth)?.get().queue.len())
}

/// What a slim row tells of its copy: its publication, and bytes of its PUBLISH, of its properties and of its payload.
fn told(records: &Records, birth: u64, place: u64) -> Option<(u64, u32, u32, usize)> {
    let row = records.sessions.get(birth)?.get().queue.get(place)?.get();
    if row.whole().is_some() {
        return None;
    }
    Some((
        row.id().publication,
        row.size(),
        row.pairs(),
        row.payload_len(),
    ))
}

#[test]
fn each_session_has_its_queue(rt: HostRuntime) -> Result<(), Fail> {
    let records = after(rt.alloc(), "")??;
    assert_eq!(rt; records.sessions.len(), 4);
    assert_eq!(rt;
        (count(&records, 1), count(&records, 3)),
        (Some(2), Some(0))
    );
    assert_eq!(rt;
        (count(&records, 5), count(&records, 8)),
        (Some(2), Some(0))
    );
    assert_eq!(rt; told(&records, 1, 1), Some((1, 11, 0, 1)));
    assert_eq!(rt; told(&records, 1, 2), Some((2, 29, 17, 2)));
    // 32 0c 0003 a/d 0001 00 kept (3.3)
    assert_eq!(rt; told(&records, 5, 2), Some((3, 14, 0, 4)));
    // 35 09 0003 a/c 0001 00 a (3.3)
    assert_eq!(rt; told(&records, 5, 4), Some((1, 11, 0, 1)));
    let Some(last) = records.sessions.last() else {
        panic!(rt; "no session");
    };
    assert_eq!(rt; (last.get().birth, last.get().closed), (8, Some(7)));
    drop(records);
    Ok(())
}

#[test]
fn rows_behind_a_session_without_a_queue_are_read(rt: HostRuntime) -> Result<(), Fail> {
    let records = after(rt.alloc(), "")??;
    let Some(session) = records.sessions.get(5) else {
        panic!(rt; "no session");
    };
    let Some(row) = session.get().queue.get(4) else {
        panic!(rt; "no copy");
    };
    let row = row.get();
    assert_eq!(rt; (row.id().birth, row.arrived(), row.expiry()), (5, 9, None));
    assert!(rt; row.id().cause == Cause::Retained { subscribe: 1 } && row.retain());
    assert!(rt; row.qos() == Qos::ExactlyOnce && row.phase() == Phase::Sent { identifier: 7 });
    assert_eq!(rt; row.topic().as_str(), "a/c");
    drop(records);
    Ok(())
}

#[test]
fn all_else_stays(rt: HostRuntime) -> Result<(), Fail> {
    let mut records = after(rt.alloc(), "INSERT INTO inbound VALUES (3, 10)")??;
    assert_eq!(rt;
        (records.births, records.publications, records.subscribes),
        (8, 3, 1)
    );
    assert_eq!(rt; (records.autos, records.moment), (0, 9));
    assert_eq!(rt; records.retained.len(), 2);
    let Some(session) = records.sessions.get(3) else {
        panic!(rt; "no session");
    };
    let session = session.get();
    assert_eq!(rt; (session.client.as_str(), session.expiry), ("r3", 60));
    assert_eq!(rt; session.inbound.len(), 1);
    records.make_all_slim();
    assert_eq!(rt; told(&records, 1, 2), Some((2, 29, 17, 2)), "it was slim");
    drop(records);
    Ok(())
}

/// Whether a row of a queue is kept, and slim as that of the copy which it says.
fn is_kept_slim(
    alloc: Global,
    records: &Records,
    messages: &Messages,
    row: &Row,
) -> Result<bool, KeepError> {
    let mut copy = copy_of(alloc, messages, row)?;
    copy.make_slim();
    let Some(session) = records.sessions.get(copy.id().birth) else {
        return Ok(false);
    };
    let Some(kept) = session.get().queue.get(copy.place()) else {
        return Ok(false);
    };
    let kept = kept.get();
    let is_same = kept.whole().is_none()
        && kept.phase() == copy.phase()
        && kept.id().publication == copy.id().publication
        && kept.id().cause == copy.id().cause
        && kept.topic().as_str() == copy.topic().as_str();
    Ok(
        is_same
            && (kept.qos(), kept.retain()) == (copy.qos(), copy.retain())
            && (kept.arrived(), kept.expiry()) == (copy.arrived(), copy.expiry())
            && (kept.size(), kept.pairs()) == (copy.size(), copy.pairs())
            && kept.payload_len() == copy.payload_len(),
    )
}

#[test]
fn copies_are_those_of_the_rows_slim(rt: HostRuntime) -> Result<(), Fail> {
    let alloc = rt.alloc();
    let mut conn = several(alloc, "")?;
    let rows = message_rows(&mut conn)?;
    let queued = queued_rows(&mut conn)?;
    let records = slim_in(alloc, &mut conn)?;
    drop(conn);
    let records = records?;
    let mut gathered = GatheredMessages::new(alloc, &[])?;
    take_all(&mut gathered, &rows)?;
    let Some(messages) = gathered.into_messages() else {
        panic!(rt; "rows that say no messages");
    };
    assert_eq!(rt; queued.len(), 4);
    for row in &queued {
        assert!(rt; is_kept_slim(alloc, &records, &messages, row)?);
    }
    drop(messages);
    drop(records);
    Ok(())
}

/// A row of session 1 that says no copy: too few columns, or one that has another type.
fn broken() -> &'static [&'static str] {
    &[
        "SELECT 1",
        "SELECT birth, place, pub, cause, cause_text, cause_n, pid, phase, rel, qos, retain, idents FROM queued WHERE birth = 1 AND place = 1",
        "SELECT '1', 1, 1, 0, '', 0, NULL, 0, NULL, 1, 0, x'', 7",
        "SELECT NULL, 1, 1, 0, '', 0, NULL, 0, NULL, 1, 0, x'', 7",
        "SELECT 1, '1', 1, 0, '', 0, NULL, 0, NULL, 1, 0, x'', 7",
        "SELECT 1, 1, NULL, 0, '', 0, NULL, 0, NULL, 1, 0, x'', 7",
        "SELECT 1, 1, 1, 0, x'', 0, NULL, 0, NULL, 1, 0, x'', 7",
        "SELECT 1, 1, 1, 0, '', 0, NULL, 0, NULL, '1', 0, x'', 7",
        "SELECT 1, 1, 1, 0, '', 0, NULL, 0, NULL, 1, 0, '', 7",
        "SELECT 1, 1, 1, 0, '', 0, NULL, 0, NULL, 1, 0, x'0b', 7",
        "SELECT 1, 1, 1, 0, '', 0, NULL, 0, NULL, 1, 0, x'', NULL",
    ]
}

#[test]
fn broken_rows_say_no_queues(rt: HostRuntime) -> Result<(), Fail> {
    let alloc = rt.alloc();
    let second = "SELECT * FROM queued WHERE birth = 1 AND place = 2";
    for row in broken() {
        let alone = found(alloc, &[row, second])?;
        assert_eq!(rt; alone.err(), Some(KeepError::Corrupt), "{row}");
        let followed = found(alloc, &[row, second, SECOND])?;
        assert_eq!(rt; followed.err(), Some(KeepError::Corrupt), "{row}");
        // A sound row of the same place does not mend it.
        let mended = found(alloc, &[row, FIRST, SECOND])?;
        assert_eq!(rt; mended.err(), Some(KeepError::Corrupt), "{row}");
    }
    let sound = "SELECT 1, 1, 1, 0, '', 0, NULL, 0, NULL, 1, 0, x'', 7";
    assert!(rt; found(alloc, &[sound, second, SECOND])?.is_ok());
    Ok(())
}

#[test]
fn rows_of_no_session_are_corrupt(rt: HostRuntime) -> Result<(), Fail> {
    let alloc = rt.alloc();
    let before = "SELECT 0, 1, 1, 0, '', 0, NULL, 0, NULL, 1, 0, x'', 7";
    let between = "SELECT 4, 1, 1, 0, '', 0, NULL, 0, NULL, 1, 0, x'', 7";
    let behind = "SELECT 9, 1, 1, 0, '', 0, NULL, 0, NULL, 1, 0, x'', 7";
    for rows in [
        [before, FIRST, SECOND],
        [FIRST, between, SECOND],
        [FIRST, SECOND, behind],
        [FIRST, SECOND, between],
        [behind, FIRST, SECOND],
    ] {
        let found = found(alloc, &rows)?;
        assert_eq!(rt; found.err(), Some(KeepError::Corrupt), "{}", rows[1]);
    }
    let last = "SELECT 8, 1, 1, 0, '', 0, NULL, 0, NULL, 1, 0, x'', 7";
    let records = found(alloc, &[FIRST, SECOND, last])??;
    assert_eq!(rt; count(&records, 8), Some(1));
    drop(records);
    Ok(())
}

#[test]
fn rows_come_in_order(rt: HostRuntime) -> Result<(), Fail> {
    let alloc = rt.alloc();
    assert!(rt; found(alloc, &[FIRST, SECOND, NONE])?.is_ok());
    let late = "SELECT 1, 3, 3, 0, '', 0, NULL, 0, NULL, 1, 0, x'', 7";
    let falling = "SELECT * FROM queued WHERE birth = 1 ORDER BY place DESC";
    let equal = "SELECT 1, 2, 3, 0, '', 0, NULL, 0, NULL, 1, 0, x'', 7";
    assert!(rt; found(alloc, &[FIRST, late, SECOND])?.is_ok());
    for rows in [
        [FIRST, SECOND, late],
        [falling, SECOND, NONE],
        [FIRST, equal, SECOND],
        [FIRST, FIRST, SECOND],
        [SECOND, FIRST, NONE],
        [FIRST, SECOND, SECOND],
    ] {
        let found = found(alloc, &rows)?;
        assert_eq!(rt; found.err(), Some(KeepError::Corrupt), "{}", rows[1]);
    }
    Ok(())
}

/// Changes after which a queue does not fit the messages, or its session is not lawful with it.
fn unfit() -> &'static [&'static str] {
    &[
        // no message of the number
        "UPDATE queued SET pub = 4 WHERE birth = 5 AND place = 2",
        "UPDATE queued SET pub = 4 WHERE birth = 5 AND place = 2; UPDATE meta SET n = 4 WHERE name = 'publications'",
        // the last copy of a message
        "DELETE FROM queued WHERE pub = 1",
        // not a copy that a queue has: 4.3, 4.6
        "UPDATE queued SET qos = 0 WHERE birth = 5 AND place = 2",
        "UPDATE queued SET qos = 3 WHERE birth = 5 AND place = 2",
        "UPDATE queued SET retain = 2 WHERE birth = 5 AND place = 2",
        "UPDATE queued SET phase = 9 WHERE birth = 5 AND place = 4",
        "UPDATE queued SET pid = NULL WHERE birth = 5 AND place = 4",
        "UPDATE queued SET place = 0 WHERE birth = 5 AND place = 2",
        // two with one packet identifier, and two that are the same
        "UPDATE queued SET pid = 7, phase = 1 WHERE birth = 5 AND place = 2",
        "UPDATE queued SET pub = 1, cause = 2, cause_n = 1 WHERE birth = 5 AND place = 2",
        // a subscribe, a moment and a group that have not been
        "UPDATE queued SET cause_n = 2 WHERE birth = 5 AND place = 4",
        "UPDATE queued SET arrived = 10 WHERE birth = 5 AND place = 2",
        "UPDATE queued SET cause = 1, cause_text = 'g' WHERE birth = 5 AND place = 2",
    ]
}

#[test]
fn queues_that_do_not_fit_are_corrupt(rt: HostRuntime) -> Result<(), Fail> {
    let alloc = rt.alloc();
    for change in unfit() {
        let found = after(alloc, change)?;
        assert_eq!(rt; found.err(), Some(KeepError::Corrupt), "{change}");
    }
    Ok(())
}

#[test]
fn something_refers_to_each_message(rt: HostRuntime) -> Result<(), Fail> {
    let alloc = rt.alloc();
    let message =
        "INSERT INTO message VALUES (4, 'a/e', x'00', x'6f'); UPDATE meta SET n = 4 WHERE name = 'publications'";
    let found = after(alloc, message)?;
    assert_eq!(rt; found.err(), Some(KeepError::Corrupt));
    let mut conn = several(alloc, message)?;
    conn.execute_batch("INSERT INTO kept VALUES (4, 'a/e', 'p1', 4, 1, 9)")?;
    let records = slim_in(alloc, &mut conn)??;
    assert_eq!(rt; records.retained.len(), 3, "a retained message does");
    drop(records);
    conn.execute_batch(
        "DELETE FROM kept WHERE pub = 4; INSERT INTO queued VALUES (8, 1, 4, 0, '', 0, NULL, 0, NULL, 1, 0, x'', 9)",
    )?;
    let records = slim_in(alloc, &mut conn)??;
    drop(conn);
    assert_eq!(rt; told(&records, 8, 1), Some((4, 11, 0, 1)), "a copy does");
    drop(records);
    Ok(())
}

#[test]
fn sessions_need_no_queues(rt: HostRuntime) -> Result<(), Fail> {
    let change = "DELETE FROM queued; DELETE FROM message WHERE pub = 1";
    let records = after(rt.alloc(), change)??;
    assert_eq!(rt; (records.sessions.len(), records.retained.len()), (4, 2));
    for birth in [1, 3, 5, 8] {
        assert_eq!(rt; count(&records, birth), Some(0));
    }
    drop(records);
    Ok(())
}

#[test]
fn no_sessions_have_no_queues(rt: HostRuntime) -> Result<(), Fail> {
    let alloc = rt.alloc();
    let change = "DELETE FROM session; DELETE FROM sub; DELETE FROM message WHERE pub = 1";
    let mut conn = several(alloc, change)?;
    let none = found_in(alloc, &mut conn, &[])?;
    let one = found_in(alloc, &mut conn, &["SELECT * FROM queued WHERE pub = 2"])?;
    drop(conn);
    let none = none?;
    assert_eq!(rt; (none.sessions.len(), none.retained.len()), (0, 2));
    drop(none);
    assert_eq!(rt; one.err(), Some(KeepError::Corrupt));
    Ok(())
}

/// Puts so many copies of publication 3 into the queue of a session, for as many subscribes.
fn put_copies(conn: &mut Connection<MemStore>, birth: i64, count: i64) -> Result<(), Error> {
    for number in 1..=count {
        let _changed = conn.execute(
            "INSERT INTO queued VALUES (?1, ?2, 3, 2, '', ?2, NULL, 0, NULL, 1, 0, x'', 9)",
            params![birth, number],
        )?;
    }
    Ok(())
}

/// What is found once two sessions have so many copies in their queues.
fn of_many(alloc: Global, first: i64, last: i64) -> Result<Result<Records, KeepError>, Error> {
    let mut conn = several(alloc, "UPDATE meta SET n = 2000 WHERE name = 'subscribes'")?;
    put_copies(&mut conn, 3, first)?;
    put_copies(&mut conn, 8, last)?;
    let found = slim_in(alloc, &mut conn);
    drop(conn);
    found
}

#[test]
fn a_full_queue_is_read_in_order(rt: HostRuntime) -> Result<(), Fail> {
    let records = of_many(rt.alloc(), 1_000, 300)??;
    assert_eq!(rt; count(&records, 3), Some(QUEUE_LIMIT));
    assert_eq!(rt;
        (count(&records, 5), count(&records, 8)),
        (Some(2), Some(300))
    );
    let Some(session) = records.sessions.get(3) else {
        panic!(rt; "no session");
    };
    let queue = &session.get().queue;
    for at in 0..QUEUE_LIMIT {
        let Some(row) = queue.at(at) else {
            panic!(rt; "no copy");
        };
        let number = at as u64 + 1;
        let row = row.get();
        assert_eq!(rt; (row.place(), row.payload_len()), (number, 4));
        assert!(rt; row.id().cause == Cause::Retained { subscribe: number });
    }
    drop(records);
    Ok(())
}

#[test]
fn a_queue_has_a_limit(rt: HostRuntime) -> Result<(), Fail> {
    let found = of_many(rt.alloc(), 1_001, 1)?;
    assert_eq!(rt; found.err(), Some(KeepError::Corrupt));
    Ok(())
}

/// What is answered before a row of a queue was read, after a change.
fn begins(alloc: Global, change: &str) -> Result<Result<GatheredQueues, KeepError>, Error> {
    let mut conn = several(alloc, change)?;
    let rows = message_rows(&mut conn)?;
    let tables = tables(&mut conn)?;
    drop(conn);
    Ok(begun(alloc, &rows, &tables))
}

/// Changes after which no queues are begun: of messages; of other rows, which say no records; and of
/// rows that say records which are not lawful.
fn unbegun() -> &'static [&'static str] {
    &[
        "UPDATE message SET props = x'' WHERE pub = 1",
        "UPDATE message SET pub = 0 WHERE pub = 3",
        "UPDATE meta SET n = 1 WHERE name = 'schema'",
        "DELETE FROM meta WHERE name = 'autos'",
        "UPDATE session SET client = '' WHERE birth = 8",
        "UPDATE kept SET topic = 'a/c' WHERE pub = 3",
        "DELETE FROM message WHERE pub = 3",
        "INSERT INTO inbound VALUES (4, 10)",
        "UPDATE meta SET n = 7 WHERE name = 'births'",
        "UPDATE meta SET n = 2 WHERE name = 'publications'",
        "UPDATE meta SET n = 6 WHERE name = 'moment'",
        "INSERT INTO sub VALUES (5, 'a/b', 1, 2, 0, 1, 1, 200)",
        "UPDATE sub SET filter = 'a/#/b'",
    ]
}

#[test]
fn queues_begin_with_lawful_records(rt: HostRuntime) -> Result<(), Fail> {
    let alloc = rt.alloc();
    for change in unbegun() {
        let found = begins(alloc, change)?;
        assert_eq!(rt; found.err(), Some(KeepError::Corrupt), "{change}");
    }
    // The rows of queues, and what they say with messages, are judged later.
    for change in [
        "",
        "DELETE FROM queued",
        "UPDATE queued SET place = 0 WHERE birth = 5 AND place = 2",
    ] {
        assert!(rt; begins(alloc, change)?.is_ok(), "{change}");
    }
    Ok(())
}
