//! A publication's message, from the first row that refers to it to the last.

use crate::first_schema::create_first;
use mqtt_store_tables::messages::{
    KeptColumns, MessageColumns, QueuedColumns, pub_of_kept, pub_of_queued, pubs_of_queue,
    put_kept, put_message, put_queued, remove_kept, remove_queued, remove_session, set_queued,
    sweep_message,
};
use mqtt_store_tables::schema::{add_tables, create_second};
use sqlite::{Alter, Connection, Error, MemStore, Transaction};
use std::alloc::Global;
use std::test::Fail;

/// Makes the tables of a new store of schema 2.
fn make_new<S: Alter>(conn: &mut Connection<S>) -> Result<(), Error> {
    if conn.is_autocommit() {
        create_second(conn)?;
    }
    Ok(())
}

/// Makes those of schema 1, and the others beside them.
fn take_over<S: Alter>(conn: &mut Connection<S>) -> Result<(), Error> {
    create_first(conn)?;
    if conn.is_autocommit() {
        let mut tx = conn.transaction();
        add_tables(&mut tx)?;
        tx.commit()?;
    }
    Ok(())
}

/// A database of schema 2 in memory.
pub(crate) fn database(alloc: Global, is_new: bool) -> Result<Connection<MemStore>, Error> {
    let mut conn = Connection::open_in_memory(alloc)?;
    let made = if is_new {
        make_new(&mut conn)
    } else {
        take_over(&mut conn)
    };
    match made {
        Ok(()) => Ok(conn),
        Err(error) => {
            drop(conn);
            Err(error)
        }
    }
}

/// Puts a message of publication 7.
fn put<S: Alter>(tx: &mut Transaction<'_, S>, payload: &[u8]) -> Result<usize, Error> {
    let message = MessageColumns {
        topic: "a/b",
        properties: &[],
        payload,
    };
    put_message(tx, 7, &message)
}

/// Puts a copy that refers to it, of session 1 in place 1.
fn put_copy<S: Alter>(tx: &mut Transaction<'_, S>) -> Result<usize, Error> {
    let copy = QueuedColumns {
        publication: 7,
        cause: 0,
        cause_text: "",
        cause_n: 0,
        identifier: None,
        phase: 0,
        order: None,
        qos: 2,
        retain: false,
        identifiers: &[0x0B, 5],
        arrived: 1_000,
    };
    put_queued(tx, 1, 1, &copy)
}

/// Puts a retained message that refers to it, in place 1.
fn put_retained<S: Alter>(tx: &mut Transaction<'_, S>) -> Result<usize, Error> {
    let kept = KeptColumns {
        topic: "a/b",
        sender: "s1",
        publication: 7,
        qos: 2,
        arrived: 1_000,
    };
    put_kept(tx, 1, &kept)
}

/// A number that a text shows.
fn shown<S: Alter>(tx: &mut Transaction<'_, S>, text: &str) -> Result<i64, Error> {
    tx.query_row(text, &[])?.get(0)
}

/// How many messages stand once publication 7 was swept, and what refers to it.
fn swept<S: Alter>(tx: &mut Transaction<'_, S>) -> Result<(i64, Option<u64>, Option<u64>), Error> {
    sweep_message(tx, 7)?;
    let messages = shown(tx, "SELECT count(*) FROM message")?;
    let copy = pub_of_queued(tx, 1, 1)?;
    let kept = pub_of_kept(tx, 1)?;
    Ok((messages, copy, kept))
}

/// Puts all three rows, and a second message of the same number.
fn fill<S: Alter>(tx: &mut Transaction<'_, S>) -> Result<(), Error> {
    tx.execute("INSERT INTO session VALUES (1, 'r1', 0, 7)", &[])?;
    put(tx, b"first")?;
    put_copy(tx)?;
    put_retained(tx)?;
    put(tx, b"second and longer")?;
    Ok(())
}

/// What is seen, from both references to none.
fn course<S: Alter>(
    tx: &mut Transaction<'_, S>,
) -> Result<[(i64, Option<u64>, Option<u64>); 3], Error> {
    fill(tx)?;
    let both = swept(tx)?;
    remove_queued(tx, 1, 1)?;
    let one = swept(tx)?;
    remove_kept(tx, 1)?;
    let none = swept(tx)?;
    Ok([both, one, none])
}

/// The same in a database in memory.
fn course_in(alloc: Global, is_new: bool) -> Result<[(i64, Option<u64>, Option<u64>); 3], Error> {
    let mut conn = database(alloc, is_new)?;
    let seen = if conn.is_autocommit() {
        let mut tx = conn.transaction();
        course(&mut tx)
    } else {
        Err(Error::InvalidQuery)
    };
    drop(conn);
    seen
}

#[test]
fn a_message_goes_with_its_last_reference(rt: HostRuntime) -> Result<(), Fail> {
    let want = [(1, Some(7), Some(7)), (1, None, Some(7)), (0, None, None)];
    let new = course_in(rt.alloc(), true)?;
    assert_eq!(rt; new, want);
    let taken_over = course_in(rt.alloc(), false)?;
    assert_eq!(rt; taken_over, want);
    Ok(())
}

/// The length of the payload that stands, and the phase, once it was set.
fn set<S: Alter>(tx: &mut Transaction<'_, S>) -> Result<(i64, i64), Error> {
    fill(tx)?;
    set_queued(tx, 1, 1, Some(9), 1, None)?;
    let payload = shown(tx, "SELECT length(payload) FROM message WHERE pub = 7")?;
    let reached = shown(tx, "SELECT 10 * pid + phase FROM queued WHERE rel IS NULL")?;
    Ok((payload, reached))
}

/// The same in a database in memory.
fn set_in(alloc: Global, is_new: bool) -> Result<(i64, i64), Error> {
    let mut conn = database(alloc, is_new)?;
    let seen = if conn.is_autocommit() {
        let mut tx = conn.transaction();
        set(&mut tx)
    } else {
        Err(Error::InvalidQuery)
    };
    drop(conn);
    seen
}

#[test]
fn the_first_message_stays_and_a_phase_is_set(rt: HostRuntime) -> Result<(), Fail> {
    let new = set_in(rt.alloc(), true)?;
    assert_eq!(rt; new, (5, 91));
    let taken_over = set_in(rt.alloc(), false)?;
    assert_eq!(rt; taken_over, (5, 91));
    Ok(())
}

/// The numbers of a queue before its session ends, and what is left once they were swept.
fn ended<S: Alter>(alloc: Global, tx: &mut Transaction<'_, S>) -> Result<(Vec<u64>, i64), Error> {
    fill(tx)?;
    remove_kept(tx, 1)?;
    let all = pubs_of_queue(alloc, tx, 1)?;
    remove_session(tx, 1)?;
    for publication in all.as_slice() {
        if *publication < 100 {
            sweep_message(tx, *publication)?;
        }
    }
    let rows = shown(
        tx,
        "SELECT (SELECT count(*) FROM session) + (SELECT count(*) FROM queued) + (SELECT count(*) FROM message)",
    )?;
    Ok((all, rows))
}

/// The same in a database in memory.
fn ended_in(alloc: Global, is_new: bool) -> Result<(Vec<u64>, i64), Error> {
    let mut conn = database(alloc, is_new)?;
    let seen = if conn.is_autocommit() {
        let mut tx = conn.transaction();
        ended(alloc, &mut tx)
    } else {
        Err(Error::InvalidQuery)
    };
    drop(conn);
    seen
}

#[test]
fn a_queue_goes_with_its_session(rt: HostRuntime) -> Result<(), Fail> {
    let (new, rows) = ended_in(rt.alloc(), true)?;
    assert_eq!(rt; new.as_slice(), [7].as_slice());
    assert_eq!(rt; rows, 0);
    let (taken_over, left) = ended_in(rt.alloc(), false)?;
    assert_eq!(rt; taken_over.as_slice(), [7].as_slice());
    assert_eq!(rt; left, 0);
    Ok(())
}
