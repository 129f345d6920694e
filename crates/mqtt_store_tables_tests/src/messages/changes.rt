//! Each change of the tables, and the messages that stand after it.

use crate::messages::course::database;
use mqtt_store_tables::messages::{
    KeptColumns, MessageColumns, QueuedColumns, TableChange, change_knowing, change_tables,
    is_sized, pub_of_topic,
};
use mqtt_store_tables::statements::{SessionColumns, SubscriptionColumns, WillColumns};
use sqlite::{Alter, Error, Transaction};
use std::alloc::Global;
use std::test::Fail;

/// Which of the messages 7, 8, 9 and 10 stand: 1, 2, 4 and 8 of the sum.
fn standing<S: Alter>(tx: &mut Transaction<'_, S>) -> Result<i64, Error> {
    tx.query_row(
        "SELECT (SELECT count(*) FROM message WHERE pub = 7) + 2 * (SELECT count(*) FROM message WHERE pub = 8) + 4 * (SELECT count(*) FROM message WHERE pub = 9) + 8 * (SELECT count(*) FROM message WHERE pub = 10)",
        &[],
    )?
    .get(0)
}

/// A message to a/b.
fn message() -> MessageColumns<'static> {
    MessageColumns {
        topic: "a/b",
        properties: &[],
        payload: b"twelve bytes",
    }
}

/// Puts a copy that refers to a publication, in the queue of session 1, by who may know that a message of one stands.
fn put_by<S: Alter>(
    alloc: Global,
    tx: &mut Transaction<'_, S>,
    known: Option<u64>,
    place: u8,
    publication: u8,
) -> Result<i64, Error> {
    let copy = QueuedColumns {
        publication: u64::from(publication),
        cause: 0,
        cause_text: "",
        cause_n: 0,
        identifier: None,
        phase: 0,
        order: None,
        qos: 1,
        retain: false,
        identifiers: &[],
        arrived: 1_000,
    };
    let change = TableChange::PutCopy {
        birth: 1,
        place: u64::from(place),
        message: message(),
        copy,
    };
    match known {
        Some(_) => change_knowing(alloc, tx, known, &change)?,
        None => change_tables(alloc, tx, &change)?,
    }
    standing(tx)
}

/// The same by who knows of none.
fn put_copy<S: Alter>(
    alloc: Global,
    tx: &mut Transaction<'_, S>,
    place: u8,
    publication: u8,
) -> Result<i64, Error> {
    put_by(alloc, tx, None, place, publication)
}

/// Puts a retained message for a/b that refers to a publication.
fn put_retained<S: Alter>(
    alloc: Global,
    tx: &mut Transaction<'_, S>,
    place: u8,
    publication: u8,
) -> Result<i64, Error> {
    let kept = KeptColumns {
        topic: "a/b",
        sender: "s1",
        publication: u64::from(publication),
        qos: 1,
        arrived: 1_000,
    };
    let change = TableChange::PutRetained {
        place: u64::from(place),
        message: message(),
        kept,
    };
    change_tables(alloc, tx, &change)?;
    standing(tx)
}

/// Puts session 1, with a Will, a subscription and an open identifier.
fn put_session<S: Alter>(alloc: Global, tx: &mut Transaction<'_, S>) -> Result<(), Error> {
    let session = SessionColumns {
        client: "r1",
        expiry: 60,
        closed: None,
    };
    change_tables(alloc, tx, &TableChange::PutSession { birth: 1, session })?;
    let will = WillColumns {
        delay: 5,
        topic: "gone",
        qos: 1,
        retain: false,
        properties: &[],
        payload: b"r1",
    };
    change_tables(alloc, tx, &TableChange::PutWill { birth: 1, will })?;
    let subscription = SubscriptionColumns {
        place: 1,
        qos: 1,
        no_local: false,
        retain_as_published: false,
        handling: 0,
        identifier: 0,
    };
    let filter = "a/+";
    change_tables(
        alloc,
        tx,
        &TableChange::PutSubscription {
            birth: 1,
            filter,
            subscription,
        },
    )?;
    change_tables(
        alloc,
        tx,
        &TableChange::PutOpen {
            birth: 1,
            identifier: 3,
        },
    )
}

/// Removes the three again, and sets a number.
fn remove_parts<S: Alter>(alloc: Global, tx: &mut Transaction<'_, S>) -> Result<(), Error> {
    change_tables(alloc, tx, &TableChange::RemoveWill { birth: 1 })?;
    let filter = "a/+";
    change_tables(
        alloc,
        tx,
        &TableChange::RemoveSubscription { birth: 1, filter },
    )?;
    change_tables(
        alloc,
        tx,
        &TableChange::RemoveOpen {
            birth: 1,
            identifier: 3,
        },
    )?;
    let name = "moment";
    change_tables(alloc, tx, &TableChange::SetNumber { name, value: 9 })
}

/// How many rows of session 1 stand in the tables that both schemas have, and the moment.
fn parts<S: Alter>(tx: &mut Transaction<'_, S>) -> Result<i64, Error> {
    tx.query_row(
        "SELECT 100 * (SELECT count(*) FROM session) + 10 * ((SELECT count(*) FROM will) + (SELECT count(*) FROM sub) + (SELECT count(*) FROM inbound)) + (SELECT n FROM meta WHERE name = 'moment')",
        &[],
    )?
    .get(0)
}

/// What stands in the tables that both schemas have, before and after the rows of a session go.
fn plain<S: Alter>(alloc: Global, tx: &mut Transaction<'_, S>) -> Result<[i64; 3], Error> {
    put_session(alloc, tx)?;
    let with = parts(tx)?;
    remove_parts(alloc, tx)?;
    let without = parts(tx)?;
    change_tables(alloc, tx, &TableChange::RemoveSession { birth: 1 })?;
    let none = parts(tx)?;
    Ok([with, without, none])
}

/// The messages that stand while copies and retained messages come and go.
fn messages<S: Alter>(alloc: Global, tx: &mut Transaction<'_, S>) -> Result<[i64; 9], Error> {
    put_session(alloc, tx)?;
    let first = put_copy(alloc, tx, 1, 7)?;
    put_copy(alloc, tx, 2, 7)?;
    let kept = put_retained(alloc, tx, 1, 7)?;
    let other = put_copy(alloc, tx, 1, 8)?;
    let set = set_and_remove(alloc, tx)?;
    let anew = put_retained(alloc, tx, 1, 9)?;
    let elsewhere = put_retained(alloc, tx, 2, 10)?;
    let found = pub_of_topic(tx, "a/b")?;
    change_tables(alloc, tx, &TableChange::RemoveSession { birth: 1 })?;
    let ended = standing(tx)?;
    change_tables(alloc, tx, &TableChange::RemoveRetained { place: 2 })?;
    let none = standing(tx)?;
    let told = i64::from(found.is_some_and(|n| n == 10));
    Ok([first, kept, other, set, anew, elsewhere, told, ended, none])
}

/// The messages that stand while copies are put at one place, and how many copies stand then.
fn replaced<S: Alter>(alloc: Global, tx: &mut Transaction<'_, S>) -> Result<[i64; 4], Error> {
    put_session(alloc, tx)?;
    let first = put_copy(alloc, tx, 1, 7)?;
    let over = put_copy(alloc, tx, 1, 8)?;
    let again = put_copy(alloc, tx, 1, 8)?;
    let copies = tx
        .query_row("SELECT count(*) FROM queued WHERE pub = 8", &[])?
        .get(0)?;
    Ok([first, over, again, copies])
}

/// The messages that stand while copies are put by who knows that one stands, and how many copies stand in the end.
fn known<S: Alter>(alloc: Global, tx: &mut Transaction<'_, S>) -> Result<[i64; 4], Error> {
    put_session(alloc, tx)?;
    let first = put_copy(alloc, tx, 1, 7)?;
    let further = put_by(alloc, tx, Some(7), 2, 7)?;
    let other = put_by(alloc, tx, Some(7), 3, 8)?;
    let copies = tx
        .query_row("SELECT count(*) FROM queued WHERE pub = 7", &[])?
        .get(0)?;
    Ok([first, further, other, copies])
}

/// Sets the copy in place 1, and removes the one in place 2.
fn set_and_remove<S: Alter>(alloc: Global, tx: &mut Transaction<'_, S>) -> Result<i64, Error> {
    change_tables(
        alloc,
        tx,
        &TableChange::SetCopy {
            birth: 1,
            place: 1,
            identifier: Some(4),
            phase: 1,
            order: None,
        },
    )?;
    change_tables(alloc, tx, &TableChange::RemoveCopy { birth: 1, place: 2 })?;
    standing(tx)
}

/// What is seen in a database in memory.
fn plain_in(alloc: Global, is_new: bool) -> Result<[i64; 3], Error> {
    let mut conn = database(alloc, is_new)?;
    let seen = if conn.is_autocommit() {
        let mut tx = conn.transaction();
        plain(alloc, &mut tx)
    } else {
        Err(Error::InvalidQuery)
    };
    drop(conn);
    seen
}

/// What is seen in a database in memory.
fn messages_in(alloc: Global, is_new: bool) -> Result<[i64; 9], Error> {
    let mut conn = database(alloc, is_new)?;
    let seen = if conn.is_autocommit() {
        let mut tx = conn.transaction();
        messages(alloc, &mut tx)
    } else {
        Err(Error::InvalidQuery)
    };
    drop(conn);
    seen
}

/// What is seen in a database in memory.
fn replaced_in(alloc: Global, is_new: bool) -> Result<[i64; 4], Error> {
    let mut conn = database(alloc, is_new)?;
    let seen = if conn.is_autocommit() {
        let mut tx = conn.transaction();
        replaced(alloc, &mut tx)
    } else {
        Err(Error::InvalidQuery)
    };
    drop(conn);
    seen
}

/// What is seen in a database in memory.
fn known_in(alloc: Global, is_new: bool) -> Result<[i64; 4], Error> {
    let mut conn = database(alloc, is_new)?;
    let seen = if conn.is_autocommit() {
        let mut tx = conn.transaction();
        known(alloc, &mut tx)
    } else {
        Err(Error::InvalidQuery)
    };
    drop(conn);
    seen
}

#[test]
fn rows_of_both_schemas_come_and_go(rt: HostRuntime) -> Result<(), Fail> {
    let want = [130, 109, 9];
    let new = plain_in(rt.alloc(), true)?;
    assert_eq!(rt; new, want);
    let taken_over = plain_in(rt.alloc(), false)?;
    assert_eq!(rt; taken_over, want);
    Ok(())
}

#[test]
fn a_message_stands_while_something_refers_to_it(rt: HostRuntime) -> Result<(), Fail> {
    let want = [1, 1, 3, 3, 6, 10, 1, 8, 0];
    let new = messages_in(rt.alloc(), true)?;
    assert_eq!(rt; new, want);
    let taken_over = messages_in(rt.alloc(), false)?;
    assert_eq!(rt; taken_over, want);
    Ok(())
}

#[test]
fn the_message_of_a_copy_that_is_replaced_goes(rt: HostRuntime) -> Result<(), Fail> {
    let want = [1, 2, 2, 1];
    let new = replaced_in(rt.alloc(), true)?;
    assert_eq!(rt; new, want);
    let taken_over = replaced_in(rt.alloc(), false)?;
    assert_eq!(rt; taken_over, want);
    Ok(())
}

#[test]
fn a_further_copy_is_put_beside_the_message_that_stands(rt: HostRuntime) -> Result<(), Fail> {
    let want = [1, 1, 3, 2];
    let new = known_in(rt.alloc(), true)?;
    assert_eq!(rt; new, want);
    let taken_over = known_in(rt.alloc(), false)?;
    assert_eq!(rt; taken_over, want);
    Ok(())
}

#[test]
fn a_number_of_sql_is_below_2_to_the_63(rt: HostRuntime) -> Result<(), Fail> {
    let last = is_sized(&TableChange::RemoveWill {
        birth: 0x7FFF_FFFF_FFFF_FFFF,
    });
    assert!(rt; last);
    let next = is_sized(&TableChange::RemoveWill {
        birth: 0x8000_0000_0000_0000,
    });
    assert!(rt; !next);
    Ok(())
}
