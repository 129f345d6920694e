//! A publication to many receivers: each copy stands as it was put, be it put alone or beside others.

use crate::committing::changes::{content, session};
use crate::committing::steps::{database, number};
use mqtt_base::{Cause, CopyId, Phase, Qos};
use mqtt_records::{Boxed, Change, CopyRow, MessageCopy, SubscriptionIdentifiers};
use mqtt_store_database::committing::commit_changes;
use sqlite::{Alter, Connection, Error, MemStore, params};
use std::alloc::{AllocError, Global};
use std::test::Fail;

/// A copy that is put for a session; sessions differ in all else that their copies say.
#[derive(Clone, Copy)]
struct Coming {
    birth: u8,
    publication: u8,
    identified: bool,
}

/// Why it came: each fourth for a subscribe.
fn cause_of(birth: u8) -> Cause {
    if birth % 4 == 0 {
        Cause::Retained {
            subscribe: u64::from(birth),
        }
    } else {
        Cause::Direct
    }
}

/// How far it has come: each third was sent, each fifth released.
fn phase_of(birth: u8) -> Phase {
    if birth % 5 == 0 {
        Phase::Released {
            identifier: u16::from(birth),
            order: 2 * u64::from(birth),
        }
    } else if birth % 3 == 0 {
        Phase::Sent {
            identifier: u16::from(birth),
        }
    } else {
        Phase::Waiting
    }
}

fn message_copy(alloc: Global, coming: Coming) -> Result<MessageCopy, AllocError> {
    let content = content(alloc)?;
    let numbers: &[u32] = if coming.identified { &[5] } else { &[] };
    match SubscriptionIdentifiers::from_slice(alloc, numbers) {
        Ok(identifiers) => Ok(MessageCopy {
            id: CopyId {
                publication: u64::from(coming.publication),
                birth: u64::from(coming.birth),
                cause: cause_of(coming.birth),
            },
            qos: if coming.birth % 2 == 0 {
                Qos::AtLeastOnce
            } else {
                Qos::ExactlyOnce
            },
            retain: coming.birth % 7 == 0,
            identifiers,
            content,
        }),
        Err(fault) => {
            drop(content);
            Err(fault)
        }
    }
}

/// The change that puts it, ten places behind its session's birth.
fn copy(alloc: Global, coming: Coming) -> Result<Change, AllocError> {
    let copy = message_copy(alloc, coming)?;
    let birth = u64::from(coming.birth);
    let Ok(row) = CopyRow::new(alloc, birth + 10, phase_of(coming.birth), copy) else {
        return Err(AllocError);
    };
    Ok(Change::PutCopy {
        birth,
        row: Boxed::new(alloc, row)?,
    })
}

/// Sessions 1 to a last one come.
fn come(alloc: Global, conn: &mut Connection<MemStore>, last: u8) -> Result<(), Fail> {
    let mut changes = Vec::new(alloc);
    for birth in 1..=last {
        changes.push(session(alloc, u64::from(birth))?)?;
    }
    Ok(commit(alloc, conn, changes)?)
}

/// Makes changes.
fn commit(
    alloc: Global,
    conn: &mut Connection<MemStore>,
    changes: Vec<Change>,
) -> Result<(), Error> {
    let made = if conn.is_autocommit() {
        commit_changes(alloc, conn, &changes)
    } else {
        Err(Error::InvalidQuery)
    };
    drop(changes);
    made
}

/// Copies are put by one step.
fn put(alloc: Global, conn: &mut Connection<MemStore>, copies: &[Coming]) -> Result<(), Fail> {
    let mut changes = Vec::new(alloc);
    for coming in copies {
        changes.push(copy(alloc, *coming)?)?;
    }
    Ok(commit(alloc, conn, changes)?)
}

/// What the columns of a copy's row say, as numbers; no number is -1.
fn wanted(coming: Coming) -> [i64; 12] {
    let birth = i64::from(coming.birth);
    let released = birth % 5 == 0;
    let sent = !released && birth % 3 == 0;
    [
        birth + 10,
        i64::from(coming.publication),
        if birth % 4 == 0 { 2 } else { 0 },
        if birth % 4 == 0 { birth } else { 0 },
        if released || sent { birth } else { -1 },
        if released {
            2
        } else if sent {
            1
        } else {
            0
        },
        if released { 2 * birth } else { -1 },
        if birth % 2 == 0 { 1 } else { 2 },
        if birth % 7 == 0 { 1 } else { 0 },
        if coming.identified { 2 } else { 0 },
        1_000,
        0,
    ]
}

/// What stands in the row of a session's copy.
fn stands<S: Alter>(conn: &mut Connection<S>, birth: u8) -> Result<[i64; 12], Error> {
    let row = conn.query_row(
        "SELECT place, pub, cause, cause_n, coalesce(pid, -1), phase, coalesce(rel, -1), qos, retain, length(idents), arrived, length(cause_text) FROM queued WHERE birth = ?1",
        params![i64::from(birth)],
    )?;
    let mut all = [0; 12];
    for at in 0..12 {
        all[at] = row.get(at)?;
    }
    Ok(all)
}

/// The first session whose copy doesn't stand as it was put, or 0 if none; then the numbers of copies and messages.
fn seen<S: Alter>(conn: &mut Connection<S>, copies: &[Coming]) -> Result<(u8, i64, i64), Error> {
    let mut wrong = 0;
    for coming in copies {
        if wrong == 0 && stands(conn, coming.birth)? != wanted(*coming) {
            wrong = coming.birth;
        }
    }
    let queued = number(conn, "SELECT count(*) FROM queued")?;
    let messages = number(
        conn,
        "SELECT count(*) FROM message WHERE topic = 'a/b' AND length(payload) = 2",
    )?;
    Ok((wrong, queued, messages))
}

/// What is seen after copies were put for sessions 1 to a last one.
fn seen_after(
    alloc: Global,
    is_new: bool,
    last: u8,
    copies: &[Coming],
) -> Result<(u8, i64, i64), Fail> {
    let mut conn = database(alloc, is_new)?;
    come(alloc, &mut conn, last)?;
    put(alloc, &mut conn, copies)?;
    Ok(seen(&mut conn, copies)?)
}

/// Copies of publication 7 for sessions from 1 to a last one.
fn copies(alloc: Global, last: u8) -> Result<Vec<Coming>, AllocError> {
    let mut all = Vec::new(alloc);
    for birth in 1..=last {
        all.push(Coming {
            birth,
            publication: 7,
            identified: false,
        })?;
    }
    Ok(all)
}

/// Copies for sessions 1 to 30: one with a Subscription Identifier among the first four behind the first, then another publication.
fn copies_that_differ(alloc: Global) -> Result<Vec<Coming>, AllocError> {
    let mut all = Vec::new(alloc);
    for birth in 1..=30 {
        all.push(Coming {
            birth,
            publication: if 15 <= birth && birth <= 20 { 8 } else { 7 },
            identified: birth == 4,
        })?;
    }
    Ok(all)
}

#[test]
fn each_of_many_receivers_has_its_copy(rt: HostRuntime) -> Result<(), Fail> {
    let courses = [
        (1, true),
        (4, true),
        (4, false),
        (5, true),
        (6, false),
        (9, true),
        (9, false),
        (101, true),
    ];
    for (last, is_new) in courses {
        let copies = copies(rt.alloc(), last)?;
        let seen = seen_after(rt.alloc(), is_new, last, &copies)?;
        assert_eq!(rt;
            seen,
            (0, i64::from(last), 1),
            "to {last}, in a new database: {is_new}"
        );
    }
    Ok(())
}

#[test]
fn copies_that_differ_more_stand_beside_others(rt: HostRuntime) -> Result<(), Fail> {
    let copies = copies_that_differ(rt.alloc())?;
    for is_new in [true, false] {
        let seen = seen_after(rt.alloc(), is_new, 30, &copies)?;
        assert_eq!(rt; seen, (0, 30, 2), "in a new database: {is_new}");
    }
    Ok(())
}

#[test]
fn a_copy_goes_in_place_of_the_one_at_its_place(rt: HostRuntime) -> Result<(), Fail> {
    for is_new in [true, false] {
        let mut conn = database(rt.alloc(), is_new)?;
        come(rt.alloc(), &mut conn, 9)?;
        let before = [Coming {
            birth: 4,
            publication: 6,
            identified: true,
        }];
        put(rt.alloc(), &mut conn, &before)?;
        let copies = copies(rt.alloc(), 9)?;
        put(rt.alloc(), &mut conn, &copies)?;
        assert_eq!(rt;
            seen(&mut conn, &copies)?,
            (0, 9, 1),
            "in a new database: {is_new}"
        );
    }
    Ok(())
}
