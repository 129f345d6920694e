//! Databases that a load takes or refuses.

use crate::changes::{LONG, SENT};
use crate::databases::{broken_sessions, broken_subscriptions, crowded, others, sound};
use crate::first_databases::{
    broken_copies, broken_first_tables, broken_retained, crowded_copies, rows_of_the_course,
    sound_copies,
};
use crate::first_schema::create_first;
use crate::second_databases::{
    broken_kept, broken_of_the_course, broken_old_tables, broken_queued, broken_tables,
    crowded_queued, sound_queued,
};
use crate::store::{LOAD, act_over, database, found, left_of};
use mqtt_keep::KeepError;
use sqlite::{Alter, Connection, Error, MemStore, params};
use std::alloc::Global;
use std::test::Fail;

/// Makes a change; a `?1` in it stands for so many zero bytes.
fn change<S: Alter>(
    alloc: Global,
    conn: &mut Connection<S>,
    change: &str,
    zeros: usize,
) -> Result<(), Error> {
    if zeros == 0 {
        return conn.execute_batch(change);
    }
    let mut bytes: Vec<u8> = Vec::new(alloc);
    bytes.resize(zeros, 0)?;
    let changed = conn.execute(change, params![bytes.as_slice()]);
    drop(bytes);
    let _count = changed?;
    Ok(())
}

/// A database in memory.
#[derive(Clone, Copy)]
pub(crate) enum Base {
    /// Of schema 2, after so many steps of the course.
    Course(usize),
    /// Of schema 1, with the rows of the long course.
    First,
    /// Of schema 2, by which that was taken over.
    TakenOver,
}

/// Makes the tables of schema 1 in an empty database, with the rows of the long course; answers whether they are made.
pub(crate) fn fill_first<S: Alter>(conn: &mut Connection<S>) -> bool {
    create_first(conn).is_ok() && conn.execute_batch(rows_of_the_course()).is_ok()
}

/// A database of schema 1 with the rows of the long course.
fn first_database(alloc: Global) -> Result<Connection<MemStore>, KeepError> {
    let mut conn = Connection::open_in_memory(alloc)?;
    let is_made = fill_first(&mut conn);
    if is_made {
        Ok(conn)
    } else {
        drop(conn);
        Err(KeepError::Disk)
    }
}

/// The same once it was loaded, so that it is of schema 2.
fn taken_over(alloc: Global) -> Result<Connection<MemStore>, KeepError> {
    let (told, left) = act_over(alloc, first_database(alloc)?, LOAD);
    left_of(told.after.is_ok(), left)
}

pub(crate) fn database_of(alloc: Global, base: Base) -> Result<Connection<MemStore>, KeepError> {
    match base {
        Base::Course(steps) => database(alloc, steps),
        Base::First => first_database(alloc),
        Base::TakenOver => taken_over(alloc),
    }
}

/// Why a load refuses a database after two changes, and how many failures it counted. Disk if a change isn't made.
fn refused_after(
    alloc: Global,
    of: Base,
    before: &str,
    text: &str,
    zeros: usize,
) -> Result<(Option<KeepError>, u64), KeepError> {
    let mut conn = database_of(alloc, of)?;
    let is_begun = change(alloc, &mut conn, before, 0).is_ok();
    let is_changed = is_begun && change(alloc, &mut conn, text, zeros).is_ok();
    let (answer, failures) = found(alloc, conn);
    if !is_changed {
        return Err(KeepError::Disk);
    }
    Ok((answer.err(), failures))
}

/// The first change after which a load answers something else, or counts a failure; empty if none does. A line with two
/// dashes names the next.
fn first_wrong(
    alloc: Global,
    of: Base,
    changes: &'static str,
    want: Option<KeepError>,
) -> &'static str {
    for line in changes.lines() {
        if !line.starts_with("--") && refused_after(alloc, of, "", line, 0) != Ok((want, 0)) {
            return line;
        }
    }
    ""
}

/// The first of several lists of such changes.
fn first_wrong_of(
    alloc: Global,
    of: Base,
    lists: &[&'static str],
    want: Option<KeepError>,
) -> &'static str {
    for changes in lists {
        let wrong = first_wrong(alloc, of, *changes, want);
        if !wrong.is_empty() {
            return wrong;
        }
    }
    ""
}

#[test]
fn a_database_of_another_schema_is_refused(rt: HostRuntime) -> Result<(), Fail> {
    for of in [Base::Course(SENT), Base::First, Base::TakenOver] {
        let wrong = first_wrong(rt.alloc(), of, others(), Some(KeepError::Schema));
        assert_eq!(rt; wrong, "");
    }
    Ok(())
}

#[test]
fn a_broken_database_is_refused(rt: HostRuntime) -> Result<(), Fail> {
    let corrupt = Some(KeepError::Corrupt);
    let wrong = first_wrong(
        rt.alloc(),
        Base::Course(SENT),
        broken_of_the_course(),
        corrupt,
    );
    assert_eq!(rt; wrong, "");
    let lists = [
        broken_tables(),
        broken_sessions(),
        broken_subscriptions(),
        broken_kept(),
        broken_queued(),
    ];
    let wrong = first_wrong_of(rt.alloc(), Base::Course(LONG), &lists, corrupt);
    assert_eq!(rt; wrong, "");
    Ok(())
}

#[test]
fn a_broken_database_of_schema_1_is_refused(rt: HostRuntime) -> Result<(), Fail> {
    let lists = [
        broken_first_tables(),
        broken_sessions(),
        broken_subscriptions(),
        broken_retained(),
        broken_copies(),
    ];
    let wrong = first_wrong_of(rt.alloc(), Base::First, &lists, Some(KeepError::Corrupt));
    assert_eq!(rt; wrong, "");
    Ok(())
}

#[test]
fn a_broken_database_that_was_taken_over_is_refused(rt: HostRuntime) -> Result<(), Fail> {
    let lists = [
        broken_old_tables(),
        broken_sessions(),
        broken_subscriptions(),
        broken_kept(),
        broken_queued(),
    ];
    let wrong = first_wrong_of(
        rt.alloc(),
        Base::TakenOver,
        &lists,
        Some(KeepError::Corrupt),
    );
    assert_eq!(rt; wrong, "");
    Ok(())
}

#[test]
fn a_database_with_too_many_rows_is_refused(rt: HostRuntime) -> Result<(), Fail> {
    for (of, lists) in [
        (Base::Course(LONG), [crowded(), crowded_queued()]),
        (Base::First, [crowded(), crowded_copies()]),
        (Base::TakenOver, [crowded(), crowded_queued()]),
    ] {
        let wrong = first_wrong_of(rt.alloc(), of, &lists, Some(KeepError::Corrupt));
        assert_eq!(rt; wrong, "");
    }
    Ok(())
}

#[test]
fn a_database_at_the_edge_is_taken(rt: HostRuntime) -> Result<(), Fail> {
    for (of, lists) in [
        (Base::Course(LONG), [sound(), sound_queued()]),
        (Base::First, [sound(), sound_copies()]),
        (Base::TakenOver, [sound(), sound_queued()]),
    ] {
        let wrong = first_wrong_of(rt.alloc(), of, &lists, None);
        assert_eq!(rt; wrong, "");
    }
    Ok(())
}

/// A database, what else of the publication goes, a change of a payload of zeros, and how many of them its row takes: topic,
/// properties and payload have at most 200,000 bytes.
const PAYLOADS: [(Base, &str, &str, usize); 4] = [
    (
        Base::Course(LONG),
        "",
        "UPDATE will SET payload = ?1",
        199_998,
    ),
    (
        Base::Course(LONG),
        "",
        "UPDATE message SET payload = ?1",
        199_996,
    ),
    (
        Base::First,
        "DELETE FROM retained",
        "UPDATE copy SET payload = ?1",
        199_996,
    ),
    (
        Base::First,
        "DELETE FROM copy",
        "UPDATE retained SET payload = ?1",
        199_996,
    ),
];

#[test]
fn a_row_has_so_many_bytes(rt: HostRuntime) -> Result<(), Fail> {
    for (of, before, text, most) in PAYLOADS {
        let at_most = refused_after(rt.alloc(), of, before, text, most)?;
        let above = refused_after(rt.alloc(), of, before, text, most + 1)?;
        assert_eq!(rt; at_most, (None, 0), "{text}");
        assert_eq!(rt; above, (Some(KeepError::Corrupt), 0), "{text}");
    }
    Ok(())
}
