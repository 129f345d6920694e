//! What a database keeps behind a migration, and what is left of it when one fails.

use crate::taking_over::databases::{ENDED, FIRST, SECOND, database, first_wrong};
use mqtt_keep::KeepError;
use mqtt_records::Change;
use mqtt_store_database::committing::commit_changes;
use mqtt_store_database::taking_over::{migrate, records_in};
use mqtt_store_tables::schema::{FoundStore, Making, found_store};
use sqlite::{Alter, Connection, Error};
use std::alloc::{AllocError, Global};
use std::test::Fail;

/// Migrates what the database keeps, if each query may take so many steps.
fn migrated<S: Alter>(
    alloc: Global,
    conn: &mut Connection<S>,
    limit: Option<u64>,
) -> Result<Result<(), Error>, KeepError> {
    let records = records_in(alloc, conn)?;
    conn.set_step_limit(limit);
    let answer = if conn.is_autocommit() {
        migrate(alloc, conn, &records)
    } else {
        Err(Error::InvalidQuery)
    };
    drop(records);
    conn.set_step_limit(None);
    Ok(answer)
}

/// What becomes of a database.
#[derive(Clone, Copy)]
struct Outcome {
    /// Whether it is said to be migrated.
    is_made: bool,
    /// What it is found to be.
    found: FoundStore,
    /// The first query that finds something else than it says; empty if none does.
    wrong: &'static str,
}

/// Migrates a database, and looks at it.
fn seen(alloc: Global, limit: Option<u64>) -> Result<Outcome, Fail> {
    let mut conn = database(alloc)?;
    let is_made = migrated(alloc, &mut conn, limit)?.is_ok();
    let found = found_store(&mut conn)?;
    let wrong = first_wrong(&mut conn, if is_made { SECOND } else { FIRST });
    drop(conn);
    Ok(Outcome {
        is_made,
        found,
        wrong,
    })
}

/// Whether all is kept by schema 2, or all is as it was.
fn is_whole(seen: Outcome) -> bool {
    let wanted = if seen.is_made {
        FoundStore::Second(Making::TakenOver)
    } else {
        FoundStore::First
    };
    seen.found == wanted && seen.wrong.is_empty()
}

#[test]
fn all_is_kept_by_the_other_schema(rt: HostRuntime) -> Result<(), Fail> {
    let seen = seen(rt.alloc(), None)?;
    assert_eq!(rt; seen.wrong, "");
    assert!(rt; seen.is_made && is_whole(seen));
    Ok(())
}

/// How often a migration was interrupted, if it may take 1 step, 2, 4 and so on, until it is made or
/// something is left that is neither as it was nor migrated.
fn interrupted(alloc: Global) -> Result<(u32, Outcome), Fail> {
    let mut times = 0_u32;
    let mut limit = 1_u64;
    let mut last = seen(alloc, Some(limit))?;
    for _ in 0..20 {
        if last.is_made || !is_whole(last) {
            break;
        }
        times = times.wrapping_add(1);
        limit = limit.wrapping_mul(2);
        last = seen(alloc, Some(limit))?;
    }
    Ok((times, last))
}

#[test]
fn what_is_interrupted_changes_nothing(rt: HostRuntime) -> Result<(), Fail> {
    let (times, last) = interrupted(rt.alloc())?;
    assert_eq!(rt; last.wrong, "");
    assert!(rt; last.is_made && is_whole(last) && times > 0);
    Ok(())
}

/// All copies end, a session with them, and the retained message goes.
fn add_ends(changes: &mut Vec<Change>) -> Result<(), AllocError> {
    changes.push(Change::RemoveCopy { birth: 1, place: 1 })?;
    changes.push(Change::RemoveCopy { birth: 1, place: 2 })?;
    changes.push(Change::RemoveSession { birth: 2 })?;
    changes.push(Change::RemoveRetained { place: 1 })?;
    Ok(())
}

/// Makes these changes in a database that was migrated.
fn end<S: Alter>(alloc: Global, conn: &mut Connection<S>) -> Result<bool, AllocError> {
    let mut changes = Vec::new(alloc);
    let added = add_ends(&mut changes);
    let is_made = conn.is_autocommit() && commit_changes(alloc, conn, &changes).is_ok();
    drop(changes);
    added?;
    Ok(is_made)
}

#[test]
fn a_message_goes_with_what_refers_to_it(rt: HostRuntime) -> Result<(), Fail> {
    let alloc = rt.alloc();
    let mut conn = database(alloc)?;
    let answer = migrated(alloc, &mut conn, None)?;
    let is_made = answer.is_ok() && end(alloc, &mut conn)?;
    let wrong = first_wrong(&mut conn, ENDED);
    drop(conn);
    assert!(rt; is_made);
    assert_eq!(rt; wrong, "");
    Ok(())
}
