//! What a load answers of each kind of database, and what this is then.
ghost use Rattle.std.specs.Prelude.{◌≡◌, false};
ghost use Rattle.sqlite.specs.Held.{state};
ghost use Rattle.mqtt_store_database.specs.loading.Loading.{IsOrdered};

use crate::loading::databases::{Base, database};
use crate::loading::opened::reopen;
use mqtt_keep::KeepError;
use mqtt_records::Records;
use mqtt_store_database::loading::load_from;
use mqtt_store_tables::schema::{FoundStore, Making, found_store};
use sqlite::{Alter, Connection, Error};
use std::alloc::Global;
use std::test::Fail;

/// How many sessions, copies and retained messages records have.
type Counts = [usize; 3];

fn counts_of(records: &Records) -> Counts {
    let mut copies = 0_usize;
    for session in records.sessions.as_slice() {
        copies = copies.saturating_add(session.get().queue.len());
    }
    [records.sessions.len(), copies, records.retained.len()]
}

/// What two loads answer, one behind the other, and what the database is then.
#[derive(Clone, Copy, Debug, PartialEq, Eq)]
struct Outcome {
    answers: [Result<Counts, KeepError>; 2],
    found: Option<FoundStore>,
}

/// What a load answers.
fn load<S: Alter>(alloc: Global, conn: &mut Connection<S>) -> Result<Counts, KeepError>
    requires autocommit { conn.old.in_transaction ≡ false }
    requires ordered { IsOrdered (state S.Store conn.old) }
    ensures autocommit { conn.new.in_transaction ≡ false }
    ensures ordered { IsOrdered (state S.Store conn.new) }
{
    match load_from(alloc, conn) {
        Ok(records) => {
            let counts = counts_of(&records);
            drop(records);
            Ok(counts)
        }
        Err(fault) => Err(fault),
    }
}

/// Loads a database after a change, twice.
fn load_twice(alloc: Global, base: Base, change: &str) -> Result<Outcome, Error> {
    let conn = database(alloc, base, change)?;
    match reopen(alloc, conn) {
        Ok(conn) => {
            let mut conn = conn;
            let answers = [load(alloc, &mut conn), load(alloc, &mut conn)];
            let found = found_store(&mut conn).ok();
            drop(conn);
            Ok(Outcome { answers, found })
        }
        Err((error, store)) => {
            drop(store);
            Err(error)
        }
    }
}

#[test]
fn an_empty_database_gets_the_tables_of_schema_2(rt: HostRuntime) -> Result<(), Fail> {
    let outcome = load_twice(rt.alloc(), Base::Empty, "")?;
    assert_eq!(rt; outcome.answers, [Ok([0, 0, 0]); 2]);
    assert_eq!(rt; outcome.found, Some(FoundStore::Second(Making::New)));
    Ok(())
}

#[test]
fn a_database_of_schema_2_is_read(rt: HostRuntime) -> Result<(), Fail> {
    let outcome = load_twice(rt.alloc(), Base::Second, "")?;
    assert_eq!(rt; outcome.answers, [Ok([2, 1, 1]); 2]);
    assert_eq!(rt; outcome.found, Some(FoundStore::Second(Making::New)));
    Ok(())
}

#[test]
fn a_database_of_schema_1_is_taken_over(rt: HostRuntime) -> Result<(), Fail> {
    let outcome = load_twice(rt.alloc(), Base::First, "")?;
    assert_eq!(rt; outcome.answers, [Ok([2, 1, 1]); 2]);
    assert_eq!(rt; outcome.found, Some(FoundStore::Second(Making::TakenOver)));
    Ok(())
}

#[test]
fn a_broken_database_is_left_as_it_was(rt: HostRuntime) -> Result<(), Fail> {
    for (base, change, found) in [
        (
            Base::First,
            "UPDATE copy SET payload = x'ff'",
            FoundStore::First,
        ),
        (
            Base::Second,
            "DELETE FROM queued; DELETE FROM kept",
            FoundStore::Second(Making::New),
        ),
        (Base::Second, "DROP INDEX kept_pub", FoundStore::Broken),
    ] {
        let outcome = load_twice(rt.alloc(), base, change)?;
        assert_eq!(rt; outcome.answers, [Err(KeepError::Corrupt); 2], "{change}");
        assert_eq!(rt; outcome.found, Some(found), "{change}");
    }
    Ok(())
}

#[test]
fn a_database_of_another_program_is_left_as_it_was(rt: HostRuntime) -> Result<(), Fail> {
    for (base, change, found) in [
        (Base::Other, "", FoundStore::Other),
        (
            Base::First,
            "UPDATE meta SET n = 9 WHERE name = 'schema'",
            FoundStore::First,
        ),
    ] {
        let outcome = load_twice(rt.alloc(), base, change)?;
        assert_eq!(rt; outcome.answers, [Err(KeepError::Schema); 2], "{change}");
        assert_eq!(rt; outcome.found, Some(found), "{change}");
    }
    Ok(())
}
