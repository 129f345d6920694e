//! What the store in SQL tells of waiting copies: what the store in memory tells (3.3, 4.1).
ghost use Rattle.std.specs.Prelude.{OnOk};

use crate::changes::STEPS;
use crate::seen::{with, with_bytes};
use crate::store::{load, make};
use mqtt_keep::{Keep, KeepError, MemKeep};
use mqtt_records::CopyContent;
use mqtt_store::SqlKeep;
use sqlite::{Connection, MemStore};
use std::alloc::Global;
use std::test::Fail;

/// A birth, a place and a limit.
const ASKED: [(u64, u64, u32); 9] = [
    (1, 0, 64),
    (1, 1, 1),
    (1, 2, 64),
    (1, 3, 64),
    (1, 1, 0),
    (2, 0, 64),
    (3, 0, 64),
    (1, i64::MAX as u64, 64),
    (i64::MAX as u64, 0, u32::MAX),
];

/// A sum with what is told of a copy behind it.
fn with_copy(sum: u64, content: &CopyContent) -> u64 {
    let mut sum = with(sum, content.place());
    for identifier in content.identifiers().as_slice() {
        sum = with(sum, u64::from(*identifier));
    }
    sum = with_bytes(sum, content.topic().as_str().as_bytes());
    sum = with(sum, content.properties().lend().len() as u64);
    with_bytes(sum, content.payload().as_slice())
}

/// How many copies are told, and a sum over what is told of them.
fn ask<K: Keep>(
    keep: &mut K,
    alloc: Global,
    birth: u64,
    place: u64,
    limit: u32,
) -> Result<(usize, u64), KeepError>
    requires { K.Keep.is_loaded keep.old }
    ensures { OnOk result (K.Keep.is_loaded keep.new) }
{
    let contents = keep.contents(alloc, birth, place, limit)?;
    let mut sum = 0;
    for content in &contents {
        sum = with_copy(sum, content);
    }
    let count = contents.len();
    drop(contents);
    Ok((count, sum))
}

/// A sum over what is told when a store is asked for all of these.
pub(crate) fn ask_all<K: Keep>(
    keep: &mut K,
    alloc: Global,
    asked: &[(u64, u64, u32)],
) -> Result<u64, KeepError>
    requires { K.Keep.is_loaded keep.old }
    ensures { OnOk result (K.Keep.is_loaded keep.new) }
{
    let mut told = 0;
    for (birth, place, limit) in asked {
        let (count, sum) = ask(keep, alloc, *birth, *place, *limit)?;
        told = with(with(told, count as u64), sum);
    }
    Ok(told)
}

/// What a new store tells after so many steps of the course, and how often it was asked then.
fn told_after<K: Keep>(keep: &mut K, alloc: Global, steps: usize) -> Result<(u64, u64), KeepError> {
    load(keep, alloc)?;
    make(keep, alloc, 0, steps)?;
    let told = ask_all(keep, alloc, &ASKED)?;
    Ok((told, keep.reads()))
}

/// The copies of session 1 that a new store tells after so many steps, from a place on.
fn count_after<K: Keep>(
    keep: &mut K,
    alloc: Global,
    steps: usize,
    place: u64,
) -> Result<usize, KeepError> {
    load(keep, alloc)?;
    make(keep, alloc, 0, steps)?;
    let (count, _) = ask(keep, alloc, 1, place, 64)?;
    Ok(count)
}

fn in_sql(alloc: Global) -> Result<SqlKeep<MemStore>, KeepError> {
    let conn = Connection::open_in_memory(alloc)?;
    match SqlKeep::new(alloc, conn) {
        Ok(keep) => Ok(keep),
        Err((_, store)) => {
            drop(store);
            Err(KeepError::Disk)
        }
    }
}

#[test]
fn both_stores_tell_the_same(rt: HostRuntime) -> Result<(), Fail> {
    let alloc = rt.alloc();
    for steps in 0..=STEPS.len() {
        let mut memory = MemKeep::new(alloc)?;
        let expected = told_after(&mut memory, alloc, steps);
        drop(memory);
        let mut sql = in_sql(alloc)?;
        let told = told_after(&mut sql, alloc, steps);
        assert!(rt; told.is_ok(), "{steps}");
        assert_eq!(rt; told, expected, "{steps}");
        assert_eq!(rt; sql.reads(), ASKED.len() as u64, "each question is counted");
        assert_eq!(rt; sql.failures(), 0, "and is no failure");
        drop(sql);
    }
    Ok(())
}

#[test]
fn waiting_copies_are_told(rt: HostRuntime) -> Result<(), Fail> {
    let alloc = rt.alloc();
    for (steps, place, count) in [(4, 0, 1), (8, 0, 2), (8, 2, 1), (8, 3, 0), (11, 0, 0)] {
        let mut sql = in_sql(alloc)?;
        let told = count_after(&mut sql, alloc, steps, place);
        assert_eq!(rt; told, Ok(count), "{steps}, {place}");
        drop(sql);
    }
    Ok(())
}

#[test]
fn a_number_that_sql_has_not_is_a_failure(rt: HostRuntime) -> Result<(), Fail> {
    let alloc = rt.alloc();
    let mut sql = in_sql(alloc)?;
    let told = count_after(&mut sql, alloc, 8, i64::MAX as u64 + 1);
    assert_eq!(rt; told, Err(KeepError::Disk));
    assert_eq!(rt; sql.reads(), 1);
    assert_eq!(rt; sql.failures(), 1);
    assert!(rt; load(&mut sql, alloc).is_ok(), "the store has what it had");
    drop(sql);
    Ok(())
}
