//! What is read of queues.

use super::database::{filled, lengthen};
use mqtt_keep::KeepError;
use mqtt_records::CopyContent;
use mqtt_store_database::telling::contents_in;
use mqtt_store_tables::schema::Making;
use sqlite::{Alter, Connection};
use std::alloc::Global;
use std::test::Fail;

/// A birth, a place, a limit, and the places of the copies that are read.
const READS: [(u64, u64, u32, &[u64]); 11] = [
    (2, 0, 64, &[2, 5, 9, 10]),
    (2, 3, 2, &[5, 9]),
    (2, 5, 1, &[5]),
    (2, 10, 64, &[10]),
    (2, 11, 64, &[]),
    (1, 1, 64, &[1, 5]),
    (3, 3, 1, &[3]),
    (4, 0, 64, &[]),
    (2, u64::MAX, 64, &[]),
    (u64::MAX, 0, 64, &[]),
    (u64::MAX, u64::MAX, 64, &[]),
];

/// Whether contents have these places, in this order.
fn have_places(contents: &[CopyContent], places: &[u64]) -> bool {
    if contents.len() != places.len() {
        return false;
    }
    for (content, place) in contents.iter().zip(places) {
        if content.place() != *place {
            return false;
        }
    }
    true
}

#[test]
fn the_first_copies_from_a_place_are_read(rt: HostRuntime) -> Result<(), Fail> {
    for making in [Making::New, Making::TakenOver] {
        let mut conn = filled(rt.alloc(), making)?;
        for (birth, place, limit, places) in READS {
            let contents = contents_in(rt.alloc(), &mut conn, birth, place, limit)?;
            assert!(rt; have_places(&contents, places), "{birth}, {place}, {limit}");
            drop(contents);
        }
        drop(conn);
    }
    Ok(())
}

#[test]
fn a_copy_has_what_its_message_says(rt: HostRuntime) -> Result<(), Fail> {
    for making in [Making::New, Making::TakenOver] {
        let mut conn = filled(rt.alloc(), making)?;
        let contents = contents_in(rt.alloc(), &mut conn, 2, 5, 2)?;
        drop(conn);
        let [first, second] = contents.as_slice() else {
            panic!(rt; "not two copies");
        };
        assert_eq!(rt; first.identifiers().as_slice(), [1, 200].as_slice());
        assert_eq!(rt; first.topic().as_str(), "a/c");
        assert_eq!(rt; first.properties().lend().len(), 2);
        assert_eq!(rt; first.payload().as_slice(), b"hi".as_slice());
        assert!(rt; second.identifiers().as_slice().is_empty());
        assert_eq!(rt; second.topic().as_str(), "a/d");
        assert!(rt; second.payload().as_slice().is_empty());
        drop(contents);
    }
    Ok(())
}

/// What is read after a change of a store.
fn read_after(alloc: Global, change: &str) -> Result<Result<Vec<CopyContent>, KeepError>, Fail> {
    let mut conn = filled(alloc, Making::New)?;
    conn.execute_batch(change)?;
    let contents = contents_in(alloc, &mut conn, 2, 0, 64);
    drop(conn);
    Ok(contents)
}

#[test]
fn a_row_that_says_nothing_is_refused(rt: HostRuntime) -> Result<(), Fail> {
    for change in [
        "UPDATE queued SET idents = x'0b' WHERE place = 5",
        "UPDATE queued SET place = 0 WHERE place = 5 AND birth = 2",
        "UPDATE message SET props = x'01' WHERE pub = 2",
    ] {
        let fault = read_after(rt.alloc(), change)?.err();
        assert_eq!(rt; fault, Some(KeepError::Corrupt), "{change}");
    }
    Ok(())
}

/// Reads eight copies of a long queue within so many steps.
fn read_within<S: Alter>(
    alloc: Global,
    conn: &mut Connection<S>,
    steps: u64,
) -> Result<Vec<CopyContent>, KeepError> {
    conn.set_step_limit(Some(steps));
    contents_in(alloc, conn, 3, 50, 8)
}

#[test]
fn no_more_is_read_of_a_long_queue(rt: HostRuntime) -> Result<(), Fail> {
    let mut conn = filled(rt.alloc(), Making::New)?;
    lengthen(&mut conn, 100)?;
    let contents = read_within(rt.alloc(), &mut conn, 64)?;
    drop(conn);
    assert!(rt; have_places(&contents, &[50, 51, 52, 53, 54, 55, 56, 57]));
    drop(contents);
    Ok(())
}
