//! What a load of stores in memory answers, what they tell of waiting copies, and slim copies that say it again (3.3, 4.1).

use crate::keeping::kept::{add, all, copy, counter, course};
use bytes::Bytes;
use mqtt_keep::{Failure, FaultyKeep, Keep, KeepError, MemKeep};
use mqtt_records::{Change, CopyContent, CopyRow, Counter, Records, content_of};
use std::alloc::{AllocError, Global};
use std::process::Abort;
use std::test::Fail;

fn add_copies(changes: &mut Vec<Change>, alloc: Global) -> Result<(), AllocError> {
    add(changes, Ok(counter(Counter::Publications, 9)))?;
    for place in [9, 2, 5] {
        add(changes, copy(alloc, 1, place))?;
    }
    Ok(())
}

/// The course, after which the subscriber has a copy at place 1, and three copies more.
fn with_copies(alloc: Global) -> Result<Vec<Change>, AllocError> {
    let mut changes = course(alloc)?;
    let made = add_copies(&mut changes, alloc);
    all(changes, made)
}

/// The records then, whose copies say all that they say.
fn whole(alloc: Global) -> Result<Records, AllocError> {
    let mut records = Records::new(alloc)?;
    match with_copies(alloc) {
        Ok(changes) => {
            records.change_all(changes);
            Ok(records)
        }
        Err(fault) => {
            drop(records);
            Err(fault)
        }
    }
}

/// A birth, a place, a limit, and the places of the copies that are told.
const TOLD: [(u64, u64, u32, &[u64]); 11] = [
    (1, 0, 64, &[1, 2, 5, 9]),
    (1, 2, 2, &[2, 5]),
    (1, 3, 1, &[5]),
    (1, 9, 64, &[9]),
    (1, 10, 64, &[]),
    (1, 1, 0, &[]),
    (1, 0, u32::MAX, &[1, 2, 5, 9]),
    (2, 0, 64, &[]),
    (3, 0, 64, &[]),
    (1, u64::MAX, 64, &[]),
    (u64::MAX, u64::MAX, 64, &[]),
];

/// Whether contents have these places, in this order.
fn have_places(contents: &[CopyContent], places: &[u64]) -> bool {
    if contents.len() != places.len() {
        return false;
    }
    for (content, place) in contents.iter().zip(places) {
        if content.place() != *place {
            return false;
        }
    }
    true
}

#[test]
fn the_first_copies_from_a_place_are_told(rt: HostRuntime) -> Result<(), Fail> {
    let alloc = rt.alloc();
    let mut keep = MemKeep::new(alloc)?;
    keep.apply(&with_copies(alloc)?)?;
    assert_eq!(rt; keep.reads(), 0, "nothing was asked yet");
    for (birth, place, limit, places) in TOLD {
        let contents = keep.contents(alloc, birth, place, limit)?;
        assert!(rt; have_places(&contents, places), "{birth}, {place}, {limit}");
        drop(contents);
    }
    assert_eq!(rt; keep.reads(), 11, "each question is counted");
    drop(keep);
    Ok(())
}

#[test]
fn a_copy_is_told_with_what_it_says(rt: HostRuntime) -> Result<(), Fail> {
    let alloc = rt.alloc();
    let mut keep = MemKeep::new(alloc)?;
    keep.apply(&with_copies(alloc)?)?;
    let contents = keep.contents(alloc, 1, 5, 1)?;
    let [content] = contents.as_slice() else {
        panic!(rt; "not one copy");
    };
    assert_eq!(rt; content.place(), 5);
    assert_eq!(rt; content.identifiers().as_slice(), [7].as_slice());
    assert_eq!(rt; content.topic().as_str(), "a/b");
    assert_eq!(rt; content.properties().lend().len(), 0);
    assert_eq!(rt; content.payload().as_slice(), b"hi".as_slice());
    drop(contents);
    drop(keep);
    Ok(())
}

#[test]
fn a_copy_that_is_removed_takes_nothing_from_others_that_say_the_same(
    rt: HostRuntime,
) -> Result<(), Fail> {
    let alloc = rt.alloc();
    let mut keep = MemKeep::new(alloc)?;
    keep.apply(&with_copies(alloc)?)?;
    for place in [9, 2] {
        let changes = [Change::RemoveCopy { birth: 1, place }];
        let made = keep.apply(&changes);
        drop(changes);
        made?;
    }
    let contents = keep.contents(alloc, 1, 0, 64)?;
    assert!(rt; have_places(&contents, &[1, 5]));
    for content in contents {
        assert_eq!(rt; content.payload().as_slice(), b"hi".as_slice());
    }
    drop(keep);
    Ok(())
}

/// What a store tells after a call of `apply` that failed.
fn told_after(
    rt: &impl Abort,
    alloc: Global,
    failure: Failure,
    places: &[u64],
) -> Result<(), Fail> {
    let mut keep = FaultyKeep::new(alloc, 0, failure)?;
    let changes = with_copies(alloc)?;
    assert_eq!(rt; keep.apply(&changes), Err(KeepError::Disk));
    drop(changes);
    let contents = keep.contents(alloc, 1, 2, 2)?;
    assert!(rt; have_places(&contents, places));
    drop(contents);
    assert_eq!(rt; (keep.reads(), keep.failures()), (1, 1), "one of each");
    drop(keep);
    Ok(())
}

#[test]
fn a_store_tells_what_a_failing_device_left(rt: HostRuntime) -> Result<(), Fail> {
    told_after(&rt, rt.alloc(), Failure::BeforeChanges, &[])?;
    told_after(&rt, rt.alloc(), Failure::AfterChanges, &[2, 5])
}

/// The row at a place of the subscriber's queue.
fn row(records: &Records, place: u64) -> Option<&CopyRow> {
    let session = records.sessions.get(1)?;
    Some(session.get().queue.get(place)?.get())
}

/// The bytes of a copy's PUBLISH, and whether what it says is in memory.
fn looks(records: &Records, place: u64) -> Option<(u32, bool)> {
    let row = row(records, place)?;
    Some((row.size(), row.whole().is_some()))
}

/// What a store tells of the copy at place 5.
fn told(alloc: Global, keep: &mut MemKeep) -> Result<CopyContent, KeepError> {
    let mut contents = keep.contents(alloc, 1, 5, 1)?;
    match contents.pop() {
        Some(content) => Ok(content),
        None => Err(KeepError::Corrupt),
    }
}

/// What a store tells of the copy at place 5, with its own place and payload.
fn told_as(
    alloc: Global,
    keep: &mut MemKeep,
    place: u64,
    payload: &[u8],
) -> Result<CopyContent, KeepError> {
    let payload = Bytes::copy_from_slice(alloc, payload)?;
    let content = told(alloc, keep)?;
    let other = CopyContent::new(
        alloc,
        place,
        content.identifiers().clone()?,
        content.topic().clone()?,
        content.properties().clone()?,
        payload,
    )?;
    drop(content);
    Ok(other)
}

#[test]
fn a_slim_copy_says_again_what_is_told(rt: HostRuntime) -> Result<(), Fail> {
    let alloc = rt.alloc();
    let mut keep = MemKeep::with(alloc, whole(alloc)?);
    let mut records = whole(alloc)?;
    assert_eq!(rt; looks(&records, 5), Some((14, true)));
    records.make_slim(1, 5);
    records.make_slim(1, 6);
    records.make_slim(2, 5);
    assert_eq!(rt; looks(&records, 5), Some((14, false)), "it tells its bytes");
    assert_eq!(rt; looks(&records, 2), Some((14, true)), "others stay");
    let content = told(alloc, &mut keep)?;
    assert!(rt; records.fill(1, content));
    assert_eq!(rt; looks(&records, 5), Some((14, true)));
    drop(records);
    drop(keep);
    Ok(())
}

#[test]
fn all_copies_become_slim_and_whole_again(rt: HostRuntime) -> Result<(), Fail> {
    let alloc = rt.alloc();
    let mut keep = MemKeep::with(alloc, whole(alloc)?);
    let mut records = whole(alloc)?;
    records.make_all_slim();
    for place in [1, 2, 5, 9] {
        assert_eq!(rt; looks(&records, place), Some((14, false)), "{place}");
    }
    for content in keep.contents(alloc, 1, 0, 64)? {
        assert!(rt; records.fill(1, content), "it has the bytes of its row");
    }
    for place in [1, 2, 5, 9] {
        assert_eq!(rt; looks(&records, place), Some((14, true)), "{place}");
    }
    drop(records);
    drop(keep);
    Ok(())
}

#[test]
fn a_load_answers_slim_rows(rt: HostRuntime) -> Result<(), Fail> {
    let alloc = rt.alloc();
    let mut keep = MemKeep::with(alloc, whole(alloc)?);
    let mut records = keep.load(alloc)?;
    for place in [1, 2, 5, 9] {
        assert_eq!(rt; looks(&records, place), Some((14, false)), "{place}");
    }
    assert_eq!(rt; keep.reads(), 0, "a load is no question");
    for content in keep.contents(alloc, 1, 0, 64)? {
        assert_eq!(rt; content.payload().as_slice(), b"hi".as_slice());
        assert!(rt; records.fill(1, content), "the store has all that it says");
    }
    for place in [1, 2, 5, 9] {
        assert_eq!(rt; looks(&records, place), Some((14, true)), "{place}");
    }
    drop(records);
    drop(keep);
    Ok(())
}

#[test]
fn what_a_copy_says_is_read_off_its_row(rt: HostRuntime) -> Result<(), Fail> {
    let alloc = rt.alloc();
    let mut records = whole(alloc)?;
    let Some(whole) = row(&records, 5) else {
        panic!(rt; "no copy stands there");
    };
    let content = content_of(alloc, whole)?;
    assert_eq!(rt; content.place(), 5);
    assert_eq!(rt; content.payload().as_slice(), b"hi".as_slice());
    drop(content);
    records.make_slim(1, 5);
    let Some(slim) = row(&records, 5) else {
        panic!(rt; "it stands there still");
    };
    assert!(rt; content_of(alloc, slim).is_err(), "a slim row hasn't it");
    drop(records);
    Ok(())
}

#[test]
fn a_slim_copy_takes_in_nothing_else(rt: HostRuntime) -> Result<(), Fail> {
    let alloc = rt.alloc();
    let mut keep = MemKeep::with(alloc, whole(alloc)?);
    let mut records = whole(alloc)?;
    records.make_slim(1, 5);
    assert!(rt; !records.fill(2, told(alloc, &mut keep)?), "no such copy");
    let elsewhere = told_as(alloc, &mut keep, 6, b"hi")?;
    assert!(rt; !records.fill(1, elsewhere), "no copy stands there");
    let longer = told_as(alloc, &mut keep, 5, b"hi!")?;
    assert!(rt; !records.fill(1, longer), "it has other bytes");
    assert_eq!(rt; looks(&records, 5), Some((14, false)), "it stays slim");
    drop(records);
    drop(keep);
    Ok(())
}
