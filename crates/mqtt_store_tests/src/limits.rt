//! A store whose statements may take few steps, or that wants memory: a load or a step of changes is made or isn't.
ghost use Rattle.std.specs.Prelude.{OnOk};

use crate::broken::{Base, database_of};
use crate::changes::{LONG, STEPS};
use crate::seen::Seen;
use crate::store::{Deed, Told, database, found, load_whole, make, told_over};
use mqtt_keep::{Keep, KeepError};
use mqtt_store::SqlKeep;
use sqlite::Connection;
use std::alloc::Global;
use std::process::Abort;
use std::test::Fail;

/// What a store in memory that has the long course answers, if the steps behind it up to another and a load before them may
/// take so many steps of the database. The load takes a database of schema 1 over.
fn limited(alloc: Global, of: Base, to: usize, limit: u64) -> Result<Told, KeepError> {
    let deed = Deed {
        from: LONG,
        to,
        limit: Some(limit),
    };
    Ok(told_over(alloc, database_of(alloc, of)?, deed))
}

/// What a store finds before and behind that step.
pub(crate) fn two(alloc: Global) -> Result<[Result<Seen, KeepError>; 2], KeepError> {
    let (before, _) = found(alloc, database(alloc, LONG)?);
    let (after, _) = found(alloc, database(alloc, LONG + 1)?);
    Ok([before, after])
}

/// Whether each call was made or not, and a failure counted for each that wasn't.
fn is_whole(it: &Told, two: &[Result<Seen, KeepError>; 2]) -> bool {
    let failed = u64::from(it.limited.is_err()) + u64::from(it.made.is_err());
    let is_loaded = it.limited == two[0] || it.limited == Err(KeepError::Disk);
    let is_made = match it.made {
        Ok(()) => it.after == two[1],
        Err(fault) => fault == KeepError::Disk && it.after == two[0],
    };
    is_loaded && it.before == two[0] && is_made && it.failures == failed
}

/// How often such a store is interrupted within 1, 2, 4, .. steps, until it isn't; and the limit within which it is not whole,
/// if there is one.
fn interruptions(
    alloc: Global,
    of: Base,
    to: usize,
    two: &[Result<Seen, KeepError>; 2],
) -> Result<(u32, Option<u64>), KeepError> {
    let mut times = 0_u32;
    let mut limit = 1_u64;
    for _ in 0..40 {
        let it = limited(alloc, of, to, limit)?;
        if !is_whole(&it, two) {
            break;
        }
        if it.failures == 0 {
            return Ok((times, None));
        }
        times = times.wrapping_add(1);
        limit = limit.wrapping_mul(2);
    }
    Ok((times, Some(limit)))
}

#[test]
fn what_is_interrupted_is_made_or_not(rt: HostRuntime) -> Result<(), Fail> {
    let two = two(rt.alloc())?;
    let (times, wrong) = interruptions(rt.alloc(), Base::Course(LONG), LONG + 1, &two)?;
    assert_eq!(rt; wrong, None);
    assert!(rt; times > 0);
    Ok(())
}

/// A load that takes a database over either does so or leaves it of schema 1: both have the same records.
#[test]
fn a_taking_over_that_is_interrupted_keeps_all(rt: HostRuntime) -> Result<(), Fail> {
    let [before, _] = two(rt.alloc())?;
    let (times, wrong) = interruptions(rt.alloc(), Base::First, LONG, &[before, before])?;
    assert_eq!(rt; wrong, None);
    assert!(rt; times > 0);
    Ok(())
}

/// Loads, a second time if memory was wanting.
fn load_in_the_end<K: Keep>(keep: &mut K, alloc: Global) -> Result<Seen, KeepError>
    ensures { OnOk result (K.Keep.is_loaded keep.new) }
{
    match load_whole(keep, alloc) {
        Err(KeepError::Memory) => load_whole(keep, alloc),
        answer => answer,
    }
}

/// Makes a step of the course, a second time if memory was wanting and nothing changed.
fn step_in_the_end<K: Keep>(
    rt: &impl Abort,
    keep: &mut K,
    alloc: Global,
    at: usize,
) -> Result<(), KeepError> {
    let before = load_in_the_end(keep, alloc)?;
    match make(keep, alloc, at, at.saturating_add(1)) {
        Err(KeepError::Memory) => {
            let after = load_in_the_end(keep, alloc)?;
            assert_eq!(rt; after, before);
            make(keep, alloc, at, at.saturating_add(1))
        }
        answer => answer,
    }
}

/// Makes the course so; answers what is found at the end.
fn make_in_the_end<K: Keep>(
    rt: &impl Abort,
    keep: &mut K,
    alloc: Global,
) -> Result<Seen, KeepError> {
    for at in 0..STEPS.len() {
        step_in_the_end(rt, keep, alloc, at)?;
    }
    load_in_the_end(keep, alloc)
}

/// Run with each growth refused in turn, by tools/refused_growths.
#[test]
fn want_of_memory_changes_nothing(rt: HostRuntime) -> Result<(), Fail> {
    let conn = Connection::open_in_memory(rt.alloc())?;
    match SqlKeep::new(rt.alloc(), conn) {
        Ok(keep) => {
            let mut keep = keep;
            let found = make_in_the_end(&rt, &mut keep, rt.alloc());
            let failures = keep.failures();
            drop(keep);
            assert_eq!(rt; failures, 0);
            let want = [2, 2, 2, 0, 0, 1, 0, 0, 0, 0, 0];
            assert_eq!(rt; found?.as_slice().get(..11), Some(want.as_slice()));
            Ok(())
        }
        Err((error, store)) => {
            drop(store);
            Err(error)?
        }
    }
}
