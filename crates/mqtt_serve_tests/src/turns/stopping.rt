//! A store that fails at each of its calls, under turns whose steps are stored together (MQTT 5.0, 4.1).
use crate::turns::course::{Ended, STORING, Seen, course, is_silent, look, stored};
use mqtt_keep::{Failure, FaultyKeep};
use std::alloc::{AllocError, Global};
use std::hash::RandomState;
use std::test::Fail;

/// The course over a store that fails at one of its calls: what came of it, and what the store has then.
fn fails(
    alloc: Global,
    hasher: RandomState,
    until: u64,
    failure: Failure,
) -> Result<(Option<Ended>, Option<Seen>), AllocError> {
    let keep = FaultyKeep::new(alloc, until, failure)?;
    let (ended, keep) = course(alloc, keep, hasher);
    let mut keep = keep;
    let seen = look(alloc, &mut keep);
    drop(keep);
    Ok((ended, seen))
}

/// What is to stand in the store: what stood there before the stretch that broke off, or all that it did.
fn left_by(ended: Ended, failure: Failure) -> Seen {
    match (ended.by, failure) {
        (Some(_), Failure::AfterChanges) => stored(ended.had.saturating_add(1)),
        _ => stored(ended.had),
    }
}

/// Whether nothing of the stretch that broke off went out, and all or nothing of it is stored.
fn is_right(ended: Ended, seen: Option<Seen>, failure: Failure) -> bool {
    is_silent(ended) && seen == Some(left_by(ended, failure))
}

#[test]
fn nothing_of_a_turn_that_is_not_stored_goes_out(rt: HostRuntime) -> Result<(), Fail> {
    for failure in [Failure::BeforeChanges, Failure::AfterChanges] {
        let mut calls = None;
        for until in 0..60 {
            let (ended, seen) = fails(rt.alloc(), RandomState::new(&rt)?, until, failure)?;
            let Some(ended) = ended else {
                return Err(Fail::from("the broker can't be opened"));
            };
            assert!(rt;
                is_right(ended, seen, failure),
                "{failure:?} {until}: {ended:?} {seen:?}"
            );
            if ended.by.is_none() {
                calls = Some(until);
                break;
            }
        }
        // Each stretch that stores something calls the store once.
        assert_eq!(rt; calls, Some(STORING), "{failure:?}");
    }
    Ok(())
}
