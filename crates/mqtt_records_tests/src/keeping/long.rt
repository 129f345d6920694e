//! A long queue, from which copies leave (4.3, 4.6).

use crate::keeping::kept::{copy, session};
use mqtt_records::{Change, Records};
use std::alloc::{AllocError, Global};
use std::test::Fail;

/// So many copies wait in front of the first turn.
const COPIES: u64 = 300;

/// Records of a session in which copies wait.
fn waiting(alloc: Global) -> Result<Records, AllocError> {
    let mut records = Records::new(alloc)?;
    records.change(session(alloc, 1, "c", None)?);
    for place in 1..=COPIES {
        records.change(copy(alloc, 1, place)?);
    }
    Ok(records)
}

/// Whether the session has these copies, in this order, and finds each of them.
fn stand(records: &Records, places: &[u64]) -> bool {
    let Some(session) = records.sessions.get(1) else {
        return false;
    };
    let queue = &session.get().queue;
    let rows = queue.as_slice().iter();
    rows.map(|row| row.get().place()).eq(places.iter().copied())
        && places.iter().all(|place| queue.has(*place))
}

/// The copy at an index of the queue leaves.
fn leave(records: &mut Records, places: &mut Vec<u64>, index: usize) {
    if index < places.len() {
        let place = places.remove(index);
        records.change(Change::RemoveCopy { birth: 1, place });
    }
}

#[test]
fn copies_leave_a_long_queue_in_any_order(rt: HostRuntime) -> Result<(), Fail> {
    let alloc = rt.alloc();
    let mut records = waiting(alloc)?;
    let mut places: Vec<u64> = (1..=COPIES).collect(alloc)?;
    assert!(rt; stand(&records, &places), "all wait");
    for turn in 0..COPIES {
        // most of the places are among those in front, some behind them
        leave(&mut records, &mut places, (turn as usize * 7) % 40);
        if turn % 3 == 0 {
            let place = COPIES + 1 + turn;
            records.change(copy(alloc, 1, place)?);
            places.push(place)?;
        }
        assert!(rt;
            stand(&records, &places),
            "the others stand after turn {turn}"
        );
    }
    let again = records.clone()?;
    drop(records);
    assert!(rt; stand(&again, &places), "so does a clone");
    drop(places);
    drop(again);
    Ok(())
}

#[test]
fn a_queue_is_emptied_from_its_front(rt: HostRuntime) -> Result<(), Fail> {
    let alloc = rt.alloc();
    let mut records = waiting(alloc)?;
    let mut places: Vec<u64> = (1..=COPIES).collect(alloc)?;
    for _ in 0..COPIES {
        leave(&mut records, &mut places, 0);
        assert!(rt; stand(&records, &places), "the others stand");
    }
    assert!(rt; places.is_empty(), "none is left");
    records.change(copy(alloc, 1, 7)?);
    assert!(rt; stand(&records, &[7]), "a copy enters again");
    drop(places);
    drop(records);
    Ok(())
}
