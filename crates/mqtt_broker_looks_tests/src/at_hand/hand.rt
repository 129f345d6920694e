//! What is at hand as copies come and go, and what is fetched from a store in memory (MQTT 5.0, 4.1, 4.6).

use bytes::Bytes;
use mqtt_base::{Cause, CopyId, Phase, Qos, Text};
use mqtt_broker_looks::at_hand::AllAtHand;
use mqtt_keep::{Keep, MemKeep};
use mqtt_records::{
    Boxed, Change, Columns, Content, CopyContent, CopyRow, MessageCopy, PassedOn, SessionRow,
    SubscriptionIdentifiers,
};
use std::alloc::{AllocError, Global};
use std::process::Abort;
use std::test::Fail;

/// A text that is one.
fn text(alloc: Global, text: &str) -> Result<Text, AllocError> {
    if !Text::may_hold(text) {
        return Err(AllocError);
    }
    Text::new(alloc, text)
}

/// A session's row.
fn session(alloc: Global, birth: u64, client: &str) -> Result<Change, AllocError> {
    let columns = Columns {
        birth,
        client: text(alloc, client)?,
        expiry: 60,
        closed: None,
    };
    Ok(Change::PutSession {
        row: SessionRow::new(alloc, columns)?,
    })
}

/// What a copy says whose payload is one byte.
fn content(alloc: Global, payload: u8) -> Result<Content, AllocError> {
    let topic = text(alloc, "a/b")?;
    let payload = Bytes::copy_from_slice(alloc, &[payload])?;
    Ok(Content {
        topic,
        properties: PassedOn::new(),
        payload,
        arrived: 0,
    })
}

/// A copy in the queue of a session at a place, whose payload is that place.
fn row(alloc: Global, birth: u64, place: u8) -> Result<CopyRow, AllocError> {
    let content = content(alloc, place)?;
    let copy = MessageCopy {
        id: CopyId {
            publication: u64::from(place),
            birth,
            cause: Cause::Direct,
        },
        qos: Qos::AtLeastOnce,
        retain: false,
        identifiers: SubscriptionIdentifiers::new(alloc),
        content,
    };
    match CopyRow::new(alloc, u64::from(place), Phase::Waiting, copy) {
        Ok(row) => Ok(row),
        Err(_) => Err(AllocError),
    }
}

fn copy(alloc: Global, birth: u64, place: u8) -> Result<Change, AllocError> {
    let row = row(alloc, birth, place)?;
    Ok(Change::PutCopy {
        birth,
        row: Boxed::new(alloc, row)?,
    })
}

/// Makes changes in the store, and what is at hand goes along.
fn step(
    alloc: Global,
    keep: &mut MemKeep,
    hand: &mut AllAtHand,
    change: Change,
) -> Result<bool, Fail> {
    let changes = [change];
    keep.apply(&changes)?;
    let is_all = hand.follow(alloc, &changes);
    drop(changes);
    Ok(is_all)
}

/// The last byte of a copy's payload, if that is at hand.
fn said(hand: &AllAtHand, birth: u64, place: u64) -> Option<u8> {
    match hand.find(birth, place) {
        Some(content) => content.payload().as_slice().last().copied(),
        None => None,
    }
}

/// Whether contents are those of copies at these places.
fn are_of(contents: &[CopyContent], places: &[u64]) -> bool {
    if contents.len() != places.len() {
        return false;
    }
    for (content, place) in contents.iter().zip(places) {
        let payload = content.payload().as_slice().last().copied();
        if content.place() != *place || payload.map(u64::from) != Some(*place) {
            return false;
        }
    }
    true
}

#[test]
fn what_enters_is_at_hand_until_it_leaves(rt: HostRuntime) -> Result<(), Fail> {
    let alloc = rt.alloc();
    let mut keep = MemKeep::new(alloc)?;
    let mut hand = AllAtHand::new(alloc);
    for (birth, client) in [(1, "r1"), (2, "r2")] {
        step(alloc, &mut keep, &mut hand, session(alloc, birth, client)?)?;
    }
    for (birth, place) in [(1, 1), (2, 1), (1, 2), (1, 3)] {
        let is_all = step(alloc, &mut keep, &mut hand, copy(alloc, birth, place)?)?;
        assert!(rt; is_all, "copy {place} of session {birth}");
    }
    assert!(rt; said(&hand, 1, 2) == Some(2) && said(&hand, 2, 1) == Some(1));
    assert!(rt; said(&hand, 2, 2).is_none(), "no such copy");
    let gone = Change::RemoveCopy { birth: 1, place: 2 };
    step(alloc, &mut keep, &mut hand, gone)?;
    assert!(rt; said(&hand, 1, 2).is_none() && said(&hand, 1, 3) == Some(3));
    step(
        alloc,
        &mut keep,
        &mut hand,
        Change::RemoveSession { birth: 1 },
    )?;
    assert!(rt; said(&hand, 1, 3).is_none() && said(&hand, 2, 1) == Some(1));
    let fetched = hand.fetch(alloc, &mut keep, 2, &[1])?;
    assert!(rt; are_of(&fetched, &[1]));
    assert_eq!(rt; keep.reads(), 0, "all was at hand");
    drop(fetched);
    drop(keep);
    Ok(())
}

#[test]
fn a_slim_row_is_not_at_hand(rt: HostRuntime) -> Result<(), Fail> {
    let alloc = rt.alloc();
    let mut hand = AllAtHand::new(alloc);
    let changes = [copy(alloc, 1, 1)?, copy(alloc, 2, 1)?];
    assert!(rt; hand.follow(alloc, &changes));
    drop(changes);
    let mut row = row(alloc, 1, 2)?;
    row.make_slim();
    let changes = [Change::PutCopy {
        birth: 1,
        row: Boxed::new(alloc, row)?,
    }];
    assert!(rt; !hand.follow(alloc, &changes));
    drop(changes);
    assert!(rt; said(&hand, 1, 1).is_none() && said(&hand, 2, 1) == Some(1));
    Ok(())
}

/// A store in memory with a session's queue of 150 copies.
fn long_queue(alloc: Global) -> Result<MemKeep, Fail> {
    let mut keep = MemKeep::new(alloc)?;
    let changes = [session(alloc, 1, "r1")?];
    keep.apply(&changes)?;
    drop(changes);
    for place in 1..151_u8 {
        let changes = [copy(alloc, 1, place)?];
        keep.apply(&changes)?;
        drop(changes);
    }
    Ok(keep)
}

#[test]
fn a_long_queue_is_read_sixty_four_at_a_time(rt: HostRuntime) -> Result<(), Fail> {
    let alloc = rt.alloc();
    let mut keep = long_queue(alloc)?;
    let mut hand = AllAtHand::new(alloc);
    for place in 1..151_u64 {
        let fetched = hand.fetch(alloc, &mut keep, 1, &[place])?;
        assert!(rt; are_of(&fetched, &[place]), "{place}");
        drop(fetched);
    }
    assert_eq!(rt; keep.reads(), 3, "1 to 64, 65 to 128, 129 to 150");
    step(alloc, &mut keep, &mut hand, copy(alloc, 1, 151)?)?;
    assert!(rt; said(&hand, 1, 151) == Some(151), "the end was at hand");
    drop(keep);
    Ok(())
}

#[test]
fn places_without_a_copy_give_nothing(rt: HostRuntime) -> Result<(), Fail> {
    let alloc = rt.alloc();
    let mut keep = long_queue(alloc)?;
    let mut hand = AllAtHand::new(alloc);
    let fetched = hand.fetch(alloc, &mut keep, 1, &[3, 60, 100, 200, u64::MAX])?;
    assert!(rt; are_of(&fetched, &[3, 60, 100]));
    assert_eq!(rt; keep.reads(), 4, "at 3, 100, 200 and the last");
    drop(fetched);
    let fetched = hand.fetch(alloc, &mut keep, 7, &[1])?;
    assert!(rt; fetched.is_empty(), "no such session");
    drop(fetched);
    drop(keep);
    Ok(())
}

#[test]
fn what_is_filled_in_is_found_until_it_is_cleared(rt: HostRuntime) -> Result<(), Fail> {
    let alloc = rt.alloc();
    let mut keep = long_queue(alloc)?;
    let mut hand = AllAtHand::new(alloc);
    let contents = keep.contents(alloc, 1, 140, 64)?;
    assert!(rt; hand.fill(alloc, 1, contents, true));
    assert!(rt; said(&hand, 1, 139).is_none() && said(&hand, 1, 150) == Some(150));
    let contents = keep.contents(alloc, 1, 1, 65)?;
    assert!(rt;
        !hand.fill(alloc, 1, contents, false),
        "one more than may be"
    );
    assert!(rt; said(&hand, 1, 1).is_none() && said(&hand, 1, 150).is_none());
    let contents = keep.contents(alloc, 1, 1, 64)?;
    assert!(rt; hand.fill(alloc, 1, contents, false));
    assert!(rt; said(&hand, 1, 64) == Some(64));
    hand.clear(1);
    assert!(rt; said(&hand, 1, 64).is_none());
    drop(keep);
    Ok(())
}
