//! What is at hand of a queue as copies enter and leave it (MQTT 5.0, 4.1, 4.6).
use mqtt_flow::{AT_HAND_LIMIT, AtHand};
use std::alloc::Global;
use std::process::Abort;
use std::test::Fail;

/// Copies enter at the places from `first` to before `end`, each of which says its place and 1,000.
fn enter(alloc: Global, at_hand: &mut AtHand<u32>, first: u32, end: u32) -> Result<(), Fail> {
    for place in first..end {
        at_hand.enter(alloc, u64::from(place), place.wrapping_add(1_000))?;
    }
    Ok(())
}

/// What the copy at a place says.
fn said(at_hand: &AtHand<u32>, place: u64) -> Option<u32> {
    at_hand.find(place).copied()
}

#[test]
fn sixty_four_are_at_hand(rt: HostRuntime) -> Result<(), Fail> {
    let mut at_hand = AtHand::new();
    assert!(rt; at_hand.len() == 0 && at_hand.reaches_end());
    enter(rt.alloc(), &mut at_hand, 10, 74)?;
    assert!(rt; at_hand.len() == AT_HAND_LIMIT && at_hand.reaches_end());
    assert!(rt; said(&at_hand, 9).is_none());
    assert!(rt; said(&at_hand, 10) == Some(1_010));
    assert!(rt; said(&at_hand, 73) == Some(1_073));
    enter(rt.alloc(), &mut at_hand, 74, 76)?;
    assert!(rt; at_hand.len() == AT_HAND_LIMIT && !at_hand.reaches_end());
    assert!(rt; said(&at_hand, 73) == Some(1_073) && said(&at_hand, 74).is_none());
    Ok(())
}

#[test]
fn none_is_put_behind_a_gap(rt: HostRuntime) -> Result<(), Fail> {
    let mut at_hand = AtHand::new();
    enter(rt.alloc(), &mut at_hand, 0, 65)?;
    at_hand.leave(0);
    enter(rt.alloc(), &mut at_hand, 65, 66)?;
    assert!(rt; at_hand.len() == 63 && !at_hand.reaches_end());
    assert!(rt; said(&at_hand, 63) == Some(1_063) && said(&at_hand, 65).is_none());
    Ok(())
}

#[test]
fn who_leaves_is_gone_and_the_others_stay(rt: HostRuntime) -> Result<(), Fail> {
    let mut at_hand = AtHand::new();
    enter(rt.alloc(), &mut at_hand, 1, 6)?;
    for place in [3, 1, 5, 7, 0] {
        at_hand.leave(place);
        assert!(rt; said(&at_hand, place).is_none(), "{place}");
    }
    assert!(rt; at_hand.len() == 2 && at_hand.reaches_end());
    assert!(rt; said(&at_hand, 2) == Some(1_002) && said(&at_hand, 4) == Some(1_004));
    Ok(())
}

#[test]
fn a_queue_that_is_served_stays_at_hand(rt: HostRuntime) -> Result<(), Fail> {
    let mut at_hand = AtHand::new();
    enter(rt.alloc(), &mut at_hand, 0, 60)?;
    for place in 60..300_u32 {
        at_hand.leave(u64::from(place - 60));
        enter(rt.alloc(), &mut at_hand, place, place + 1)?;
        assert!(rt;
            said(&at_hand, u64::from(place - 59)) == Some(place + 941),
            "{place}"
        );
    }
    assert!(rt; at_hand.len() == 60 && at_hand.reaches_end());
    Ok(())
}

#[test]
fn what_is_read_is_put_in_place_of_all(rt: HostRuntime) -> Result<(), Fail> {
    let mut at_hand = AtHand::new();
    enter(rt.alloc(), &mut at_hand, 0, 3)?;
    at_hand.fill(
        rt.alloc(),
        vec![in rt.alloc(); (7, 70_u32), (9, 90)]?,
        false,
    )?;
    assert!(rt; at_hand.len() == 2 && said(&at_hand, 2).is_none());
    assert!(rt; said(&at_hand, 7) == Some(70) && said(&at_hand, 9) == Some(90));
    enter(rt.alloc(), &mut at_hand, 10, 11)?;
    assert!(rt; said(&at_hand, 10).is_none());
    at_hand.fill(rt.alloc(), vec![in rt.alloc(); (9, 90_u32)]?, true)?;
    enter(rt.alloc(), &mut at_hand, 10, 11)?;
    assert!(rt; at_hand.len() == 2 && said(&at_hand, 10) == Some(1_010));
    at_hand.clear();
    assert!(rt; at_hand.len() == 0 && !at_hand.reaches_end());
    Ok(())
}

#[test]
fn a_place_that_is_no_higher_is_not_put_behind(rt: HostRuntime) -> Result<(), Fail> {
    let mut at_hand = AtHand::new();
    enter(rt.alloc(), &mut at_hand, 5, 6)?;
    at_hand.enter(rt.alloc(), 5, 2)?;
    assert!(rt; at_hand.len() == 1 && said(&at_hand, 5) == Some(1_005));
    assert!(rt; !at_hand.reaches_end());
    Ok(())
}

/// A copy's bytes.
fn bytes(alloc: Global, place: u8) -> Result<Vec<u8>, Fail> {
    Ok(vec![in alloc; place, place]?)
}

#[test]
fn what_owns_memory_is_kept_and_given_back(rt: HostRuntime) -> Result<(), Fail> {
    let mut at_hand = AtHand::new();
    for place in 0..70_u8 {
        at_hand.enter(rt.alloc(), u64::from(place), bytes(rt.alloc(), place)?)?;
    }
    at_hand.leave(20);
    at_hand.leave(0);
    assert!(rt; at_hand.len() == 62 && at_hand.find(20).is_none());
    match at_hand.find(21) {
        Some(content) => assert!(rt; content.as_slice() == [21, 21].as_slice()),
        None => assert!(rt; false, "it is at hand"),
    }
    Ok(())
}
