//! Turns that are stored together, before anything of them goes out (MQTT 5.0, 4.1, 4.2).
use crate::turns::clients::Clients;
use crate::turns::failing::{FailingKeep, Lack};
use crate::turns::stretches::{Held, stretch, taken};
use crate::turns::turns::{CONNACK, LIMITS, PUBLISHED, PUBLISHER, SUBSCRIBED, SUBSCRIBER, are};
use mqtt_broker::Engine;
use mqtt_keep::{Keep, MemKeep, Settles};
use mqtt_link::{Commit, HeldBack};
use mqtt_records::{Change, Counter};
use mqtt_serve::{Gathered, Links};
use std::alloc::Global;
use std::hash::RandomState;
use std::test::Fail;

/// A broker over a store that gathers the steps of a turn, or settles each of them; none if it can't be opened.
fn opened<K: Settles>(
    alloc: Global,
    keep: K,
    commit: Commit,
    hasher: RandomState,
) -> Option<Engine<Gathered<K>>> {
    match Engine::open(alloc, Gathered::new(alloc, keep, commit), 0, LIMITS, hasher) {
        Ok(engine) => Some(engine),
        Err((keep, _)) => {
            drop(keep);
            None
        }
    }
}

/// As `opened`, where it has to be.
fn gathering<K: Settles>(
    alloc: Global,
    keep: K,
    commit: Commit,
    hasher: RandomState,
) -> Result<Engine<Gathered<K>>, Fail> {
    match opened(alloc, keep, commit, hasher) {
        Some(engine) => Ok(engine),
        None => Err(Fail::from("the broker can't be opened")),
    }
}

/// So many stretches, a millisecond each; whether each was had.
fn turns<K: Settles>(links: &mut Held, engine: &mut Engine<K>, count: u64) -> bool {
    let mut goes_on = true;
    for moment in 0..count {
        goes_on = goes_on && stretch(links, engine, moment).is_ok();
    }
    goes_on
}

/// Clients over a broker that begins with nothing, for so many turns.
pub(crate) fn play(
    alloc: Global,
    clients: Clients,
    commit: Commit,
    hasher: RandomState,
    count: u64,
) -> Result<Held, Fail> {
    let mut links = Links::new(alloc, HeldBack::new(alloc, clients))?;
    let mut engine = gathering(alloc, MemKeep::new(alloc)?, commit, hasher)?;
    let goes_on = turns(&mut links, &mut engine, count);
    drop(engine.close());
    if goes_on {
        return Ok(links);
    }
    drop(links);
    Err(Fail::from("the engine refuses"))
}

#[test]
fn both_handshakes_are_done_over_a_link_that_holds_back(rt: HostRuntime) -> Result<(), Fail> {
    for commit in [Commit::Turn, Commit::Step] {
        for chunk in [3, 4096] {
            let clients = Clients::new(rt.alloc(), &[SUBSCRIBER, PUBLISHER], chunk, None)?;
            let links = play(rt.alloc(), clients, commit, RandomState::new(&rt)?, 90)?;
            let is_received = are(links.link().link().taken(0), CONNACK, SUBSCRIBED);
            let is_published = are(links.link().link().taken(1), CONNACK, PUBLISHED);
            drop(links);
            assert!(rt; is_received, "{commit:?} {chunk}");
            assert!(rt; is_published, "{commit:?} {chunk}");
        }
    }
    Ok(())
}

/// A store that wants memory seven times serves a subscriber and a publisher: whether it was asked in each of 47 turns, and whether
/// nothing went out in the first seven.
fn wants_memory(
    links: &mut Held,
    alloc: Global,
    hasher: RandomState,
) -> Result<(bool, bool), Fail> {
    let keep = FailingKeep::new(alloc, 0, 7, Lack::Memory)?;
    let mut engine = gathering(alloc, keep, Commit::Turn, hasher)?;
    let first = turns(links, &mut engine, 7);
    let is_silent = taken(links) == (0, 0);
    let then = turns(links, &mut engine, 40);
    drop(engine.close());
    Ok((first && then, is_silent))
}

#[test]
fn a_store_that_wants_memory_is_told_again_in_the_next_turn(rt: HostRuntime) -> Result<(), Fail> {
    let clients = Clients::new(rt.alloc(), &[SUBSCRIBER, PUBLISHER], 4096, None)?;
    let mut links = Links::new(rt.alloc(), HeldBack::new(rt.alloc(), clients))?;
    let wants = wants_memory(&mut links, rt.alloc(), RandomState::new(&rt)?);
    let is_received = are(links.link().link().taken(0), CONNACK, SUBSCRIBED);
    let is_published = are(links.link().link().taken(1), CONNACK, PUBLISHED);
    drop(links);
    let (goes_on, is_silent) = wants?;
    assert!(rt; goes_on);
    assert!(rt; is_silent);
    assert!(rt; is_received);
    assert!(rt; is_published);
    Ok(())
}

/// Whether a store behind one that gathers has a step at once, with each of both ways to commit.
fn has_at_once(alloc: Global, commit: Commit) -> Result<bool, Fail> {
    let mut keep = Gathered::new(alloc, MemKeep::new(alloc)?, commit);
    let change = [Change::SetCounter {
        counter: Counter::Publications,
        value: 1,
    }];
    let was_taken = keep.load(alloc).is_ok() && keep.apply(&change).is_ok();
    let mut store = keep.into_inner();
    let has = match store.load(alloc) {
        Ok(records) => records.publications == 1,
        Err(_) => false,
    };
    drop(store);
    if was_taken {
        return Ok(has);
    }
    Err(Fail::from("the store refuses"))
}

#[test]
fn a_step_is_stored_at_once_where_each_is_stored_by_itself(rt: HostRuntime) -> Result<(), Fail> {
    assert!(rt; has_at_once(rt.alloc(), Commit::Step)?);
    assert!(rt; !has_at_once(rt.alloc(), Commit::Turn)?);
    Ok(())
}
