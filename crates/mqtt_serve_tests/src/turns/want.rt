//! Want of memory in turns that are stored together (MQTT 5.0, 4.1, 4.2).
use crate::turns::clients::Stage;
use crate::turns::course::{Seen, look};
use crate::turns::stretches::{Held, clients_held, stretch};
use crate::turns::turns::LIMITS;
use mqtt_broker::Engine;
use mqtt_keep::MemKeep;
use mqtt_link::Commit;
use mqtt_serve::Gathered;
use std::alloc::Global;
use std::hash::RandomState;
use std::test::Fail;

/// By "s": CONNECT with a session that never ends, and SUBSCRIBE; by "b": CONNECT and PINGREQ (3.1.2.11.2, 3.8, 3.12).
const ASKING: [&[Stage]; 2] = [
    &[(
        0,
        b"\x10\x13\x00\x04MQTT\x05\x00\x00\x00\x05\x11\xff\xff\xff\xff\x00\x01s\x82\x09\x00\x01\x00\x00\x03a/b\x02",
    )],
    &[(
        0,
        b"\x10\x0e\x00\x04MQTT\x05\x02\x00\x3c\x00\x00\x01b\xc0\x00",
    )],
];

/// CONNACK and SUBACK; CONNACK and PINGRESP.
const ANSWERS: [&[u8]; 2] = [
    b"\x20\x0e\x00\x00\x0b\x21\x00\x14\x22\x00\x0a\x27\x00\x01\x00\x00\x90\x04\x00\x01\x00\x02",
    b"\x20\x0e\x00\x00\x0b\x21\x00\x14\x22\x00\x0a\x27\x00\x01\x00\x00\xd0\x00",
];

/// How many of the bytes are the CONNACK's.
const CONNACK_LEN: usize = 16;

/// What came of stretches.
#[derive(Clone, Copy, Debug)]
struct Came {
    /// Whether each was had.
    goes_on: bool,
    /// How many bytes went out to each client.
    sent: [usize; 2],
    /// Whether they are a beginning of its answers.
    are_begun: bool,
    /// How many connections are left.
    left: usize,
    /// What is stored.
    seen: Seen,
}

/// So many stretches by a broker over a store in memory: whether each was had, and what is stored then; none for want of memory.
fn serves(
    alloc: Global,
    links: &mut Held,
    hasher: RandomState,
    stretches: u64,
) -> Option<(bool, Seen)> {
    let Ok(keep) = MemKeep::new(alloc) else {
        return None;
    };
    let keep = Gathered::new(alloc, keep, Commit::Turn);
    match Engine::open(alloc, keep, 0, LIMITS, hasher) {
        Ok(engine) => {
            let mut engine = engine;
            let mut goes_on = true;
            for moment in 0..stretches {
                goes_on = goes_on && stretch(links, &mut engine, moment).is_ok();
            }
            let mut keep = engine.close().into_inner();
            let seen = look(alloc, &mut keep);
            drop(keep);
            match seen {
                Some(seen) => Some((goes_on, seen)),
                None => None,
            }
        }
        Err((keep, _)) => {
            drop(keep);
            None
        }
    }
}

/// What comes of so many stretches over both clients; none for want of memory.
fn comes_of(alloc: Global, hasher: RandomState, stretches: u64) -> Option<Came> {
    let Ok(mut links) = clients_held(alloc, &ASKING) else {
        return None;
    };
    let served = serves(alloc, &mut links, hasher, stretches);
    let clients = links.link().link();
    let (first, second) = (clients.taken(0), clients.taken(1));
    let sent = [first.len(), second.len()];
    let are_begun = ANSWERS[0].starts_with(first) && ANSWERS[1].starts_with(second);
    let left = links.len();
    drop(links);
    match served {
        Some((goes_on, seen)) => Some(Came {
            goes_on,
            sent,
            are_begun,
            left,
            seen,
        }),
        None => None,
    }
}

/// Whether the sessions of those to whom something went out are stored, and the subscription if the SUBACK did.
fn is_stored(came: Came) -> bool {
    let told = usize::from(came.sent[0] > 0).saturating_add(usize::from(came.sent[1] > 0));
    told <= came.seen.sessions && (came.sent[0] <= CONNACK_LEN || came.seen.subscriptions == 1)
}

/// Whether each connection that is left was answered whole; one at most is lost.
fn is_answered(came: Came) -> bool {
    let whole = usize::from(came.sent[0] == ANSWERS[0].len()).saturating_add(usize::from(
        came.sent[1] == ANSWERS[1].len(),
    ));
    came.left > 0 && whole >= came.left
}

#[test]
fn what_memory_was_wanting_for_is_done_in_the_next_stretch(rt: HostRuntime) -> Result<(), Fail> {
    for stretches in [1, 2] {
        let Some(came) = comes_of(rt.alloc(), RandomState::new(&rt)?, stretches) else {
            return Err(Fail::from("want of memory"));
        };
        assert!(rt; came.goes_on && came.are_begun, "{came:?}");
        if stretches == 1 {
            assert!(rt; is_stored(came), "{came:?}");
        } else {
            assert!(rt; is_answered(came), "{came:?}");
        }
    }
    Ok(())
}
