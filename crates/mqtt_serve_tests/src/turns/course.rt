//! A course of two clients: what they say, what has gone out to them after each stretch, and what is stored then (MQTT 5.0, 4.3).
use crate::turns::clients::Stage;
use crate::turns::stretches::{Held, clients_held, stretch};
use crate::turns::turns::LIMITS;
use mqtt_base::Phase;
use mqtt_broker::Engine;
use mqtt_broker_step::EngineError;
use mqtt_keep::{Keep, Settles};
use mqtt_link::Commit;
use mqtt_records::{Records, Session};
use mqtt_serve::Gathered;
use std::alloc::Global;
use std::hash::RandomState;

/// By "s": CONNECT with a session that never ends, and SUBSCRIBE to "a/b" at QoS 2; PUBREC and PUBACK once both PUBLISH have come;
/// PUBCOMP (3.1.2.11.2, 3.8, 3.5, 3.4, 3.7).
const STAYING: &[Stage] = &[
    (
        0,
        b"\x10\x13\x00\x04MQTT\x05\x00\x00\x00\x05\x11\xff\xff\xff\xff\x00\x01s\x82\x09\x00\x01\x00\x00\x03a/b\x02",
    ),
    (46, b"\x50\x02\x00\x01\x40\x02\x00\x02"),
    (50, b"\x70\x02\x00\x01"),
];

/// By "p": CONNECT; PUBLISH at QoS 2 and at QoS 1; PUBREL (3.3, 3.6).
const PUBLISHING: &[Stage] = &[
    (0, b"\x10\x0e\x00\x04MQTT\x05\x02\x00\x3c\x00\x00\x01p"),
    (
        16,
        b"\x34\x0a\x00\x03a/b\x00\x07\x00hi\x32\x0a\x00\x03a/b\x00\x08\x00yo",
    ),
    (24, b"\x62\x02\x00\x07"),
];

/// To "s": CONNACK and SUBACK; both PUBLISH, at QoS 2 with identifier 1 and at QoS 1 with 2; PUBREL.
const TO_STAYING: &[u8] =
    b"\x20\x0e\x00\x00\x0b\x21\x00\x14\x22\x00\x0a\x27\x00\x01\x00\x00\x90\x04\x00\x01\x00\x02\
    \x34\x0a\x00\x03a/b\x00\x01\x00hi\x32\x0a\x00\x03a/b\x00\x02\x00yo\x62\x02\x00\x01";

/// To "p": CONNACK; PUBREC and PUBACK; PUBCOMP.
const TO_PUBLISHING: &[u8] = b"\x20\x0e\x00\x00\x0b\x21\x00\x14\x22\x00\x0a\x27\x00\x01\x00\x00\
    \x50\x02\x00\x07\x40\x02\x00\x08\x70\x02\x00\x07";

/// How many stretches store something: each waits for answers to what the one before let go.
pub(crate) const STORING: u64 = 4;

/// How many stretches a broker is given that isn't broken off.
const STRETCHES: u64 = 12;

/// How many bytes have gone out to both clients after so many stretches.
fn gone_out(stretches: u64) -> (usize, usize) {
    match stretches {
        0 => (0, 0),
        1 => (22, 16),
        2 => (46, 24),
        _ => (50, 28),
    }
}

/// Whether these bytes are so many of those, from the first on.
fn are_first(bytes: &[u8], count: usize, all: &[u8]) -> bool {
    bytes.len() == count && all.starts_with(bytes)
}

/// Whether exactly what is due after so many stretches has gone out to both clients.
fn is_due(links: &Held, stretches: u64) -> bool {
    let clients = links.link().link();
    let (to_staying, to_publishing) = gone_out(stretches);
    are_first(clients.taken(0), to_staying, TO_STAYING)
        && are_first(clients.taken(1), to_publishing, TO_PUBLISHING)
}

/// What is stored.
#[derive(Clone, Copy, Debug, PartialEq, Eq)]
pub(crate) struct Seen {
    births: u64,
    pub(crate) publications: u64,
    subscribes: u64,
    moment: u64,
    pub(crate) sessions: usize,
    /// In all sessions.
    pub(crate) subscriptions: usize,
    /// Open identifiers, in all sessions.
    pub(crate) open: usize,
    /// Copies, in all queues.
    pub(crate) copies: usize,
    /// How far the first two copies have come that the first session has.
    pub(crate) phases: [Option<Phase>; 2],
}

/// What is stored after so many stretches, a millisecond each: nothing; the sessions and the subscription; two copies as sent, each
/// with its identifier, and the publisher's open one; the copy whose PUBREC came; no copy.
pub(crate) fn stored(stretches: u64) -> Seen {
    let released = Phase::Released {
        identifier: 1,
        order: 1,
    };
    let is_begun = stretches > 0;
    let is_published = stretches > 1;
    let phases = match stretches {
        2 => [
            Some(Phase::Sent { identifier: 1 }),
            Some(Phase::Sent { identifier: 2 }),
        ],
        3 => [Some(released), None],
        _ => [None, None],
    };
    Seen {
        births: if is_begun { 2 } else { 0 },
        publications: if is_published { 2 } else { 0 },
        subscribes: u64::from(is_begun),
        moment: stretches.min(STORING).saturating_sub(1),
        sessions: if is_begun { 2 } else { 0 },
        subscriptions: usize::from(is_begun),
        open: usize::from(stretches == 2),
        copies: usize::from(phases[0].is_some()).saturating_add(usize::from(phases[1].is_some())),
        phases,
    }
}

/// How far a copy in a session's queue has come.
fn phase_at(session: &Session, place: usize) -> Option<Phase> {
    match session.queue.at(place) {
        Some(row) => Some(row.get().phase()),
        None => None,
    }
}

/// What records have.
fn seen_of(records: &Records) -> Seen {
    let mut seen = Seen {
        births: records.births,
        publications: records.publications,
        subscribes: records.subscribes,
        moment: records.moment,
        sessions: records.sessions.len(),
        ..stored(0)
    };
    for session in records.sessions.as_slice() {
        let session = session.get();
        seen.subscriptions = seen
            .subscriptions
            .saturating_add(session.subscriptions.len());
        seen.open = seen.open.saturating_add(session.inbound.len());
        seen.copies = seen.copies.saturating_add(session.queue.len());
    }
    if let Some(first) = records.sessions.at(0) {
        seen.phases = [phase_at(first.get(), 0), phase_at(first.get(), 1)];
    }
    seen
}

/// What a store has; none if it can't be loaded.
pub(crate) fn look<K: Keep>(alloc: Global, keep: &mut K) -> Option<Seen> {
    match keep.load(alloc) {
        Ok(records) => {
            let seen = seen_of(&records);
            drop(records);
            Some(seen)
        }
        Err(_) => None,
    }
}

/// What came of the course.
#[derive(Clone, Copy, Debug)]
pub(crate) struct Ended {
    /// How many stretches were had, one that broke off left out.
    pub(crate) had: u64,
    /// Why one broke off, if one did.
    pub(crate) by: Option<EngineError>,
    /// Whether exactly what is due after those stretches had gone out, each time, and nothing of the one that broke off.
    pub(crate) is_due: bool,
}

/// Stretches up to one that breaks off, a millisecond each.
fn serve_stretches<K: Settles>(links: &mut Held, engine: &mut Engine<K>) -> Ended {
    let mut due = true;
    for moment in 0..STRETCHES {
        let by = match stretch(links, engine, moment) {
            Ok(()) => None,
            Err(error) => Some(error),
        };
        let had = if by.is_none() { moment + 1 } else { moment };
        due = due && is_due(links, had);
        if by.is_some() {
            return Ended {
                had,
                by,
                is_due: due,
            };
        }
    }
    Ended {
        had: STRETCHES,
        by: None,
        is_due: due,
    }
}

/// The course over a store, by a broker that gathers the steps of each stretch, up to a stretch that breaks off. What came of it,
/// unless the broker can't be opened; and the store.
pub(crate) fn course<K: Settles>(
    alloc: Global,
    keep: K,
    hasher: RandomState,
) -> (Option<Ended>, K) {
    let Ok(mut links) = clients_held(alloc, &[STAYING, PUBLISHING]) else {
        return (None, keep);
    };
    match Engine::open(
        alloc,
        Gathered::new(alloc, keep, Commit::Turn),
        0,
        LIMITS,
        hasher,
    ) {
        Ok(engine) => {
            let mut engine = engine;
            let ended = serve_stretches(&mut links, &mut engine);
            (Some(ended), engine.close().into_inner())
        }
        Err((keep, _)) => (None, keep.into_inner()),
    }
}

/// Whether the broker stopped if it ended, and before that exactly what is due had gone out.
pub(crate) fn is_silent(ended: Ended) -> bool {
    ended.is_due && (ended.by.is_none() || ended.by == Some(EngineError::Stopped))
}
