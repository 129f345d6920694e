//! What records say, in numbers.

use mqtt_base::{Cause, Phase};
use mqtt_records::{ContentRef, CopyRow, Records, RetainedMessage, Session, Subscription, Will};

/// What records say: the five numbers, how many rows of each of the six kinds, and a sum over all that the rows hold.
pub(crate) type Seen = [u64; 12];

/// A sum with a number behind it, modulo 2^64.
pub(crate) fn with(sum: u64, number: u64) -> u64 {
    sum.wrapping_mul(1_099_511_628_211).wrapping_add(number)
}

/// The same with bytes behind it, and their end.
pub(crate) fn with_bytes(sum: u64, bytes: &[u8]) -> u64 {
    let mut sum = sum;
    for byte in bytes {
        sum = with(sum, u64::from(*byte));
    }
    with(sum, 256)
}

fn with_cause(sum: u64, cause: &Cause) -> u64 {
    match cause {
        Cause::Direct => with(sum, 0),
        Cause::Share { group } => with_bytes(with(sum, 1), group.as_str().as_bytes()),
        Cause::Retained { subscribe } => with(with(sum, 2), *subscribe),
    }
}

fn with_phase(sum: u64, phase: Phase) -> u64 {
    match phase {
        Phase::Waiting => with(sum, 0),
        Phase::Sent { identifier } => with(with(sum, 1), u64::from(identifier)),
        Phase::Released { identifier, order } => {
            with(with(with(sum, 2), u64::from(identifier)), order)
        }
        Phase::Oversize { identifier, order } => {
            with(with(with(sum, 3), u64::from(identifier)), order)
        }
    }
}

fn with_content(sum: u64, content: &ContentRef<'_>) -> u64 {
    let mut sum = with_bytes(sum, content.topic.as_str().as_bytes());
    sum = with_bytes(sum, content.payload.as_slice());
    with(sum, content.arrived)
}

fn with_will(sum: u64, will: &Will) -> u64 {
    let mut sum = with(with(sum, u64::from(will.delay)), will.qos as u64);
    sum = with(sum, u64::from(will.retain));
    sum = with_bytes(sum, will.topic.as_str().as_bytes());
    with_bytes(sum, will.payload.as_slice())
}

fn with_subscription(sum: u64, subscription: &Subscription) -> u64 {
    let options = subscription.options;
    let mut sum = with_bytes(sum, subscription.filter.as_str().as_bytes());
    sum = with(with(sum, subscription.place), options.qos as u64);
    sum = with(sum, u64::from(options.no_local));
    sum = with(sum, u64::from(options.retain_as_published));
    sum = with(sum, options.retain_handling as u64);
    with(sum, u64::from(subscription.identifier.unwrap_or(0)))
}

fn with_copy(sum: u64, row: &CopyRow) -> u64 {
    let id = row.id();
    let mut sum = with(with_phase(sum, row.phase()), row.place());
    sum = with_cause(with(sum, id.publication), &id.cause);
    sum = with(with(sum, row.qos() as u64), u64::from(row.retain()));
    // Of a slim row the rest isn't in memory: the store is asked for it.
    sum = with_bytes(sum, row.topic().as_str().as_bytes());
    sum = with(sum, u64::from(row.whole().is_some()));
    with(with(sum, row.payload_len() as u64), row.arrived())
}

fn with_session(sum: u64, session: &Session) -> u64 {
    let mut sum = with_bytes(sum, session.client.as_str().as_bytes());
    sum = with(with(sum, session.birth), u64::from(session.expiry));
    sum = with(sum, session.closed.unwrap_or(u64::MAX));
    if let Some(will) = &session.will {
        sum = with_will(sum, will);
    }
    for row in session.subscriptions.as_slice() {
        sum = with_subscription(sum, row.get());
    }
    for identifier in session.inbound.as_slice() {
        sum = with(sum, u64::from(*identifier));
    }
    for row in session.queue.as_slice() {
        sum = with_copy(sum, row.get());
    }
    sum
}

fn with_retained(sum: u64, kept: &RetainedMessage) -> u64 {
    let mut sum = with_bytes(with(sum, kept.place), kept.sender.as_str().as_bytes());
    sum = with(with(sum, kept.publication), kept.qos as u64);
    with_content(sum, &kept.content.lend())
}

/// How many sessions, Wills, subscriptions, open identifiers and copies there are, and the sum.
fn sums(records: &Records) -> [u64; 6] {
    let mut sums = [0_u64; 6];
    for session in records.sessions.as_slice() {
        let session = session.get();
        sums[0] = sums[0].wrapping_add(1);
        sums[1] = sums[1].wrapping_add(u64::from(session.will.is_some()));
        sums[2] = sums[2].wrapping_add(session.subscriptions.len() as u64);
        sums[3] = sums[3].wrapping_add(session.inbound.len() as u64);
        sums[4] = sums[4].wrapping_add(session.queue.len() as u64);
        sums[5] = with_session(sums[5], session);
    }
    for kept in records.retained.as_slice() {
        sums[5] = with_retained(sums[5], kept.get());
    }
    sums
}

/// What records say.
pub(crate) fn seen(records: &Records) -> Seen {
    let [sessions, wills, subscriptions, open, copies, sum] = sums(records);
    [
        records.births,
        records.publications,
        records.subscribes,
        records.autos,
        records.moment,
        sessions,
        wills,
        subscriptions,
        open,
        copies,
        records.retained.len() as u64,
        sum,
    ]
}
