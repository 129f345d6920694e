//! When a session's Will and its end are due, and whether copies have expired (3.1.2.11.2, 3.1.3.2.2).
ghost use Rattle.std.specs.Prelude.{◌≡◌, ◌||◌, ◌&&◌, not, [], ℕ, Some, IsTrue};
ghost use Rattle.std.specs.List.{list_any};
ghost use Rattle.mqtt_rules.specs.step.State.{Broker, Env, session_at};
ghost use Rattle.mqtt_rules.specs.step.Closing.{is_due, end_due, earlier, will_due, has_due_will, has_due_end, settle};
ghost use Rattle.mqtt_rules.specs.step.Tick.{has_lapsed};
ghost use Rattle.mqtt_broker_looks.specs.decided.Verdicts.{is_lapsed};

use crate::decided::moments::{is_due, is_past, later};
use mqtt_base::Phase;
use mqtt_records::{Boxed, CopyRow, Session, Will};

/// Session Expiry Interval: with this value the session doesn't end (3.1.2.11.2).
const NEVER: u32 = 0xffff_ffff;

/// When the end of a session is due: its Session Expiry Interval after it was closed (3.1.2.11.2).
/// Takes no memory.
pub fn end_due(closed: Option<u64>, expiry: u32) -> Option<u64>
    ensures { result ≡ end_due closed expiry }
{
    match closed {
        Some(closed) if expiry != NEVER => Some(later(closed, 1_000 * u64::from(expiry))),
        _ => None,
    }
}

/// The earlier of two moments, of which one may not be set.
fn earlier(moment: u64, other: Option<u64>) -> u64
    ensures { result ≡ earlier moment other }
{
    match other {
        Some(other) => moment.min(other),
        None => moment,
    }
}

/// When a session's Will is due: after its Will Delay Interval, or when the session ends, whichever is
/// first (3.1.3.2.2). Takes no memory.
pub fn will_due(closed: Option<u64>, expiry: u32, will: &Option<Will>) -> Option<u64>
    ensures { result ≡ will_due closed expiry will.now }
{
    match (closed, will) {
        (Some(moment), Some(will)) => {
            let delayed = later(moment, 1_000 * u64::from(will.delay));
            Some(earlier(delayed, end_due(closed, expiry)))
        }
        _ => None,
    }
}

/// Whether a session's Will is due (3.1.3.2.2). Takes no memory.
pub fn has_due_will(now: u64, session: &Session) -> bool
    ensures { result ≡ has_due_will now session.now }
{
    is_due(now, will_due(session.closed, session.expiry, &session.will))
}

/// Whether a session's end is due (3.1.2.11.2). Takes no memory.
pub fn has_due_end(now: u64, session: &Session) -> bool
    ensures { result ≡ has_due_end now session.now }
{
    is_due(now, end_due(session.closed, session.expiry))
}

/// When a session is to be settled: when its Will or its end is due. Takes no memory.
pub fn settling_due(session: &Session) -> Option<u64>
    ensures { (now : ℕ) → is_due now result ≡ (has_due_will now session.now || has_due_end now session.now) }
{
    let end = end_due(session.closed, session.expiry);
    match will_due(session.closed, session.expiry, &session.will) {
        Some(will) => Some(earlier(will, end)),
        None => end,
    }
}

/// Whether neither a Will nor the end of a session is due, so that settling it does nothing. Takes no
/// memory.
pub fn is_settled(now: u64, session: &Session) -> bool
    ensures exact { result ≡ not (has_due_will now session.now || has_due_end now session.now) }
    ensures still { IsTrue result → (env : Env) (b : Broker) → b.now ≡ now
        → session_at session.now.birth b.records ≡ Some session.now → settle env session.now.birth b ≡ [] }
{
    !has_due_will(now, session) && !has_due_end(now, session)
}

/// Whether a queued copy waits and has expired (3.3.2.3.3).
fn is_lapsed(now: u64, row: &CopyRow) -> bool
    ensures { result ≡ is_lapsed now row.now }
{
    matches!(row.phase(), Phase::Waiting) && is_past(now, row.arrived(), row.expiry())
}

/// Whether some queued copies wait and have expired.
fn some_lapsed(now: u64, rows: &[Boxed<CopyRow>]) -> bool
    ensures { result ≡ list_any (is_lapsed now) rows.now }
{
    rows.iter().any(|row| is_lapsed(now, row.get()))
}

/// Whether a session has copies that wait and have expired (3.3.2.3.3). Takes no memory.
pub fn has_lapsed(now: u64, session: &Session) -> bool
    ensures { result ≡ has_lapsed now session.now }
{
    some_lapsed(now, session.queue.as_slice())
}
