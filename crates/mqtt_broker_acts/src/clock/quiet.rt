//! A moment before which nothing is due of what is stored (MQTT 5.0, 3.1.2.11.2, 3.1.3.2.2, 3.3.2.3.3).
ghost use Rattle.std.specs.Prelude.{◌≡◌, ◌≤◌, ◌<◌, ◌+◌, ℕ, false};
ghost use Rattle.std.specs.List.{AllByRecursion};
ghost use Rattle.mqtt_base.specs.declared.limits.TheConstants.{LAST_NUMBER};
ghost use Rattle.mqtt_flow.specs.outbound.Outbound.{is_waiting};
ghost use Rattle.mqtt_rules.specs.step.Closing.{is_due};
ghost use Rattle.mqtt_rules.specs.step.Packets.{is_expired};
ghost use Rattle.mqtt_rules.specs.step.Tick.{is_stale};
ghost use Rattle.mqtt_broker_acts.specs.clock.Quiet.{AreQuietBefore, BringsNothing, IsFresh, IsQuiet, IsSettled, IsSettledIn};

use crate::clock::finding::in_order;
use mqtt_base::{LAST_NUMBER, Phase};
use mqtt_broker_looks::decided::{expiry_due, interval_due, settling_due};
use mqtt_broker_step::Step;
use mqtt_records::{Boxed, Change, Content, CopyRow, RetainedMessage, Session};

/// Past each moment.
const NEVER: u64 = LAST_NUMBER + 1;

/// The earlier of two moments.
fn sooner(one: u64, other: u64) -> u64
    ensures { (now : ℕ) → now < result → (now < one) × (now < other) }
{
    if one < other { one } else { other }
}

/// The moment, or one past each if it is not set.
fn or_never(moment: Option<u64>) -> u64
    ensures quiet { (now : ℕ) → now < result → is_due now moment ≡ false }
    ensures within { result ≤ LAST_NUMBER + 1 }
{
    match moment {
        Some(moment) => moment.min(NEVER),
        None => NEVER,
    }
}

/// Before which moment a message hasn't expired (3.3.2.3.3).
fn content_before(content: &Content) -> u64
    ensures { (now : ℕ) → now < result → is_expired now content.now ≡ false }
{
    or_never(expiry_due(content))
}

/// Whether a copy is still to be sent for the first time.
fn is_waiting(phase: Phase) -> bool
    ensures { result ≡ is_waiting phase }
{
    match phase {
        Phase::Waiting => true,
        Phase::Sent { .. } | Phase::Released { .. } | Phase::Oversize { .. } => false,
    }
}

/// Before which moment a copy doesn't wait, or hasn't expired.
fn row_before(row: &CopyRow) -> u64
    ensures { (now : ℕ) → now < result → IsFresh now row.now }
{
    if is_waiting(row.phase()) {
        or_never(interval_due(row.arrived(), row.expiry()))
    } else {
        NEVER
    }
}

/// Before which moment no copy of a queue that waits has expired.
fn queue_before(queue: &[Boxed<CopyRow>]) -> u64
    ensures { (now : ℕ) → now < result → AllByRecursion (IsFresh now) queue.now }
{
    let mut least = NEVER;
    let mut rest = queue;
    while let Some((row, after)) = rest.split_first() {
        least = sooner(least, row_before(row.get()));
        rest = after;
    }
    least
}

/// Before which moment no Will and no end is due of a session.
fn settled_before(session: &Session) -> u64
    ensures { (now : ℕ) → now < result → IsSettled now session.now }
{
    or_never(settling_due(session))
}

/// Before which moment nothing is due of a session.
fn session_before(session: &Session) -> u64
    ensures { (now : ℕ) → now < result → IsQuiet now session.now }
{
    sooner(
        settled_before(session),
        queue_before(session.queue.as_slice()),
    )
}

/// Before which moment nothing is due of any session.
fn sessions_before(sessions: &[Boxed<Session>]) -> u64
    ensures { (now : ℕ) → now < result → AllByRecursion (IsQuiet now) sessions.now }
{
    let mut least = NEVER;
    let mut rest = sessions;
    while let Some((session, after)) = rest.split_first() {
        least = sooner(least, session_before(session.get()));
        rest = after;
    }
    least
}

/// Before which moment no retained message has expired.
fn retained_before(retained: &[Boxed<RetainedMessage>]) -> u64
    ensures { (now : ℕ) → now < result → AllByRecursion (λ k. is_stale now k ≡ false) retained.now }
{
    let mut least = NEVER;
    let mut rest = retained;
    while let Some((kept, after)) = rest.split_first() {
        least = sooner(least, content_before(&kept.get().content));
        rest = after;
    }
    least
}

/// A moment before which nothing is due of what is stored: it looks at all of it. Takes no memory.
pub fn quiet_before(step: &Step) -> u64
    ensures { AreQuietBefore result step.now.broker.records }
{
    sooner(
        sessions_before(step.all_sessions()),
        retained_before(step.all_retained()),
    )
}

/// Before which moment nothing is due of the session with that birth, but its copies: as it stands now, if it does.
fn settled_in(step: &Step, birth: u64) -> u64
    ensures { (now : ℕ) → now < result → IsSettledIn now step.now.broker.records birth }
{
    match step.session(birth) {
        Some(session) => settled_before(session),
        None => NEVER,
    }
}

/// Before which moment a change of the step brings nothing that is due. Whose columns or Will it set is looked at as it
/// stands now; of a copy that waits again nothing is said.
fn change_before(step: &Step, change: &Change) -> u64
    ensures { (now : ℕ) → now < result → BringsNothing now step.now.broker.records change.now }
{
    match change {
        Change::PutSession { row } => settled_in(step, row.birth()),
        Change::SetSession { row } => settled_in(step, row.birth),
        Change::PutWill { birth, .. } => settled_in(step, *birth),
        Change::PutCopy { row, .. } => row_before(row.get()),
        Change::SetCopy { phase, .. } => { if is_waiting(*phase) { 0 } else { NEVER } }
        Change::PutRetained { kept } => content_before(&kept.get().content),
        Change::SetCounter { .. }
        | Change::RemoveSession { .. }
        | Change::RemoveWill { .. }
        | Change::PutSubscription { .. }
        | Change::RemoveSubscription { .. }
        | Change::PutInbound { .. }
        | Change::RemoveInbound { .. }
        | Change::RemoveCopy { .. }
        | Change::RemoveRetained { .. } => NEVER,
    }
}

/// The moment before which nothing is due after the step under way: it looks at the step's changes, and at no session
/// but those whose columns or Will they set. Takes no memory.
pub fn quiet_after(step: &Step, quiet: u64) -> u64
    ensures { AreQuietBefore quiet step.now.start.records
        → AreQuietBefore result step.now.broker.records }
{
    in_order(step);
    let mut least = quiet;
    let mut rest = step.rows();
    while let Some((change, after)) = rest.split_first() {
        least = sooner(least, change_before(step, change));
        rest = after;
    }
    least
}
