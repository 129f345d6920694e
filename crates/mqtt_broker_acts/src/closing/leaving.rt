//! A client leaves: DISCONNECT, and a line that is lost (MQTT 5.0, 3.14, 4.1).
ghost use Rattle.std.specs.Prelude.{◌≡◌, ℕ, List, not, nat_eq, Some, OnOk, IfErr};
ghost use Rattle.mqtt_base.specs.Codes.{normal_disconnection};
ghost use Rattle.mqtt_routes.specs.routing.Subscriptions.{Subscriber};
ghost use Rattle.mqtt_rules.specs.step.Contents.{IsWilled};
ghost use Rattle.mqtt_rules.specs.step.Routing.{subscribers};
ghost use Rattle.mqtt_rules.specs.step.State.{Line};
ghost use Rattle.mqtt_rules.specs.step.Step.{deeds_of, Lost};
ghost use Rattle.mqtt_broker_step.specs.Stepping.{Did, IsLeft};
ghost use Rattle.mqtt_broker_queue.specs.publications.Choosing.{DoesSome, LeavesSome};
ghost use Rattle.mqtt_broker_acts.specs.closing.Settling.{sets_expiry, leaves_by, disconnects};
ghost use Rattle.mqtt_broker_acts.specs.closing.Wills.{will_at};

use crate::closing::closing::{close, drop_line};
use mqtt_base::Reason;
use mqtt_broker_looks::decided::is_late_expiry;
use mqtt_broker_queue::publications::Router;
use mqtt_broker_step::{Step, StepFault};
use std::alloc::Global;

/// Whether a client that disconnects with a code keeps its Will (3.14.4).
fn keeps_will(reason: Reason) -> bool
    ensures { result ≡ not (nat_eq reason.0 normal_disconnection) }
{
    reason.0 != Reason::NORMAL_DISCONNECTION.0
}

/// A session's Session Expiry Interval, in seconds, is set, if one came (3.14.2.2.2).
fn set_expiry(step: &mut Step, birth: u64, expiry: Option<u32>) -> Result<(), StepFault>
    ensures ok { OnOk result (Did (sets_expiry expiry birth) step.old step.new) }
    ensures left { IfErr result (λ fault. IsLeft (sets_expiry expiry birth) fault step.old step.new) }
{
    match expiry {
        Some(seconds) => step.set_expiry(birth, seconds),
        None => Ok(()),
    }
}

/// A client disconnects: its Session Expiry Interval is set, if one came, and its line closes; the Will is kept but
/// after Normal disconnection (3.14.4).
fn leave<R: Router>(
    alloc: Global,
    router: &mut R,
    step: &mut Step,
    line: u64,
    birth: u64,
    reason: Reason,
    expiry: Option<u32>,
) -> Result<(), StepFault>
    requires serves { R.serves router.old (subscribers step.old.broker.records) }
    requires lawful { IsWilled (will_at birth step.old.broker.records) }
    ensures ok { (l : Line) → l.number ≡ line → l.session ≡ Some birth
        → OnOk result (DoesSome (leaves_by birth expiry reason.0 l) step.old step.new) }
    ensures left { (l : Line) → l.number ≡ line → l.session ≡ Some birth
        → IfErr result (λ fault. LeavesSome (leaves_by birth expiry reason.0 l) fault
        step.old step.new) }
    ensures serves { (sessions : List Subscriber) → R.serves router.old sessions
        → R.serves router.new sessions }
{
    set_expiry(step, birth, expiry)?;
    close(alloc, router, step, line, Some(birth), keeps_will(reason))
}

/// DISCONNECT of the client whose session is connected on a line, with its code and the Session Expiry Interval that
/// came with it, in seconds: one above 0 if CONNECT had 0 breaks the protocol (3.14.2.2.2, 3.14.4).
pub fn disconnect<R: Router>(
    alloc: Global,
    router: &mut R,
    step: &mut Step,
    line: u64,
    birth: u64,
    reason: Reason,
    expiry: Option<u32>,
) -> Result<(), StepFault>
    requires serves { R.serves router.old (subscribers step.old.broker.records) }
    requires lawful { IsWilled (will_at birth step.old.broker.records) }
    ensures ok { (l : Line) → l.number ≡ line → l.session ≡ Some birth
        → OnOk result (DoesSome (disconnects birth l reason.0 expiry) step.old step.new) }
    ensures left { (l : Line) → l.number ≡ line → l.session ≡ Some birth
        → IfErr result (λ fault. LeavesSome (disconnects birth l reason.0 expiry) fault
        step.old step.new) }
    ensures serves { (sessions : List Subscriber) → R.serves router.old sessions
        → R.serves router.new sessions }
{
    let Some(session) = step.session(birth) else {
        return Ok(());
    };
    if is_late_expiry(expiry, session.expiry) {
        let reason = Reason::PROTOCOL_ERROR;
        return drop_line(alloc, router, step, line, Some(birth), reason);
    }
    leave(alloc, router, step, line, birth, reason, expiry)
}

/// A line that stands is lost: it closes, and its session with it (4.1).
pub fn lost<R: Router>(
    alloc: Global,
    router: &mut R,
    step: &mut Step,
    line: u64,
) -> Result<(), StepFault>
    requires serves { R.serves router.old (subscribers step.old.broker.records) }
    requires lawful { (birth : ℕ) → IsWilled (will_at birth step.old.broker.records) }
    ensures ok { OnOk result (DoesSome (λ env. deeds_of env (Lost line)) step.old step.new) }
    ensures left { IfErr result (λ fault.
        LeavesSome (λ env. deeds_of env (Lost line)) fault step.old step.new) }
    ensures serves { (sessions : List Subscriber) → R.serves router.old sessions
        → R.serves router.new sessions }
{
    let Some(state) = step.line(line) else {
        return Ok(());
    };
    let session = state.session();
    close(alloc, router, step, line, session, true)
}
