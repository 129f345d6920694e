//! A line closes, and its session with it (MQTT 5.0, 3.14.4, 4.13).
ghost use Rattle.std.specs.Prelude.{◌≡◌, ◌∷◌, [], ℕ, List, Some, None, OnOk, IfErr};
ghost use Rattle.mqtt_routes.specs.routing.Subscriptions.{Subscriber};
ghost use Rattle.mqtt_rules.specs.step.Closing.{close, drop_line};
ghost use Rattle.mqtt_rules.specs.step.Contents.{IsWilled};
ghost use Rattle.mqtt_rules.specs.step.Deeds.{Send, always};
ghost use Rattle.mqtt_rules.specs.step.Packets.{disconnect};
ghost use Rattle.mqtt_rules.specs.step.Routing.{subscribers};
ghost use Rattle.mqtt_rules.specs.step.State.{Line};
ghost use Rattle.mqtt_broker_step.specs.Stepping.{Did, Does, IsLeft, Leaves};
ghost use Rattle.mqtt_broker_queue.specs.publications.Choosing.{DoesSome, LeavesSome};
ghost use Rattle.mqtt_broker_acts.specs.closing.Settling.{drops_will, closes};
ghost use Rattle.mqtt_broker_acts.specs.closing.Wills.{ChoosesOnce, will_at};

use crate::closing::settling::settle;
use mqtt_base::Reason;
use mqtt_broker_looks::sent::disconnect;
use mqtt_broker_queue::publications::Router;
use mqtt_broker_step::{Step, StepFault};
use std::alloc::Global;

/// A session's Will is dropped, unless it keeps it (3.14.4).
fn drop_will(step: &mut Step, birth: u64, keeps_will: bool) -> Result<(), StepFault>
    ensures ok { OnOk result (Did (drops_will keeps_will birth) step.old step.new) }
    ensures left { IfErr result (λ fault. IsLeft (drops_will keeps_will birth) fault step.old step.new) }
{
    if keeps_will {
        return Ok(());
    }
    step.drop_will(birth)
}

/// A session closes, with or without its Will, and is settled (3.14.4, 4.1).
fn close_session<R: Router>(
    alloc: Global,
    router: &mut R,
    step: &mut Step,
    birth: u64,
    keeps_will: bool,
) -> Result<(), StepFault>
    requires serves { R.serves router.old (subscribers step.old.broker.records) }
    requires lawful { IsWilled (will_at birth step.old.broker.records) }
    ensures ok { OnOk result (DoesSome (closes keeps_will birth) step.old step.new) }
    ensures left { IfErr result (λ fault.
        LeavesSome (closes keeps_will birth) fault step.old step.new) }
    ensures quiet { will_at birth step.old.broker.records ≡ None
        → OnOk result (Does (closes keeps_will birth) step.old step.new) }
    ensures quiet_left { will_at birth step.old.broker.records ≡ None
        → IfErr result (λ fault. Leaves (closes keeps_will birth) fault step.old step.new) }
    ensures once { OnOk result (ChoosesOnce birth (closes keeps_will birth) step.old step.new) }
    ensures serves { (sessions : List Subscriber) → R.serves router.old sessions
        → R.serves router.new sessions }
{
    let moment = step.moment();
    drop_will(step, birth, keeps_will)?;
    step.close(birth, moment)?;
    settle(alloc, router, step, birth)
}

/// A line closes, and the session that is connected on it, which keeps its Will or not, closes with it and is settled
/// (3.14.4). `session` is its birth.
pub fn close<R: Router>(
    alloc: Global,
    router: &mut R,
    step: &mut Step,
    line: u64,
    session: Option<u64>,
    keeps_will: bool,
) -> Result<(), StepFault>
    requires serves { R.serves router.old (subscribers step.old.broker.records) }
    requires lawful { (birth : ℕ) → session ≡ Some birth
        → IsWilled (will_at birth step.old.broker.records) }
    ensures ok { (l : Line) → l.number ≡ line → l.session ≡ session
        → OnOk result (DoesSome (λ env. close env keeps_will l) step.old step.new) }
    ensures left { (l : Line) → l.number ≡ line → l.session ≡ session
        → IfErr result (λ fault. LeavesSome (λ env. close env keeps_will l) fault
        step.old step.new) }

    // At most one act of several chooses.
    ensures once { (birth : ℕ) (l : Line) → session ≡ Some birth → l.number ≡ line → l.session ≡ session
        → OnOk result (ChoosesOnce birth (λ env. close env keeps_will l) step.old step.new) }
    ensures serves { (sessions : List Subscriber) → R.serves router.old sessions
        → R.serves router.new sessions }
{
    step.gone(line)?;
    match session {
        Some(birth) => close_session(alloc, router, step, birth, keeps_will),
        None => Ok(()),
    }
}

/// DISCONNECT with a code goes out on a line (4.13).
fn tell(alloc: Global, step: &mut Step, line: u64, reason: Reason) -> Result<(), StepFault>
    ensures ok { OnOk result (Did (always (Send line (disconnect reason.0) ∷ [])) step.old step.new) }
    ensures left { IfErr result (λ fault. IsLeft
        (always (Send line (disconnect reason.0) ∷ [])) fault step.old step.new) }
{
    step.send_spelled(line, disconnect(alloc, reason)?)
}

/// A line closes with DISCONNECT, which has a code, and its session closes with it and is settled (4.13).
pub fn drop_line<R: Router>(
    alloc: Global,
    router: &mut R,
    step: &mut Step,
    line: u64,
    session: Option<u64>,
    reason: Reason,
) -> Result<(), StepFault>
    requires serves { R.serves router.old (subscribers step.old.broker.records) }
    requires lawful { (birth : ℕ) → session ≡ Some birth
        → IsWilled (will_at birth step.old.broker.records) }
    ensures ok { (l : Line) → l.number ≡ line → l.session ≡ session
        → OnOk result (DoesSome (λ env. drop_line env reason.0 l) step.old step.new) }
    ensures left { (l : Line) → l.number ≡ line → l.session ≡ session
        → IfErr result (λ fault. LeavesSome (λ env. drop_line env reason.0 l) fault
        step.old step.new) }
    ensures once { (birth : ℕ) (l : Line) → session ≡ Some birth → l.number ≡ line → l.session ≡ session
        → OnOk result (ChoosesOnce birth (λ env. drop_line env reason.0 l) step.old step.new) }
    ensures serves { (sessions : List Subscriber) → R.serves router.old sessions
        → R.serves router.new sessions }
{
    tell(alloc, step, line, reason)?;
    close(alloc, router, step, line, session, true)
}
