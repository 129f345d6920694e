//! What comes before a new connection of a client whose session stands: the old line is told and closes, the
//! session is settled, and ends if the client starts clean (MQTT 5.0, 3.1.2.4, 3.1.4).
ghost use Rattle.std.specs.Prelude.{◌≡◌, List, Some, None, option_copied, OnOk, IfErr};
ghost use Rattle.mqtt_records.specs.declared.state.session.Session.{Session as TheSession};
ghost use Rattle.mqtt_routes.specs.routing.Subscriptions.{Subscriber};
ghost use Rattle.mqtt_rules.specs.step.Connect.{prepare};
ghost use Rattle.mqtt_rules.specs.step.Contents.{IsWilled};
ghost use Rattle.mqtt_rules.specs.step.Routing.{subscribers};
ghost use Rattle.mqtt_rules.specs.step.State.{line_of, session_at};
ghost use Rattle.mqtt_broker_step.specs.Stepping.{Does, Leaves};
ghost use Rattle.mqtt_broker_queue.specs.publications.Choosing.{DoesSome, LeavesSome};
ghost use Rattle.mqtt_broker_acts.specs.closing.Wills.{ChoosesOnce, will_at};
ghost use Rattle.mqtt_broker_acts.specs.connecting.Joining.{IsNamedAt};
ghost use Rattle.mqtt_broker_acts.specs.connecting.Preparing.{IsOnly, clears, clears_if, settles, settles_and_clears, takes_over};

use crate::closing::{drop_line, end_session, publish_will, settle};
use mqtt_base::Reason;
use mqtt_broker_queue::publications::Router;
use mqtt_broker_step::{LineState, Step, StepFault};
use mqtt_packet::Connect;
use std::alloc::Global;

/// The line that a session is connected on.
fn line_of(step: &Step, birth: u64) -> Option<&LineState>
    ensures { option_copied result ≡ line_of birth step.now.broker }
{
    step.lines().iter().find(|line| line.is_of(birth))
}

/// The line that a session is connected on, if there is one, is told and closes as lost (3.1.4).
fn take_over<R: Router>(
    alloc: Global,
    router: &mut R,
    step: &mut Step,
    birth: u64,
) -> Result<(), StepFault>
    requires serves { R.serves router.old (subscribers step.old.broker.records) }
    requires lawful { IsWilled (will_at birth step.old.broker.records) }
    ensures ok { OnOk result (DoesSome (takes_over birth) step.old step.new) }
    ensures left { IfErr result (λ fault. LeavesSome (takes_over birth) fault step.old step.new) }
    ensures once { OnOk result (ChoosesOnce birth (takes_over birth) step.old step.new) }
    ensures serves { (sessions : List Subscriber) → R.serves router.old sessions
        → R.serves router.new sessions }
{
    let Some(state) = line_of(step, birth) else {
        return Ok(());
    };
    let line = state.number();
    let reason = Reason::SESSION_TAKEN_OVER;
    drop_line(alloc, router, step, line, Some(birth), reason)
}

/// A session is settled, if it stands; if it doesn't, the router need not serve.
fn settle_standing<R: Router>(
    alloc: Global,
    router: &mut R,
    step: &mut Step,
    birth: u64,
) -> Result<(), StepFault>
    requires serves { (s : TheSession) → session_at birth step.old.broker.records ≡ Some s
        → R.serves router.old (subscribers step.old.broker.records) }
    requires lawful { IsWilled (will_at birth step.old.broker.records) }
    ensures ok { OnOk result (DoesSome (settles birth) step.old step.new) }
    ensures left { IfErr result (λ fault. LeavesSome (settles birth) fault step.old step.new) }
    ensures quiet { will_at birth step.old.broker.records ≡ None
        → OnOk result (Does (settles birth) step.old step.new) }
    ensures quiet_left { will_at birth step.old.broker.records ≡ None
        → IfErr result (λ fault. Leaves (settles birth) fault step.old step.new) }
    ensures once { OnOk result (ChoosesOnce birth (settles birth) step.old step.new) }
    ensures serves { (sessions : List Subscriber) → R.serves router.old sessions
        → R.serves router.new sessions }
{
    match step.session(birth) {
        Some(_) => settle(alloc, router, step, birth),
        None => Ok(()),
    }
}

/// A session's Will is published, if it has one, and it ends.
fn publish_and_end<R: Router>(
    alloc: Global,
    router: &mut R,
    step: &mut Step,
    birth: u64,
) -> Result<(), StepFault>
    requires serves { R.serves router.old (subscribers step.old.broker.records) }
    requires lawful { IsWilled (will_at birth step.old.broker.records) }
    ensures ok { OnOk result (DoesSome (clears birth) step.old step.new) }
    ensures left { IfErr result (λ fault. LeavesSome (clears birth) fault step.old step.new) }
    ensures quiet { will_at birth step.old.broker.records ≡ None
        → OnOk result (Does (clears birth) step.old step.new) }
    ensures quiet_left { will_at birth step.old.broker.records ≡ None
        → IfErr result (λ fault. Leaves (clears birth) fault step.old step.new) }
    ensures serves { (sessions : List Subscriber) → R.serves router.old sessions
        → R.serves router.new sessions }
{
    publish_will(alloc, router, step, birth)?;
    end_session(step, birth)
}

/// A session that stands ends if its client starts clean, and its waiting Will is published before (3.1.2.4).
fn clear_standing<R: Router>(
    alloc: Global,
    router: &mut R,
    step: &mut Step,
    birth: u64,
    clean_start: bool,
) -> Result<(), StepFault>
    requires serves { (s : TheSession) → session_at birth step.old.broker.records ≡ Some s
        → R.serves router.old (subscribers step.old.broker.records) }
    requires lawful { IsWilled (will_at birth step.old.broker.records) }
    ensures ok { OnOk result (DoesSome (clears_if clean_start birth) step.old step.new) }
    ensures left { IfErr result (λ fault.
        LeavesSome (clears_if clean_start birth) fault step.old step.new) }
    ensures quiet { will_at birth step.old.broker.records ≡ None
        → OnOk result (Does (clears_if clean_start birth) step.old step.new) }
    ensures quiet_left { will_at birth step.old.broker.records ≡ None
        → IfErr result (λ fault. Leaves (clears_if clean_start birth) fault step.old step.new) }
    ensures serves { (sessions : List Subscriber) → R.serves router.old sessions
        → R.serves router.new sessions }
{
    if !clean_start {
        return Ok(());
    }
    match step.session(birth) {
        Some(_) => publish_and_end(alloc, router, step, birth),
        None => Ok(()),
    }
}

/// A session is settled, then ends if its client starts clean, if it stands.
fn settle_and_clear<R: Router>(
    alloc: Global,
    router: &mut R,
    step: &mut Step,
    birth: u64,
    clean_start: bool,
) -> Result<(), StepFault>
    requires serves { (s : TheSession) → session_at birth step.old.broker.records ≡ Some s
        → R.serves router.old (subscribers step.old.broker.records) }
    requires lawful { IsWilled (will_at birth step.old.broker.records) }
    ensures ok { OnOk result (DoesSome (settles_and_clears clean_start birth) step.old step.new) }
    ensures left { IfErr result (λ fault.
        LeavesSome (settles_and_clears clean_start birth) fault step.old step.new) }
    ensures quiet { will_at birth step.old.broker.records ≡ None
        → OnOk result (Does (settles_and_clears clean_start birth) step.old step.new) }
    ensures quiet_left { will_at birth step.old.broker.records ≡ None
        → IfErr result (λ fault.
        Leaves (settles_and_clears clean_start birth) fault step.old step.new) }
    ensures serves { (sessions : List Subscriber) → R.serves router.old sessions
        → R.serves router.new sessions }
{
    settle_standing(alloc, router, step, birth)?;
    clear_standing(alloc, router, step, birth, clean_start)
}

/// What comes before a new connection of a client whose session stands, and is the only one of its client
/// identifier: its line, if it is connected on one, is told and closes as lost; it is settled; and it ends
/// if the client starts clean, its waiting Will published before (3.1.2.4, 3.1.4).
pub(crate) fn prepare<R: Router>(
    alloc: Global,
    router: &mut R,
    step: &mut Step,
    birth: u64,
    connect: &Connect,
) -> Result<(), StepFault>
    requires named { IsNamedAt connect.now.client_identifier birth step.old.broker.records }
    requires only { IsOnly connect.now.client_identifier birth step.old.broker.records }
    requires serves { R.serves router.old (subscribers step.old.broker.records) }
    requires lawful { IsWilled (will_at birth step.old.broker.records) }
    ensures ok { OnOk result (DoesSome (λ env. prepare env connect.now) step.old step.new) }
    ensures left { IfErr result (λ fault.
        LeavesSome (λ env. prepare env connect.now) fault step.old step.new) }
    ensures serves { (sessions : List Subscriber) → R.serves router.old sessions
        → R.serves router.new sessions }
{
    take_over(alloc, router, step, birth)?;
    settle_and_clear(alloc, router, step, birth, connect.clean_start)
}
