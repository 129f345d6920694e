//! The sessions that the records show as connected are closed, and then each is settled (MQTT 5.0, 3.1.2.11.2,
//! 3.1.3.2.2, 4.1).
ghost use Rattle.std.specs.Prelude.{◌≡◌, ◌≤◌, [], List, drop, length, map, IfOk, OnOk, IfErr};
ghost use Rattle.mqtt_records.specs.state.Records.{changed_all};
ghost use Rattle.mqtt_records.specs.declared.state.records.Records.{Records as TheRecords};
ghost use Rattle.mqtt_records.specs.state.Session.{birth_of};
ghost use Rattle.mqtt_records.specs.declared.state.session.Session.{Session as TheSession};
ghost use Rattle.mqtt_routes.specs.routing.Subscriptions.{Subscriber};
ghost use Rattle.mqtt_rules.specs.step.Contents.{IsWilled};
ghost use Rattle.mqtt_rules.specs.step.Laws.{IsCoherent};
ghost use Rattle.mqtt_rules.specs.step.Routing.{subscribers};
ghost use Rattle.mqtt_rules.specs.step.Closing.{settle};
ghost use Rattle.mqtt_rules.specs.step.Step.{connected_in, opening, shuts};
ghost use Rattle.mqtt_broker_step.specs.Stepping.{Did, IsLeft};
ghost use Rattle.mqtt_broker_queue.specs.publications.Choosing.{DoesSome, LeavesSome};
ghost use Rattle.mqtt_broker_acts.specs.closing.Wills.{will_at};
ghost use Rattle.mqtt_broker_acts.specs.calls.Ready.{AreSourcesStored};
ghost use Rattle.mqtt_broker_queue.specs.subscribers.Following.{CanAllBeFollowed, CanBeIndexed, CanGoAlongAll};
ghost use Rattle.mqtt_broker_queue.specs.subscribers.Indexing.{Serves};
ghost use Rattle.mqtt_broker.specs.stored.Closing.{DidSome, LeftSome};
ghost use Rattle.mqtt_broker.specs.stored.Sessions.{IsThere};

use mqtt_broker_acts::closing::settle;
use mqtt_broker_queue::subscribers::Index;
use mqtt_broker_step::{Step, StepFault};
use mqtt_records::Change;
use std::alloc::Global;

/// Adds the births of the sessions that the records show as connected, in order.
fn add_connected(step: &Step, births: &mut Vec<u64>) -> Result<(), StepFault>
    requires { births.old.items ≡ [] }
    ensures births { OnOk result
        (births.new.items ≡ map birth_of (connected_in step.now.broker.records)) }
    ensures fault { IfErr result (λ fault. fault ≡ StepFault.Memory) }
{
    for session in step.all_sessions() {
        let session = session.get();
        if session.closed.is_none() {
            births.push(session.birth)?;
        }
    }
    Ok(())
}

/// The births of the sessions that the records show as connected, in order.
fn connected(alloc: Global, step: &Step) -> Result<Vec<u64>, StepFault>
    ensures births { IfOk result
        (λ births. births.items ≡ map birth_of (connected_in step.now.broker.records)) }
    ensures fault { IfErr result (λ fault. fault ≡ StepFault.Memory) }
{
    let mut births = Vec::new(alloc);
    match add_connected(step, &mut births) {
        Ok(()) => Ok(births),
        Err(fault) => {
            drop(births);
            Err(fault)
        }
    }
}

/// A session is closed at the moment.
fn shut(step: &mut Step, birth: u64) -> Result<(), StepFault>
    ensures ok { (s : TheSession) → s.birth ≡ birth → IsThere step.old.broker.records s
        → OnOk result (Did (shuts s) step.old step.new) }
    ensures left { (s : TheSession) → s.birth ≡ birth → IsThere step.old.broker.records s
        → IfErr result (λ fault. IsLeft (shuts s) fault step.old step.new) }
{
    let moment = step.moment();
    step.close(birth, moment)
}

/// The index goes along with the rows of a step from a place on.
fn follow(index: &mut Index, rows: &[Change], from: usize) -> Result<(), StepFault>
    requires from { from ≤ length rows.now }
    requires may { CanGoAlongAll (drop from rows.now) index.old.sessions }
    ensures serves { (r : TheRecords) → CanBeIndexed r → CanAllBeFollowed (drop from rows.now) r
        → Serves index.old.sessions (subscribers r)
        → OnOk result (Serves index.new.sessions (subscribers (changed_all (drop from rows.now) r))) }
    ensures fault { IfErr result (λ fault. fault ≡ StepFault.Memory) }
{
    index.follow_all(&rows[from..])
}

/// A session is settled: its Will is published and it ends, if that is due. The index goes along with
/// the rows of that, so that the next Will is routed by it.
fn settle_next(
    alloc: Global,
    index: &mut Index,
    step: &mut Step,
    birth: u64,
) -> Result<(), StepFault>
    requires serves { Serves index.old.sessions (subscribers step.old.broker.records) }
    requires indexed { CanBeIndexed step.old.broker.records }
    requires lawful { IsWilled (will_at birth step.old.broker.records) }
    ensures ok { OnOk result (DoesSome (λ env. settle env birth) step.old step.new) }
    ensures left { IfErr result (λ fault.
        LeavesSome (λ env. settle env birth) fault step.old step.new) }
    ensures serves { OnOk result (Serves index.new.sessions (subscribers step.new.broker.records)) }
    ensures indexed { OnOk result (CanBeIndexed step.new.broker.records) }
{
    let from = step.rows().len();
    settle(alloc, index, step, birth)?;
    follow(index, step.rows(), from)
}

/// The sessions that the records show as connected, which have these births, are closed; then each is
/// settled, in the same order. So none of them counts as connected for the Will of another.
fn close_each(
    alloc: Global,
    index: &mut Index,
    step: &mut Step,
    births: Vec<u64>,
) -> Result<(), StepFault>
    requires births { births.items ≡ map birth_of (connected_in step.old.broker.records) }
    requires coherent { IsCoherent step.old.broker.records }
    requires sources { AreSourcesStored step.old.broker.records }
    requires indexed { CanBeIndexed step.old.broker.records }
    requires serves { Serves index.old.sessions (subscribers step.old.broker.records) }
    ensures ok { OnOk result (DidSome opening step.old step.new) }
    ensures left { IfErr result (λ fault. LeftSome opening fault step.old step.new) }
    ensures serves { OnOk result (Serves index.new.sessions (subscribers step.new.broker.records)) }
{
    for connected in births.as_slice() {
        shut(step, *connected)?;
    }
    for birth in births {
        settle_next(alloc, index, step, birth)?;
    }
    Ok(())
}

/// The sessions that the records show as connected are closed, and then settled, in the order of births.
pub(crate) fn close_all(alloc: Global, index: &mut Index, step: &mut Step) -> Result<(), StepFault>
    requires coherent { IsCoherent step.old.broker.records }
    requires sources { AreSourcesStored step.old.broker.records }
    requires indexed { CanBeIndexed step.old.broker.records }
    requires serves { Serves index.old.sessions (subscribers step.old.broker.records) }
    ensures ok { OnOk result (DidSome opening step.old step.new) }
    ensures left { IfErr result (λ fault. LeftSome opening fault step.old step.new) }
    ensures serves { OnOk result (Serves index.new.sessions (subscribers step.new.broker.records)) }
{
    let births = connected(alloc, step)?;
    close_each(alloc, index, step, births)
}
