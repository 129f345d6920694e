//! A turn of the clock (MQTT 5.0, 3.1.2.10, 3.1.2.11.2, 3.1.3.2.2, 3.3.2.3.3).
ghost use Rattle.std.specs.Prelude.{◌≡◌, ℕ, List, IfOk, OnOk, IfErr};
ghost use Rattle.mqtt_routes.specs.routing.Subscriptions.{Subscriber};
ghost use Rattle.mqtt_rules.specs.step.Contents.{IsWilled};
ghost use Rattle.mqtt_rules.specs.step.Routing.{subscribers};
ghost use Rattle.mqtt_rules.specs.step.State.{Env};
ghost use Rattle.mqtt_rules.specs.step.Step.{Tick, deeds_of, is_again};
ghost use Rattle.mqtt_broker_queue.specs.publications.Choosing.{DoesSome, LeavesSome};
ghost use Rattle.mqtt_broker_acts.specs.closing.Wills.{will_at};
ghost use Rattle.mqtt_broker_acts.specs.clock.Quiet.{AreQuietBefore};
ghost use Rattle.mqtt_broker_acts.specs.clock.Ticking.{silences, does_due};

use crate::clock::finding::{Due, next_due};
use crate::closing::{close_silent, end_session, publish_will};
use mqtt_broker_queue::publications::Router;
use mqtt_broker_queue::queues::expire;
use mqtt_broker_step::{Step, StepFault};
use std::alloc::Global;

/// A line that is silent for too long closes, if it stands (3.1.2.10).
fn silence<R: Router>(
    alloc: Global,
    router: &mut R,
    step: &mut Step,
    line: u64,
) -> Result<(), StepFault>
    requires serves { R.serves router.old (subscribers step.old.broker.records) }
    requires lawful { (birth : ℕ) → IsWilled (will_at birth step.old.broker.records) }
    ensures ok { OnOk result (DoesSome (silences line) step.old step.new) }
    ensures left { IfErr result (λ fault. LeavesSome (silences line) fault step.old step.new) }
    ensures serves { (sessions : List Subscriber) → R.serves router.old sessions
        → R.serves router.new sessions }
{
    let Some(state) = step.line(line) else {
        return Ok(());
    };
    let session = state.session();
    close_silent(alloc, router, step, line, session)
}

/// What is due is done.
fn act<R: Router>(alloc: Global, router: &mut R, step: &mut Step, due: Due) -> Result<(), StepFault>
    requires serves { R.serves router.old (subscribers step.old.broker.records) }
    requires lawful { (birth : ℕ) → IsWilled (will_at birth step.old.broker.records) }
    ensures ok { OnOk result (DoesSome (does_due due) step.old step.new) }
    ensures left { IfErr result (λ fault. LeavesSome (does_due due) fault step.old step.new) }
    ensures serves { (sessions : List Subscriber) → R.serves router.old sessions
        → R.serves router.new sessions }
{
    match due {
        Due::Silence { line } => silence(alloc, router, step, line),
        Due::Will { birth } => publish_will(alloc, router, step, birth),
        Due::End { birth } => end_session(step, birth),
        Due::Stale { place } => step.forget(place),
        Due::Lapse { birth } => expire(alloc, step, birth),
    }
}

/// A turn of the clock: what is due is done, and the answer is whether anything was, so that there may be more
/// (3.1.2.10, 3.1.2.11.2, 3.1.3.2.2, 3.3.2.3.3). Before the moment `quiet` nothing that is stored is due, and only lines
/// are looked at.
pub fn tick<R: Router>(
    alloc: Global,
    router: &mut R,
    step: &mut Step,
    quiet: u64,
) -> Result<bool, StepFault>
    requires quiet { AreQuietBefore quiet step.old.broker.records }
    requires serves { R.serves router.old (subscribers step.old.broker.records) }
    requires lawful { (birth : ℕ) → IsWilled (will_at birth step.old.broker.records) }
    ensures ok { OnOk result (DoesSome (λ env. deeds_of env Tick) step.old step.new) }
    ensures again { (env : Env) → IfOk result (λ again. again
        ≡ is_again Tick (deeds_of env Tick step.old.broker)) }
    ensures left { IfErr result (λ fault.
        LeavesSome (λ env. deeds_of env Tick) fault step.old step.new) }
    ensures serves { (sessions : List Subscriber) → R.serves router.old sessions
        → R.serves router.new sessions }
{
    match next_due(step, quiet) {
        Some(due) => {
            act(alloc, router, step, due)?;
            Ok(true)
        }
        None => Ok(false),
    }
}
