//! A session is settled: a waiting Will that is due is published, and then a session whose end is due ends (MQTT 5.0,
//! 3.1.2.11.2, 3.1.3.2.2).
ghost use Rattle.std.specs.Prelude.{◌≡◌, List, None, OnOk, IfErr};
ghost use Rattle.mqtt_routes.specs.routing.Subscriptions.{Subscriber};
ghost use Rattle.mqtt_rules.specs.step.Closing.{settle};
ghost use Rattle.mqtt_rules.specs.step.Contents.{IsWilled};
ghost use Rattle.mqtt_rules.specs.step.Routing.{subscribers};
ghost use Rattle.mqtt_broker_step.specs.Stepping.{Did, Does, IsLeft, Leaves};
ghost use Rattle.mqtt_broker_queue.specs.publications.Choosing.{DoesSome, LeavesSome};
ghost use Rattle.mqtt_broker_acts.specs.closing.Settling.{settles_will, settles_end};
ghost use Rattle.mqtt_broker_acts.specs.closing.Wills.{ChoosesOnce, will_at};

use crate::closing::ending::end_session;
use crate::closing::wills::publish_will;
use mqtt_broker_looks::decided::{has_due_end, has_due_will};
use mqtt_broker_queue::publications::Router;
use mqtt_broker_step::{Step, StepFault};
use std::alloc::Global;

/// A session's Will is published, if it is due at a moment (3.1.3.2.2).
fn settle_will<R: Router>(
    alloc: Global,
    router: &mut R,
    step: &mut Step,
    birth: u64,
    moment: u64,
) -> Result<(), StepFault>
    requires serves { R.serves router.old (subscribers step.old.broker.records) }
    requires lawful { IsWilled (will_at birth step.old.broker.records) }
    ensures ok { OnOk result (DoesSome (settles_will moment birth) step.old step.new) }
    ensures left { IfErr result (λ fault.
        LeavesSome (settles_will moment birth) fault step.old step.new) }
    ensures quiet { will_at birth step.old.broker.records ≡ None
        → OnOk result (Does (settles_will moment birth) step.old step.new) }
    ensures quiet_left { will_at birth step.old.broker.records ≡ None
        → IfErr result (λ fault. Leaves (settles_will moment birth) fault step.old step.new) }
    ensures once { OnOk result (ChoosesOnce birth (settles_will moment birth) step.old step.new) }
    ensures serves { (sessions : List Subscriber) → R.serves router.old sessions
        → R.serves router.new sessions }
{
    let Some(session) = step.session(birth) else {
        return Ok(());
    };
    if !has_due_will(moment, session) {
        return Ok(());
    }
    publish_will(alloc, router, step, birth)
}

/// A session ends, if that is due at a moment (3.1.2.11.2).
fn settle_end(step: &mut Step, birth: u64, moment: u64) -> Result<(), StepFault>
    ensures ok { OnOk result (Did (settles_end moment birth) step.old step.new) }
    ensures left { IfErr result (λ fault. IsLeft (settles_end moment birth) fault step.old step.new) }
{
    let Some(session) = step.session(birth) else {
        return Ok(());
    };
    if !has_due_end(moment, session) {
        return Ok(());
    }
    end_session(step, birth)
}

/// A session's waiting Will that is due is published, then the session ends, if that is due (3.1.2.11.2,
/// 3.1.3.2.2). Nothing happens if the session doesn't stand.
pub fn settle<R: Router>(
    alloc: Global,
    router: &mut R,
    step: &mut Step,
    birth: u64,
) -> Result<(), StepFault>
    requires serves { R.serves router.old (subscribers step.old.broker.records) }
    requires lawful { IsWilled (will_at birth step.old.broker.records) }
    ensures ok { OnOk result (DoesSome (λ env. settle env birth) step.old step.new) }
    ensures left { IfErr result (λ fault.
        LeavesSome (λ env. settle env birth) fault step.old step.new) }

    // Without a Will nothing is chosen.
    ensures quiet { will_at birth step.old.broker.records ≡ None
        → OnOk result (Does (λ env. settle env birth) step.old step.new) }
    ensures quiet_left { will_at birth step.old.broker.records ≡ None
        → IfErr result (λ fault. Leaves (λ env. settle env birth) fault step.old step.new) }
    ensures once { OnOk result (ChoosesOnce birth (λ env. settle env birth) step.old step.new) }
    ensures serves { (sessions : List Subscriber) → R.serves router.old sessions
        → R.serves router.new sessions }
{
    let moment = step.moment();
    settle_will(alloc, router, step, birth, moment)?;
    settle_end(step, birth, moment)
}
