//! A turn of the clock, as the acts of its call (MQTT 5.0, 3.1.2.10, 3.1.2.11.2, 3.1.3.2.2, 3.3.2.3.3).
ghost use Rattle.std.specs.Prelude.{◌≡◌, List, IfOk, IfErr};
ghost use Rattle.mqtt_routes.specs.routing.Subscriptions.{Subscriber};
ghost use Rattle.mqtt_rules.specs.step.Routing.{subscribers};
ghost use Rattle.mqtt_rules.specs.step.Step.{SpentStep, Tick};
ghost use Rattle.mqtt_broker_step.specs.declared.fault.StepFault.TheVariants.{Spent};
ghost use Rattle.mqtt_broker_step.specs.Stepping.{at_rest};
ghost use Rattle.mqtt_broker_acts.specs.calls.Doing.{DidCall};
ghost use Rattle.mqtt_broker_acts.specs.calls.Ready.{IsReady};
ghost use Rattle.mqtt_broker_acts.specs.clock.Quiet.{AreQuietBefore};

use crate::clock::tick;
use mqtt_broker_queue::publications::Router;
use mqtt_broker_step::{Step, StepFault};
use std::alloc::Global;

/// The step of a turn of the clock begins at a moment, and does its deeds. Answers whether anything was due, so that
/// there may be more. `Memory` (1) and `Spent` (3): the step is to be taken back (3.1.2.10, 3.1.2.11.2, 3.1.3.2.2,
/// 3.3.2.3.3). Before the moment `quiet` nothing that is stored is due, and only lines are looked at.
pub fn tick_at<R: Router>(
    alloc: Global,
    router: &mut R,
    step: &mut Step,
    moment: u64,
    quiet: u64,
) -> Result<bool, StepFault>
    requires rest { step.old ≡ at_rest step.old.limits step.old.broker }
    requires ready { IsReady step.old.limits step.old.broker }
    requires serves { R.serves router.old (subscribers step.old.broker.records) }
    requires quiet { AreQuietBefore quiet step.old.broker.records }
    ensures called { IfOk result (λ again. DidCall moment Tick again step.new) }
    ensures left { IfErr result (λ fault. fault ≡ Spent
        → SpentStep step.new.limits step.new.start moment Tick) }
    ensures start { step.new.start ≡ step.old.broker }
    ensures limits { step.new.limits ≡ step.old.limits }
    ensures serves { (sessions : List Subscriber) → R.serves router.old sessions
        → R.serves router.new sessions }
{
    match step.begin(moment) {
        Ok(()) => tick(alloc, router, step, quiet),
        Err(fault) => Err(fault),
    }
}
