//! A line that is lost, as the acts of its call (MQTT 5.0, 4.1).
ghost use Rattle.std.specs.Prelude.{◌≡◌, List, false};
ghost use Rattle.mqtt_routes.specs.routing.Subscriptions.{Subscriber};
ghost use Rattle.mqtt_rules.specs.step.Routing.{subscribers};
ghost use Rattle.mqtt_rules.specs.step.Step.{Lost};
ghost use Rattle.mqtt_broker_step.specs.Stepping.{at_rest};
ghost use Rattle.mqtt_broker_acts.specs.calls.Doing.{IsCalled};
ghost use Rattle.mqtt_broker_acts.specs.calls.Ready.{IsReady};

use crate::closing::lost;
use mqtt_broker_queue::publications::Router;
use mqtt_broker_step::{Step, StepFault};
use std::alloc::Global;

/// The step of a line that is lost begins at a moment, and does its deeds: the line closes, and its session with it.
/// `Memory` (1) and `Spent` (3): the step is to be taken back (4.1).
pub fn lost_at<R: Router>(
    alloc: Global,
    router: &mut R,
    step: &mut Step,
    line: u64,
    moment: u64,
) -> Result<(), StepFault>
    requires rest { step.old ≡ at_rest step.old.limits step.old.broker }
    requires ready { IsReady step.old.limits step.old.broker }
    requires serves { R.serves router.old (subscribers step.old.broker.records) }
    ensures called { IsCalled moment (Lost line) false result step.new }
    ensures start { step.new.start ≡ step.old.broker }
    ensures limits { step.new.limits ≡ step.old.limits }
    ensures serves { (sessions : List Subscriber) → R.serves router.old sessions
        → R.serves router.new sessions }
{
    match step.begin(moment) {
        Ok(()) => lost(alloc, router, step, line),
        Err(fault) => Err(fault),
    }
}
