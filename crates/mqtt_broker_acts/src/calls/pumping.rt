//! A turn of sending, as the acts of its call (MQTT 5.0, 4.6, 4.9).
ghost use Rattle.std.specs.Prelude.{◌≡◌, IfOk, IfErr};
ghost use Rattle.mqtt_rules.specs.step.Step.{Pump, SpentStep, at_moment};
ghost use Rattle.mqtt_broker_step.specs.declared.fault.StepFault.TheVariants.{Spent};
ghost use Rattle.mqtt_broker_step.specs.Stepping.{at_rest};
ghost use Rattle.mqtt_broker_queue.specs.queues.Turning.{line_turns};
ghost use Rattle.mqtt_broker_acts.specs.calls.Doing.{DidCall};

use mqtt_broker_queue::queues::send_turns;
use mqtt_broker_step::{Step, StepFault};
use mqtt_flow::Turn;
use std::alloc::Global;

/// The step of a turn of sending on a line begins at a moment, and does its deeds, by the turns that a pump takes there
/// then, which were looked up before. Answers whether there may be more: `PUMP_LIMIT` PUBLISH went out. `Memory` (1) and
/// `Spent` (3): the step is to be taken back (4.6, 4.9).
pub fn send_at(
    alloc: Global,
    step: &mut Step,
    line: u64,
    turns: Vec<Turn>,
    moment: u64,
) -> Result<bool, StepFault>
    requires rest { step.old ≡ at_rest step.old.limits step.old.broker }
    requires turns { turns.items ≡ line_turns line (at_moment moment step.old.broker) }
    ensures called { IfOk result (λ again. DidCall moment (Pump line) again step.new) }
    ensures left { IfErr result (λ fault. fault ≡ Spent
        → SpentStep step.new.limits step.new.start moment (Pump line)) }
    ensures start { step.new.start ≡ step.old.broker }
    ensures limits { step.new.limits ≡ step.old.limits }
{
    match step.begin(moment) {
        Ok(()) => send_turns(alloc, step, line, turns),
        Err(fault) => Err(fault),
    }
}
