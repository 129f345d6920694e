//! Copies of retained messages at QoS 0 go out after the SUBACK (MQTT 5.0, 3.1.2.11.4, 3.3.1.3).
ghost use Rattle.std.specs.Prelude.{OnOk, IfErr};
ghost use Rattle.std.specs.List.{AllByRecursion};
ghost use Rattle.mqtt_records.specs.messages.Queue.{IsSpelled};
ghost use Rattle.mqtt_rules.specs.step.Subscribe.{late_send};
ghost use Rattle.mqtt_broker_step.specs.Stepping.{Did, IsLeft};
ghost use Rattle.mqtt_broker_queue.specs.publications.Delivering.{addressed};
ghost use Rattle.mqtt_broker_acts.specs.subscribing.Bringing.{late_sends};

use mqtt_broker_queue::queues::offer_publish;
use mqtt_broker_step::{Step, StepFault};
use mqtt_records::MessageCopy;
use std::alloc::Global;

/// A copy of QoS 0, whose PUBLISH has a spelling, goes out on a line, and is let go.
fn send_one(alloc: Global, step: &mut Step, line: u64, copy: MessageCopy) -> Result<(), StepFault>
    requires { IsSpelled copy }
    ensures ok { OnOk result (Did (late_send line (addressed copy)) step.old step.new) }
    ensures left { IfErr result (λ fault.
        IsLeft (late_send line (addressed copy)) fault step.old step.new) }
{
    let sent = offer_publish(alloc, step, line, &copy);
    drop(copy);
    sent
}

/// Copies of QoS 0, whose PUBLISH have spellings, go out in order on a line, if it stands, each on what the ones before
/// it left; those of which no form is within what the client takes are left out (3.1.2.11.4, 3.3.1.3).
pub fn send_late(
    alloc: Global,
    step: &mut Step,
    line: u64,
    copies: Vec<MessageCopy>,
) -> Result<(), StepFault>
    requires { AllByRecursion IsSpelled copies.items }
    ensures ok { OnOk result (Did (late_sends line copies.items) step.old step.new) }
    ensures left { IfErr result (λ fault.
        IsLeft (late_sends line copies.items) fault step.old step.new) }
{
    for copy in copies {
        send_one(alloc, step, line, copy)?;
    }
    Ok(())
}
