//! PUBLISH of a connected client (MQTT 5.0, 3.3, 4.9).
ghost use Rattle.std.specs.Prelude.{List, OnOk, IfErr};
ghost use Rattle.mqtt_packet.specs.declared.codec.packet.Packet.TheVariants as packets;
ghost use Rattle.mqtt_routes.specs.routing.Subscriptions.{Subscriber};
ghost use Rattle.mqtt_rules.specs.step.Contents.{IsTaken};
ghost use Rattle.mqtt_rules.specs.step.Routing.{subscribers};
ghost use Rattle.mqtt_broker_queue.specs.publications.Choosing.{DoesSome, LeavesSome};
ghost use Rattle.mqtt_broker_acts.specs.calls.Inputs.{HasClient, takes};

use crate::closing::drop_line;
use mqtt_base::Reason;
use mqtt_broker_queue::publications::{Handled, Router, on_publish};
use mqtt_broker_step::{Step, StepFault};
use mqtt_packet::Publish;
use std::alloc::Global;

/// A PUBLISH is taken, refused or answered; one that means no topic, or is above the Receive Maximum, drops its line
/// (3.3.2.1, 3.3.4, 4.9).
pub(crate) fn publish<R: Router>(
    alloc: Global,
    router: &mut R,
    step: &mut Step,
    line: u64,
    birth: u64,
    packet: &Publish,
) -> Result<(), StepFault>
    requires serves { R.serves router.old (subscribers step.old.broker.records) }
    requires client { HasClient line birth step.old.broker }
    requires taken { IsTaken (packets.Publish packet.now) }
    ensures ok { OnOk result (DoesSome (takes line (packets.Publish packet.now)) step.old step.new) }
    ensures left { IfErr result (λ fault.
        LeavesSome (takes line (packets.Publish packet.now)) fault step.old step.new) }
    ensures serves { (sessions : List Subscriber) → R.serves router.old sessions
        → R.serves router.new sessions }
{
    match on_publish(alloc, router, step, line, birth, packet) {
        Ok(Handled::Done) => Ok(()),
        Ok(Handled::Wrong(code)) => drop_line(alloc, router, step, line, Some(birth), code),
        Ok(Handled::Over) => {
            let code = Reason::RECEIVE_MAXIMUM_EXCEEDED;
            drop_line(alloc, router, step, line, Some(birth), code)
        }
        Err(fault) => Err(fault),
    }
}
