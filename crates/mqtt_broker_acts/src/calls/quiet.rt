//! Packets of a connected client that route nothing: PUBREL, PINGREQ, SUBSCRIBE, UNSUBSCRIBE (MQTT 5.0, 3.6, 3.8,
//! 3.10, 3.12).
ghost use Rattle.std.specs.Prelude.{OnOk, IfErr};
ghost use Rattle.mqtt_packet.specs.declared.codec.packet.Packet.TheVariants as packets;
ghost use Rattle.mqtt_rules.specs.step.Contents.{IsTaken};
ghost use Rattle.mqtt_broker_queue.specs.publications.Choosing.{DoesSome, LeavesSome};
ghost use Rattle.mqtt_broker_acts.specs.calls.Inputs.{HasClient, takes};

use crate::subscribing;
use mqtt_broker_queue::publications;
use mqtt_broker_step::{Step, StepFault};
use mqtt_packet::{Ack, Subscribe, Unsubscribe};
use std::alloc::Global;

/// A PUBREL closes an open identifier, and PUBCOMP answers it (4.3.3).
pub(crate) fn pubrel(step: &mut Step, line: u64, birth: u64, packet: &Ack) -> Result<(), StepFault>
    requires client { HasClient line birth step.old.broker }
    requires taken { IsTaken (packets.Pubrel packet.now) }
    ensures ok { OnOk result (DoesSome (takes line (packets.Pubrel packet.now)) step.old step.new) }
    ensures left { IfErr result (λ fault.
        LeavesSome (takes line (packets.Pubrel packet.now)) fault step.old step.new) }
{
    publications::pubrel(step, line, birth, packet.identifier)
}

/// A PINGREQ is answered by PINGRESP (3.12.4).
pub(crate) fn pingreq(step: &mut Step, line: u64, birth: u64) -> Result<(), StepFault>
    requires client { HasClient line birth step.old.broker }
    ensures ok { OnOk result (DoesSome (takes line (packets.Pingreq)) step.old step.new) }
    ensures left { IfErr result (λ fault.
        LeavesSome (takes line (packets.Pingreq)) fault step.old step.new) }
{
    publications::pingreq(step, line)
}

/// An UNSUBSCRIBE removes filters, and UNSUBACK tells of each (3.10.4).
pub(crate) fn unsubscribe(
    alloc: Global,
    step: &mut Step,
    line: u64,
    birth: u64,
    packet: &Unsubscribe,
) -> Result<(), StepFault>
    requires client { HasClient line birth step.old.broker }
    requires taken { IsTaken (packets.Unsubscribe packet.now) }
    ensures ok { OnOk result (DoesSome (takes line (packets.Unsubscribe packet.now)) step.old step.new) }
    ensures left { IfErr result (λ fault.
        LeavesSome (takes line (packets.Unsubscribe packet.now)) fault step.old step.new) }
{
    subscribing::unsubscribe(alloc, step, line, birth, packet)
}

/// A SUBSCRIBE grants filters, and SUBACK tells of each (3.8.4).
pub(crate) fn subscribe(
    alloc: Global,
    step: &mut Step,
    line: u64,
    birth: u64,
    packet: &Subscribe,
) -> Result<(), StepFault>
    requires client { HasClient line birth step.old.broker }
    requires taken { IsTaken (packets.Subscribe packet.now) }
    ensures ok { OnOk result (DoesSome (takes line (packets.Subscribe packet.now)) step.old step.new) }
    ensures left { IfErr result (λ fault.
        LeavesSome (takes line (packets.Subscribe packet.now)) fault step.old step.new) }
{
    subscribing::subscribe(alloc, step, line, birth, packet)
}
