//! A packet of a connected client, from the beginning of its call (MQTT 5.0, 3.1.2.10, 3.3 to 3.14).
ghost use Rattle.std.specs.Prelude.{◌≡◌, Some, false, List, OnOk, IfErr};
ghost use Rattle.mqtt_routes.specs.routing.Subscriptions.{Subscriber};
ghost use Rattle.mqtt_rules.specs.step.Contents.{IsTaken};
ghost use Rattle.mqtt_rules.specs.step.Lines.{session_on};
ghost use Rattle.mqtt_rules.specs.step.Routing.{subscribers};
ghost use Rattle.mqtt_rules.specs.step.Step.{Input};
ghost use Rattle.mqtt_broker_step.specs.Stepping.{at_rest};
ghost use Rattle.mqtt_broker_queue.specs.publications.Choosing.{DoesSome, LeavesSome};
ghost use Rattle.mqtt_broker_acts.specs.calls.Doing.{IsCalled};
ghost use Rattle.mqtt_broker_acts.specs.calls.Ready.{IsReady};
ghost use Rattle.mqtt_broker_acts.specs.calls.Inputs.{HasClient, takes};

use crate::calls::answers::{AnswerKind, answer};
use crate::calls::leaving::{disconnect, stray};
use crate::calls::publishing::publish;
use crate::calls::quiet::{pingreq, pubrel, subscribe, unsubscribe};
use mqtt_broker_queue::publications::Router;
use mqtt_broker_step::{Step, StepFault};
use mqtt_packet::Packet;
use std::alloc::Global;

/// A packet does what the rules have for the session that is connected on its line.
fn take<R: Router>(
    alloc: Global,
    router: &mut R,
    step: &mut Step,
    line: u64,
    birth: u64,
    packet: &Packet,
) -> Result<(), StepFault>
    requires serves { R.serves router.old (subscribers step.old.broker.records) }
    requires client { HasClient line birth step.old.broker }
    requires taken { IsTaken packet.now }
    ensures ok { OnOk result (DoesSome (takes line packet.now) step.old step.new) }
    ensures left { IfErr result (λ fault.
        LeavesSome (takes line packet.now) fault step.old step.new) }
    ensures serves { (sessions : List Subscriber) → R.serves router.old sessions
        → R.serves router.new sessions }
{
    match packet {
        Packet::Publish(packet) => publish(alloc, router, step, line, birth, packet),
        Packet::Puback(ack) => answer(alloc, router, step, line, birth, AnswerKind::Puback, ack),
        Packet::Pubrec(ack) => answer(alloc, router, step, line, birth, AnswerKind::Pubrec, ack),
        Packet::Pubrel(packet) => pubrel(step, line, birth, packet),
        Packet::Pubcomp(ack) => answer(alloc, router, step, line, birth, AnswerKind::Pubcomp, ack),
        Packet::Subscribe(packet) => subscribe(alloc, step, line, birth, packet),
        Packet::Unsubscribe(packet) => unsubscribe(alloc, step, line, birth, packet),
        Packet::Pingreq => pingreq(step, line, birth),
        Packet::Disconnect(packet) => disconnect(alloc, router, step, line, birth, packet),
        _ => stray(alloc, router, step, line, birth),
    }
}

/// The step of a packet begins at a moment, in milliseconds, if none was under way, and does the deeds of its call:
/// the line is heard, and the packet does what the rules have for the session that is connected on it, which has this
/// birth (3.1.2.10, 3.3 to 3.14, 4.13). The packet has a spelling, and is no longer than a packet may be. `Memory` (1)
/// and `Spent` (3), the latter only if a number of the deeds is above 2^62, leave a step that is to be taken back.
pub fn input<R: Router>(
    alloc: Global,
    router: &mut R,
    step: &mut Step,
    line: u64,
    birth: u64,
    packet: &Packet,
    moment: u64,
) -> Result<(), StepFault>
    requires rest { step.old ≡ at_rest step.old.limits step.old.broker }
    requires ready { IsReady step.old.limits step.old.broker }
    requires connected { session_on line step.old.broker ≡ Some (Some birth) }
    requires taken { IsTaken packet.now }
    requires serves { R.serves router.old (subscribers step.old.broker.records) }
    ensures called { IsCalled moment (Input line packet.now) false result step.new }
    ensures start { step.new.start ≡ step.old.broker }
    ensures limits { step.new.limits ≡ step.old.limits }
    ensures serves { (sessions : List Subscriber) → R.serves router.old sessions
        → R.serves router.new sessions }
{
    step.begin(moment)?;
    step.hear(line)?;
    take(alloc, router, step, line, birth, packet)
}
