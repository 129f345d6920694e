//! The first packet of a line, as the acts of its call (MQTT 5.0, 3.1).
ghost use Rattle.std.specs.Prelude.{◌≡◌, List, None, Some, false, OnOk, IfErr};
ghost use Rattle.mqtt_packet.specs.declared.codec.packet.Packet.{Packet as ThePacket};
ghost use Rattle.mqtt_routes.specs.routing.Subscriptions.{Subscriber};
ghost use Rattle.mqtt_rules.specs.step.Lines.{session_on};
ghost use Rattle.mqtt_rules.specs.step.Routing.{subscribers};
ghost use Rattle.mqtt_rules.specs.step.Step.{Input, deeds_of};
ghost use Rattle.mqtt_broker_step.specs.Stepping.{at_rest};
ghost use Rattle.mqtt_broker_queue.specs.publications.Choosing.{DoesSome, LeavesSome};
ghost use Rattle.mqtt_broker_acts.specs.calls.Doing.{IsCalled, begun};
ghost use Rattle.mqtt_broker_acts.specs.calls.Ready.{IsReady};
ghost use Rattle.mqtt_broker_acts.specs.calls.First.{IsOther};

use crate::calls::connecting::connect_at;
use crate::closing::close;
use mqtt_broker_queue::publications::Router;
use mqtt_broker_step::{Step, StepFault};
use mqtt_packet::Packet;
use std::alloc::Global;

/// A packet that is no CONNECT comes on a line that has no session.
fn close_heard<R: Router>(
    alloc: Global,
    router: &mut R,
    step: &mut Step,
    line: u64,
) -> Result<(), StepFault>
    requires on { session_on line step.old.broker ≡ Some None }
    requires serves { R.serves router.old (subscribers step.old.broker.records) }
    ensures ok { (packet : ThePacket) → IsOther packet → OnOk result (DoesSome
        (λ env. deeds_of env (Input line packet)) step.old step.new) }
    ensures left { (packet : ThePacket) → IsOther packet → IfErr result (λ fault. LeavesSome
        (λ env. deeds_of env (Input line packet)) fault step.old step.new) }
    ensures serves { (sessions : List Subscriber) → R.serves router.old sessions
        → R.serves router.new sessions }
{
    match step.hear(line) {
        Ok(()) => close(alloc, router, step, line, None, true),
        Err(fault) => Err(fault),
    }
}

/// The step of a packet that is no CONNECT, on a line that has no session, begins at a moment: the line closes
/// without an answer (3.1).
fn close_at<R: Router>(
    alloc: Global,
    router: &mut R,
    step: &mut Step,
    line: u64,
    moment: u64,
) -> Result<(), StepFault>
    requires rest { step.old ≡ at_rest step.old.limits step.old.broker }
    requires on { session_on line step.old.broker ≡ Some None }
    requires serves { R.serves router.old (subscribers step.old.broker.records) }
    ensures ok { (packet : ThePacket) → IsOther packet → OnOk result (DoesSome
        (λ env. deeds_of env (Input line packet))
        (begun step.old.limits moment step.old.broker) step.new) }
    ensures left { (packet : ThePacket) → IsOther packet → IfErr result (λ fault. LeavesSome
        (λ env. deeds_of env (Input line packet)) fault
        (begun step.old.limits moment step.old.broker) step.new) }
    ensures serves { (sessions : List Subscriber) → R.serves router.old sessions
        → R.serves router.new sessions }
{
    match step.begin(moment) {
        Ok(()) => close_heard(alloc, router, step, line),
        Err(fault) => Err(fault),
    }
}

/// The step of the first packet of a line begins at a moment, and does its deeds: a CONNECT is answered, and at another
/// packet the line closes without an answer. `Memory` (1) and `Spent` (3): the step is to be taken back. In one corner
/// `Memory` stands for `Spent`: if more sessions stand than may, as after an opening under lower limits, and what
/// comes before the new connection of a client whose session stands needs a number above 2^62 (3.1, 3.1.4).
pub fn first_at<R: Router>(
    alloc: Global,
    router: &mut R,
    step: &mut Step,
    line: u64,
    packet: &Packet,
    moment: u64,
) -> Result<(), StepFault>
    requires rest { step.old ≡ at_rest step.old.limits step.old.broker }
    requires ready { IsReady step.old.limits step.old.broker }
    requires on { session_on line step.old.broker ≡ Some None }
    requires serves { R.serves router.old (subscribers step.old.broker.records) }
    ensures called { IsCalled moment (Input line packet.now) false result step.new }
    ensures start { step.new.start ≡ step.old.broker }
    ensures limits { step.new.limits ≡ step.old.limits }
    ensures serves { (sessions : List Subscriber) → R.serves router.old sessions
        → R.serves router.new sessions }
{
    match packet {
        Packet::Connect(connect) => connect_at(alloc, router, step, line, connect, moment),
        _ => close_at(alloc, router, step, line, moment),
    }
}
