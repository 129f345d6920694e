//! CONNECT as the first packet of a line, from the beginning of its step (MQTT 5.0, 3.1, 3.1.4).
ghost use Rattle.std.specs.Prelude.{◌≡◌, ℕ, List, None, Some, IfOk, OnOk, IfErr};
ghost use Rattle.mqtt_packet.specs.declared.codec.packet.Packet.TheVariants as packets;
ghost use Rattle.mqtt_routes.specs.routing.Subscriptions.{Subscriber};
ghost use Rattle.mqtt_rules.specs.step.Contents.{IsWilled};
ghost use Rattle.mqtt_rules.specs.step.Laws.{IsCoherent};
ghost use Rattle.mqtt_rules.specs.step.Lines.{session_on};
ghost use Rattle.mqtt_rules.specs.step.Routing.{subscribers};
ghost use Rattle.mqtt_rules.specs.step.State.{Line};
ghost use Rattle.mqtt_rules.specs.step.Step.{Input, deeds_of};
ghost use Rattle.mqtt_broker_step.specs.Stepping.{Did, IsLeft, at_rest};
ghost use Rattle.mqtt_broker_queue.specs.publications.Choosing.{DoesSome, LeavesSome};
ghost use Rattle.mqtt_broker_acts.specs.closing.Wills.{will_at};
ghost use Rattle.mqtt_broker_acts.specs.calls.Doing.{begun};
ghost use Rattle.mqtt_broker_acts.specs.calls.Ready.{IsReady};
ghost use Rattle.mqtt_broker_acts.specs.calls.First.{GreetedBy, turns_away};

use crate::connecting::{Joined, on_connect, refuse};
use mqtt_base::Reason;
use mqtt_broker_queue::publications::Router;
use mqtt_broker_step::{Step, StepFault};
use mqtt_packet::Connect;
use std::alloc::Global;

/// CONNECT comes on a line that has no session.
fn greet<R: Router>(
    alloc: Global,
    router: &mut R,
    step: &mut Step,
    line: u64,
    connect: &Connect,
) -> Result<Joined, StepFault>
    requires on { session_on line step.old.broker ≡ Some None }
    requires coherent { IsCoherent step.old.broker.records }
    requires serves { R.serves router.old (subscribers step.old.broker.records) }
    requires lawful { (birth : ℕ) → IsWilled (will_at birth step.old.broker.records) }
    ensures ok { IfOk result (λ joined. GreetedBy line connect.now joined step.old step.new) }
    ensures left { IfErr result (λ fault. LeavesSome
        (λ env. deeds_of env (Input line (packets.Connect connect.now))) fault step.old step.new) }
    ensures serves { (sessions : List Subscriber) → R.serves router.old sessions
        → R.serves router.new sessions }
{
    match step.hear(line) {
        Ok(()) => on_connect(alloc, router, step, line, connect),
        Err(fault) => Err(fault),
    }
}

/// The step begins, and CONNECT comes on a line that has no session.
fn greet_at<R: Router>(
    alloc: Global,
    router: &mut R,
    step: &mut Step,
    line: u64,
    connect: &Connect,
    moment: u64,
) -> Result<Joined, StepFault>
    requires rest { step.old ≡ at_rest step.old.limits step.old.broker }
    requires ready { IsReady step.old.limits step.old.broker }
    requires on { session_on line step.old.broker ≡ Some None }
    requires serves { R.serves router.old (subscribers step.old.broker.records) }
    ensures ok { IfOk result (λ joined. GreetedBy line connect.now joined
        (begun step.old.limits moment step.old.broker) step.new) }
    ensures left { IfErr result (λ fault. LeavesSome
        (λ env. deeds_of env (Input line (packets.Connect connect.now))) fault
        (begun step.old.limits moment step.old.broker) step.new) }
    ensures serves { (sessions : List Subscriber) → R.serves router.old sessions
        → R.serves router.new sessions }
{
    match step.begin(moment) {
        Ok(()) => greet(alloc, router, step, line, connect),
        Err(fault) => Err(fault),
    }
}

/// A line is heard, its client is refused with Quota exceeded, and the line closes (3.2.2.2).
fn turn_away(alloc: Global, step: &mut Step, line: u64, connect: &Connect) -> Result<(), StepFault>
    ensures ok { (l : Line) → l.number ≡ line
        → OnOk result (Did (turns_away l connect.now) step.old step.new) }
    ensures left { (l : Line) → l.number ≡ line → IfErr result (λ fault.
        IsLeft (turns_away l connect.now) fault step.old step.new) }
{
    match step.hear(line) {
        Ok(()) => refuse(alloc, step, line, connect, Reason::QUOTA_EXCEEDED),
        Err(fault) => Err(fault),
    }
}

/// A step is taken back, with the members that groups chose for a Will that was published in it, and begins again to
/// turn a client away. No clause sees that the choices are taken back; it is tested.
fn turn_away_at<R: Router>(
    alloc: Global,
    router: &mut R,
    step: &mut Step,
    line: u64,
    connect: &Connect,
    moment: u64,
) -> Result<(), StepFault>
    ensures ok { (l : Line) → l.number ≡ line → OnOk result (Did (turns_away l connect.now)
        (begun step.old.limits moment step.old.start) step.new) }
    ensures left { (l : Line) → l.number ≡ line → IfErr result (λ fault.
        IsLeft (turns_away l connect.now) fault
        (begun step.old.limits moment step.old.start) step.new) }
    ensures serves { (sessions : List Subscriber) → R.serves router.old sessions
        → R.serves router.new sessions }
{
    router.forgo_choices();
    step.take_back();
    match step.begin(moment) {
        Ok(()) => turn_away(alloc, step, line, connect),
        Err(fault) => Err(fault),
    }
}

/// The step of a CONNECT on a line that has no session begins at a moment, and does its deeds. If there is no place
/// for the session of a new client after what came before, nothing of that stays, and the client is refused with
/// Quota exceeded (3.1.4, 3.2.2.2).
pub fn connect_at<R: Router>(
    alloc: Global,
    router: &mut R,
    step: &mut Step,
    line: u64,
    connect: &Connect,
    moment: u64,
) -> Result<(), StepFault>
    requires rest { step.old ≡ at_rest step.old.limits step.old.broker }
    requires ready { IsReady step.old.limits step.old.broker }
    requires on { session_on line step.old.broker ≡ Some None }
    requires serves { R.serves router.old (subscribers step.old.broker.records) }
    ensures ok { OnOk result (DoesSome
        (λ env. deeds_of env (Input line (packets.Connect connect.now)))
        (begun step.old.limits moment step.old.broker) step.new) }
    ensures left { IfErr result (λ fault. LeavesSome
        (λ env. deeds_of env (Input line (packets.Connect connect.now))) fault
        (begun step.old.limits moment step.old.broker) step.new) }
    ensures serves { (sessions : List Subscriber) → R.serves router.old sessions
        → R.serves router.new sessions }
{
    match greet_at(alloc, router, step, line, connect, moment) {
        Ok(Joined::Done) => Ok(()),
        Ok(Joined::NoPlace) => turn_away_at(alloc, router, step, line, connect, moment),
        Err(fault) => Err(fault),
    }
}
