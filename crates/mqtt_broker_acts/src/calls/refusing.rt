//! A fault in what came on a line, as the acts of its call (MQTT 5.0, 3.1, 4.13).
ghost use Rattle.std.specs.Prelude.{◌≡◌, ℕ, List, None, Some, false, OnOk, IfErr};
ghost use Rattle.mqtt_routes.specs.routing.Subscriptions.{Subscriber};
ghost use Rattle.mqtt_rules.specs.step.Contents.{IsWilled};
ghost use Rattle.mqtt_rules.specs.step.Deeds.{always};
ghost use Rattle.mqtt_rules.specs.step.Lines.{session_on};
ghost use Rattle.mqtt_rules.specs.step.Routing.{subscribers};
ghost use Rattle.mqtt_rules.specs.step.State.{Line};
ghost use Rattle.mqtt_rules.specs.step.Step.{BadInput, deeds_of, on_fault};
ghost use Rattle.mqtt_broker_step.specs.Stepping.{Did, IsLeft, at_rest};
ghost use Rattle.mqtt_broker_queue.specs.publications.Choosing.{DoesSome, LeavesSome};
ghost use Rattle.mqtt_broker_acts.specs.closing.Wills.{will_at};
ghost use Rattle.mqtt_broker_acts.specs.calls.Doing.{IsCalled};
ghost use Rattle.mqtt_broker_acts.specs.calls.Ready.{IsReady};
ghost use Rattle.mqtt_broker_acts.specs.calls.First.{first_told};

use crate::closing::{close, drop_line};
use mqtt_base::Reason;
use mqtt_broker_looks::decided::fault_code;
use mqtt_broker_looks::sent::connack_refused;
use mqtt_broker_queue::publications::Router;
use mqtt_broker_step::{Step, StepFault};
use std::alloc::Global;

/// What is told of a fault in the first packet of a line: CONNACK with the code, if that is of the type of CONNECT
/// (3.1, 3.2.2.2).
fn tell_first(
    alloc: Global,
    step: &mut Step,
    line: u64,
    is_connect: bool,
    code: Reason,
) -> Result<(), StepFault>
    ensures ok { OnOk result (Did (always (first_told line is_connect code.0)) step.old step.new) }
    ensures left { IfErr result (λ fault. IsLeft
        (always (first_told line is_connect code.0)) fault step.old step.new) }
{
    if !is_connect {
        return Ok(());
    }
    step.send_spelled(line, connack_refused(alloc, code)?)
}

/// A fault in the first packet of a line: a CONNECT is answered by CONNACK with the code of that, another packet
/// by nothing, and the line closes (3.1, 4.13).
fn refuse_first<R: Router>(
    alloc: Global,
    router: &mut R,
    step: &mut Step,
    line: u64,
    is_connect: bool,
    code: Reason,
) -> Result<(), StepFault>
    requires serves { R.serves router.old (subscribers step.old.broker.records) }
    ensures ok { (l : Line) → l.number ≡ line → l.session ≡ None → OnOk result (DoesSome
        (λ env. on_fault env l is_connect code.0 None) step.old step.new) }
    ensures left { (l : Line) → l.number ≡ line → l.session ≡ None → IfErr result (λ fault.
        LeavesSome (λ env. on_fault env l is_connect code.0 None) fault step.old step.new) }
    ensures serves { (sessions : List Subscriber) → R.serves router.old sessions
        → R.serves router.new sessions }
{
    match tell_first(alloc, step, line, is_connect, code) {
        Ok(()) => close(alloc, router, step, line, None, true),
        Err(fault) => Err(fault),
    }
}

/// A fault in a packet on a line: in the first packet, or later, where DISCONNECT tells the code and the line closes
/// with its session (4.13).
fn refuse_packet<R: Router>(
    alloc: Global,
    router: &mut R,
    step: &mut Step,
    line: u64,
    session: Option<u64>,
    is_connect: bool,
    code: Reason,
) -> Result<(), StepFault>
    requires on { session_on line step.old.broker ≡ Some session }
    requires serves { R.serves router.old (subscribers step.old.broker.records) }
    requires lawful { (birth : ℕ) → IsWilled (will_at birth step.old.broker.records) }
    ensures ok { OnOk result (DoesSome
        (λ env. deeds_of env (BadInput line is_connect code.0)) step.old step.new) }
    ensures left { IfErr result (λ fault. LeavesSome
        (λ env. deeds_of env (BadInput line is_connect code.0)) fault step.old step.new) }
    ensures serves { (sessions : List Subscriber) → R.serves router.old sessions
        → R.serves router.new sessions }
{
    match session {
        Some(birth) => {
            let late = fault_code(code);
            drop_line(alloc, router, step, line, Some(birth), late)
        }
        None => refuse_first(alloc, router, step, line, is_connect, code),
    }
}

/// The step of a fault in what came on a line that stands begins at a moment, and does its deeds. `session` is the birth
/// of the session on the line, `is_connect` whether the packet is of the type of CONNECT. `Memory` (1) and `Spent`
/// (3): the step is to be taken back (3.1, 4.13).
pub fn fault_at<R: Router>(
    alloc: Global,
    router: &mut R,
    step: &mut Step,
    line: u64,
    session: Option<u64>,
    is_connect: bool,
    code: Reason,
    moment: u64,
) -> Result<(), StepFault>
    requires rest { step.old ≡ at_rest step.old.limits step.old.broker }
    requires ready { IsReady step.old.limits step.old.broker }
    requires on { session_on line step.old.broker ≡ Some session }
    requires serves { R.serves router.old (subscribers step.old.broker.records) }
    ensures called { IsCalled moment (BadInput line is_connect code.0) false result step.new }
    ensures start { step.new.start ≡ step.old.broker }
    ensures limits { step.new.limits ≡ step.old.limits }
    ensures serves { (sessions : List Subscriber) → R.serves router.old sessions
        → R.serves router.new sessions }
{
    match step.begin(moment) {
        Ok(()) => refuse_packet(alloc, router, step, line, session, is_connect, code),
        Err(fault) => Err(fault),
    }
}
