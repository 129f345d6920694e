//! A receiver's answers of a connected client: PUBACK, PUBREC, PUBCOMP (MQTT 5.0, 3.4, 3.5, 3.7, 4.3).
ghost use Rattle.std.specs.Prelude.{◌≡◌, List, OnOk, IfOk, IfErr};
ghost use Rattle.mqtt_routes.specs.routing.Subscriptions.{Subscriber};
ghost use Rattle.mqtt_rules.specs.step.Routing.{subscribers};
ghost use Rattle.mqtt_rules.specs.step.State.{Env, Line};
ghost use Rattle.mqtt_broker_step.specs.Stepping.{IsLeft};
ghost use Rattle.mqtt_broker_queue.specs.publications.Choosing.{DoesSome, LeavesSome};
ghost use Rattle.mqtt_broker_queue.specs.queues.Answering.{Came};
ghost use Rattle.mqtt_broker_queue.specs.queues.Queues.{HasKeptOrders};
ghost use Rattle.mqtt_broker_acts.specs.calls.Answers.{answers, packet_of};
ghost use Rattle.mqtt_broker_acts.specs.calls.Inputs.{HasClient, takes};

use crate::closing::drop_line;
use mqtt_base::Reason;
use mqtt_broker_queue::publications::Router;
use mqtt_broker_queue::queues::{Answered, puback, pubcomp, pubrec};
use mqtt_broker_step::{Step, StepFault};
use mqtt_packet::Ack;
use std::alloc::Global;

/// Which answer of a receiver a packet is.
#[derive(Clone, Copy)]
pub(crate) enum AnswerKind {
    /// It ends a sent copy of QoS 1 (4.3.2).
    Puback,
    /// It releases a sent copy of QoS 2, or ends it (4.3.3).
    Pubrec,
    /// It ends a released copy (4.3.3).
    Pubcomp,
}

/// What comes of an answer to the session.
fn take(
    alloc: Global,
    step: &mut Step,
    line: u64,
    birth: u64,
    kind: AnswerKind,
    packet: &Ack,
) -> Result<Answered, StepFault>
    requires { HasKeptOrders birth step.old.broker.records }
    ensures ok { IfOk result (λ answered. Came (answers kind birth packet.now) line answered
        step.old step.new) }
    ensures left { (env : Env) (l : Line) → l.number ≡ line → IfErr result (λ fault.
        IsLeft (answers kind birth packet.now env l) fault step.old step.new) }
{
    let (identifier, code) = (packet.identifier, packet.reason);
    match kind {
        AnswerKind::Puback => puback(alloc, step, line, birth, identifier, code),
        AnswerKind::Pubrec => pubrec(alloc, step, line, birth, identifier, code),
        AnswerKind::Pubcomp => pubcomp(alloc, step, line, birth, identifier),
    }
}

/// An answer is taken by the session; one in a wrong phase drops its line (4.3.2, 4.3.3).
pub(crate) fn answer<R: Router>(
    alloc: Global,
    router: &mut R,
    step: &mut Step,
    line: u64,
    birth: u64,
    kind: AnswerKind,
    packet: &Ack,
) -> Result<(), StepFault>
    requires serves { R.serves router.old (subscribers step.old.broker.records) }
    requires client { HasClient line birth step.old.broker }
    ensures ok { OnOk result (DoesSome (takes line (packet_of kind packet.now)) step.old step.new) }
    ensures left { IfErr result (λ fault.
        LeavesSome (takes line (packet_of kind packet.now)) fault step.old step.new) }
    ensures serves { (sessions : List Subscriber) → R.serves router.old sessions
        → R.serves router.new sessions }
{
    match take(alloc, step, line, birth, kind, packet) {
        Ok(Answered::Taken) => Ok(()),
        Ok(Answered::Wrong) => {
            let code = Reason::PROTOCOL_ERROR;
            drop_line(alloc, router, step, line, Some(birth), code)
        }
        Err(fault) => Err(fault),
    }
}
