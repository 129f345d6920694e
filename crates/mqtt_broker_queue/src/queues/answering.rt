//! A receiver's answers: PUBACK, PUBREC, PUBCOMP (MQTT 5.0, 3.4, 3.5, 3.7, 4.3).
ghost use Rattle.std.specs.Prelude.{◌≡◌, is_some, true, IfOk, IfErr};
ghost use Rattle.mqtt_rules.specs.step.State.{Env, Line, session_at};
ghost use Rattle.mqtt_broker_step.specs.Stepping.{IsLeft};
ghost use Rattle.mqtt_broker_queue.specs.queues.Answering.{Came, asks, pubacks, pubrecs, pubcomps};
ghost use Rattle.mqtt_broker_queue.specs.queues.Queues.{HasKeptOrders};

use crate::queues::queue::OnLine;
use crate::queues::turning::turn;
use mqtt_base::Reason;
use mqtt_broker_step::{Step, StepFault};
use mqtt_flow::{FlowFault, Turn, look_puback, look_pubcomp, look_pubrec};
use std::alloc::Global;

/// What came of a receiver's answer.
#[derive(Clone, Copy, Debug, PartialEq, Eq)]
pub enum Answered {
    /// The session took it, or passed it over if no copy has its identifier.
    Taken,
    /// It came in a wrong phase: nothing changed, and the line is to be dropped (4.3, ours).
    Wrong,
}

/// A session that stands does what an answer asks for.
fn take(
    alloc: Global,
    step: &mut Step,
    line: u64,
    birth: u64,
    asked: Result<Option<Turn>, FlowFault>,
) -> Result<Answered, StepFault>
    requires { is_some (session_at birth step.old.broker.records) ≡ true }
    ensures ok { IfOk result (λ answered. Came (asks birth asked) line answered
        step.old step.new) }
    ensures left { (env : Env) (l : Line) → l.number ≡ line → IfErr result (λ fault.
        IsLeft (asks birth asked env l) fault step.old step.new) }
{
    match asked {
        Ok(Some(asked)) => {
            turn(alloc, step, line, birth, asked)?;
            Ok(Answered::Taken)
        }
        Ok(None) => Ok(Answered::Taken),
        Err(_) => Ok(Answered::Wrong),
    }
}

/// A PUBACK that comes on the line of a session ends a sent copy of QoS 1 (4.3.2).
pub fn puback(
    alloc: Global,
    step: &mut Step,
    line: u64,
    birth: u64,
    identifier: u16,
    code: Reason,
) -> Result<Answered, StepFault>
    ensures ok { IfOk result (λ answered. Came (pubacks birth identifier code.0) line answered
        step.old step.new) }
    ensures left { (env : Env) (l : Line) → l.number ≡ line → IfErr result (λ fault.
        IsLeft (pubacks birth identifier code.0 env l) fault step.old step.new) }
{
    let Some(session) = step.session(birth) else {
        return Ok(Answered::Taken);
    };
    let asked = look_puback::<OnLine<'_>>(session.queue.as_slice(), identifier, code);
    take(alloc, step, line, birth, asked)
}

/// A PUBREC that comes on the line of a session releases a sent copy of QoS 2, or ends it (4.3.3).
pub fn pubrec(
    alloc: Global,
    step: &mut Step,
    line: u64,
    birth: u64,
    identifier: u16,
    code: Reason,
) -> Result<Answered, StepFault>
    requires { HasKeptOrders birth step.old.broker.records }
    ensures ok { IfOk result (λ answered. Came (pubrecs birth identifier code.0) line answered
        step.old step.new) }
    ensures left { (env : Env) (l : Line) → l.number ≡ line → IfErr result (λ fault.
        IsLeft (pubrecs birth identifier code.0 env l) fault step.old step.new) }
{
    let Some(session) = step.session(birth) else {
        return Ok(Answered::Taken);
    };
    let asked = look_pubrec::<OnLine<'_>>(session.queue.as_slice(), identifier, code);
    take(alloc, step, line, birth, asked)
}

/// A PUBCOMP that comes on the line of a session ends a released copy (4.3.3).
pub fn pubcomp(
    alloc: Global,
    step: &mut Step,
    line: u64,
    birth: u64,
    identifier: u16,
) -> Result<Answered, StepFault>
    ensures ok { IfOk result (λ answered. Came (pubcomps birth identifier) line answered
        step.old step.new) }
    ensures left { (env : Env) (l : Line) → l.number ≡ line → IfErr result (λ fault.
        IsLeft (pubcomps birth identifier env l) fault step.old step.new) }
{
    let Some(session) = step.session(birth) else {
        return Ok(Answered::Taken);
    };
    let asked = look_pubcomp::<OnLine<'_>>(session.queue.as_slice(), identifier);
    take(alloc, step, line, birth, asked)
}
