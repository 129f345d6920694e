//! Copies that expire (MQTT 5.0, 3.3.2.3.3).
ghost use Rattle.std.specs.Prelude.{◌≡◌, [], IfOk, OnOk, IfErr};
ghost use Rattle.mqtt_flow.specs.outbound.Outbound.{expired};
ghost use Rattle.mqtt_rules.proofs.step_lemmas.fit.Turns.{Rises};
ghost use Rattle.mqtt_rules.specs.step.State.{queue_on};
ghost use Rattle.mqtt_broker_step.specs.Stepping.{Did, IsLeft};
ghost use Rattle.mqtt_broker_queue.specs.queues.Turning.{lapses_of};

use crate::queues::queue::OnLine;
use crate::queues::turns::take_turns;
use mqtt_broker_step::{Step, StepFault};
use mqtt_flow::{Turn, look_expire};
use mqtt_records::Session;
use std::alloc::Global;

/// No line has this number: of turns that only leave, nothing goes out.
const NO_LINE: u64 = 0;

/// The turns by which copies of a session that wait and are late at a moment leave.
fn lapse_turns(alloc: Global, session: &Session, now: u64) -> Result<Vec<Turn>, StepFault>
    ensures turns { IfOk result (λ turns. turns.items ≡ expired now (queue_on [] session.now)) }
    ensures rise { IfOk result (λ turns. Rises session.now.queue 0 turns.items) }
    ensures fault { IfErr result (λ fault. fault ≡ StepFault.Memory) }
{
    match look_expire::<OnLine<'_>>(alloc, now, session.queue.as_slice()) {
        Ok(turns) => Ok(turns),
        Err(_) => Err(StepFault::Memory),
    }
}

/// The copies of a session that wait and have expired leave its queue (3.3.2.3.3).
pub fn expire(alloc: Global, step: &mut Step, birth: u64) -> Result<(), StepFault>
    ensures ok { OnOk result (Did (lapses_of birth) step.old step.new) }
    ensures left { IfErr result (λ fault. IsLeft (lapses_of birth) fault step.old step.new) }
{
    let Some(session) = step.session(birth) else {
        return Ok(());
    };
    let turns = lapse_turns(alloc, session, step.moment())?;
    take_turns(alloc, step, NO_LINE, birth, turns)
}
