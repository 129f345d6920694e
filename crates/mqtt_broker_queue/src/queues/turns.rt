//! Turns of a session, one after the other (MQTT 5.0, 4.6, 4.9).
ghost use Rattle.std.specs.Prelude.{◌≡◌, Some, OnOk, IfErr};
ghost use Rattle.mqtt_records.specs.declared.state.session.Session.{Session};
ghost use Rattle.mqtt_rules.proofs.step_lemmas.fit.Turns.{Rises};
ghost use Rattle.mqtt_rules.specs.step.State.{session_at};
ghost use Rattle.mqtt_broker_step.specs.Stepping.{Did, IsLeft};
ghost use Rattle.mqtt_broker_queue.specs.queues.Turning.{takes_turns};

use crate::queues::turning::turn;
use mqtt_broker_step::{Step, StepFault};
use mqtt_flow::Turn;
use std::alloc::Global;

/// A session that is connected on a line takes turns, if it stands. They were made for it as it stands before
/// the first: in the order of its queue, one at most for a copy.
pub fn take_turns(
    alloc: Global,
    step: &mut Step,
    line: u64,
    birth: u64,
    turns: Vec<Turn>,
) -> Result<(), StepFault>
    requires { (s : Session) → session_at birth step.old.broker.records ≡ Some s
        → Rises s.queue 0 turns.items }
    ensures ok { OnOk result (Did (takes_turns line birth turns.items) step.old step.new) }
    ensures left { IfErr result (λ fault. IsLeft (takes_turns line birth turns.items) fault
        step.old step.new) }
{
    for taken in turns {
        turn(alloc, step, line, birth, taken)?;
    }
    Ok(())
}
