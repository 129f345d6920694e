//! What a resumed session sends again first (MQTT 5.0, 4.4).
ghost use Rattle.std.specs.Prelude.{◌≡◌, [], Some, IfOk, IfErr};
ghost use Rattle.mqtt_flow.specs.outbound.Outbound.{resumed_with};
ghost use Rattle.mqtt_records.specs.declared.state.session.Session.{Session as TheSession};
ghost use Rattle.mqtt_rules.specs.step.State.{queue_on, session_at};

use crate::queues::queue::OnLine;
use mqtt_broker_step::{Step, StepFault};
use mqtt_flow::{Turn, look_resume};
use std::alloc::Global;

/// The turns with which the resumption of a session begins: a PUBREL for each released copy, in the order of
/// release (4.4).
pub fn repeats_of(alloc: Global, step: &Step, birth: u64) -> Result<Vec<Turn>, StepFault>
    ensures turns { (s : TheSession) → session_at birth step.now.broker.records ≡ Some s
        → IfOk result (λ turns. turns.items ≡ resumed_with (queue_on [] s)) }
    ensures fault { IfErr result (λ fault. fault ≡ StepFault.Memory) }
{
    let Some(session) = step.session(birth) else {
        return Ok(Vec::new(alloc));
    };
    match look_resume::<OnLine<'_>>(alloc, session.queue.as_slice()) {
        Ok(turns) => Ok(turns),
        Err(_) => Err(StepFault::Memory),
    }
}
