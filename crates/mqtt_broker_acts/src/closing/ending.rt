//! A session ends: each of its copies, then all that it has (MQTT 5.0, 4.1).
ghost use Rattle.std.specs.Prelude.{◌≡◌, length, slice_get, option_copied, OnOk, IfErr};
ghost use Rattle.mqtt_records.specs.lists.Order.{IsAscending};
ghost use Rattle.mqtt_records.specs.state.Session.{copy_place};
ghost use Rattle.mqtt_broker_step.specs.Stepping.{Did, IsLeft};
ghost use Rattle.mqtt_broker_acts.specs.closing.Ending.{ends, ends_first, finishes, queue_at};

use mqtt_base::Ending;
use mqtt_broker_step::{Step, StepFault};

/// How many copies a session's queue has; 0 if none stands.
fn copies(step: &Step, birth: u64) -> usize
    ensures exact { result ≡ length (queue_at birth step.now.broker.records) }
    ensures order { IsAscending copy_place (queue_at birth step.now.broker.records) }
{
    match step.session(birth) {
        Some(session) => {
            session.queue.as_slice();
            session.queue.len()
        }
        None => 0,
    }
}

/// The first copy of a session's queue leaves it, as the session ends (4.1).
fn leave_first(step: &mut Step, birth: u64) -> Result<(), StepFault>
    ensures ok { OnOk result (Did (ends_first birth) step.old step.new) }
    ensures left { IfErr result (λ fault. IsLeft (ends_first birth) fault step.old step.new) }
{
    let Some(session) = step.session(birth) else {
        return Ok(());
    };
    let Some(row) = session.queue.at(0) else {
        return Ok(());
    };
    let place = row.get().place();
    step.leave(birth, place, Ending::SessionEnded)
}

/// All that a session has is gone (4.1).
fn finish(step: &mut Step, birth: u64) -> Result<(), StepFault>
    ensures ok { OnOk result (Did (finishes birth) step.old step.new) }
    ensures left { IfErr result (λ fault. IsLeft (finishes birth) fault step.old step.new) }
{
    match step.session(birth) {
        Some(_) => step.finish(birth),
        None => Ok(()),
    }
}

/// A session ends, if it stands: each of its copies does, in order, then all that it has is gone (4.1).
pub fn end_session(step: &mut Step, birth: u64) -> Result<(), StepFault>
    ensures ok { OnOk result (Did (ends birth) step.old step.new) }
    ensures left { IfErr result (λ fault. IsLeft (ends birth) fault step.old step.new) }
{
    let mut left = copies(step, birth);
    while left > 0 {
        leave_first(step, birth)?;
        left -= 1;
    }
    finish(step, birth)
}
