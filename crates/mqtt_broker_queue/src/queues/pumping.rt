//! A turn of sending: what a line lets through of its session's queue (MQTT 5.0, 4.6, 4.9).
ghost use Rattle.std.specs.Prelude.{◌≡◌, count_by, IfOk, OnOk, IfErr};
ghost use Rattle.mqtt_rules.specs.step.Step.{Pump, is_again};
ghost use Rattle.mqtt_broker_step.specs.Stepping.{Did, IsLeft};
ghost use Rattle.mqtt_broker_queue.specs.queues.Turning.{is_sending, line_turns, pumps};

use crate::queues::turns::take_turns;
use mqtt_base::PUMP_LIMIT;
use mqtt_broker_step::{Step, StepFault};
use mqtt_flow::Turn;
use std::alloc::Global;

/// Whether a PUBLISH goes out in a turn.
fn is_sending(turn: Turn) -> bool
    ensures { result ≡ is_sending turn }
{
    match turn {
        Turn::Send { .. } | Turn::Resend { .. } => true,
        Turn::Release { .. }
        | Turn::Outgrow { .. }
        | Turn::Repeat { .. }
        | Turn::Unknown { .. }
        | Turn::Leave { .. } => false,
    }
}

/// How many PUBLISH go out in turns.
fn sendings(turns: &[Turn]) -> usize
    ensures { result ≡ count_by is_sending turns.now }
{
    let mut count = 0;
    for turn in turns {
        if is_sending(*turn) {
            count += 1;
        }
    }
    count
}

/// A turn of sending on a line, by the turns that a pump takes there, which were looked up before it: resends and first
/// sends in the order of its session's queue, as far as the client's window and `PUMP_LIMIT` go (4.6, 4.9). Answers
/// whether there may be more: `PUMP_LIMIT` PUBLISH went out.
pub fn send_turns(
    alloc: Global,
    step: &mut Step,
    line: u64,
    turns: Vec<Turn>,
) -> Result<bool, StepFault>
    requires { turns.items ≡ line_turns line step.old.broker }
    ensures again { IfOk result (λ again. again
        ≡ is_again (Pump line) (pumps line step.old.broker)) }
    ensures ok { OnOk result (Did (pumps line) step.old step.new) }
    ensures left { IfErr result (λ fault. IsLeft (pumps line) fault step.old step.new) }
{
    let Some(state) = step.line(line) else {
        return Ok(false);
    };
    let Some(birth) = state.session() else {
        return Ok(false);
    };
    let Some(session) = step.session(birth) else {
        return Ok(false);
    };
    // This shows that its copies stand in order.
    let _rows = session.queue.as_slice();
    let again = sendings(&turns) == usize::from(PUMP_LIMIT);
    take_turns(alloc, step, line, birth, turns)?;
    Ok(again)
}
