//! What a pump will take, looked up before it, so that what the copies say that it sends can be read (MQTT 5.0, 3.3, 4.6).
ghost use Rattle.std.specs.Prelude.{◌≡◌, ◌≤◌, ℕ, [], filter_map, IfOk, IfErr};
ghost use Rattle.mqtt_flow.specs.outbound.Queue.{greatest_order};
ghost use Rattle.mqtt_rules.specs.step.Fitting.{pump_turns};
ghost use Rattle.mqtt_rules.specs.step.State.{queue_on};
ghost use Rattle.mqtt_rules.specs.step.Step.{at_moment};
ghost use Rattle.mqtt_rules.specs.filling.Pumped.{place_sent};
ghost use Rattle.mqtt_broker_step.specs.Undoing.{with_moment_of};
ghost use Rattle.mqtt_broker_queue.specs.queues.Queues.{HasKeptOrders};
ghost use Rattle.mqtt_broker_queue.specs.queues.Turning.{line_turns};

use crate::queues::fitting::fitting_sizes;
use crate::queues::queue::OnLine;
use mqtt_base::LAST_NUMBER;
use mqtt_broker_step::{LineState, Step, StepFault};
use mqtt_flow::{Turn, Way, look_pump};
use mqtt_records::Session;
use std::alloc::Global;

/// The place of the copy whose PUBLISH a turn sends.
fn place_sent(turn: Turn) -> Option<u64>
    ensures { result ≡ place_sent turn }
{
    match turn {
        Turn::Send { place, .. } | Turn::Resend { place, .. } => Some(place),
        Turn::Release { .. }
        | Turn::Outgrow { .. }
        | Turn::Repeat { .. }
        | Turn::Unknown { .. }
        | Turn::Leave { .. } => None,
    }
}

/// The places of the copies whose PUBLISH goes out in turns, in order.
pub fn places_in(alloc: Global, turns: &[Turn]) -> Result<Vec<u64>, StepFault>
    ensures places { IfOk result (λ places. places.items ≡ filter_map place_sent turns.now) }
    ensures fault { IfErr result (λ fault. fault ≡ StepFault.Memory) }
{
    let mut places = Vec::new(alloc);
    for turn in turns {
        match place_sent(*turn) {
            Some(place) => places.push(place)?,
            None => {}
        }
    }
    Ok(places)
}

/// The turns of one pump of a session that is connected on a line, at a moment.
fn pump_turns(
    alloc: Global,
    step: &Step,
    state: &LineState,
    session: &Session,
    now: u64,
) -> Result<Vec<Turn>, StepFault>
    requires { greatest_order (queue_on [] session.now) ≤ LAST_NUMBER }
    ensures turns { IfOk result (λ turns. turns.items
        ≡ pump_turns state.now (with_moment_of now step.now.broker) session.now) }
    ensures fault { IfErr result (λ fault. fault ≡ StepFault.Memory) }
{
    let rows = session.queue.as_slice();
    let way = Way {
        window: state.window(),
        largest: state.largest(),
        now,
    };
    let sizes = fitting_sizes(alloc, step, state, now, rows)?;
    let view = OnLine {
        went: state.went(),
        sizes: &sizes,
    };
    match look_pump(alloc, way, &view, rows) {
        Ok(turns) => Ok(turns),
        Err(_) => Err(StepFault::Memory),
    }
}

/// The moment of a step that begins at this one.
fn moment_at(step: &Step, moment: u64) -> u64
    ensures { with_moment_of result step.now.broker ≡ at_moment moment step.now.broker }
{
    step.moment().max(moment.min(LAST_NUMBER))
}

/// The turns that a pump on a line takes if it begins at a moment, in the order of its session's queue; `PUMP_LIMIT`
/// of them send a PUBLISH at most. Nothing changes.
pub fn turns_at(alloc: Global, step: &Step, line: u64, moment: u64) -> Result<Vec<Turn>, StepFault>
    requires { (birth : ℕ) → HasKeptOrders birth step.now.broker.records }
    ensures turns { IfOk result (λ turns. turns.items
        ≡ line_turns line (at_moment moment step.now.broker)) }
    ensures fault { IfErr result (λ fault. fault ≡ StepFault.Memory) }
{
    let Some(state) = step.line(line) else {
        return Ok(Vec::new(alloc));
    };
    let Some(birth) = state.session() else {
        return Ok(Vec::new(alloc));
    };
    let Some(session) = step.session(birth) else {
        return Ok(Vec::new(alloc));
    };
    pump_turns(alloc, step, state, session, moment_at(step, moment))
}
