//! What a session sends on its connection (4.3, 4.4, 4.6, 4.9).

ghost use Rattle.std.specs.Prelude.{◌≡◌, ◌+◌, ◌≤◌, ◌<◌, ◌^◌, ◌++◌, [], ◌∷◌, length, map, IfOk, IfErr, OnOk, OnErr};
ghost use Rattle.mqtt_flow.specs.outbound.Outbound.{first_step, in_room, later_step, pace_known, paced, pump_from, pump_step};

use crate::inbound::{FlowFault, lowest_free};
use crate::outbound::entry::{Turn, Way};
use crate::outbound::in_use::{free, push_identifiers};
use crate::outbound::plan::{is_large, is_late};
use crate::outbound::row::QueueView;
use mqtt_base::{Ending, PUMP_LIMIT, Phase, Qos};
use std::alloc::Global;
use std::marker::Model;

/// What a pump has left.
#[derive(Drop)]
pub(crate) struct Pace {
    /// PUBLISH that may go out.
    left: u16,
    /// PUBLISH for which the window has room.
    room: usize,
    /// The identifiers in use.
    used: Vec<u16>,
    /// The next order of release.
    order: u64,
}

impl Model for Pace {
    ghost use Rattle.mqtt_flow.specs.outbound.Pacing.{Pacing};

    ghost Value = { Pacing };

    ghost view = { λ a. record { left = a.left; room = a.room; used = a.used.items; order = a.order } };
}

/// What a pump does at an entry.
#[derive(Clone, Copy)]
enum Step {
    /// It goes no further.
    Stop,
    /// It passes on.
    GoOn,
    /// It takes a turn.
    Take(Turn),
}

/// A turn that sends a PUBLISH, if the window has room for it (4.9).
fn in_room(pace: &Pace, turn: Turn) -> Step
    ensures { result ≡ in_room pace.now.room turn }
{
    if pace.room == 0 {
        Step::Stop
    } else {
        Step::Take(turn)
    }
}

/// A turn for a copy that waits (4.3).
fn first_time<V: QueueView>(
    alloc: Global,
    way: Way,
    pace: &Pace,
    view: &V,
    row: &V::Row,
) -> Result<Step, FlowFault>
    requires { length pace.now.used < 65534 }
    ensures step { IfOk result (λ step. step ≡ first_step way (V.entry view.now row.now) pace.now) }
    ensures fault { IfErr result (λ fault. fault ≡ FlowFault.Memory) }
{
    let place = V::place(row);
    if is_late::<V>(way.now, row) {
        return Ok(Step::Take(Turn::Leave {
            place,
            ending: Ending::Expired,
        }));
    }
    if is_large(way, view, row) {
        return Ok(Step::Take(Turn::Leave {
            place,
            ending: Ending::TooLarge,
        }));
    }
    if pace.room > 0 {
        let identifier = lowest_free(alloc, &pace.used)?;
        return Ok(Step::Take(Turn::Send { place, identifier }));
    }
    Ok(Step::Stop)
}

/// A turn for a copy that was sent (4.4).
fn once_more<V: QueueView>(way: Way, pace: &Pace, view: &V, row: &V::Row, identifier: u16) -> Step
    ensures { result ≡ later_step way identifier (V.entry view.now row.now) pace.now }
{
    let place = V::place(row);
    if view.here(row) {
        return Step::GoOn;
    }
    if !is_large(way, view, row) {
        return in_room(pace, Turn::Resend { place, identifier });
    }
    match V::qos(row) {
        Qos::AtMostOnce | Qos::AtLeastOnce => Step::Take(Turn::Leave {
            place,
            ending: Ending::TooLarge,
        }),
        Qos::ExactlyOnce => Step::Take(Turn::Outgrow {
            place,
            identifier,
            order: pace.order,
        }),
    }
}

/// What a pump does at a row.
fn step_at<V: QueueView>(
    alloc: Global,
    way: Way,
    pace: &Pace,
    view: &V,
    row: &V::Row,
) -> Result<Step, FlowFault>
    requires { length pace.now.used < 65534 }
    ensures step { IfOk result (λ step. step ≡ pump_step way pace.now (V.entry view.now row.now)) }
    ensures fault { IfErr result (λ fault. fault ≡ FlowFault.Memory) }
{
    if pace.left == 0 {
        return Ok(Step::Stop);
    }
    match V::phase(row) {
        Phase::Waiting => first_time(alloc, way, pace, view, row),
        Phase::Sent { identifier } => Ok(once_more(way, pace, view, row, identifier)),
        Phase::Released { .. } | Phase::Oversize { .. } => Ok(Step::GoOn),
    }
}

/// Counts a turn for a copy of a phase.
fn count(pace: &mut Pace, turn: Turn, phase: Phase) -> Result<(), FlowFault>
    requires { pace.old.order + 1 < 2 ^ 64 }
    ensures ok { OnOk result (pace.new ≡ paced turn phase pace.old) }
    ensures used { OnOk result (length pace.new.used ≤ length pace.old.used + 1) }
    ensures order { OnOk result (pace.new.order ≤ pace.old.order + 1) }
    ensures fault { IfErr result (λ fault. fault ≡ FlowFault.Memory) }
{
    match turn {
        Turn::Send { identifier, .. } => {
            pace.used.push(identifier).map_err(|_| FlowFault::Memory)?;
            pace.left = pace.left.saturating_sub(1);
            pace.room = pace.room.saturating_sub(1);
        }
        Turn::Resend { .. } => {
            pace.left = pace.left.saturating_sub(1);
            pace.room = pace.room.saturating_sub(1);
        }
        Turn::Release { .. } | Turn::Outgrow { .. } => pace.order += 1,
        Turn::Leave { .. } => free(&mut pace.used, phase),
        Turn::Repeat { .. } | Turn::Unknown { .. } => {}
    }
    Ok(())
}

/// Takes a turn, for a copy of a phase.
fn take(turns: &mut Vec<Turn>, pace: &mut Pace, turn: Turn, phase: Phase) -> Result<(), FlowFault>
    requires { pace.old.order + 1 < 2 ^ 64 }
    ensures turns { OnOk result (turns.new.items ≡ turns.old.items ++ turn ∷ []) }
    ensures pace { OnOk result (pace.new ≡ paced turn phase pace.old) }
    ensures used { OnOk result (length pace.new.used ≤ length pace.old.used + 1) }
    ensures order { OnOk result (pace.new.order ≤ pace.old.order + 1) }
    ensures fault { IfErr result (λ fault. fault ≡ FlowFault.Memory) }
{
    turns.push(turn).map_err(|_| FlowFault::Memory)?;
    count(pace, turn, phase)
}

/// What a pump may do before its first step, if this much of the window is filled and this is the greatest order.
pub(crate) fn first_pace<V: QueueView>(
    alloc: Global,
    way: Way,
    rows: &[V::Row],
    window: usize,
    order: u64,
) -> Result<Pace, FlowFault>
    requires { order < 2 ^ 63 }
    ensures exact { (view : V) → IfOk result (λ p. p ≡ pace_known way window order (map (V.entry view) rows.now)) }
    ensures fault { IfErr result (λ fault. fault ≡ FlowFault.Memory) }
{
    let mut used = Vec::new(alloc);
    push_identifiers::<V>(&mut used, rows)?;
    Ok(Pace {
        left: PUMP_LIMIT,
        room: usize::from(way.window).saturating_sub(window),
        used,
        order: order + 1,
    })
}

/// Adds the turns of a pump from these rows on: resends and first sends in the order of the queue, as far as the window
/// and the limit of `PUMP_LIMIT` go (4.6, 4.9).
pub(crate) fn push_pumped<V: QueueView>(
    alloc: Global,
    turns: &mut Vec<Turn>,
    pace: &mut Pace,
    way: Way,
    view: &V,
    rows: &[V::Row],
) -> Result<(), FlowFault>
    requires orders { pace.old.order + length rows.now < 2 ^ 64 }
    requires few { length pace.old.used + length rows.now < 65534 }
    ensures turns { OnOk result (turns.new.items ≡ turns.old.items ++ pump_from way (map (V.entry view.now) rows.now) pace.old) }
    ensures fault { IfErr result (λ fault. fault ≡ FlowFault.Memory) }
{
    for row in rows {
        match step_at(alloc, way, pace, view, row)? {
            Step::Stop => return Ok(()),
            Step::GoOn => {}
            Step::Take(turn) => take(turns, pace, turn, V::phase(row))?,
        }
    }
    Ok(())
}
