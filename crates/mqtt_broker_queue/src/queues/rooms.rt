//! For how many copies a session's queue has room (MQTT 5.0, 4.9; ours).
ghost use Rattle.std.specs.Prelude.{◌≡◌, not};
ghost use Rattle.std.specs.List.{count_by};
ghost use Rattle.mqtt_flow.specs.outbound.Outbound.{is_waiting};
ghost use Rattle.mqtt_rules.specs.step.State.{MemberChoice};
ghost use Rattle.mqtt_rules.specs.step.Outbound.{room};
ghost use Rattle.mqtt_broker_step.specs.Stepping.{env_in};
ghost use Rattle.mqtt_broker_queue.specs.queues.Entering.{gives_way_to, staying_of};

use crate::queues::entering::{beginning, first_new};
use mqtt_base::Phase;
use mqtt_broker_step::Step;
use mqtt_flow::Full;
use mqtt_records::{Boxed, CopyRow, Session};

/// Whether a copy is still to be sent for the first time.
fn is_waiting(phase: Phase) -> bool
    ensures { result ≡ is_waiting phase }
{
    match phase {
        Phase::Waiting => true,
        Phase::Sent { .. } | Phase::Released { .. } | Phase::Oversize { .. } => false,
    }
}

/// Whether a copy gives way to those that a step makes, the first of which has a place.
fn gives_way(row: &CopyRow, first: Option<u64>) -> bool
    ensures { result ≡ gives_way_to first row.now }
{
    match first {
        Some(first) => is_waiting(row.phase()) && row.place() < first,
        None => is_waiting(row.phase()),
    }
}

/// How many copies give way to none.
fn staying(queue: &[Boxed<CopyRow>], first: Option<u64>) -> usize
    ensures { result ≡ count_by (λ e. not (gives_way_to first e)) queue.now }
{
    let mut count: usize = 0;
    for row in queue {
        if !gives_way(row.get(), first) {
            count += 1;
        }
    }
    count
}

/// How many copies a further one leaves standing in any case.
fn staying_in(step: &Step, session: &Session) -> usize
    ensures { result ≡ staying_of step.now session.now }
{
    let queue = session.queue.as_slice();
    match step.limits().full {
        Full::Refuse => queue.len(),
        Full::Drop => staying(queue, first_new(beginning(step), queue)),
    }
}

/// For how many copies a session's queue has room; those that may make way don't count. Takes no memory.
pub fn room(step: &Step, session: &Session) -> u32
    ensures { (choice : MemberChoice) → result ≡ room (env_in choice step.now) session.now }
{
    let limit = step.limits().queue as usize;
    limit.saturating_sub(staying_in(step, session)) as u32
}
