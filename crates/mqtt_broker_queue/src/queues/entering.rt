//! A copy enters a session's queue, and the oldest that wait make way for it (MQTT 5.0, 4.6, ours).
ghost use Rattle.std.specs.Prelude.{◌≡◌, ◌<◌, suc, [], map, find, option_map, IfOk, IfSome, IfErr, OnOk, Some};
ghost use Rattle.mqtt_records.specs.messages.Queue.{IsSpelled};
ghost use Rattle.mqtt_flow.specs.outbound.Outbound.{way_made};
ghost use Rattle.mqtt_records.specs.declared.state.records.Records.{Records};
ghost use Rattle.mqtt_records.specs.declared.state.session.Session.{Session};
ghost use Rattle.mqtt_records.specs.state.Session.{copy_place};
ghost use Rattle.mqtt_routes.specs.routing.Intended.{greatest};
ghost use Rattle.mqtt_records.specs.lists.Order.{IsTable};
ghost use Rattle.mqtt_rules.proofs.step_lemmas.fit.Turns.{Rises};
ghost use Rattle.mqtt_rules.specs.step.Deeds.{always, of_session};
ghost use Rattle.mqtt_rules.specs.step.Outbound.{enter_deeds, is_new, queue_limits, room, since};
ghost use Rattle.mqtt_rules.specs.step.State.{Env, MemberChoice, queue_on, session_at};
ghost use Rattle.mqtt_broker_step.specs.Stepping.{Does, Leaves, env_in};
ghost use Rattle.mqtt_broker_queue.specs.queues.Entering.{HasEnteredAt, HasRoomAt, IsBegun, makes_way};

use crate::queues::queue::OnLine;
use crate::queues::turns::take_turns;
use mqtt_base::QUEUE_LIMIT;
use mqtt_broker_looks::decided::is_new_id;
use mqtt_broker_step::{Step, StepFault};
use mqtt_flow::{FlowFault, QueueLimits, Turn, look_enter};
use mqtt_records::{Boxed, CopyRow, MessageCopy, Session};
use std::alloc::Global;

/// No line has this number: of turns that only leave, nothing goes out.
const NO_LINE: u64 = 0;

/// The numbers that a step began with, as far as entering asks for them.
#[derive(Clone, Copy)]
pub(crate) struct Began {
    publications: u64,
    subscribes: u64,
}

/// The numbers that a step began with.
pub(crate) fn beginning(step: &Step) -> Began
    ensures { IsBegun result step.now.start.records }
{
    Began {
        publications: step.publications_before(),
        subscribes: step.subscribes_before(),
    }
}

/// Whether a copy was made in the step.
fn is_new_row(began: Began, row: &CopyRow) -> bool
    ensures { (start : Records) → IsBegun began start → result ≡ is_new start row.now.copy }
{
    is_new_id(began.publications, began.subscribes, row.id())
}

/// The place of the first copy that was made in the step.
pub(crate) fn first_new(began: Began, rows: &[Boxed<CopyRow>]) -> Option<u64>
    ensures { (start : Records) → IsBegun began start
        → result ≡ option_map copy_place (find (λ e. is_new start e.copy) rows.now) }
{
    for row in rows {
        let row = row.get();
        if is_new_row(began, row) {
            return Some(row.place());
        }
    }
    None
}

/// The greatest place in a session's queue; 0 if it is empty.
fn last_place(session: &Session) -> u64
    ensures { result ≡ greatest (map copy_place session.now.queue) }
{
    session.queue.as_slice();
    match session.queue.last() {
        Some(row) => row.get().place(),
        None => 0,
    }
}

/// The place above the greatest in a session's queue; none above 2^64 - 1, which no copy has.
fn next_place(session: &Session) -> Option<u64>
    ensures { IfSome result (λ place. place ≡ suc (greatest (map copy_place session.now.queue))) }
{
    last_place(session).checked_add(1)
}

/// The first place of a session's queue that was given in the step, or that is given next.
fn since(began: Began, session: &Session) -> Option<u64>
    ensures { (env : Env) → IsBegun began env.start
        → IfSome result (λ place. place ≡ since env session.now) }
{
    match first_new(began, session.queue.as_slice()) {
        Some(place) => Some(place),
        None => next_place(session),
    }
}

/// A look was refused for want of memory.
fn of_memory(fault: FlowFault) -> StepFault
    requires { fault ≡ FlowFault.Memory }
    ensures { result ≡ StepFault.Memory }
{
    match fault {
        FlowFault::Memory => StepFault::Memory,
        FlowFault::Full => unreachable!(),
        FlowFault::WrongStep => unreachable!(),
    }
}

/// The turns by which a session's queue makes way for a copy, if it has room for one: none below its limit, if no
/// copy is looked at.
fn way_turns(alloc: Global, step: &Step, session: &Session) -> Result<Vec<Turn>, StepFault>
    requires { (choice : MemberChoice) → 0 < room (env_in choice step.now) session.now }
    ensures turns { (choice : MemberChoice) → IfOk result (λ turns. turns.items
        ≡ way_made (queue_limits (env_in choice step.now))
        (since (env_in choice step.now) session.now) (queue_on [] session.now)) }
    ensures rise { IfOk result (λ turns. Rises session.now.queue 0 turns.items) }
    ensures table { OnOk result (IsTable copy_place QUEUE_LIMIT session.now.queue) }
    ensures fault { IfErr result (λ fault. fault ≡ StepFault.Memory) }
{
    let sizes = step.limits();
    let queue = session.queue.as_slice();
    if queue.len() < sizes.queue as usize {
        return Ok(Vec::new(alloc));
    }
    let Some(since) = since(beginning(step), session) else {
        return Err(StepFault::Memory);
    };
    let limits = QueueLimits {
        queue: sizes.queue as usize,
        full: sizes.full,
    };
    match look_enter::<OnLine<'_>>(alloc, limits, since, queue) {
        Ok(turns) => Ok(turns),
        Err(fault) => Err(of_memory(fault)),
    }
}

/// The oldest copies that wait make way in a session's queue, which has room for a copy.
fn make_way(alloc: Global, step: &mut Step, birth: u64) -> Result<(), StepFault>
    requires { HasRoomAt birth step.old }
    ensures ok { OnOk result (Does (λ env. makes_way env birth) step.old step.new) }
    ensures table { OnOk result ((s : Session) → session_at birth step.old.broker.records ≡ Some s
        → IsTable copy_place QUEUE_LIMIT s.queue) }
    ensures left { IfErr result (λ fault. Leaves (λ env. makes_way env birth) fault
        step.old step.new) }
{
    let Some(session) = step.session(birth) else {
        return Ok(());
    };
    let turns = way_turns(alloc, step, session)?;
    take_turns(alloc, step, NO_LINE, birth, turns)
}

/// A copy, whose PUBLISH has a spelling, enters a session's queue, which has room for it, and if that is full
/// the oldest that wait make way for it (4.6, ours). A queue whose last place is 2^64 - 1 refuses it as for want of
/// memory; no step gives a place above 2^62.
pub fn enter(alloc: Global, step: &mut Step, birth: u64, copy: MessageCopy) -> Result<(), StepFault>
    requires spelled { IsSpelled copy }
    requires room { HasRoomAt birth step.old }
    ensures ok { OnOk result (Does
        (λ env. of_session birth (λ s. always (enter_deeds env copy s))) step.old step.new) }
    ensures entered { OnOk result (HasEnteredAt birth step.old step.new) }
    ensures left { IfErr result (λ fault. Leaves
        (λ env. of_session birth (λ s. always (enter_deeds env copy s))) fault
        step.old step.new) }
{
    match make_way(alloc, step, birth) {
        Ok(()) => step.enter(birth, copy),
        Err(fault) => {
            drop(copy);
            Err(fault)
        }
    }
}
