//! The copies of a publication are handed over, one after the other (MQTT 5.0, 3.3.4, 4.3, 4.8).
ghost use Rattle.std.specs.Prelude.{◌≡◌, true, map, OnOk, IfErr};
ghost use Rattle.std.specs.List.{AllByRecursion};
ghost use Rattle.mqtt_records.specs.messages.Queue.{IsSpelled};
ghost use Rattle.mqtt_rules.specs.step.Deeds.{always, of_session};
ghost use Rattle.mqtt_rules.specs.step.Outbound.{enter_deeds};
ghost use Rattle.mqtt_rules.specs.step.Routing.{deliver, is_queued, is_queued_at};
ghost use Rattle.mqtt_broker_step.specs.Stepping.{Does, Leaves};
ghost use Rattle.mqtt_broker_queue.specs.queues.Entering.{HasEnteredAt, HasRoomAt};
ghost use Rattle.mqtt_broker_queue.specs.publications.Copies.{copy_for, copies_for};
ghost use Rattle.mqtt_broker_queue.specs.publications.Delivering.{addressed, addressed_all, delivers_all, HasRoomIn, SameSessions};
ghost use Rattle.mqtt_broker_queue.specs.publications.Seats.{AreSeats};
ghost use Rattle.mqtt_broker_queue.specs.publications.Whom.{all_of};

use crate::publications::common::{Common, apart};
use crate::publications::copies::{Addressed, Copies, Whom};
use crate::publications::offering::offer_copy;
use crate::publications::seats::{FEW, Seats};
use crate::queues::enter;
use mqtt_base::Qos;
use mqtt_broker_step::{Step, StepFault};
use mqtt_records::MessageCopy;
use std::alloc::Global;

/// Whether a copy of this quality of service is queued.
fn is_queued(qos: Qos) -> bool
    ensures { result ≡ is_queued_at qos }
{
    match qos {
        Qos::AtMostOnce => false,
        Qos::AtLeastOnce | Qos::ExactlyOnce => true,
    }
}

/// The copy for a session, whose PUBLISH has a spelling, enters the session's queue, which has room for it.
fn enter_copy<T: Addressed>(
    alloc: Global,
    step: &mut Step,
    common: &Common,
    to: &T,
) -> Result<(), StepFault>
    requires spelled { IsSpelled (copy_for common.now (T.addressee to.now)) }
    requires room { HasRoomAt (T.addressee to.now).birth step.old }
    ensures ok { OnOk result (Does (λ env. of_session (T.addressee to.now).birth
        (λ s. always (enter_deeds env (copy_for common.now (T.addressee to.now)) s)))
        step.old step.new) }
    ensures entered { OnOk result (HasEnteredAt (T.addressee to.now).birth step.old step.new) }
    ensures left { IfErr result (λ fault. Leaves (λ env. of_session (T.addressee to.now).birth
        (λ s. always (enter_deeds env (copy_for common.now (T.addressee to.now)) s))) fault
        step.old step.new) }
{
    match common.copy(alloc, to) {
        Ok(copy) => enter(alloc, step, to.birth(), copy),
        Err(error) => Err(StepFault::from(error)),
    }
}

/// The copy for a session, whose PUBLISH has a spelling, enters the session's queue, which has room for it, and if that
/// is full the oldest that wait make way for it; one of QoS 0 goes out at once (4.3), and shares the bytes that were
/// encoded last if they are the same.
fn deliver<T: Addressed>(
    alloc: Global,
    step: &mut Step,
    seats: &mut Seats,
    common: &mut Common,
    to: &T,
) -> Result<(), StepFault>
    requires spelled { IsSpelled (copy_for common.old (T.addressee to.now)) }
    requires room { is_queued (addressed (copy_for common.old (T.addressee to.now))) ≡ true
        → HasRoomAt (T.addressee to.now).birth step.old }
    requires seats { AreSeats seats.old step.old.broker.lines }
    ensures ok { OnOk result (Does (λ env. deliver env
        (addressed (copy_for common.old (T.addressee to.now)))) step.old step.new) }
    ensures entered { OnOk result
        (is_queued (addressed (copy_for common.old (T.addressee to.now))) ≡ true
        → HasEnteredAt (T.addressee to.now).birth step.old step.new) }
    ensures seats { OnOk result (AreSeats seats.new step.new.broker.lines) }
    ensures same { common.new ≡ common.old }
    ensures left { IfErr result (λ fault. Leaves (λ env. deliver env
        (addressed (copy_for common.old (T.addressee to.now)))) fault step.old step.new) }
{
    if is_queued(to.qos()) {
        seats.forget();
        enter_copy(alloc, step, common, to)
    } else {
        offer_copy(alloc, step, seats, common, to)
    }
}

/// The copies for these sessions are handed over in order.
fn deliver_to<T: Addressed>(
    alloc: Global,
    step: &mut Step,
    common: &mut Common,
    all: &[T],
) -> Result<(), StepFault>
    requires spelled { AllByRecursion IsSpelled
        (copies_for common.old (map T.addressee all.now)) }
    requires room { HasRoomIn step.old
        (addressed_all (copies_for common.old (map T.addressee all.now))) }
    ensures ok { OnOk result (Does
        (delivers_all (addressed_all (copies_for common.old (map T.addressee all.now))))
        step.old step.new) }
    ensures sessions { OnOk result (SameSessions step.old.broker.records
        step.new.broker.records) }
    ensures left { IfErr result (λ fault. Leaves
        (delivers_all (addressed_all (copies_for common.old (map T.addressee all.now))))
        fault step.old step.new) }
{
    let mut seats = Seats::for_copies(all.len(), step);
    let mut rest = all;
    while let Some((to, after)) = rest.split_first() {
        deliver(alloc, step, &mut seats, common, to)?;
        rest = after;
    }
    Ok(())
}

/// The copies for all these are handed over in order.
fn deliver_by(
    alloc: Global,
    step: &mut Step,
    common: &mut Common,
    whom: &Whom,
) -> Result<(), StepFault>
    requires spelled { AllByRecursion IsSpelled (copies_for common.old (all_of whom.now)) }
    requires room { HasRoomIn step.old (addressed_all (copies_for common.old (all_of whom.now))) }
    ensures ok { OnOk result (Does
        (delivers_all (addressed_all (copies_for common.old (all_of whom.now)))) step.old step.new) }
    ensures sessions { OnOk result (SameSessions step.old.broker.records
        step.new.broker.records) }
    ensures left { IfErr result (λ fault. Leaves
        (delivers_all (addressed_all (copies_for common.old (all_of whom.now))))
        fault step.old step.new) }
{
    match whom {
        Whom::Routed { routed } => deliver_to(alloc, step, common, routed.direct()),
        Whom::Listed { all } => deliver_to(alloc, step, common, all.as_slice()),
    }
}

/// Room is made at once for what more than a few copies send and tell.
fn make_room(step: &mut Step, count: usize) -> Result<(), StepFault>
    ensures same { step.new ≡ step.old }
    ensures fault { IfErr result (λ fault. fault ≡ StepFault.Memory) }
{
    if count <= FEW {
        return Ok(());
    }
    step.make_room(count)
}

/// The copies for all these are handed over in order, with room for what they send and tell.
fn deliver_in_room(
    alloc: Global,
    step: &mut Step,
    common: &mut Common,
    whom: &Whom,
) -> Result<(), StepFault>
    requires spelled { AllByRecursion IsSpelled (copies_for common.old (all_of whom.now)) }
    requires room { HasRoomIn step.old (addressed_all (copies_for common.old (all_of whom.now))) }
    ensures ok { OnOk result (Does
        (delivers_all (addressed_all (copies_for common.old (all_of whom.now)))) step.old step.new) }
    ensures sessions { OnOk result (SameSessions step.old.broker.records
        step.new.broker.records) }
    ensures left { IfErr result (λ fault. Leaves
        (delivers_all (addressed_all (copies_for common.old (all_of whom.now))))
        fault step.old step.new) }
{
    match make_room(step, whom.count()) {
        Ok(()) => deliver_by(alloc, step, common, whom),
        Err(fault) => Err(fault),
    }
}

/// The copies of a publication, whose PUBLISH have spellings, are handed over in order. Each queue has room for those
/// that are to enter it, and if it is full the oldest that wait make way. Those of QoS 0 that say the same share one
/// encoding.
pub(crate) fn deliver_copies(
    alloc: Global,
    step: &mut Step,
    copies: Copies,
) -> Result<(), StepFault>
    requires spelled { AllByRecursion IsSpelled copies }
    requires room { HasRoomIn step.old (addressed_all copies) }
    ensures ok { OnOk result (Does (delivers_all (addressed_all copies)) step.old step.new) }
    ensures sessions { OnOk result (SameSessions step.old.broker.records
        step.new.broker.records) }
    ensures left { IfErr result (λ fault. Leaves
        (delivers_all (addressed_all copies)) fault step.old step.new) }
{
    let Copies { mut common, whom } = copies;
    let done = deliver_in_room(alloc, step, &mut common, &whom);
    drop(common);
    drop(whom);
    done
}

/// A copy that is alone is handed over.
fn deliver_one(alloc: Global, step: &mut Step, copy: MessageCopy) -> Result<(), StepFault>
    requires spelled { IsSpelled copy }
    requires room { is_queued (addressed copy) ≡ true → HasRoomAt copy.id.birth step.old }
    ensures ok { OnOk result (Does (λ env. deliver env (addressed copy)) step.old step.new) }
    ensures entered { OnOk result (is_queued (addressed copy) ≡ true
        → HasEnteredAt copy.id.birth step.old step.new) }
    ensures left { IfErr result (λ fault. Leaves
        (λ env. deliver env (addressed copy)) fault step.old step.new) }
{
    let (mut common, to) = apart(alloc, copy);
    let mut seats = Seats::unknown();
    let done = deliver(alloc, step, &mut seats, &mut common, &to);
    drop(common);
    drop(to);
    done
}

/// Copies, whose PUBLISH have spellings, are handed over in order. Each queue has room for those that are
/// to enter it, and if it is full the oldest that wait make way.
pub fn deliver_all(
    alloc: Global,
    step: &mut Step,
    copies: Vec<MessageCopy>,
) -> Result<(), StepFault>
    requires spelled { AllByRecursion IsSpelled copies.items }
    requires room { HasRoomIn step.old (addressed_all copies.items) }
    ensures ok { OnOk result (Does (delivers_all (addressed_all copies.items))
        step.old step.new) }
    ensures sessions { OnOk result (SameSessions step.old.broker.records
        step.new.broker.records) }
    ensures left { IfErr result (λ fault. Leaves
        (delivers_all (addressed_all copies.items)) fault step.old step.new) }
{
    for copy in copies {
        deliver_one(alloc, step, copy)?;
    }
    Ok(())
}
