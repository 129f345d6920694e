//! A copy of QoS 0 goes out at once (MQTT 5.0, 3.1.2.11.4, 4.3.1).
ghost use Rattle.std.specs.Prelude.{◌≡◌, Some, OnOk, IfErr};
ghost use Rattle.mqtt_packet.specs.declared.codec.packet.Packet.{Packet};
ghost use Rattle.mqtt_packet.specs.declared.codec.packet.Packet.TheVariants as packets;
ghost use Rattle.mqtt_packet.specs.declared.codec.publish.Publish.{Publish};
ghost use Rattle.mqtt_packet.specs.codec.Packets.{shortest_of};
ghost use Rattle.mqtt_records.specs.messages.Queue.{IsSpelled};
ghost use Rattle.mqtt_rules.specs.step.Deeds.{always, offer};
ghost use Rattle.mqtt_rules.specs.step.State.{Line};
ghost use Rattle.mqtt_topic.specs.declared.sending.form.Form.TheVariants.{Plain};
ghost use Rattle.mqtt_broker_step.specs.Stepping.{Did, IsLeft};
ghost use Rattle.mqtt_broker_step.specs.Tellings.{form_on};
ghost use Rattle.mqtt_broker_queue.specs.queues.Fitting.{offers as offers_on};
ghost use Rattle.mqtt_broker_queue.specs.publications.Copies.{copy_for};
ghost use Rattle.mqtt_broker_queue.specs.publications.Delivering.{offers};
ghost use Rattle.mqtt_broker_queue.specs.publications.Seats.{AreSeats};

use crate::publications::common::Common;
use crate::publications::copies::Addressed;
use crate::publications::seats::Seats;
use crate::queues::offer_publish;
use bytes::Bytes;
use mqtt_broker_step::{Outgoing, Step, StepFault};
use std::alloc::Global;

/// The bytes of a PUBLISH go out on a line on which it is plain, unless they are more than its client takes (3.1.2.11.4).
fn send_within(step: &mut Step, line: u64, largest: u32, bytes: Bytes) -> Result<(), StepFault>
    ensures ok { (l : Line) (p : Publish) → l.number ≡ line → l.largest ≡ largest
        → form_on line p step.old.broker ≡ Plain → bytes ≡ shortest_of (packets.Publish p)
        → OnOk result (Did (always (offer (Some l) (packets.Publish p))) step.old step.new) }
    ensures left { (l : Line) (packet : Packet) → l.number ≡ line → l.largest ≡ largest
        → bytes ≡ shortest_of packet
        → IfErr result (λ fault. IsLeft (always (offer (Some l) packet)) fault step.old step.new) }
{
    if bytes.len() > largest as usize {
        drop(bytes);
        return Ok(());
    }
    step.send_publish(line, Outgoing { told: None, bytes })
}

/// The copy for a session goes out in its form on the line of a client that takes aliases, unless no form of it is
/// within what the client takes.
fn offer_told<T: Addressed>(
    alloc: Global,
    step: &mut Step,
    line: u64,
    common: &Common,
    to: &T,
) -> Result<(), StepFault>
    requires { IsSpelled (copy_for common.now (T.addressee to.now)) }
    ensures ok { OnOk result (Did (offers_on line (copy_for common.now (T.addressee to.now)))
        step.old step.new) }
    ensures left { IfErr result (λ fault. IsLeft
        (offers_on line (copy_for common.now (T.addressee to.now))) fault step.old step.new) }
{
    let copy = common.copy(alloc, to)?;
    let offered = offer_publish(alloc, step, line, &copy);
    drop(copy);
    offered
}

/// The copy of QoS 0 for a session, whose PUBLISH has a spelling, goes out at once, if the session is connected; it is
/// left out if no form of it is within what the client takes (3.1.2.11.4, 4.3.1). To a client that takes no aliases it
/// shares the bytes that were encoded last if they are the same.
pub(crate) fn offer_copy<T: Addressed>(
    alloc: Global,
    step: &mut Step,
    seats: &Seats,
    common: &mut Common,
    to: &T,
) -> Result<(), StepFault>
    requires spelled { IsSpelled (copy_for common.old (T.addressee to.now)) }
    requires seats { AreSeats seats.now step.old.broker.lines }
    ensures ok { OnOk result (Did (offers (T.addressee to.now).birth
        (copy_for common.old (T.addressee to.now))) step.old step.new) }
    ensures same { common.new ≡ common.old }
    ensures left { IfErr result (λ fault. IsLeft (offers (T.addressee to.now).birth
        (copy_for common.old (T.addressee to.now))) fault step.old step.new) }
{
    let Some(line) = seats.line_of(step, to.birth()) else {
        return Ok(());
    };
    let number = line.number();
    let largest = line.largest();
    if step.takes_aliases(number) {
        return offer_told(alloc, step, number, common, to);
    }
    match common.encoding(alloc, step.moment(), to) {
        Ok(bytes) => send_within(step, number, largest, bytes),
        Err(error) => Err(StepFault::from(error)),
    }
}
