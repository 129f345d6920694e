//! SUBSCRIBE (MQTT 5.0, 3.8, 3.9).
ghost use Rattle.std.specs.Prelude.{◌≡◌, ◌<◌, ◌+◌, ◌^◌, Some, true, false, length, map, IfErr, IfOk, OnOk};
ghost use Rattle.std.specs.List.{AllByRecursion};
ghost use Rattle.mqtt_base.specs.Codes.{identifier_in_use};
ghost use Rattle.mqtt_packet.specs.subscribe.Subscriptions.{Subscription as Asked};
ghost use Rattle.mqtt_packet.specs.declared.codec.packet.Packet.TheVariants as packets;
ghost use Rattle.mqtt_records.specs.messages.Queue.{IsSpelled};
ghost use Rattle.mqtt_records.specs.declared.messages.message.RetainedMessage.{RetainedMessage as Retained};
ghost use Rattle.mqtt_records.specs.declared.state.session.Session.{Session as TheSession};
ghost use Rattle.mqtt_rules.specs.step.Contents.{IsPublished, IsTaken};
ghost use Rattle.mqtt_rules.specs.step.Deeds.{of_session};
ghost use Rattle.mqtt_rules.specs.step.State.{session_at};
ghost use Rattle.mqtt_rules.specs.step.Subscribe.{on_subscribe, subscribe_by};
ghost use Rattle.mqtt_broker_step.specs.Stepping.{Did, Does, IsLeft, Leaves};
ghost use Rattle.mqtt_broker_step.specs.Subscribing.{HaveFiltersOnce};
ghost use Rattle.mqtt_broker_acts.specs.subscribing.Answering.{tells};

use crate::subscribing::answering::answer_all;
use crate::subscribing::late::send_late;
use crate::subscribing::offering::{largest_on, offer_suback};
use crate::subscribing::unsubscribing::is_open;
use mqtt_base::Reason;
use mqtt_broker_looks::decided::number_at;
use mqtt_broker_step::{Step, StepFault};
use mqtt_packet::{Subscribe, Subscriptions};
use mqtt_props::PropName;
use mqtt_records::MessageCopy;
use std::alloc::{AllocError, Global};

/// Packet Identifier in use, for each filter (3.9.3).
fn all_in_use(alloc: Global, filters: &Subscriptions) -> Result<Vec<u8>, AllocError>
    ensures { IfOk result (λ codes. codes.items
        ≡ map (λ (a : Asked). identifier_in_use) filters.now) }
{
    let mut codes = Vec::new(alloc);
    let mut rest = filters.lend();
    while let Some((_, after)) = rest.split_first() {
        codes.push(Reason::PACKET_IDENTIFIER_IN_USE.0)?;
        rest = after;
    }
    Ok(codes)
}

/// SUBACK says of each filter that the identifier is in use (2.2.1).
fn refuse_all(
    alloc: Global,
    step: &mut Step,
    line: u64,
    packet: &Subscribe,
) -> Result<(), StepFault>
    requires { length packet.now.subscriptions + 3 < 2 ^ 28 }
    ensures ok { (s : TheSession) → OnOk result (Does
        (λ env. subscribe_by true env line s packet.now) step.old step.new) }
    ensures left { (s : TheSession) → IfErr result (λ fault. Leaves
        (λ env. subscribe_by true env line s packet.now) fault step.old step.new) }
{
    let largest = largest_on(step, line);
    let codes = all_in_use(alloc, &packet.subscriptions)?;
    offer_suback(alloc, step, line, largest, packet.identifier, &codes)
}

/// SUBACK goes out, and the late copies behind it, as far as the client takes them (3.1.2.11.4, 3.9).
fn tell(
    alloc: Global,
    step: &mut Step,
    line: u64,
    largest: Option<u32>,
    identifier: u16,
    codes: &[u8],
    late: Vec<MessageCopy>,
) -> Result<(), StepFault>
    requires few { length codes.now + 3 < 2 ^ 28 }
    requires spelled { AllByRecursion IsSpelled late.items }
    ensures ok { OnOk result (Did (tells line largest identifier codes.now late.items)
        step.old step.new) }
    ensures left { IfErr result (λ fault. IsLeft
        (tells line largest identifier codes.now late.items) fault step.old step.new) }
{
    match offer_suback(alloc, step, line, largest, identifier, codes) {
        Ok(()) => send_late(alloc, step, line, late),
        Err(fault) => {
            drop(late);
            Err(fault)
        }
    }
}

/// The filters are answered in order, SUBACK tells of each, and the late copies go out behind it (3.8.4).
fn answer_packet(
    alloc: Global,
    step: &mut Step,
    line: u64,
    birth: u64,
    packet: &Subscribe,
) -> Result<(), StepFault>
    requires once { HaveFiltersOnce step.old.broker.records }
    requires lawful { AllByRecursion (λ (k : Retained). IsPublished k.content)
        step.old.broker.records.retained }
    requires taken { IsTaken (packets.Subscribe packet.now) }
    ensures ok { (s : TheSession) → session_at birth step.old.broker.records ≡ Some s
        → OnOk result (Does (λ env. subscribe_by false env line s packet.now)
        step.old step.new) }
    ensures left { (s : TheSession) → session_at birth step.old.broker.records ≡ Some s
        → IfErr result (λ fault. Leaves
        (λ env. subscribe_by false env line s packet.now) fault step.old step.new) }
{
    let largest = largest_on(step, line);
    let identifier = number_at(&packet.properties.lend(), PropName::SubscriptionIdentifier);
    let filters = &packet.subscriptions;
    let mut codes = Vec::new(alloc);
    let mut late = Vec::new(alloc);
    match answer_all(
        alloc, step, birth, identifier, filters, &mut codes, &mut late,
    ) {
        Ok(()) => {
            let id = packet.identifier;
            let told = tell(alloc, step, line, largest, id, &codes, late);
            drop(codes);
            told
        }
        Err(fault) => {
            drop(codes);
            drop(late);
            Err(fault)
        }
    }
}

/// SUBSCRIBE of the session that is connected on a line. Each of its filters that is valid, and that the session
/// and its queue have room for, is granted: the session has its subscription, and the retained messages that it
/// brings are queued, those of QoS 0 go out. SUBACK tells of each filter. Nothing is granted if the identifier
/// is open for a QoS 2 PUBLISH (2.2.1, 3.8.4, 3.9.3). Refused for want of memory or of a number.
pub fn subscribe(
    alloc: Global,
    step: &mut Step,
    line: u64,
    birth: u64,
    packet: &Subscribe,
) -> Result<(), StepFault>
    requires once { HaveFiltersOnce step.old.broker.records }
    requires lawful { AllByRecursion (λ (k : Retained). IsPublished k.content)
        step.old.broker.records.retained }
    requires taken { IsTaken (packets.Subscribe packet.now) }
    ensures ok { OnOk result (Does
        (λ env. of_session birth (λ s. on_subscribe env line s packet.now)) step.old step.new) }
    ensures left { IfErr result (λ fault. Leaves
        (λ env. of_session birth (λ s. on_subscribe env line s packet.now))
        fault step.old step.new) }
{
    let Some(session) = step.session(birth) else {
        return Ok(());
    };
    if is_open(session, packet.identifier) {
        refuse_all(alloc, step, line, packet)
    } else {
        answer_packet(alloc, step, line, birth, packet)
    }
}
