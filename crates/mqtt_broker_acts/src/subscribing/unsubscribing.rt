//! UNSUBSCRIBE (MQTT 5.0, 3.10, 3.11).
ghost use Rattle.std.specs.Prelude.{◌≡◌, ◌<◌, ◌+◌, ◌^◌, ℕ, List, Some, true, false, length, map, IfOk, IfErr, OnOk};
ghost use Rattle.mqtt_base.specs.Codes.{identifier_in_use};
ghost use Rattle.mqtt_flow.specs.inbound.Identifiers.{is_among};
ghost use Rattle.mqtt_records.specs.declared.state.session.Session.{Session as TheSession};
ghost use Rattle.mqtt_rules.specs.step.Deeds.{of_session};
ghost use Rattle.mqtt_rules.specs.step.State.{session_at};
ghost use Rattle.mqtt_rules.specs.step.Subscribe.{on_unsubscribe, unsubscribe_by};
ghost use Rattle.mqtt_broker_step.specs.Stepping.{Did, IsLeft};
ghost use Rattle.mqtt_broker_step.specs.Subscribing.{HaveFiltersOnce};

use crate::subscribing::dropping::{drop_codes, drop_held};
use crate::subscribing::offering::{largest_on, offer_unsuback};
use mqtt_base::Reason;
use mqtt_broker_step::{Step, StepFault};
use mqtt_packet::{Filters, Unsubscribe};
use mqtt_records::Session;
use std::alloc::{AllocError, Global};

/// Whether an identifier is open for a QoS 2 PUBLISH from the client (2.2.1).
pub(crate) fn is_open(session: &Session, identifier: u16) -> bool
    ensures { result ≡ is_among identifier session.now.inbound }
{
    session.inbound.has(u64::from(identifier))
}

/// Packet Identifier in use, for each filter (3.11.3).
fn all_in_use(alloc: Global, filters: &Filters) -> Result<Vec<u8>, AllocError>
    ensures { IfOk result (λ codes. codes.items
        ≡ map (λ (f : List ℕ). identifier_in_use) filters.now) }
{
    let mut codes = Vec::new(alloc);
    let mut rest = filters.lend();
    while let Some((_, after)) = rest.split_first() {
        codes.push(Reason::PACKET_IDENTIFIER_IN_USE.0)?;
        rest = after;
    }
    Ok(codes)
}

/// UNSUBACK says of each filter that the identifier is in use (2.2.1).
fn refuse_all(
    alloc: Global,
    step: &mut Step,
    line: u64,
    packet: &Unsubscribe,
) -> Result<(), StepFault>
    requires { length packet.now.filters + 3 < 2 ^ 28 }
    ensures ok { (s : TheSession) → OnOk result (Did (unsubscribe_by true line s packet.now)
        step.old step.new) }
    ensures left { (s : TheSession) → IfErr result (λ fault. IsLeft
        (unsubscribe_by true line s packet.now) fault step.old step.new) }
{
    let largest = largest_on(step, line);
    let codes = all_in_use(alloc, &packet.filters)?;
    offer_unsuback(alloc, step, line, largest, packet.identifier, &codes)
}

/// The filters that the session has are removed, and UNSUBACK tells of each (3.10.4).
fn drop_all(
    alloc: Global,
    step: &mut Step,
    line: u64,
    birth: u64,
    packet: &Unsubscribe,
) -> Result<(), StepFault>
    requires once { HaveFiltersOnce step.old.broker.records }
    requires few { length packet.now.filters + 3 < 2 ^ 28 }
    ensures ok { (s : TheSession) → session_at birth step.old.broker.records ≡ Some s
        → OnOk result (Did (unsubscribe_by false line s packet.now) step.old step.new) }
    ensures left { (s : TheSession) → session_at birth step.old.broker.records ≡ Some s
        → IfErr result (λ fault. IsLeft
        (unsubscribe_by false line s packet.now) fault step.old step.new) }
{
    let largest = largest_on(step, line);
    let Some(session) = step.session(birth) else {
        return Ok(());
    };
    let codes = drop_codes(alloc, session, &packet.filters)?;
    drop_held(alloc, step, birth, &packet.filters)?;
    offer_unsuback(alloc, step, line, largest, packet.identifier, &codes)
}

/// The filters of an UNSUBSCRIBE that the session has are removed, and UNSUBACK tells of each. Nothing is
/// removed if the identifier is open for a QoS 2 PUBLISH (2.2.1, 3.10.4).
pub fn unsubscribe(
    alloc: Global,
    step: &mut Step,
    line: u64,
    birth: u64,
    packet: &Unsubscribe,
) -> Result<(), StepFault>
    requires once { HaveFiltersOnce step.old.broker.records }
    requires few { length packet.now.filters + 3 < 2 ^ 28 }
    ensures ok { OnOk result (Did (of_session birth (λ s. on_unsubscribe line s packet.now))
        step.old step.new) }
    ensures left { IfErr result (λ fault. IsLeft
        (of_session birth (λ s. on_unsubscribe line s packet.now)) fault step.old step.new) }
{
    let Some(session) = step.session(birth) else {
        return Ok(());
    };
    if is_open(session, packet.identifier) {
        refuse_all(alloc, step, line, packet)
    } else {
        drop_all(alloc, step, line, birth, packet)
    }
}
