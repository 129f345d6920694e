//! PUBREL (MQTT 5.0, 3.6, 4.3.3).
ghost use Rattle.std.specs.Prelude.{◌≡◌, ◌<◌, true, OnOk, IfErr, [], ◌∷◌};
ghost use Rattle.mqtt_base.specs.declared.kind.Kind.TheVariants as kinds;
ghost use Rattle.mqtt_base.specs.Reasons.{is_code};
ghost use Rattle.mqtt_packet.specs.codec.Packets.{HasSpelling};
ghost use Rattle.mqtt_flow.specs.inbound.Identifiers.{is_among};
ghost use Rattle.mqtt_rules.specs.step.State.{Line};
ghost use Rattle.mqtt_rules.specs.step.Packets.{pubcomp};
ghost use Rattle.mqtt_rules.specs.step.Deeds.{Send, always, of_session};
ghost use Rattle.mqtt_rules.specs.step.Inbound.{on_pubrel};
ghost use Rattle.mqtt_broker_step.specs.Stepping.{Did, IsLeft};

use mqtt_base::Reason;
use mqtt_broker_step::{Step, StepFault};
use mqtt_packet::{Ack, Packet};
use mqtt_props::PropList;
use mqtt_records::Session;

/// Whether an identifier of a QoS 2 publication from the client is open.
fn is_open(session: &Session, identifier: u16) -> bool
    ensures { result ≡ is_among identifier session.now.inbound }
{
    session.inbound.has(u64::from(identifier))
}

/// A PUBCOMP.
fn completed(identifier: u16, reason: Reason) -> Packet
    requires identifier { 0 < identifier }
    requires reason { is_code kinds.Pubcomp reason.0 ≡ true }
    ensures packet { result ≡ pubcomp identifier reason.0 }
    ensures spelled { HasSpelling result }
{
    Packet::Pubcomp(Ack {
        identifier,
        reason,
        properties: PropList::new(),
    })
}

/// PUBCOMP answers a PUBREL.
fn complete(step: &mut Step, line: u64, identifier: u16, reason: Reason) -> Result<(), StepFault>
    requires identifier { 0 < identifier }
    requires reason { is_code kinds.Pubcomp reason.0 ≡ true }
    ensures ok { OnOk result (Did (always (Send line (pubcomp identifier reason.0) ∷ []))
        step.old step.new) }
    ensures left { IfErr result (λ fault. IsLeft
        (always (Send line (pubcomp identifier reason.0) ∷ [])) fault step.old step.new) }
{
    let packet = completed(identifier, reason);
    let sent = step.send(line, &packet);
    drop(packet);
    sent
}

/// The identifier of a PUBREL is closed, and PUBCOMP answers it, with Packet Identifier not found if it
/// wasn't open (4.3.3).
pub fn pubrel(step: &mut Step, line: u64, birth: u64, identifier: u16) -> Result<(), StepFault>
    requires { 0 < identifier }
    ensures ok { (l : Line) → l.number ≡ line → OnOk result (Did
        (of_session birth (λ s. always (on_pubrel l s identifier))) step.old step.new) }
    ensures left { (l : Line) → l.number ≡ line → IfErr result (λ fault. IsLeft
        (of_session birth (λ s. always (on_pubrel l s identifier))) fault step.old step.new) }
{
    let Some(session) = step.session(birth) else {
        return Ok(());
    };
    if is_open(session, identifier) {
        step.release(birth, identifier)?;
        complete(step, line, identifier, Reason::SUCCESS)
    } else {
        complete(step, line, identifier, Reason::PACKET_IDENTIFIER_NOT_FOUND)
    }
}
