//! What a PUBLISH is answered by, and the identifier that it opens (MQTT 5.0, 3.4, 3.5, 4.3).
ghost use Rattle.std.specs.Prelude.{◌≡◌, OnOk, IfErr};
ghost use Rattle.mqtt_packet.specs.declared.codec.publish.Publish.{Publish};
ghost use Rattle.mqtt_flow.specs.declared.inbound.inflow.Published.TheVariants.{Again};
ghost use Rattle.mqtt_records.specs.declared.state.session.Session.{Session};
ghost use Rattle.mqtt_rules.specs.step.State.{Line};
ghost use Rattle.mqtt_rules.specs.step.Deeds.{Message, always, of_session};
ghost use Rattle.mqtt_rules.specs.step.Inbound.{answer, opens, publish_by};
ghost use Rattle.mqtt_broker_step.specs.Stepping.{Did, Does, IsLeft, Leaves};

use mqtt_base::Reason;
use mqtt_broker_looks::decided::again_code;
use mqtt_broker_looks::sent::{puback, pubrec};
use mqtt_broker_step::{Step, StepFault};
use mqtt_packet::Delivery;
use std::alloc::Global;

/// PUBACK answers a PUBLISH of QoS 1, PUBREC one of QoS 2, and nothing one of QoS 0 (4.3).
pub fn answer(
    alloc: Global,
    step: &mut Step,
    line: u64,
    delivery: Delivery,
    code: Reason,
) -> Result<(), StepFault>
    ensures ok { OnOk result (Did (always (answer line delivery code.0)) step.old step.new) }
    ensures left { IfErr result (λ fault.
        IsLeft (always (answer line delivery code.0)) fault step.old step.new) }
{
    match delivery {
        Delivery::AtMostOnce => Ok(()),
        Delivery::AtLeastOnce { identifier, .. } => {
            step.send_spelled(line, puback(alloc, identifier, code)?)
        }
        Delivery::ExactlyOnce { identifier, .. } => {
            step.send_spelled(line, pubrec(alloc, identifier, code)?)
        }
    }
}

/// A PUBLISH whose identifier is open: QoS 2 is answered as before, QoS 1 isn't taken (4.3.3).
pub fn publish_again(
    alloc: Global,
    step: &mut Step,
    line: u64,
    delivery: Delivery,
) -> Result<(), StepFault>
    ensures ok { (l : Line) (s : Session) (p : Publish) (m : Message)
        → l.number ≡ line → p.delivery ≡ delivery
        → OnOk result (Does (λ env. publish_by Again env l s p m) step.old step.new) }
    ensures left { (l : Line) (s : Session) (p : Publish) (m : Message)
        → l.number ≡ line → p.delivery ≡ delivery
        → IfErr result (λ fault. Leaves
        (λ env. publish_by Again env l s p m) fault step.old step.new) }
{
    answer(alloc, step, line, delivery, again_code(delivery))
}

/// A PUBLISH of QoS 2 opens its identifier (4.3.3).
pub fn open_by(step: &mut Step, birth: u64, delivery: Delivery) -> Result<(), StepFault>
    ensures ok { OnOk result (Did (of_session birth (λ s. always (opens s delivery)))
        step.old step.new) }
    ensures left { IfErr result (λ fault. IsLeft
        (of_session birth (λ s. always (opens s delivery))) fault step.old step.new) }
{
    match delivery {
        Delivery::AtMostOnce | Delivery::AtLeastOnce { .. } => Ok(()),
        Delivery::ExactlyOnce { identifier, .. } => step.open(birth, identifier),
    }
}
