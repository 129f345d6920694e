//! PINGREQ (MQTT 5.0, 3.12).
ghost use Rattle.std.specs.Prelude.{◌≡◌, ◌∷◌, [], OnOk, IfErr};
ghost use Rattle.mqtt_packet.specs.declared.codec.packet.Packet.TheVariants.{Pingreq};
ghost use Rattle.mqtt_rules.specs.step.State.{Line};
ghost use Rattle.mqtt_records.specs.declared.state.session.Session.{Session};
ghost use Rattle.mqtt_rules.specs.step.Step.{next_packet};
ghost use Rattle.mqtt_broker_step.specs.Stepping.{Does, Leaves};

use mqtt_broker_step::{Step, StepFault};
use mqtt_packet::Packet;

/// A PINGREQ is answered with PINGRESP (3.12.4).
pub fn pingreq(step: &mut Step, line: u64) -> Result<(), StepFault>
    ensures ok { (l : Line) (s : Session) → l.number ≡ line → OnOk result (Does
        (λ env. next_packet env l Pingreq s) step.old step.new) }
    ensures left { (l : Line) (s : Session) → l.number ≡ line → IfErr result (λ fault. Leaves
        (λ env. next_packet env l Pingreq s) fault step.old step.new) }
{
    step.send(line, &Packet::Pingresp)
}
