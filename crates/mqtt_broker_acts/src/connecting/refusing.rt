//! A CONNECT that is refused (MQTT 5.0, 3.1.4, 3.2.2.2).
ghost use Rattle.std.specs.Prelude.{◌≡◌, OnOk, IfErr};
ghost use Rattle.mqtt_rules.specs.step.State.{Line};
ghost use Rattle.mqtt_rules.specs.step.Deeds.{always};
ghost use Rattle.mqtt_rules.specs.step.Connect.{refused};
ghost use Rattle.mqtt_broker_step.specs.Stepping.{Did, IsLeft};
ghost use Rattle.mqtt_broker_acts.specs.connecting.Connecting.{refusal_told};

use mqtt_base::Reason;
use mqtt_broker_looks::decided::takes_refusal;
use mqtt_broker_looks::sent::connack_refused;
use mqtt_broker_step::{Step, StepFault};
use mqtt_packet::Connect;
use std::alloc::Global;

/// CONNACK with the code, if the client takes so many bytes (3.1.2.11.4).
fn tell_refusal(
    alloc: Global,
    step: &mut Step,
    line: u64,
    connect: &Connect,
    code: Reason,
) -> Result<(), StepFault>
    ensures ok { OnOk result (Did (always (refusal_told line connect.now code.0))
        step.old step.new) }
    ensures left { IfErr result (λ fault. IsLeft (always (refusal_told line connect.now code.0))
        fault step.old step.new) }
{
    if !takes_refusal(connect) {
        return Ok(());
    }
    step.send_spelled(line, connack_refused(alloc, code)?)
}

/// A CONNECT is refused with a code: CONNACK tells it, if the client takes so many bytes, and the line
/// closes (3.1.4, 3.2.2.2).
pub fn refuse(
    alloc: Global,
    step: &mut Step,
    line: u64,
    connect: &Connect,
    code: Reason,
) -> Result<(), StepFault>
    ensures ok { (l : Line) → l.number ≡ line
        → OnOk result (Did (always (refused l connect.now code.0)) step.old step.new) }
    ensures left { (l : Line) → l.number ≡ line → IfErr result (λ fault.
        IsLeft (always (refused l connect.now code.0)) fault step.old step.new) }
{
    tell_refusal(alloc, step, line, connect, code)?;
    step.gone(line)
}
