//! Answers go out if the client takes so many bytes (MQTT 5.0, 3.1.2.11.4, 3.9, 3.11).
ghost use Rattle.std.specs.Prelude.{◌≡◌, ◌<◌, ◌+◌, ◌^◌, length, IfErr, OnOk};
ghost use Rattle.mqtt_rules.specs.step.Deeds.{always};
ghost use Rattle.mqtt_rules.specs.step.Packets.{suback, unsuback};
ghost use Rattle.mqtt_broker_step.specs.Stepping.{Did, IsLeft};
ghost use Rattle.mqtt_broker_acts.specs.subscribing.Offering.{largest_on, offer_within};

use mqtt_broker_looks::sent::{suback, suback_len, unsuback};
use mqtt_broker_step::{Step, StepFault};
use std::alloc::Global;

/// The client's Maximum Packet Size on a line, in bytes, if the line stands.
pub(crate) fn largest_on(step: &Step, line: u64) -> Option<u32>
    ensures { result ≡ largest_on line step.now.broker }
{
    match step.line(line) {
        Some(state) => Some(state.largest()),
        None => None,
    }
}

/// An UNSUBACK goes out on a line if the client takes so many bytes (3.11).
pub(crate) fn offer_unsuback(
    alloc: Global,
    step: &mut Step,
    line: u64,
    largest: Option<u32>,
    identifier: u16,
    codes: &[u8],
) -> Result<(), StepFault>
    requires { length codes.now + 3 < 2 ^ 28 }
    ensures ok { OnOk result (Did
        (always (offer_within line largest (unsuback identifier codes.now))) step.old step.new) }
    ensures left { IfErr result (λ fault. IsLeft
        (always (offer_within line largest (unsuback identifier codes.now)))
        fault step.old step.new) }
{
    let Some(largest) = largest else {
        return Ok(());
    };
    if suback_len(codes.len()) > largest as usize {
        return Ok(());
    }
    step.send_spelled(line, unsuback(alloc, identifier, codes)?)
}

/// A SUBACK goes out on a line if the client takes so many bytes (3.9).
pub(crate) fn offer_suback(
    alloc: Global,
    step: &mut Step,
    line: u64,
    largest: Option<u32>,
    identifier: u16,
    codes: &[u8],
) -> Result<(), StepFault>
    requires { length codes.now + 3 < 2 ^ 28 }
    ensures ok { OnOk result (Did
        (always (offer_within line largest (suback identifier codes.now))) step.old step.new) }
    ensures left { IfErr result (λ fault. IsLeft
        (always (offer_within line largest (suback identifier codes.now)))
        fault step.old step.new) }
{
    let Some(largest) = largest else {
        return Ok(());
    };
    if suback_len(codes.len()) > largest as usize {
        return Ok(());
    }
    step.send_spelled(line, suback(alloc, identifier, codes)?)
}
