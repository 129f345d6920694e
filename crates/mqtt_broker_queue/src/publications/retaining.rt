//! What RETAIN of an accepted publication does (MQTT 5.0, 3.3.1.3).
ghost use Rattle.std.specs.Prelude.{◌≡◌, ◌∷◌, [], ℕ, true, false, OnOk, IfErr};
ghost use Rattle.mqtt_topic.specs.names.Names.{is_empty};
ghost use Rattle.mqtt_rules.specs.step.Deeds.{always};
ghost use Rattle.mqtt_rules.specs.step.Routing.{retain_by};
ghost use Rattle.mqtt_broker_step.specs.Stepping.{Did, IsLeft};
ghost use Rattle.mqtt_broker_queue.specs.publications.Retaining.{keeps, forgets_place};

use crate::publications::message::Message;
use mqtt_broker_step::{Step, StepFault};
use mqtt_records::Boxed;
use std::alloc::Global;

/// A message is retained at a place (3.3.1.3).
fn keep_at(
    alloc: Global,
    step: &mut Step,
    number: u64,
    message: &Message,
    place: u64,
) -> Result<(), StepFault>
    ensures ok { OnOk result (Did (keeps number message.now place) step.old step.new) }
    ensures left { IfErr result (λ fault.
        IsLeft (keeps number message.now place) fault step.old step.new) }
{
    let kept = message.kept(number, step.moment(), place)?;
    step.keep(Boxed::new(alloc, kept)?)
}

/// The message at a place is forgotten, if there is a place (3.3.1.3).
fn forget_at(step: &mut Step, place: Option<u64>) -> Result<(), StepFault>
    ensures ok { OnOk result (Did (always (forgets_place place)) step.old step.new) }
    ensures left { IfErr result (λ fault.
        IsLeft (always (forgets_place place)) fault step.old step.new) }
{
    match place {
        Some(place) => step.forget(place),
        None => Ok(()),
    }
}

/// A message is retained for its topic (3.3.1.3).
fn keep_message(
    alloc: Global,
    step: &mut Step,
    number: u64,
    message: &Message,
) -> Result<(), StepFault>
    ensures ok { OnOk result (Did (retain_by true false number message.now) step.old step.new) }
    ensures left { IfErr result (λ fault. IsLeft (retain_by true false number message.now) fault
        step.old step.new) }
{
    match step.place_for(message.topic().as_str().as_bytes()) {
        Ok(place) => keep_at(alloc, step, number, message, place),
        Err(fault) => Err(fault),
    }
}

/// The message that is retained for the topic of a message is forgotten (3.3.1.3).
fn forget_message(step: &mut Step, message: &Message) -> Result<(), StepFault>
    ensures ok { (number : ℕ) → OnOk result (Did (retain_by true true number message.now)
        step.old step.new) }
    ensures left { (number : ℕ) → IfErr result (λ fault.
        IsLeft (retain_by true true number message.now) fault step.old step.new) }
{
    let place = step.retained_place(message.topic().as_str().as_bytes());
    forget_at(step, place)
}

/// With RETAIN 1 an empty message removes the one that is retained for its topic, and any other takes its
/// place, or the next one if none is retained (3.3.1.3). `number` is that of the publication.
pub fn retain(
    alloc: Global,
    step: &mut Step,
    number: u64,
    message: &Message,
) -> Result<(), StepFault>
    ensures ok { OnOk result (Did
        (retain_by message.now.retain (is_empty message.now.payload) number message.now)
        step.old step.new) }
    ensures left { IfErr result (λ fault. IsLeft
        (retain_by message.now.retain (is_empty message.now.payload) number message.now)
        fault step.old step.new) }
{
    if !message.retain() {
        return Ok(());
    }
    if message.payload().is_empty() {
        forget_message(step, message)
    } else {
        keep_message(alloc, step, number, message)
    }
}
