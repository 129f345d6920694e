//! A publication is accepted: it gets its number, RETAIN is done, and its copies are handed over (MQTT 5.0,
//! 3.3.1.3, 3.3.4).
ghost use Rattle.std.specs.Prelude.{◌≡◌, OnOk, IfErr};
ghost use Rattle.std.specs.List.{AllByRecursion};
ghost use Rattle.mqtt_records.specs.messages.Queue.{IsSpelled};
ghost use Rattle.mqtt_rules.specs.step.Deeds.{Origin};
ghost use Rattle.mqtt_rules.specs.step.Routing.{publish};
ghost use Rattle.mqtt_broker_step.specs.Stepping.{Does, Leaves};
ghost use Rattle.mqtt_broker_queue.specs.publications.Delivering.{addressed_all, HasRoomIn, SameSessions};

use crate::publications::copies::Copies;
use crate::publications::delivering::deliver_copies;
use crate::publications::message::Message;
use crate::publications::retaining::retain;
use mqtt_broker_step::{Step, StepFault};
use std::alloc::Global;

/// A publication is accepted, retained if it is to be, and handed over in these copies, whose PUBLISH
/// have spellings (3.3.1.3, 3.3.4). Each queue has room for those that are to enter it.
pub fn publish(
    alloc: Global,
    step: &mut Step,
    message: &Message,
    copies: Copies,
) -> Result<(), StepFault>
    requires spelled { AllByRecursion IsSpelled copies }
    requires room { HasRoomIn step.old (addressed_all copies) }
    ensures ok { (origin : Origin) → OnOk result (Does
        (λ env. publish env origin message.now (addressed_all copies)) step.old step.new) }
    ensures sessions { OnOk result (SameSessions step.old.broker.records
        step.new.broker.records) }
    ensures left { (origin : Origin) → IfErr result (λ fault. Leaves
        (λ env. publish env origin message.now (addressed_all copies))
        fault step.old step.new) }
{
    match step.accept() {
        Ok(number) => match retain(alloc, step, number, message) {
            Ok(()) => deliver_copies(alloc, step, copies),
            Err(fault) => {
                drop(copies);
                Err(fault)
            }
        },
        Err(fault) => {
            drop(copies);
            Err(fault)
        }
    }
}
