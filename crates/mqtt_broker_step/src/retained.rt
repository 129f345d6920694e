//! Deeds of retained messages: one is kept, one is forgotten (MQTT 5.0, 3.3.1.3).
ghost use Rattle.std.specs.Prelude.{◌≡◌, ◌∷◌, [], IfOk, IfErr, OnOk};
ghost use Rattle.mqtt_records.specs.state.Records.{changed, kept_place};
ghost use Rattle.mqtt_records.specs.declared.state.change.Change.TheVariants as change;
ghost use Rattle.mqtt_records.specs.lists.Order.{IsAscending};
ghost use Rattle.mqtt_rules.specs.step.Deeds.{Keep, Forget, always};
ghost use Rattle.mqtt_broker_step.specs.Stepping.{Did, IsLeft};

use crate::fault::StepFault;
use crate::step::Step;
use mqtt_base::RETAINED_LIMIT;
use mqtt_records::{Boxed, Change, Records, RetainedMessage, Rows};
use std::alloc::AllocError;

/// What is so of retained messages: they are in the order of their places. Shows it to the prover.
fn in_order(retained: &Rows<Boxed<RetainedMessage>, RETAINED_LIMIT>)
    ensures { IsAscending kept_place retained.now }
{
    retained.as_slice();
}

/// What takes back that a message is retained.
fn kept_back(records: &Records, kept: &Boxed<RetainedMessage>) -> Result<Change, AllocError>
    ensures { IfOk result (λ undo. changed undo (changed (change.PutRetained kept.now) records.now)
        ≡ records.now) }
{
    in_order(&records.retained);
    let place = kept.get().place;
    match records.retained.get(place) {
        Some(before) => Ok(Change::PutRetained {
            kept: before.clone()?,
        }),
        None => Ok(Change::RemoveRetained { place }),
    }
}

impl Step {
    /// A message is retained, instead of one at its place (3.3.1.3).
    pub fn keep(&mut self, kept: Boxed<RetainedMessage>) -> Result<(), StepFault>
        ensures ok { OnOk result (Did (always (Keep kept ∷ [])) self.old self.new) }
        ensures left { IfErr result (λ fault.
            IsLeft (always (Keep kept ∷ [])) fault self.old self.new) }
    {
        match kept_back(self.tables.records(), &kept) {
            Ok(undo) => self.make(Change::PutRetained { kept }, undo),
            Err(_) => {
                drop(kept);
                Err(StepFault::Memory)
            }
        }
    }

    /// A retained message is forgotten (3.3.1.3).
    pub fn forget(&mut self, place: u64) -> Result<(), StepFault>
        ensures ok { OnOk result (Did (always (Forget place ∷ [])) self.old self.new) }
        ensures left { IfErr result (λ fault.
            IsLeft (always (Forget place ∷ [])) fault self.old self.new) }
    {
        self.rows.reserve(1)?;
        self.tables.take_retained(place)?;
        self.rows.push(Change::RemoveRetained { place }).unwrap();
        Ok(())
    }
}
