//! A broker is opened over what a store holds, on slim rows (MQTT 5.0, 3.3, 4.1).
ghost use Rattle.std.specs.Prelude.{◌≡◌, ℕ, IfOk, IfErr, OnOk};
ghost use Rattle.mqtt_records.specs.state.PassedOn.{StoresPassedOn};
ghost use Rattle.mqtt_records.specs.declared.state.records.Records.{Records as TheRecords};
ghost use Rattle.mqtt_rules.specs.spelling.Sending.{HaveSentPhases};
ghost use Rattle.mqtt_rules.specs.step.Laws.{AreWithin};
ghost use Rattle.mqtt_rules.specs.step.Routing.{subscribers};
ghost use Rattle.mqtt_rules.specs.declared.step.Capacity.{Capacity as TheCapacity};
ghost use Rattle.mqtt_broker_step.specs.Stepping.{at_rest};
ghost use Rattle.mqtt_broker_queue.specs.subscribers.Indexing.{Serves};
ghost use Rattle.mqtt_broker.specs.stored.Closing.{DidOpen, IsLeftOpen, resting};
ghost use Rattle.mqtt_broker.specs.stored.Over.{AreOfLawful, HasOpened, IsOpeningTold, IsUnopened};
ghost use Rattle.mqtt_broker.specs.stored.Opening.{IsBegun, Opened};

use crate::stored::closing::close_all;
use crate::stored::engine::Engine;
use crate::stored::identifiers::have_two_bytes;
use mqtt_base::LAST_NUMBER;
use mqtt_broker_queue::subscribers::Index;
use mqtt_broker_step::{Step, StepFault, commit_kept};
use mqtt_keep::{Keep, KeepError};
use mqtt_records::Records;
use mqtt_rules::Capacity;
use std::alloc::Global;
use std::hash::RandomState;

/// A broker at rest over what a store was loaded with, at the greatest of its moment and the one handed in. `Memory` (1)
/// alone refuses.
fn unopened(alloc: Global, records: Records, now: u64, limits: Capacity) -> Result<Step, KeepError>
    ensures step { IfOk result (λ step. step ≡ resting limits now records) }
    ensures refused { IfErr result (λ error. error ≡ KeepError.Memory) }
{
    let moment = records.moment.min(LAST_NUMBER).max(now.min(LAST_NUMBER));
    match Step::new(alloc, limits, records, moment) {
        Ok(step) => Ok(step),
        Err(_) => Err(KeepError::Memory),
    }
}

/// The opening of a broker at rest is done, with its moment.
fn open_stamped(alloc: Global, index: &mut Index, step: &mut Step) -> Result<(), StepFault>
    requires lawful { AreOfLawful step.old.broker.records }
    requires serves { Serves index.old.sessions (subscribers step.old.broker.records) }
    ensures ok { (limits : TheCapacity) (now : ℕ) (r : TheRecords) → step.old ≡ resting limits now r
        → OnOk result (DidOpen limits now r step.new) }
    ensures left { (limits : TheCapacity) (now : ℕ) (r : TheRecords) → step.old ≡ resting limits now r
        → IfErr result (λ fault. IsLeftOpen limits now r fault step.new) }
    ensures serves { OnOk result (Serves index.new.sessions (subscribers step.new.broker.records)) }
{
    close_all(alloc, index, step)?;
    step.stamp()
}

/// The store is told of an opening that was done on rows that may say less than it has.
fn tell<K: Keep>(keep: &mut K, step: &mut Step) -> Result<(), KeepError>
    requires opened { (limits : TheCapacity) × (now : ℕ) × (whole : TheRecords)
        × HasOpened K.Keep limits now whole keep.old step.old }
    ensures told { (limits : TheCapacity) (now : ℕ) (whole : TheRecords)
        → HasOpened K.Keep limits now whole keep.old step.old
        → IsOpeningTold K.Keep limits now whole keep.old result keep.new step.new }
    ensures rest { OnOk result (step.new ≡ at_rest step.old.limits step.old.broker) }
{
    match commit_kept(keep, step) {
        Ok(told) => {
            drop(told);
            Ok(())
        }
        Err(error) => Err(error),
    }
}

/// The opening of a broker at rest is done and stored.
fn store<K: Keep>(
    alloc: Global,
    keep: &mut K,
    index: &mut Index,
    step: &mut Step,
) -> Result<(), KeepError>
    requires begun { (limits : TheCapacity) × (now : ℕ) × (whole : TheRecords)
        × IsUnopened K.Keep limits now whole keep.old step.old }
    requires serves { Serves index.old.sessions (subscribers step.old.broker.records) }
    ensures told { (limits : TheCapacity) (now : ℕ) (whole : TheRecords)
        → IsUnopened K.Keep limits now whole keep.old step.old
        → IsOpeningTold K.Keep limits now whole keep.old result keep.new step.new }
    ensures serves { OnOk result (Serves index.new.sessions (subscribers step.new.broker.records)) }
{
    match open_stamped(alloc, index, step) {
        Ok(()) => tell(keep, step),
        Err(StepFault::Memory) => Err(KeepError::Memory),
        Err(StepFault::Spent) => Err(KeepError::Corrupt),
    }
}

/// An engine over the opening of a broker at rest, whose store was loaded.
fn open_with<K: Keep>(
    alloc: Global,
    mut keep: K,
    mut step: Step,
    mut index: Index,
    hasher: RandomState,
) -> Result<Engine<K>, (K, KeepError)>
    requires begun { (limits : TheCapacity) × (now : ℕ) × (whole : TheRecords)
        × IsUnopened K.Keep limits now whole keep step }
    requires serves { Serves index.sessions (subscribers step.broker.records) }
    ensures { (first : K) (limits : TheCapacity) (now : ℕ) (whole : TheRecords)
        → IsUnopened K.Keep limits now whole keep step → StoresPassedOn whole → HaveSentPhases whole
        → IsBegun K.Keep first whole keep → Opened K.Keep limits now first result }
{
    match store(alloc, &mut keep, &mut index, &mut step) {
        Ok(()) => Ok(Engine::over(alloc, hasher, keep, step, index)),
        Err(error) => {
            drop(index);
            drop(step);
            Err((keep, error))
        }
    }
}

/// An engine over the opening of a broker at rest, whose store was loaded, with the index of its subscriptions.
fn open_step<K: Keep>(
    alloc: Global,
    keep: K,
    step: Step,
    hasher: RandomState,
) -> Result<Engine<K>, (K, KeepError)>
    requires begun { (limits : TheCapacity) × (now : ℕ) × (whole : TheRecords)
        × IsUnopened K.Keep limits now whole keep step }
    ensures { (first : K) (limits : TheCapacity) (now : ℕ) (whole : TheRecords)
        → IsUnopened K.Keep limits now whole keep step → StoresPassedOn whole → HaveSentPhases whole
        → IsBegun K.Keep first whole keep → Opened K.Keep limits now first result }
{
    match Index::over(alloc, hasher, &step) {
        Ok(index) => open_with(alloc, keep, step, index, hasher),
        Err(_) => {
            drop(step);
            Err((keep, KeepError::Memory))
        }
    }
}

/// Opens a broker over what a store holds (4.1). No session is connected from then on: each that the records show as
/// connected is closed at the moment, in the order of births; a Will that is due is published, and a session whose end
/// is due ends (3.1.2.11.2, 3.1.3.2.2). That is stored before it is answered. What waiting copies say stays in the store.
/// A refusal gives the store back, which has what it had, but if its device failed: `Memory` (1), `Disk` (2), `Size` (3),
/// `Schema` (5), and `Corrupt` (4) if the records break their rules or a number would be above `LAST_NUMBER` (ours).
pub fn open<K: Keep>(
    alloc: Global,
    mut keep: K,
    now: u64,
    limits: Capacity,
    hasher: RandomState,
) -> Result<Engine<K>, (K, KeepError)>
    requires within { AreWithin limits }
    ensures { Opened K.Keep limits now keep result }
{
    match keep.load(alloc) {
        Ok(records) => {
            have_two_bytes(&records);
            match unopened(alloc, records, now, limits) {
                Ok(step) => open_step(alloc, keep, step, hasher),
                Err(error) => Err((keep, error)),
            }
        }
        Err(error) => Err((keep, error)),
    }
}
