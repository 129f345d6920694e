//! A call comes to its end: the store is told, and only then it is answered; or nothing is done (MQTT 5.0, 4.1).
ghost use Rattle.std.specs.Prelude.{◌≡◌, ℕ, false, true, Ok, OnOk};
ghost use Rattle.mqtt_rules.specs.step.Routing.{subscribers};
ghost use Rattle.mqtt_rules.specs.step.Step.{Call, is_spent};
ghost use Rattle.mqtt_rules.specs.alike.Slim.{slim_broker};
ghost use Rattle.mqtt_rules.specs.filling.Entered.{AreSlimBut};
ghost use Rattle.mqtt_broker_queue.specs.subscribers.Following.{CanAllBeFollowed, CanBeIndexed, CanGoAlongAll};
ghost use Rattle.mqtt_broker_queue.specs.subscribers.Indexing.{Serves};
ghost use Rattle.mqtt_broker.specs.stored.Calling.{Called};
ghost use Rattle.mqtt_broker.specs.stored.Finishing.{CanFollow, GoesAlong, IsAtRest, IsCommitted, IsUnderWay};
ghost use Rattle.mqtt_broker.specs.stored.Viewing.{viewed, viewed_before};

use crate::stored::committing::commit;
use crate::stored::outcome::{Outcome, answered};
use crate::stored::parts::EngineParts;
use mqtt_broker_acts::clock::quiet_after;
use mqtt_broker_queue::subscribers::Index;
use mqtt_broker_step::{EngineError, Step, StepFault};
use mqtt_keep::Keep;

/// The number of a fault stays.
fn refusal(fault: StepFault) -> EngineError
    ensures memory { fault ≡ StepFault.Memory → result ≡ EngineError.Memory }
    ensures spent { fault ≡ StepFault.Spent → result ≡ EngineError.Spent }
{
    match fault {
        StepFault::Memory => EngineError::Memory,
        StepFault::Spent => EngineError::Spent,
    }
}

/// Whether the store has failed.
pub(crate) fn has_failed(error: EngineError) -> bool
    ensures stopped { error ≡ EngineError.Stopped → result ≡ true }
    ensures runs { (error ≡ EngineError.Stopped → ⊥) → result ≡ false }
{
    match error {
        EngineError::Stopped => true,
        EngineError::Memory | EngineError::Spent => false,
    }
}

/// The index goes along with the rows of a step, unless it is to be made anew. `Memory` (1) alone refuses.
fn follow(index: &mut Index, step: &Step, is_stale: bool) -> Result<(), StepFault>
    requires { is_stale ≡ false → CanGoAlongAll step.now.rows index.old.sessions }
    ensures unspent { is_spent step.now.rows ≡ false }
    ensures serves { is_stale ≡ false → CanBeIndexed step.now.start.records
        → CanAllBeFollowed step.now.rows step.now.start.records
        → Serves index.old.sessions (subscribers step.now.start.records)
        → OnOk result (Serves index.new.sessions (subscribers step.now.broker.records)) }
{
    let rows = step.rows();
    if is_stale {
        return Ok(());
    }
    index.follow_all(rows)
}

impl<K: Keep> EngineParts<K> {
    /// The index goes along with the rows of the step under way, and the store is told of them. If one of them
    /// refuses the step is taken back, and the index says nothing any more. Then no row says anything but its topic.
    fn tell(&mut self, again: bool, birth: u64, places: &[u64]) -> Result<Outcome, EngineError>
        requires loaded { K.is_loaded self.old.keep }
        requires runs { self.old.stopped ≡ false }
        requires can { CanFollow self.old.step }
        requires goes { GoesAlong self.old.step.start self.old }
        requires slim { AreSlimBut birth places.now self.old.step.start.records }
        ensures { IsCommitted K.Keep self.old again result self.new }
    {
        if follow(&mut self.index, &self.step, self.is_stale).is_err() {
            self.is_stale = true;
            self.take_back(birth, places);
            return Err(EngineError::Memory);
        }
        let after = quiet_after(&self.step, self.quiet);
        match commit(self.alloc, &mut self.keep, &mut self.hand, &mut self.step) {
            Ok(told) => {
                self.step.make_slim(birth, places);
                self.quiet = after;
                self.index.settle();
                Ok(answered(told, again))
            }
            Err(error) => {
                self.step.make_slim(birth, places);
                self.stopped = has_failed(error);
                self.is_stale = true;
                self.index.take_back();
                Err(error)
            }
        }
    }

    /// A step that did the deeds of a call is stored with its moment, and then answered.
    fn store(&mut self, again: bool, birth: u64, places: &[u64]) -> Result<Outcome, EngineError>
        requires under_way { (now : ℕ) × (call : Call)
            × IsUnderWay K.Keep now call again (Ok tt) self.old }
        requires slim { AreSlimBut birth places.now self.old.step.start.records }
        ensures called { (now : ℕ) (call : Call) → IsUnderWay K.Keep now call again (Ok tt) self.old
            → Called K.Keep now call (viewed_before K.Keep self.old) result (viewed K.Keep self.new) }
        ensures rest { IsAtRest K.Keep self.new }
        ensures reads { K.read_so_far self.new.keep ≡ K.read_so_far self.old.keep }
    {
        match self.step.stamp() {
            Ok(()) => self.tell(again, birth, places),
            Err(_) => {
                self.take_back(birth, places);
                Err(EngineError::Memory)
            }
        }
    }

    /// A call comes to its end. A step that did the call's deeds is stored, and then answered, which says whether to call
    /// again; one that was refused is taken back. Then no row says anything but its topic, also those at these places,
    /// which a pump filled. `Memory` (1), `Spent` (3): nothing changed, here or in the store. `Stopped` (2): the store
    /// failed, and nothing changed here. The store isn't asked for contents.
    pub(crate) fn finish_filled(
        &mut self,
        done: Result<(), StepFault>,
        again: bool,
        birth: u64,
        places: &[u64],
    ) -> Result<Outcome, EngineError>
        requires under_way { (now : ℕ) × (call : Call)
            × IsUnderWay K.Keep now call again done self.old }
        requires slim { AreSlimBut birth places.now self.old.step.start.records }

        // It was that call of the engine as it was when the step began.
        ensures called { (now : ℕ) (call : Call) → IsUnderWay K.Keep now call again done self.old
            → Called K.Keep now call (viewed_before K.Keep self.old) result (viewed K.Keep self.new) }
        ensures rest { IsAtRest K.Keep self.new }
        ensures reads { K.read_so_far self.new.keep ≡ K.read_so_far self.old.keep }
    {
        match done {
            Ok(()) => self.store(again, birth, places),
            Err(fault) => {
                self.take_back(birth, places);
                Err(refusal(fault))
            }
        }
    }

    /// The same of a call that filled no rows.
    pub(crate) fn finish(
        &mut self,
        done: Result<(), StepFault>,
        again: bool,
    ) -> Result<Outcome, EngineError>
        requires under_way { (now : ℕ) × (call : Call)
            × IsUnderWay K.Keep now call again done self.old }
        requires slim { slim_broker self.old.step.start ≡ self.old.step.start }
        ensures called { (now : ℕ) (call : Call) → IsUnderWay K.Keep now call again done self.old
            → Called K.Keep now call (viewed_before K.Keep self.old) result (viewed K.Keep self.new) }
        ensures rest { IsAtRest K.Keep self.new }
        ensures reads { K.read_so_far self.new.keep ≡ K.read_so_far self.old.keep }
    {
        self.finish_filled(done, again, 0, &[])
    }
}
