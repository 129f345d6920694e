//! The store is told of a step, which began on rows that say less than it has (MQTT 5.0, 3.3, 4.1).
ghost use Rattle.std.specs.Prelude.{◌≡◌, ◌≢◌, ◌⊎◌, false, IfOk, OnOk, OnErr, IsErrOf};
ghost use Rattle.mqtt_records.specs.declared.state.records.Records.{Records};
ghost use Rattle.mqtt_records.specs.state.Records.{FitAll, changed_all};
ghost use Rattle.mqtt_rules.specs.step.Step.{is_spent};
ghost use Rattle.mqtt_broker_looks.specs.at_hand.Hand.{SayWhatIsStored};
ghost use Rattle.mqtt_broker_step.specs.Stepping.{CanStore, at_rest, with_entered_slim};

use mqtt_broker_looks::at_hand::AllAtHand;
use mqtt_broker_step::{EngineError, Outcome, Step};
use mqtt_keep::{Keep, KeepError};
use std::alloc::Global;

/// Tells the store of a step that was done in place. The store may hold more than the tables say: what it holds then is
/// promised if the step's rows can be stored over what it held. Then what is at hand goes along with these rows, and the
/// copies that they put say nothing but their topics in memory: what they say stands in the store. If it refuses, the
/// step is taken back. `Memory` (1): nothing changed, here or there. `Stopped` (2): the store failed.
pub(crate) fn commit<K: Keep>(
    alloc: Global,
    keep: &mut K,
    hand: &mut AllAtHand,
    step: &mut Step,
) -> Result<Outcome, EngineError>
    requires loaded { K.is_loaded keep.old }

    // The rows make of the start what is stored now, and none gives a number above the last.
    ensures made { changed_all step.old.rows step.old.start.records
        ≡ step.old.broker.records }
    ensures unspent { is_spent step.old.rows ≡ false }
    ensures outputs { IfOk result (λ out. out.outputs.items ≡ step.old.outputs) }
    ensures closed { IfOk result (λ out. out.closed.items ≡ step.old.closed) }
    ensures reports { IfOk result (λ out. out.reports.items ≡ step.old.reports) }
    ensures done { OnOk result (step.new
        ≡ at_rest step.old.limits (with_entered_slim step.old)) }

    // Whatever the store held, if the rows can be stored over it, it holds what they make of it.
    ensures stored { (r : Records) → K.holds keep.old r → CanStore step.old.rows r
        → OnOk result (K.is_loaded keep.new
        × K.holds keep.new (changed_all step.old.rows r)) }

    // What is at hand says what is stored still.
    ensures at_hand { (r : Records) → SayWhatIsStored hand.old r → FitAll step.old.rows r
        → OnOk result (SayWhatIsStored hand.new (changed_all step.old.rows r)) }

    // Without the store's Ok nothing changed here, and after want of memory nothing there.
    ensures same { OnErr result (step.new ≡ at_rest step.old.limits step.old.start) }
    ensures kept { OnErr result (hand.new ≡ hand.old) }
    ensures memory { (r : Records) → K.holds keep.old r → CanStore step.old.rows r
        → IsErrOf result EngineError.Memory → K.is_loaded keep.new × K.holds keep.new r }
    ensures spent { IsErrOf result EngineError.Spent → ⊥ }

    // It stops if the store counted a failure, and only then.
    ensures cause { IsErrOf result EngineError.Stopped
        → K.counted keep.new ≢ K.counted keep.old }
    ensures uncounted { (IsErrOf result EngineError.Stopped → ⊥)
        → K.counted keep.new ≡ K.counted keep.old }

    // A crash leaves what it left before the step, or what the store holds after it.
    ensures crash { (r left : Records) → K.holds keep.old r → CanStore step.old.rows r
        → K.leaves keep.new left → K.leaves keep.old left ⊎ (left ≡ changed_all step.old.rows r) }

    // A device that is sound after the call was sound before it, and the store wasn't asked for contents.
    ensures sound { K.is_sound keep.new → K.is_sound keep.old }
    ensures reads { K.read_so_far keep.new ≡ K.read_so_far keep.old }
{
    match keep.apply(step.rows()) {
        Ok(()) => {
            let _is_all = hand.follow(alloc, step.rows());
            Ok(step.settle_slim())
        }
        Err(error) => {
            step.take_back();
            match error {
                KeepError::Memory => Err(EngineError::Memory),
                _ => Err(EngineError::Stopped),
            }
        }
    }
}
