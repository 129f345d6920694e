//! The engine's store is told to write what waits to be written (MQTT 5.0, 4.1).
ghost use Rattle.std.specs.Prelude.{◌≡◌, false};
ghost use Rattle.mqtt_broker.specs.stored.Finishing.{IsAtRest};
ghost use Rattle.mqtt_broker.specs.stored.Settling.{SettleCalled};
ghost use Rattle.mqtt_broker.specs.stored.Viewing.{viewed};

use crate::stored::engine::Engine;
use crate::stored::finishing::has_failed;
use crate::stored::parts::EngineParts;
use mqtt_broker_step::EngineError;
use mqtt_keep::{KeepError, Settles};

/// Why a store isn't settled: a device that is full has failed.
fn unsettled(error: KeepError) -> EngineError
    ensures memory { error ≡ KeepError.Memory → result ≡ EngineError.Memory }
    ensures stopped { (error ≡ KeepError.Memory → ⊥) → result ≡ EngineError.Stopped }
{
    match error {
        KeepError::Memory => EngineError::Memory,
        _ => EngineError::Stopped,
    }
}

impl<K: Settles> EngineParts<K> {
    /// Between two calls the store writes what waits to be written. An engine whose store fails stops.
    fn settle(&mut self) -> Result<(), EngineError>
        requires rest { IsAtRest K.Keep self.old }
        requires running { self.old.stopped ≡ false }
        ensures called { SettleCalled K.Keep (viewed K.Keep self.old) result (viewed K.Keep self.new) }
        ensures rest { IsAtRest K.Keep self.new }
    {
        match self.keep.settle() {
            Ok(()) => Ok(()),
            Err(error) => {
                let refusal = unsettled(error);
                self.stopped = has_failed(refusal);
                Err(refusal)
            }
        }
    }
}

impl<K: Settles> Engine<K> {
    /// What waits to be written is written: from then on a crash leaves what is stored. `Memory` (1): nothing changed, and it
    /// may be called again. `Stopped` (2): the store has failed, or its device is full.
    pub fn settle(&mut self) -> Result<(), EngineError>
        ensures { SettleCalled K.Keep self.old result self.new }
    {
        if self.parts.stopped {
            return Err(EngineError::Stopped);
        }
        self.parts.settle()
    }
}
