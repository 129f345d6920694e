//! Why a broker with its ends goes no further, with the cause of it (MQTT 5.0, 4.1).

ghost use Rattle.std.specs.Prelude.{◌≡◌, ◌≢◌};
ghost use Rattle.mqtt_keep.specs.declared.keeping.keep.KeepError.TheVariants.{Memory};
ghost use Rattle.mqtt_world.specs.scene.Halting.{IsErrorDue, IsFaultDue, IsStoreDue, fault_of, over_for};
ghost use Rattle.mqtt_world.specs.declared.scene.over.Over.TheVariants as over;

use crate::scene::over::Over;
use mqtt_broker_step::EngineError;
use mqtt_keep::{Keep, KeepError};
use mqtt_world_ends::peers::RunFault;
use std::alloc::AllocError;
use std::marker::{Model, PhantomData};

/// Why a broker with its ends goes no further, and their world is over.
#[derive(Drop)]
pub struct Halt<K: Keep> {
    over: Over,
    store: PhantomData<K>,
}

impl<K: Keep> Model for Halt<K> {
    ghost use Rattle.mqtt_world.specs.declared.scene.over.Over.{Over as Why};
    ghost use Rattle.mqtt_world.specs.scene.Halting.{IsOverDue};

    ghost Value = { Why };

    ghost view = { λ h. h.over };

    // Of `Store` there is a cause.
    ghost invariant = { λ h. IsOverDue K.Keep h.over };
}

impl<K: Keep> Halt<K> {
    /// Memory is wanting. Takes none.
    pub fn by_memory() -> Halt<K>
        ensures { result ≡ over.Memory }
    {
        Halt {
            over: Over::Memory,
            store: PhantomData,
        }
    }

    /// There is a cause of `Store`. Takes no memory.
    pub(crate) fn by_store() -> Halt<K>
        requires { IsStoreDue K.Keep }
        ensures { result ≡ over.Store }
    {
        Halt {
            over: Over::Store,
            store: PhantomData,
        }
    }

    /// A call of the broker was refused. Takes no memory.
    pub(crate) fn by_call(error: EngineError) -> Halt<K>
        requires { IsErrorDue K.Keep error }
    {
        match error {
            EngineError::Memory => Halt::by_memory(),
            EngineError::Stopped | EngineError::Spent => Halt::by_store(),
        }
    }

    /// The broker's opening was refused. The store is dropped.
    pub(crate) fn by_opening(refusal: (K, KeepError)) -> Halt<K>
        requires { refusal.1 ≢ Memory → IsStoreDue K.Keep }
        ensures { result ≡ over_for refusal.1 }
    {
        let (keep, error) = refusal;
        drop(keep);
        match error {
            KeepError::Memory => Halt::by_memory(),
            KeepError::Disk | KeepError::Size | KeepError::Corrupt | KeepError::Schema =>
                Halt::by_store(),
        }
    }

    /// What each call of the world answers. Takes no memory.
    pub fn fault(&self) -> RunFault
        ensures fault { result ≡ fault_of self.now }
        ensures cause { IsFaultDue K.Keep result }
    {
        self.over.fault()
    }
}

impl<K: Keep> From<AllocError> for Halt<K> {
    ghost use Rattle.mqtt_world.specs.declared.scene.over.Over.TheVariants.{Memory};

    ghost from_gives = { λ _ halt. halt ≡ Memory };

    fn from(_error: AllocError) -> Halt<K> {
        Halt::by_memory()
    }
}
