//! Why a world is over (ours).

ghost use Rattle.std.specs.Prelude.{◌≡◌};

use mqtt_world_ends::peers::RunFault;

/// Why a world is over.
#[derive(Clone, Copy, Debug, PartialEq, Eq)]
pub(crate) enum Over {
    /// Want of memory.
    Memory,
    /// The store failed, or a number above 2^62 would be needed.
    Store,
}

impl Over {
    ghost use Rattle.mqtt_world.specs.scene.Halting.{fault_of};

    /// What each call of the world answers. Takes no memory.
    pub(crate) fn fault(self) -> RunFault
        ensures { result ≡ fault_of self }
    {
        match self {
            Over::Memory => RunFault::Memory,
            Over::Store => RunFault::Store,
        }
    }
}
