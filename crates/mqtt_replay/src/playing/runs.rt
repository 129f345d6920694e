//! A world in which the events of a script happen (ours).

ghost use Rattle.std.specs.Prelude.{◌≡◌, ℕ, IfOk, IsErrOf};
ghost use Rattle.mqtt_world_ends.specs.declared.peers.told.RunFault.{RunFault};
ghost use Rattle.mqtt_replay.specs.playing.Playing.{Play};

use mqtt_script::Event;
use mqtt_world_ends::peers::{RunFault, Told};
use std::alloc::{AllocError, Global};

/// A world in which the events of a script happen, and what is seen of it.
pub trait Runs: Drop {
    // What can happen there, and what is seen.
    ghost play: { Play Self };

    /// An event happens, and this is told of it. `BadEvent` if it can't happen there; after another fault the world
    /// is over.
    fn happen(&mut self, event: &Event) -> Result<Told, RunFault>
        ensures happens { IfOk result (λ told. play.happens self.old event.now told self.new) }
        ensures bad { (place : ℕ) → IsErrOf result (RunFault.BadEvent place)
            → play.is_bad self.old event.now }
        ensures cause { IsErrOf result RunFault.Store → play.due };

    /// How many messages a publisher has; 0 if there is no such publisher. Takes no memory.
    fn sent(&self, client: &str) -> u64
        ensures { result ≡ play.sent self.now client.now };

    /// How many handshakes of a publisher are completed; 0 if there is no such publisher. Takes no memory.
    fn done(&self, client: &str) -> u64
        ensures { result ≡ play.done self.now client.now };

    /// The publications of the QoS 2 copies that a receiver was handed, in order; none if there is no such receiver.
    fn handed(&self, alloc: Global, client: &str) -> Result<Vec<u64>, AllocError>
        ensures { IfOk result (λ handed. handed.items ≡ play.handed self.now client.now) };

    /// How many copies are in the queue of a receiver's session; 0 if there is none. Takes no memory.
    fn queue(&self, client: &str) -> u64
        ensures { result ≡ play.queue self.now client.now };

    /// How many publications the broker accepted. Takes no memory.
    fn publications(&self) -> u64
        ensures { result ≡ play.publications self.now };

    /// How many sessions the broker has. Takes no memory.
    fn sessions(&self) -> u64
        ensures { result ≡ play.sessions self.now };
}
