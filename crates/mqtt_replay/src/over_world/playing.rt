//! A world that runs, as one in which the events of a script happen (ours).

ghost use Rattle.std.specs.Prelude.{◌≡◌};

use crate::playing::Runs;
use mqtt_keep::Keep;
use mqtt_script::Event;
use mqtt_world::World;
use mqtt_world_ends::peers::{RunFault, Told};
use std::alloc::{AllocError, Global};
use std::marker::Model;

/// A world that runs. Once it is over there is nothing to see of it: every number is 0, and nothing was handed over.
#[derive(Drop)]
pub(crate) struct Playing<K: Keep> {
    world: World<K>,
}

impl<K: Keep> Model for Playing<K> {
    ghost use Rattle.mqtt_world.specs.world.Worlds.{Lasting};

    ghost Value = { Lasting K };

    ghost view = { λ p. p.world };
}

impl<K: Keep> Playing<K> {
    /// The world, to be played in.
    pub(crate) fn new(world: World<K>) -> Playing<K>
        ensures { result ≡ world }
    {
        Playing { world }
    }
}

impl<K: Keep> Runs for Playing<K> {
    ghost use Rattle.mqtt_replay.specs.over_world.Plays.{play_of};

    ghost play = { play_of K.Keep };

    fn happen(&mut self, event: &Event) -> Result<Told, RunFault> {
        self.world.happen(event)
    }

    fn sent(&self, client: &str) -> u64 {
        self.world.sent(client).unwrap_or(0)
    }

    fn done(&self, client: &str) -> u64 {
        self.world.done(client).unwrap_or(0)
    }

    fn handed(&self, alloc: Global, client: &str) -> Result<Vec<u64>, AllocError> {
        match self.world.handed(alloc, client)? {
            Some(handed) => Ok(handed),
            None => Ok(Vec::new(alloc)),
        }
    }

    fn queue(&self, client: &str) -> u64 {
        self.world.queue(client).unwrap_or(0)
    }

    fn publications(&self) -> u64 {
        self.world.publications().unwrap_or(0)
    }

    fn sessions(&self) -> u64 {
        self.world.sessions().unwrap_or(0)
    }
}
