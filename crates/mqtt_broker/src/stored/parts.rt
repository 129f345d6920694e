//! What an engine has: its store and what is at hand of it, the tables with the step under way, and the index that goes along
//! (MQTT 5.0, 3.3, 4.1).
ghost use Rattle.std.specs.Prelude.{◌≡◌, OnOk, IfErr};
ghost use Rattle.mqtt_rules.specs.step.Laws.{IsOrdered};
ghost use Rattle.mqtt_rules.specs.step.Routing.{subscribers};
ghost use Rattle.mqtt_rules.specs.alike.Slim.{slim_broker};
ghost use Rattle.mqtt_rules.specs.filling.Entered.{AreSlimBut};
ghost use Rattle.mqtt_broker_step.specs.Stepping.{at_rest};
ghost use Rattle.mqtt_broker_queue.specs.subscribers.Indexing.{Serves};
ghost use Rattle.mqtt_broker.specs.stored.Finishing.{IsAtRest};
ghost use Rattle.mqtt_broker.specs.stored.Viewing.{viewed};

use mqtt_broker_looks::at_hand::AllAtHand;
use mqtt_broker_queue::subscribers::Index;
use mqtt_broker_step::{EngineError, Step};
use mqtt_keep::Keep;
use std::alloc::Global;
use std::hash::RandomState;

/// What an engine has. What holds of it between calls is the invariant of `Engine`.
#[derive(Drop)]
pub(crate) struct EngineParts<K: Keep> {
    pub(crate) alloc: Global,
    /// For an index that is made anew.
    pub(crate) hasher: RandomState,
    pub(crate) keep: K,
    /// What some waiting copies say: a cache of what the store has.
    pub(crate) hand: AllAtHand,
    pub(crate) step: Step,
    pub(crate) index: Index,
    /// Whether the index was thrown away, and is to be made anew.
    pub(crate) is_stale: bool,
    /// Whether the store has failed.
    pub(crate) stopped: bool,
    /// Milliseconds: nothing that is stored is due before this moment.
    pub(crate) quiet: u64,
}

impl<K: Keep> EngineParts<K> {
    /// The index is that of the subscriptions that stand: it is made anew if it was thrown away. `Memory` (1) alone
    /// refuses.
    pub(crate) fn renew(&mut self) -> Result<(), EngineError>
        requires { IsAtRest K.Keep self.old }
        ensures ok { OnOk result (Serves self.new.index.sessions
            (subscribers self.new.step.broker.records)) }
        ensures fault { IfErr result (λ error. error ≡ EngineError.Memory) }
        ensures same { viewed K.Keep self.new ≡ viewed K.Keep self.old }
        ensures step { self.new.step ≡ self.old.step }
        ensures rest { IsAtRest K.Keep self.new }
    {
        if !self.is_stale {
            return Ok(());
        }
        match Index::over(self.alloc, self.hasher, &self.step) {
            Ok(mut made) => {
                made.keep_turns(&self.index);
                self.index = made;
                self.is_stale = false;
                Ok(())
            }
            Err(_) => Err(EngineError::Memory),
        }
    }

    /// The step under way is taken back, and the turns that groups took in it. The copies at these places, which a pump
    /// filled, say nothing but their topics again. Takes no memory.
    pub(crate) fn take_back(&mut self, birth: u64, places: &[u64])
        requires slim { AreSlimBut birth places.now self.old.step.start.records }
        requires ordered { IsOrdered self.old.step.start.records }
        ensures { self.new ≡ record self.old {
          step = at_rest self.old.step.limits (slim_broker self.old.step.start);
        } }
    {
        self.step.take_back();
        self.step.make_slim(birth, places);
        self.index.take_back();
    }
}
