//! The engine: a broker over a store that has what its waiting copies say, one call after the other (MQTT 5.0, 3.3, 4.1).
ghost use Rattle.std.specs.Prelude.{◌≡◌, None, Some, Ok, false, ◌&&◌, not, is_some, IfSome, option_copied};
ghost use Rattle.mqtt_rules.specs.step.Routing.{subscribers};
ghost use Rattle.mqtt_rules.specs.step.State.{Broker, line_at};
ghost use Rattle.mqtt_rules.specs.step.Step.{BrokerStep, Call, NewLine, Pump, at_moment, copy_of, nothing_told};
ghost use Rattle.mqtt_rules.specs.alike.Slim.{slim_broker};
ghost use Rattle.mqtt_rules.specs.filling.Filling.{filled};
ghost use Rattle.mqtt_broker_step.specs.Doing.{next_line};
ghost use Rattle.mqtt_broker_step.specs.Stepping.{at_rest};
ghost use Rattle.mqtt_broker_queue.specs.subscribers.Indexing.{Serves};
ghost use Rattle.mqtt_broker.specs.engine.Looks.{has_none, queue_on_line};
ghost use Rattle.mqtt_broker.specs.stored.Calling.{Called, IsOn, Tells};
ghost use Rattle.mqtt_broker.specs.stored.Finishing.{HoldsWhole};

use crate::stored::copies::{copies_on, has_none};
use crate::stored::holding::copy_of;
use crate::stored::outcome::{Outcome, nothing};
use crate::stored::parts::EngineParts;
use mqtt_base::CopyId;
use mqtt_broker_looks::at_hand::AllAtHand;
use mqtt_broker_queue::subscribers::Index;
use mqtt_broker_step::{EngineError, Step};
use mqtt_keep::Keep;
use std::alloc::Global;
use std::hash::RandomState;
use std::marker::Model;

/// A broker over a store, which has what its waiting copies say. What its calls say of queues, and of what the store holds,
/// they say if the store's device has returned what was written.
#[derive(Drop)]
pub struct Engine<K: Keep> {
    pub(crate) parts: EngineParts<K>,
}

impl<K: Keep> Model for Engine<K> {
    ghost use Rattle.mqtt_broker.specs.stored.Running.{Running};
    ghost use Rattle.mqtt_broker.specs.stored.Finishing.{IsAtRest};
    ghost use Rattle.mqtt_broker.specs.stored.Viewing.{viewed};

    ghost Value = { Running K };

    // Each waiting copy says what the store has for its place.
    ghost view = { λ e. viewed K.Keep e.parts };

    // Between calls no step is under way, all rows are slim, and all that the engine has is of its broker.
    ghost invariant = { λ e. IsAtRest K.Keep e.parts };
}

impl<K: Keep> Engine<K> {
    /// An engine whose store holds a whole broker that is alike to the step's, with no step under way, and with the index
    /// of the subscriptions that stand. Rows are made slim: what waiting copies say is the store's. Takes no memory.
    pub(crate) fn over(
        alloc: Global,
        hasher: RandomState,
        keep: K,
        step: Step,
        index: Index,
    ) -> Engine<K>
        requires rest { step ≡ at_rest step.limits step.broker }
        requires whole { (whole : Broker) × HoldsWhole K.Keep keep step.limits step.broker whole }
        requires serves { Serves index.sessions (subscribers step.broker.records) }
        ensures { result ≡ record {
          keep = keep;
          limits = step.limits;
          broker = filled (K.fillings keep) (slim_broker step.broker);
          stopped = false;
        } }
    {
        let mut index = index;
        index.settle();
        let mut step = step;
        step.make_all_slim();
        let parts = EngineParts {
            alloc,
            hasher,
            keep,
            hand: AllAtHand::new(alloc),
            step,
            index,
            is_stale: false,
            stopped: false,
            quiet: 0,
        };
        Engine { parts }
    }

    /// A line is linked at a moment in milliseconds, and gets the next number, from 1. None if there is no room for it
    /// stand or 2^62 were linked. Works after the store has failed too. Takes no memory.
    pub fn link(&mut self, moment: u64) -> Option<u64>
        ensures line { result ≡ next_line self.old.limits self.old.broker }
        ensures step { BrokerStep self.old.limits self.old.broker moment NewLine nothing_told
            self.new.broker }
        ensures same { self.new ≡ record self.old { broker = self.new.broker } }
    {
        self.parts.step.link(moment)
    }

    /// Gives the store back. Takes no memory.
    pub fn close(self) -> K
        ensures { result ≡ self.keep }
    {
        let EngineParts {
            keep,
            step,
            index,
            ..
        } = self.parts;
        drop(step);
        drop(index);
        keep
    }

    /// Whether its store has failed; while it hasn't, and its device is sound, it holds what is stored. Takes no memory.
    pub fn is_stopped(&self) -> bool
        ensures exact { result ≡ self.now.stopped }
        ensures stored { self.now.stopped ≡ false → K.is_sound self.now.keep
            → K.holds self.now.keep self.now.broker.records }
    {
        self.parts.stopped
    }

    /// How many failures its store has counted, modulo 2^64. Takes no memory.
    pub fn failures(&self) -> u64
        ensures { result ≡ K.counted self.now.keep }
    {
        self.parts.keep.failures()
    }

    /// How often its store was asked for contents, modulo 2^64. Takes no memory.
    pub fn reads(&self) -> u64
        ensures { result ≡ K.read_so_far self.now.keep }
    {
        self.parts.keep.reads()
    }

    /// Nothing comes about but that the moment is the greatest handed in. Takes no memory.
    pub fn rest_at(&mut self, moment: u64) -> Outcome
        ensures told { Tells nothing_told result }
        ensures ok { self.new ≡ record self.old { broker = at_moment moment self.old.broker } }
    {
        self.parts.step.rest_at(moment);
        nothing(self.parts.alloc)
    }

    /// What comes, or is asked, on a line that isn't linked does nothing but that the moment is the greatest handed in.
    /// Takes no memory.
    pub(crate) fn skip(&mut self, line: u64, moment: u64) -> Result<Outcome, EngineError>
        requires running { self.old.stopped ≡ false }
        requires unlinked { line_at line self.old.broker ≡ None }
        ensures called { (call : Call) → IsOn line call
            → Called K.Keep moment call self.old result self.new }
        ensures keep { self.new.keep ≡ self.old.keep }
    {
        self.parts.step.rest_at(moment);
        Ok(nothing(self.parts.alloc))
    }

    /// A turn of sending on a line does nothing but that the moment is the greatest handed in, if its session, where one is
    /// connected on it, has no copies. Takes no memory.
    pub(crate) fn pump_nothing(&mut self, line: u64, moment: u64) -> Outcome
        requires running { self.old.stopped ≡ false }
        requires none { IfSome (queue_on_line line self.old.broker) (λ copies. copies ≡ 0) }
        ensures told { Tells nothing_told result }
        ensures called { Called K.Keep moment (Pump line) self.old (Ok result) self.new }
        ensures ok { self.new ≡ record self.old { broker = at_moment moment self.old.broker } }
    {
        let parts = &mut self.parts;
        parts.step.rest_at(moment);
        nothing(parts.alloc)
    }

    /// Whether the store has not failed, and a session without copies is connected on a line. Takes no memory.
    pub(crate) fn has_no_copies(&self, line: u64) -> bool
        ensures { result ≡ has_none (queue_on_line line self.now.broker) && not self.now.stopped }
    {
        has_none(copies_on(&self.parts.step, line)) && !self.parts.stopped
    }

    /// The tables, to be looked at: no step is under way on them, and filled with what the store has they are the broker's.
    /// Takes no memory.
    pub fn step(&self) -> &Step
        ensures rest { result.now ≡ at_rest self.now.limits result.now.broker }
        ensures whole { filled (K.fillings self.now.keep) result.now.broker ≡ self.now.broker }
    {
        &self.parts.step
    }

    /// Whether a line is linked. Takes no memory.
    #[tactic(auto, using(crate::proofs::stored_lemmas::Holders::row_of))]
    pub fn is_linked(&self, line: u64) -> bool
        ensures { result ≡ is_some (line_at line self.now.broker) }
    {
        match self.parts.step.line(line) {
            Some(_) => true,
            None => false,
        }
    }

    /// The copy that has a packet identifier in the queue of a line's session. Takes no memory.
    pub fn copy_of(&self, line: u64, identifier: u16) -> Option<&CopyId>
        ensures { option_copied result ≡ copy_of line identifier self.now.broker }
    {
        copy_of(&self.parts.step, line, identifier)
    }
}
