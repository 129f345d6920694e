//! The engine of the broker over a store, with the bytes of its lines (MQTT 5.0, 2.1, 4.1).
ghost use Rattle.std.specs.Prelude.{◌≡◌, ◌≤◌, length, IfOk, option_copied};
ghost use Rattle.mqtt_base.specs.declared.limits.TheConstants.{PUMP_LIMIT};
ghost use Rattle.mqtt_rules.specs.step.Contents.{IsTaken};
ghost use Rattle.mqtt_rules.specs.step.Step.{BrokerStep, Input, Lost, NewLine, Pump, Tick, copy_of, nothing_told};
ghost use Rattle.mqtt_broker_step.specs.Doing.{next_line};
ghost use Rattle.mqtt_broker_looks.specs.at_hand.Reading.{AskedAtMost};
ghost use Rattle.mqtt_broker.specs.engine.Piece.{PieceCalled};
ghost use Rattle.mqtt_broker.specs.engine.Serving.{IsPassedOver, Served, with_linked};
ghost use Rattle.mqtt_broker.specs.stored.Settling.{SettleCalled};

use crate::engine::asking::{pass_over, take_piece};
use crate::engine::framers::Framers;
use crate::engine::held::end_closed;
use crate::stored::{Engine as Inner, Outcome};
use mqtt_base::CopyId;
use mqtt_broker_step::EngineError;
use mqtt_keep::{Keep, Settles};
use mqtt_packet::Packet;
use std::marker::Model;

/// A broker over a store. A line, one connection, is named by its number. What its calls say of queues, and of what the
/// store holds, they say if the store's device has returned what was written.
pub struct Engine<K: Keep> {
    pub(crate) inner: Inner<K>,
    pub(crate) framers: Framers,
}

impl<K: Keep> Model for Engine<K> {
    ghost use Rattle.mqtt_broker.specs.engine.Serving.{IsOfLines, Serving};

    ghost Value = { Serving K };

    ghost view = { λ e. record { running = e.inner; held = e.framers } };

    // The lines that hold bytes are those that are linked, and their numbers were given.
    ghost invariant = { λ e. IsOfLines e.framers e.inner.broker };
}

// Written out, so that who lets an engine go needs no proof of its own for each type in it.
impl<K: Keep> Drop for Engine<K> {
    fn drop(self) {
        let Engine { inner, framers } = self;
        drop(framers);
        drop(inner);
    }
}

impl<K: Keep> Engine<K> {
    /// A line is linked at a moment in milliseconds, and gets the next number, from 1. None if there is no room for it or 2^62
    /// were linked. Works after the store has failed too. Takes no memory.
    pub fn link(&mut self, moment: u64) -> Option<u64>
        ensures line { result ≡ next_line self.old.running.limits self.old.running.broker }
        ensures step { BrokerStep self.old.running.limits self.old.running.broker moment NewLine nothing_told
            self.new.running.broker }
        ensures same { self.new.running
            ≡ record self.old.running { broker = self.new.running.broker } }
        ensures held { self.new.held ≡ with_linked result self.old.held }
    {
        match self.inner.link(moment) {
            Some(line) => {
                self.framers.begin(line);
                Some(line)
            }
            None => None,
        }
    }

    /// Bytes come on a line: as many as fit are taken, and the first packet, or fault, that is whole is answered, at most
    /// one (2.1, 3, 4.13). `taken` says how many were taken, and `again` whether more is whole: give the rest on, and
    /// call again. On a line that isn't linked nothing is done, without memory. `Memory` (1) and `Spent` (3): nothing
    /// changed, and no byte was taken. `Stopped` (2): the store has failed, or told what wasn't stored; no byte was taken,
    /// the same lines are linked, and no more is said of the broker.
    pub fn piece(&mut self, line: u64, piece: &[u8], moment: u64) -> Result<Outcome, EngineError>
        ensures called { PieceCalled K.Keep moment line piece.now self.old result self.new }
        ensures within { IfOk result (λ out. out.taken ≤ length piece.now) }
        ensures unlinked { IsPassedOver line self.old result }
    {
        if self.inner.is_stopped() {
            return Err(EngineError::Stopped);
        }
        if !self.framers.has(line) {
            return Ok(self.inner.rest_at(moment));
        }
        take_piece(&mut self.inner, &mut self.framers, line, piece, moment)
    }

    /// A packet comes on a line by itself, and is answered (3, 4). On a line that isn't linked nothing is done, without
    /// memory. Refusals are those of `piece`.
    pub fn input(&mut self, line: u64, packet: &Packet, moment: u64) -> Result<Outcome, EngineError>
        requires { IsTaken packet.now }
        ensures called { Served K.Keep moment (Input line packet.now) self.old result self.new }
        ensures unlinked { IsPassedOver line self.old result }
    {
        if !self.framers.has(line) {
            return pass_over(&mut self.inner, moment);
        }
        let answer = self.inner.input(line, packet, moment);
        end_closed(&mut self.framers, &answer);
        answer
    }

    /// A line is lost: it closes, and its session with it (4.1). On a line that isn't linked nothing is done, without
    /// memory. Refusals are those of `piece`.
    pub fn lost(&mut self, line: u64, moment: u64) -> Result<Outcome, EngineError>
        ensures called { Served K.Keep moment (Lost line) self.old result self.new }
        ensures unlinked { IsPassedOver line self.old result }
    {
        if !self.framers.has(line) {
            return pass_over(&mut self.inner, moment);
        }
        let answer = self.inner.lost(line, moment);
        end_closed(&mut self.framers, &answer);
        answer
    }

    /// A turn of sending: what waits for the session of a line goes out, up to 16 PUBLISH (4.6, 4.9); `again` says whether
    /// more may be there. The store is asked for contents at most 16 times. On a line that isn't linked nothing is done,
    /// without memory. Refusals are those of `piece`.
    pub fn pump(&mut self, line: u64, moment: u64) -> Result<Outcome, EngineError>
        ensures called { Served K.Keep moment (Pump line) self.old result self.new }
        ensures reads { AskedAtMost PUMP_LIMIT (K.read_so_far self.old.running.keep)
            (K.read_so_far self.new.running.keep) }
        ensures unlinked { IsPassedOver line self.old result }
    {
        if self.inner.has_no_copies(line) {
            return Ok(self.inner.pump_nothing(line, moment));
        }
        if !self.framers.has(line) {
            return pass_over(&mut self.inner, moment);
        }
        let answer = self.inner.send_waiting(line, moment);
        end_closed(&mut self.framers, &answer);
        answer
    }

    /// A turn of the clock: the first of what is due is done, and nothing else (3.1.2.10, 3.1.2.11.2, 3.1.3.2.2,
    /// 3.3.2.3.3); `again` says whether one was. Refusals are those of `piece`.
    pub fn tick(&mut self, moment: u64) -> Result<Outcome, EngineError>
        ensures { Served K.Keep moment Tick self.old result self.new }
    {
        let answer = self.inner.tick(moment);
        end_closed(&mut self.framers, &answer);
        answer
    }

    /// The copy that has a packet identifier in the queue of a line's session. Takes no memory.
    pub fn copy_of(&self, line: u64, identifier: u16) -> Option<&CopyId>
        ensures { option_copied result ≡ copy_of line identifier self.now.running.broker }
    {
        self.inner.copy_of(line, identifier)
    }

    /// The engine without the bytes of its lines, to be looked at. Takes no memory.
    pub fn inner(&self) -> &Inner<K>
        ensures { result.now ≡ self.now.running }
    {
        &self.inner
    }

    /// How many failures its store has counted, modulo 2^64. Takes no memory.
    pub fn failures(&self) -> u64
        ensures { result ≡ K.counted self.now.running.keep }
    {
        self.inner.failures()
    }

    /// How often its store was asked for what copies say, modulo 2^64. Takes no memory.
    pub fn reads(&self) -> u64
        ensures { result ≡ K.read_so_far self.now.running.keep }
    {
        self.inner.reads()
    }

    /// Gives the store back. Takes no memory.
    pub fn close(self) -> K
        ensures { result ≡ self.running.keep }
    {
        let Engine { inner, framers } = self;
        drop(framers);
        inner.close()
    }
}

impl<K: Settles> Engine<K> {
    /// What waits to be written is written: from then on a crash leaves what is stored. What lines hold stays. `Memory` (1):
    /// nothing changed, and it may be called again. `Stopped` (2): the store has failed, or its device is full.
    pub fn settle(&mut self) -> Result<(), EngineError>
        ensures called { SettleCalled K.Keep self.old.running result self.new.running }
        ensures held { self.new.held ≡ self.old.held }
    {
        self.inner.settle()
    }
}
