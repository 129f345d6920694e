//! A session's outbound copies (4.3, 4.4, 4.6, 4.9).

ghost use Rattle.std.specs.Prelude.{◌≡◌, ◌<◌, ◌≤◌, [], length, OnOk, OnErr, IfErr};
ghost use Rattle.std.specs.Option.{option_copied};
ghost use Rattle.mqtt_flow.specs.outbound.Queue.{IsQueue, after, after_all, greatest_given, holder, next_order, next_place, order_given};
ghost use Rattle.mqtt_flow.specs.outbound.Outbound.{anew, pushed};

use crate::inbound::FlowFault;
use crate::outbound::change::{apply, forget};
use crate::outbound::entry::{Entry, QueuedCopy, Turn};
use crate::outbound::look::holder;
use crate::outbound::plan::{greatest_order, greatest_place};
use crate::outbound::row::Entries;
use mqtt_base::{LAST_NUMBER, Phase, QUEUE_LIMIT};
use std::alloc::Global;
use std::marker::Model;

/// The copies in a session's queue, in the order in which they entered.
#[derive(Drop)]
pub struct Outflow {
    entries: Vec<Entry>,
}

impl Model for Outflow {
    ghost use Rattle.std.specs.Prelude.{◌-◌, vec_len, vec_capacity};
    ghost use Rattle.mqtt_flow.specs.outbound.Outflow.{OutboundQueue};
    ghost use Rattle.mqtt_flow.specs.outbound.Queue.{IsQueue};

    ghost Value = { OutboundQueue };

    ghost view = { λ a. record { queue = a.entries.items; room = vec_capacity a.entries - vec_len a.entries } };

    ghost invariant = { λ a. IsQueue a.entries.items };
}

impl Outflow {
    /// A queue without copies. Takes no memory.
    pub fn new(alloc: Global) -> Outflow
        ensures { result.queue ≡ [] }
    {
        Outflow {
            entries: Vec::new(alloc),
        }
    }

    /// Makes the queue of a session as a store keeps it (4.1). Takes no memory.
    pub fn from_entries(entries: Vec<Entry>) -> Outflow
        requires { IsQueue entries.items }
        ensures { result.queue ≡ entries.items }
    {
        Outflow { entries }
    }

    /// The copies, in the order in which they entered.
    pub fn entries(&self) -> &[Entry]
        ensures value { result.now ≡ self.now.queue }
        ensures lawful { IsQueue self.now.queue }
    {
        &self.entries
    }

    /// The copy that has a packet identifier (2.2.1).
    pub fn holder(&self, identifier: u16) -> Option<&Entry>
        ensures { option_copied result ≡ holder identifier self.now.queue }
    {
        holder::<Entries>(&self.entries, identifier)
    }

    /// The place that the next copy gets.
    pub fn next_place(&self) -> u64
        ensures { result ≡ next_place self.now.queue }
    {
        greatest_place(&self.entries) + 1
    }

    /// The order that the next released copy gets.
    pub fn next_order(&self) -> u64
        ensures { result ≡ next_order self.now.queue }
    {
        greatest_order::<Entries>(&self.entries) + 1
    }

    /// Takes a turn. Takes no memory.
    pub fn take(&mut self, turn: Turn)
        requires { order_given turn ≤ LAST_NUMBER }
        ensures queue { self.new.queue ≡ after turn self.old.queue }
        ensures room { self.old.room ≤ self.new.room }
    {
        apply(&mut self.entries, turn);
    }

    /// Takes turns, one after the other. Takes no memory.
    pub fn take_all(&mut self, turns: &[Turn])
        requires { greatest_given turns.now ≤ LAST_NUMBER }
        ensures queue { self.new.queue ≡ after_all turns.now self.old.queue }
        ensures room { self.old.room ≤ self.new.room }
    {
        for turn in turns {
            self.take(*turn);
        }
    }

    /// Begins a connection: nothing was sent on it (4.4). Takes no memory.
    pub fn reconnect(&mut self)
        ensures queue { self.new.queue ≡ anew self.old.queue }
        ensures room { self.old.room ≤ self.new.room }
    {
        forget(&mut self.entries);
    }

    /// Makes room for a copy.
    pub fn make_room(&mut self) -> Result<(), FlowFault>
        ensures ok { OnOk result (1 ≤ self.new.room) }
        ensures queue { self.new.queue ≡ self.old.queue }
        ensures fault { IfErr result (λ fault. fault ≡ FlowFault.Memory) }
    {
        self.make_room_for(1)
    }

    /// Makes room for so many copies.
    pub fn make_room_for(&mut self, count: usize) -> Result<(), FlowFault>
        ensures ok { OnOk result (count ≤ self.new.room) }
        ensures queue { self.new.queue ≡ self.old.queue }
        ensures fault { IfErr result (λ fault. fault ≡ FlowFault.Memory) }

        // Want of memory is the only refusal, and only if there was too little room.
        ensures memory { OnErr result (self.old.room < count) }
    {
        self.entries.reserve(count).map_err(|_| FlowFault::Memory)
    }

    /// Takes in a copy for which there is room. Takes no memory.
    pub fn add(&mut self, copy: QueuedCopy)
        requires room { 1 ≤ self.old.room }
        requires few { length self.old.queue < QUEUE_LIMIT }
        requires place { next_place self.old.queue ≤ LAST_NUMBER }
        ensures { self.new.queue ≡ pushed copy self.old.queue }
    {
        let place = self.next_place();
        let entry = Entry {
            place,
            copy,
            phase: Phase::Waiting,
            here: false,
        };
        self.entries.push(entry).unwrap();
    }
}
