//! What a session puts into its queue of outbound copies, sends from it and ends in it (4.3, 4.4,
//! 4.6, 4.9).

ghost use Rattle.std.specs.Prelude.{◌≡◌, ◌<◌, ◌≤◌, true, length, IfErr, IfOk, OnErr, OnOk};
ghost use Rattle.mqtt_flow.specs.outbound.Queue.{greatest_given, next_place};
ghost use Rattle.mqtt_flow.specs.outbound.Outbound.{KeptOut, anew, entered, expired, has_room, lapsed, pump, pumped, resumed_with, way_made, way_open};

use crate::inbound::FlowFault;
use crate::outbound::entry::{QueueLimits, QueuedCopy, Turn, Way};
use crate::outbound::look::{look_enter, look_expire, look_pump, look_resume};
use crate::outbound::outflow::Outflow;
use crate::outbound::row::Entries;
use mqtt_base::{LAST_NUMBER, QUEUE_LIMIT};
use std::alloc::Global;

impl Outflow {
    /// The turns by which a full queue makes way for a copy; `since` is the first place that the
    /// broker gives in this
    /// step (ours). Refuses a copy for which there is no room: `Full`.
    pub fn look_enter(
        &self,
        alloc: Global,
        limits: QueueLimits,
        since: u64,
    ) -> Result<Vec<Turn>, FlowFault>
        ensures turns { IfOk result (λ turns. turns.items ≡ way_made limits since self.now.queue) }
        ensures only { OnOk result (has_room limits since self.now.queue ≡ true) }
        ensures below { OnOk result (length (way_open limits since self.now.queue) < limits.queue) }
        ensures fault { IfErr result (KeptOut (has_room limits since self.now.queue)) }
    {
        look_enter::<Entries>(alloc, limits, since, self.entries())
    }

    /// Takes in a copy, and answers with the turns by which others made way (ours).
    pub fn enter(
        &mut self,
        alloc: Global,
        limits: QueueLimits,
        since: u64,
        copy: QueuedCopy,
    ) -> Result<Vec<Turn>, FlowFault>
        requires limits { limits.queue ≤ QUEUE_LIMIT }
        requires place { has_room limits since self.old.queue ≡ true →
            next_place (way_open limits since self.old.queue) ≤ LAST_NUMBER }
        ensures turns { IfOk result (λ turns. turns.items ≡ way_made limits since self.old.queue) }
        ensures only { OnOk result (has_room limits since self.old.queue ≡ true) }
        ensures ok { OnOk result (self.new.queue ≡ entered limits since copy self.old.queue) }
        ensures fault { IfErr result (KeptOut (has_room limits since self.old.queue)) }
        ensures err { OnErr result (self.new.queue ≡ self.old.queue) }
    {
        let turns = self.look_enter(alloc, limits, since)?;
        self.make_room()?;
        self.take_all(&turns);
        self.add(copy);
        Ok(turns)
    }

    /// The turns of one pump (4.6, 4.9).
    pub fn look_pump(&self, alloc: Global, way: Way) -> Result<Vec<Turn>, FlowFault>
        ensures turns { IfOk result (λ turns. turns.items ≡ pump way self.now.queue) }
        ensures fault { IfErr result (λ fault. fault ≡ FlowFault.Memory) }
    {
        look_pump(alloc, way, &Entries, self.entries())
    }

    /// Sends what order, window and the limit of `PUMP_LIMIT` let it send, and answers with the
    /// turns taken (4.6, 4.9).
    pub fn pump(&mut self, alloc: Global, way: Way) -> Result<Vec<Turn>, FlowFault>
        requires { greatest_given (pump way self.old.queue) ≤ LAST_NUMBER }
        ensures turns { IfOk result (λ turns. turns.items ≡ pump way self.old.queue) }
        ensures ok { OnOk result (self.new.queue ≡ pumped way self.old.queue) }
        ensures fault { IfErr result (λ fault. fault ≡ FlowFault.Memory) }
        ensures err { OnErr result (self.new.queue ≡ self.old.queue) }
    {
        let turns = self.look_pump(alloc, way)?;
        self.take_all(&turns);
        Ok(turns)
    }

    /// The turns by which copies that wait and are late at a moment leave (3.3.2.3.3).
    pub fn look_expire(&self, alloc: Global, now: u64) -> Result<Vec<Turn>, FlowFault>
        ensures turns { IfOk result (λ turns. turns.items ≡ expired now self.now.queue) }
        ensures fault { IfErr result (λ fault. fault ≡ FlowFault.Memory) }
    {
        look_expire::<Entries>(alloc, now, self.entries())
    }

    /// Ends the copies that wait and are late at a moment, and answers with the turns taken
    /// (3.3.2.3.3).
    pub fn expire(&mut self, alloc: Global, now: u64) -> Result<Vec<Turn>, FlowFault>
        ensures turns { IfOk result (λ turns. turns.items ≡ expired now self.old.queue) }
        ensures ok { OnOk result (self.new.queue ≡ lapsed now self.old.queue) }
        ensures fault { IfErr result (λ fault. fault ≡ FlowFault.Memory) }
        ensures err { OnErr result (self.new.queue ≡ self.old.queue) }
    {
        let turns = self.look_expire(alloc, now)?;
        self.take_all(&turns);
        Ok(turns)
    }

    /// The turns with which a resumption begins: a PUBREL for each released copy, in the order of
    /// release (4.4, 4.6).
    pub fn look_resume(&self, alloc: Global) -> Result<Vec<Turn>, FlowFault>
        ensures turns { IfOk result (λ turns. turns.items ≡ resumed_with self.now.queue) }
        ensures fault { IfErr result (λ fault. fault ≡ FlowFault.Memory) }
    {
        look_resume::<Entries>(alloc, self.entries())
    }

    /// Begins a resumed connection, on which nothing was sent, and answers with the turns taken
    /// (4.4, 4.6).
    pub fn resume(&mut self, alloc: Global) -> Result<Vec<Turn>, FlowFault>
        ensures turns { IfOk result (λ turns. turns.items ≡ resumed_with self.old.queue) }
        ensures ok { OnOk result (self.new.queue ≡ anew self.old.queue) }
        ensures fault { IfErr result (λ fault. fault ≡ FlowFault.Memory) }
        ensures err { OnErr result (self.new.queue ≡ self.old.queue) }
    {
        let turns = self.look_resume(alloc)?;
        self.reconnect();
        Ok(turns)
    }
}
