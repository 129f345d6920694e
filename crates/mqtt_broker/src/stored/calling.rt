//! What is asked of the engine: a packet, a fault, a loss, a turn of sending, a turn of the clock (MQTT 5.0, 3, 4).
ghost use Rattle.std.specs.Prelude.{◌≡◌, None, Some, true, false, IfOk, IfErr, OnErr, OnOk};
ghost use Rattle.mqtt_base.specs.declared.limits.TheConstants.{PUMP_LIMIT};
ghost use Rattle.mqtt_rules.specs.step.Contents.{IsTaken};
ghost use Rattle.mqtt_rules.specs.step.Lines.{session_on};
ghost use Rattle.mqtt_rules.specs.step.Routing.{subscribers};
ghost use Rattle.mqtt_rules.specs.step.Step.{BadInput, Input, Lost, Pump, Tick};
ghost use Rattle.mqtt_broker_step.specs.Stepping.{at_rest};
ghost use Rattle.mqtt_broker_acts.specs.calls.Doing.{IsCalled};
ghost use Rattle.mqtt_broker_acts.specs.clock.Quiet.{AreQuietBefore};
ghost use Rattle.mqtt_broker_acts.specs.calls.Ready.{IsReady};
ghost use Rattle.mqtt_broker_looks.specs.at_hand.Reading.{AskedAtMost};
ghost use Rattle.mqtt_broker_queue.specs.subscribers.Indexing.{Serves};
ghost use Rattle.mqtt_broker.specs.stored.Calling.{Called};

use crate::stored::engine::Engine;
use crate::stored::outcome::Outcome;
use mqtt_base::Reason;
use mqtt_broker_acts::calls::{fault_at, first_at, input, lost_at, tick_at};
use mqtt_broker_acts::clock::quiet_before;
use mqtt_broker_queue::subscribers::Index;
use mqtt_broker_step::{EngineError, Step, StepFault};
use mqtt_keep::Keep;
use mqtt_packet::Packet;
use std::alloc::Global;

/// The session that is connected on a line, if the line is linked.
fn session_of(step: &Step, line: u64) -> Option<Option<u64>>
    ensures { result ≡ session_on line step.now.broker }
{
    match step.line(line) {
        Some(state) => Some(state.session()),
        None => None,
    }
}

/// The step of a packet on a line that is linked, with the session that is connected on it.
fn input_at(
    alloc: Global,
    index: &mut Index,
    step: &mut Step,
    line: u64,
    session: Option<u64>,
    packet: &Packet,
    moment: u64,
) -> Result<(), StepFault>
    requires rest { step.old ≡ at_rest step.old.limits step.old.broker }
    requires ready { IsReady step.old.limits step.old.broker }
    requires linked { session_on line step.old.broker ≡ Some session }
    requires taken { IsTaken packet.now }
    requires serves { Serves index.old.sessions (subscribers step.old.broker.records) }
    ensures called { IsCalled moment (Input line packet.now) false result step.new }
    ensures start { step.new.start ≡ step.old.broker }
    ensures limits { step.new.limits ≡ step.old.limits }
    ensures serves { Serves index.new.sessions (subscribers step.old.broker.records) }
{
    match session {
        Some(birth) => input(alloc, index, step, line, birth, packet, moment),
        None => first_at(alloc, index, step, line, packet, moment),
    }
}

/// The step of a turn of the clock, and whether more may be there.
fn tick_once(
    alloc: Global,
    index: &mut Index,
    step: &mut Step,
    moment: u64,
    quiet: u64,
    again: &mut bool,
) -> Result<(), StepFault>
    requires rest { step.old ≡ at_rest step.old.limits step.old.broker }
    requires ready { IsReady step.old.limits step.old.broker }
    requires serves { Serves index.old.sessions (subscribers step.old.broker.records) }
    requires quiet { AreQuietBefore quiet step.old.broker.records }
    ensures called { IsCalled moment Tick again.new result step.new }
    ensures start { step.new.start ≡ step.old.broker }
    ensures limits { step.new.limits ≡ step.old.limits }
    ensures serves { Serves index.new.sessions (subscribers step.old.broker.records) }
{
    match tick_at(alloc, index, step, moment, quiet) {
        Ok(more) => {
            *again = more;
            Ok(())
        }
        Err(fault) => Err(fault),
    }
}

/// The moment before which nothing that is stored is due, after a turn of the clock: if it has come and nothing was
/// due, it is sought anew. Takes no memory.
fn later_quiet(step: &Step, quiet: u64, was_due: bool) -> u64
    requires { AreQuietBefore quiet step.now.broker.records }
    ensures { AreQuietBefore result step.now.broker.records }
{
    if was_due || step.moment() < quiet {
        quiet
    } else {
        quiet_before(step)
    }
}

impl<K: Keep> Engine<K> {
    /// `Stopped` (2) if the store has failed.
    fn runs(&self) -> Result<(), EngineError>
        ensures ok { OnOk result (self.now.stopped ≡ false) }
        ensures fault { IfErr result (λ error. error ≡ EngineError.Stopped) }
        ensures err { OnErr result (self.now.stopped ≡ true) }
    {
        if self.parts.stopped {
            return Err(EngineError::Stopped);
        }
        Ok(())
    }

    /// The session that is connected on a line, if the line is linked. `Stopped` (2) if the store has failed.
    fn session_on(&self, line: u64) -> Result<Option<Option<u64>>, EngineError>
        ensures session { IfOk result (λ session. session ≡ session_on line self.now.broker) }
        ensures ok { OnOk result (self.now.stopped ≡ false) }
        ensures fault { IfErr result (λ error. error ≡ EngineError.Stopped) }
        ensures err { OnErr result (self.now.stopped ≡ true) }
    {
        self.runs()?;
        Ok(session_of(&self.parts.step, line))
    }

    /// A packet on a line that is linked, with the session that is connected on it.
    fn input_on(
        &mut self,
        line: u64,
        session: Option<u64>,
        packet: &Packet,
        moment: u64,
    ) -> Result<Outcome, EngineError>
        requires running { self.old.stopped ≡ false }
        requires linked { session_on line self.old.broker ≡ Some session }
        requires taken { IsTaken packet.now }
        ensures { Called K.Keep moment (Input line packet.now) self.old result self.new }
    {
        self.parts.renew()?;
        let (alloc, index, step) = (
            self.parts.alloc,
            &mut self.parts.index,
            &mut self.parts.step,
        );
        let done = input_at(alloc, index, step, line, session, packet, moment);
        self.parts.finish(done, false)
    }

    /// A packet, the first whole one of a line, is answered (3, 4). On a line that isn't linked nothing is done, without
    /// memory. `Memory` (1) and `Spent` (3): nothing changed. `Stopped` (2): the store has failed; the same lines are
    /// linked, and no more is said of the broker.
    pub fn input(&mut self, line: u64, packet: &Packet, moment: u64) -> Result<Outcome, EngineError>
        requires { IsTaken packet.now }
        ensures { Called K.Keep moment (Input line packet.now) self.old result self.new }
    {
        match self.session_on(line)? {
            Some(session) => self.input_on(line, session, packet, moment),
            None => self.skip(line, moment),
        }
    }

    /// A fault on a line that is linked, with the session that is connected on it.
    fn bad_input_on(
        &mut self,
        line: u64,
        session: Option<u64>,
        is_connect: bool,
        code: Reason,
        moment: u64,
    ) -> Result<Outcome, EngineError>
        requires running { self.old.stopped ≡ false }
        requires linked { session_on line self.old.broker ≡ Some session }
        ensures { Called K.Keep moment (BadInput line is_connect code.0) self.old result self.new }
    {
        self.parts.renew()?;
        let (alloc, index, step) = (
            self.parts.alloc,
            &mut self.parts.index,
            &mut self.parts.step,
        );
        let done = fault_at(alloc, index, step, line, session, is_connect, code, moment);
        self.parts.finish(done, false)
    }

    /// The bytes of a line begin with a fault, which has a code; `is_connect` says whether they begin with the type of
    /// CONNECT: the line closes, with CONNACK, DISCONNECT or nothing before (4.13). Refusals are those of `input`.
    pub fn bad_input(
        &mut self,
        line: u64,
        is_connect: bool,
        code: Reason,
        moment: u64,
    ) -> Result<Outcome, EngineError>
        ensures { Called K.Keep moment (BadInput line is_connect code.0) self.old result self.new }
    {
        match self.session_on(line)? {
            Some(session) => self.bad_input_on(line, session, is_connect, code, moment),
            None => self.skip(line, moment),
        }
    }

    /// A line that is linked is lost.
    fn lose(&mut self, line: u64, moment: u64) -> Result<Outcome, EngineError>
        requires running { self.old.stopped ≡ false }
        ensures { Called K.Keep moment (Lost line) self.old result self.new }
    {
        self.parts.renew()?;
        let (alloc, index, step) = (
            self.parts.alloc,
            &mut self.parts.index,
            &mut self.parts.step,
        );
        let done = lost_at(alloc, index, step, line, moment);
        self.parts.finish(done, false)
    }

    /// A line is lost: it closes, and its session with it (4.1). Refusals are those of `input`.
    pub fn lost(&mut self, line: u64, moment: u64) -> Result<Outcome, EngineError>
        ensures { Called K.Keep moment (Lost line) self.old result self.new }
    {
        match self.session_on(line)? {
            Some(_) => self.lose(line, moment),
            None => self.skip(line, moment),
        }
    }

    /// A turn of sending: what waits for the session of a line goes out, up to 16 PUBLISH (4.6, 4.9); `again` says whether
    /// more may be there. The store is asked for contents at most 16 times. Refusals are those of `input`.
    pub fn send_waiting(&mut self, line: u64, moment: u64) -> Result<Outcome, EngineError>
        ensures called { Called K.Keep moment (Pump line) self.old result self.new }
        ensures reads { AskedAtMost PUMP_LIMIT (K.read_so_far self.old.keep) (K.read_so_far self.new.keep) }
    {
        match self.session_on(line)? {
            Some(Some(birth)) => self.parts.fetch_and_send(line, birth, moment),
            Some(None) | None => Ok(self.pump_nothing(line, moment)),
        }
    }

    /// A turn of the clock: the first of what is due is done, and nothing else (3.1.2.10, 3.1.2.11.2, 3.1.3.2.2,
    /// 3.3.2.3.3); `again` says whether one was. Refusals are those of `input`.
    pub fn tick(&mut self, moment: u64) -> Result<Outcome, EngineError>
        ensures { Called K.Keep moment Tick self.old result self.new }
    {
        self.runs()?;
        self.parts.renew()?;
        let mut again = false;
        let (alloc, index, step) = (
            self.parts.alloc,
            &mut self.parts.index,
            &mut self.parts.step,
        );
        let done = tick_once(alloc, index, step, moment, self.parts.quiet, &mut again);
        let answer = self.parts.finish(done, again);
        self.parts.quiet = later_quiet(&self.parts.step, self.parts.quiet, again);
        answer
    }
}
