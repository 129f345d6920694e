//! Deeds of handshakes: identifiers of a publisher open and close, copies enter a queue and come further
//! (MQTT 5.0, 4.3, 4.6).
ghost use Rattle.std.specs.Prelude.{◌≡◌, suc, OnOk, IfErr, IfOk};
ghost use Rattle.mqtt_records.specs.declared.state.change.Change.TheVariants as change;
ghost use Rattle.mqtt_rules.specs.step.Deeds.{Open, Release, Mark};
ghost use Rattle.mqtt_rules.specs.step.Laws.{HasTables};
ghost use Rattle.mqtt_broker_step.specs.Backs.{TakesBack};
ghost use Rattle.mqtt_broker_step.specs.Stepping.{Did, IsLeft, to_session};

use crate::fault::StepFault;
use crate::step::Step;
use mqtt_base::Phase;
use mqtt_records::{Change, Session};
use mqtt_rules::Report;

/// What is so of every session: its lists are in order and within their limits. Shows it to the prover.
pub(crate) fn has_tables(session: &Session)
    ensures { HasTables session.now }
{
    session.inbound.as_slice();
    session.subscriptions.as_slice();
    session.queue.as_slice();
}

/// What takes back that an identifier is opened, or that it is closed: it is open again if it was.
fn identifier_back(session: &Session, identifier: u16) -> Change
    ensures opened { TakesBack (change.PutInbound session.now.birth identifier) result session.now }
    ensures closed { TakesBack (change.RemoveInbound session.now.birth identifier) result session.now }
{
    has_tables(session);
    let birth = session.birth;
    if session.inbound.has(u64::from(identifier)) {
        Change::PutInbound { birth, identifier }
    } else {
        Change::RemoveInbound { birth, identifier }
    }
}

/// What takes back that a copy comes into a phase.
fn marked_back(session: &Session, place: u64, phase: Phase) -> Change
    ensures { TakesBack (change.SetCopy session.now.birth place phase) result session.now }
{
    let birth = session.birth;
    let Some(row) = session.queue.get(place) else {
        return Change::SetCopy {
            birth,
            place,
            phase,
        };
    };
    Change::SetCopy {
        birth,
        place,
        phase: row.get().phase(),
    }
}

impl Step {
    /// An identifier of a QoS 2 publication from the client is opened (4.3.3).
    pub fn open(&mut self, birth: u64, identifier: u16) -> Result<(), StepFault>
        ensures ok { OnOk result (Did (to_session birth (Open identifier)) self.old self.new) }
        ensures left { IfErr result (λ fault.
            IsLeft (to_session birth (Open identifier)) fault self.old self.new) }
    {
        let Some(session) = self.session(birth) else {
            return Ok(());
        };
        let birth = session.birth;
        let undo = identifier_back(session, identifier);
        self.make(Change::PutInbound { birth, identifier }, undo)
    }

    /// And closed (4.3.3).
    pub fn release(&mut self, birth: u64, identifier: u16) -> Result<(), StepFault>
        ensures ok { OnOk result (Did (to_session birth (Release identifier)) self.old self.new) }
        ensures left { IfErr result (λ fault.
            IsLeft (to_session birth (Release identifier)) fault self.old self.new) }
    {
        let Some(session) = self.session(birth) else {
            return Ok(());
        };
        let birth = session.birth;
        let client = session.client.clone()?;
        let undo = identifier_back(session, identifier);
        let report = Report::Released {
            birth,
            client,
            identifier,
        };
        self.make_told(Change::RemoveInbound { birth, identifier }, undo, report)
    }

    /// A copy comes into a phase (4.3).
    pub fn mark(&mut self, birth: u64, place: u64, phase: Phase) -> Result<(), StepFault>
        ensures ok { OnOk result (Did (to_session birth (Mark place phase)) self.old self.new) }
        ensures left { IfErr result (λ fault.
            IsLeft (to_session birth (Mark place phase)) fault self.old self.new) }
    {
        let Some(session) = self.session(birth) else {
            return Ok(());
        };
        let birth = session.birth;
        let undo = marked_back(session, place, phase);
        let row = Change::SetCopy {
            birth,
            place,
            phase,
        };
        self.make(row, undo)
    }
}
