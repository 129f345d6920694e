//! A session is resumed by a CONNECT, with its Session Expiry Interval and its Will (MQTT 5.0, 3.1.2.4, 3.1.2.5).
ghost use Rattle.std.specs.Prelude.{◌≡◌, Option, Some, None, IfOk, IfErr, OnOk};
ghost use Rattle.mqtt_records.specs.declared.messages.message.Will.{Will as TheWill};
ghost use Rattle.mqtt_records.specs.declared.state.session.Session.{Session as TheSession};
ghost use Rattle.mqtt_records.specs.declared.state.change.Change.TheVariants.{SetSession};
ghost use Rattle.mqtt_records.specs.state.Records.{changed};
ghost use Rattle.mqtt_records.specs.state.Session.{columns_of};
ghost use Rattle.mqtt_rules.specs.step.State.{session_at};
ghost use Rattle.mqtt_rules.specs.step.Deeds.{will_row, Resume};
ghost use Rattle.mqtt_broker_step.specs.Stepping.{Did, IsLeft, IsKept, IsLeftRow, written, to_session};

use crate::fault::StepFault;
use crate::sessions::{columns, columns_back, will_back};
use crate::step::Step;
use mqtt_records::{Change, Will};
use std::alloc::AllocError;

/// The row of a Will, or of none.
fn will_row(birth: u64, will: Option<Will>) -> Change
    ensures { result ≡ will_row birth will }
{
    match will {
        Some(will) => Change::PutWill { birth, will },
        None => Change::RemoveWill { birth },
    }
}

impl Step {
    /// What takes back that a session has another Will, or none.
    fn will_undo(&self, birth: u64) -> Result<Change, AllocError>
        ensures { IfOk result (λ undo. (will : Option TheWill) → changed undo
            (changed (will_row birth will) self.now.broker.records) ≡ self.now.broker.records) }
    {
        match self.session(birth) {
            Some(session) => will_back(session),
            None => Ok(Change::RemoveWill { birth }),
        }
    }

    /// A session has this Will, or none.
    pub(crate) fn put_will(&mut self, birth: u64, will: Option<Will>) -> Result<(), StepFault>
        ensures ok { OnOk result (self.new ≡ written (will_row birth will) self.old) }
        ensures left { IfErr result (λ fault. IsKept fault self.old self.new) }
    {
        let undo = match self.will_undo(birth) {
            Ok(undo) => undo,
            Err(_) => {
                drop(will);
                return Err(StepFault::Memory);
            }
        };
        self.make(will_row(birth, will), undo)
    }

    /// A session's own row is set, if it stands: it is connected, with this expiry.
    fn connect_row(&mut self, birth: u64, expiry: u32) -> Result<(), StepFault>
        ensures ok { (s : TheSession) → session_at birth self.old.broker.records ≡ Some s
            → OnOk result (self.new ≡ written (SetSession
            (record (columns_of s) { expiry = expiry; closed = None })) self.old) }
        ensures left { (s : TheSession) → session_at birth self.old.broker.records ≡ Some s
            → IfErr result (λ fault. IsLeftRow (SetSession
            (record (columns_of s) { expiry = expiry; closed = None })) fault self.old self.new) }
    {
        let Some(session) = self.session(birth) else {
            return Ok(());
        };
        let undo = columns_back(session)?;
        let row = match columns(session, expiry, None) {
            Ok(row) => row,
            Err(_) => {
                drop(undo);
                return Err(StepFault::Memory);
            }
        };
        self.make(Change::SetSession { row }, undo)
    }

    /// A session that stands is resumed, with a Session Expiry Interval in seconds and a Will, or none (3.1.2.4).
    pub fn resume(&mut self, birth: u64, expiry: u32, will: Option<Will>) -> Result<(), StepFault>
        ensures ok { OnOk result (Did (to_session birth (Resume expiry will)) self.old self.new) }
        ensures left { IfErr result (λ fault.
            IsLeft (to_session birth (Resume expiry will)) fault self.old self.new) }
    {
        let Some(_) = self.session(birth) else {
            drop(will);
            return Ok(());
        };
        match self.connect_row(birth, expiry) {
            Ok(()) => self.put_will(birth, will),
            Err(fault) => {
                drop(will);
                Err(fault)
            }
        }
    }
}
