//! Deeds of sessions: one closes, another expiry is set, a Will is dropped, one ends (MQTT 5.0, 3.1.2.5, 3.1.2.11.2, 4.1).
ghost use Rattle.std.specs.Prelude.{◌≡◌, ◌∷◌, [], Option, Some, IfOk, IfErr, OnOk, OnErr};
ghost use Rattle.mqtt_records.specs.state.Session.{columns_of};
ghost use Rattle.mqtt_records.specs.declared.state.session.Columns.{Columns as TheColumns};
ghost use Rattle.mqtt_records.specs.declared.state.change.Change.TheVariants as change;
ghost use Rattle.mqtt_records.specs.declared.messages.message.Will.{Will as TheWill};
ghost use Rattle.mqtt_rules.specs.step.Deeds.{will_row, Whose, Close, SetExpiry, DropWill, Finish, always};
ghost use Rattle.mqtt_broker_step.specs.Backs.{TakesBack};
ghost use Rattle.mqtt_broker_step.specs.Stepping.{Did, IsLeft, written, to_session};

use crate::fault::StepFault;
use crate::step::Step;
use mqtt_records::{Change, Columns, Session};
use std::alloc::AllocError;

/// What a session's own row says, with the moment of its close and its expiry as told.
pub(crate) fn columns(
    session: &Session,
    expiry: u32,
    closed: Option<u64>,
) -> Result<Columns, AllocError>
    ensures { IfOk result (λ row. row
        ≡ record (columns_of session.now) { expiry = expiry; closed = closed }) }
{
    Ok(Columns {
        birth: session.birth,
        client: session.client.clone()?,
        expiry,
        closed,
    })
}

/// What takes back that a session's own row is set.
pub(crate) fn columns_back(session: &Session) -> Result<Change, AllocError>
    ensures { IfOk result (λ undo. (row : TheColumns) → row.birth ≡ session.now.birth
        → TakesBack (change.SetSession row) undo session.now) }
{
    let row = columns(session, session.expiry, session.closed)?;
    Ok(Change::SetSession { row })
}

/// What takes back that a session has another Will, or none.
pub(crate) fn will_back(session: &Session) -> Result<Change, AllocError>
    ensures { IfOk result (λ undo. (will : Option TheWill) →
        TakesBack (will_row session.now.birth will) undo session.now) }
{
    let birth = session.birth;
    match &session.will {
        Some(will) => Ok(Change::PutWill {
            birth,
            will: will.clone()?,
        }),
        None => Ok(Change::RemoveWill { birth }),
    }
}

impl Step {
    /// A session's connection closes at a moment (4.1).
    pub fn close(&mut self, birth: u64, moment: u64) -> Result<(), StepFault>
        ensures ok { OnOk result (Did (to_session birth (Close moment)) self.old self.new) }
        ensures left { IfErr result (λ fault.
            IsLeft (to_session birth (Close moment)) fault self.old self.new) }
    {
        let Some(session) = self.session(birth) else {
            return Ok(());
        };
        let undo = columns_back(session)?;
        let row = match columns(session, session.expiry, Some(moment)) {
            Ok(row) => row,
            Err(_) => {
                drop(undo);
                return Err(StepFault::Memory);
            }
        };
        self.make(Change::SetSession { row }, undo)
    }

    /// A session's Session Expiry Interval, in seconds, is set (3.1.2.11.2).
    pub fn set_expiry(&mut self, birth: u64, expiry: u32) -> Result<(), StepFault>
        ensures ok { OnOk result (Did (to_session birth (SetExpiry expiry)) self.old self.new) }
        ensures left { IfErr result (λ fault.
            IsLeft (to_session birth (SetExpiry expiry)) fault self.old self.new) }
    {
        let Some(session) = self.session(birth) else {
            return Ok(());
        };
        let undo = columns_back(session)?;
        let row = match columns(session, expiry, session.closed) {
            Ok(row) => row,
            Err(_) => {
                drop(undo);
                return Err(StepFault::Memory);
            }
        };
        self.make(Change::SetSession { row }, undo)
    }

    /// A session has no Will from here on (3.1.2.5).
    pub fn drop_will(&mut self, birth: u64) -> Result<(), StepFault>
        ensures ok { OnOk result (Did (to_session birth DropWill) self.old self.new) }
        ensures left { IfErr result (λ fault.
            IsLeft (to_session birth DropWill) fault self.old self.new) }
    {
        let Some(session) = self.session(birth) else {
            return Ok(());
        };
        let birth = session.birth;
        let undo = will_back(session)?;
        self.make(Change::RemoveWill { birth }, undo)
    }

    /// A session ends, with all that it has (4.1).
    pub fn finish(&mut self, birth: u64) -> Result<(), StepFault>
        ensures ok { (who : Whose) → who.birth ≡ birth
            → OnOk result (Did (always (Finish who ∷ [])) self.old self.new) }
        ensures left { (who : Whose) → IfErr result (λ fault.
            IsLeft (always (Finish who ∷ [])) fault self.old self.new) }
    {
        self.rows.reserve(1)?;
        self.tables.take_session(birth)?;
        self.rows.push(Change::RemoveSession { birth }).unwrap();
        Ok(())
    }
}
